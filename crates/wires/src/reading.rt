// What outputs show, and what stands at inputs.
ghost use Rattle.std.specs.Prelude.{◌≡◌};
ghost use Rattle.model.specs.Wires.{shown, show, look};
ghost use Rattle.links.specs.Lent.{net_of, Room};
ghost use Rattle.wires.specs.Lent.{wires_in, Turns};

use crate::held::{tag_of, value_held};
use crate::layout::{OUT_CONTENTS, OUT_TAGS};
use links::Links;
use model::Value;
use value::content_of;
use words::{get, put};

// What output o shows.
pub fn shown(links: &Links, values: &[u8], o: usize) -> Value
    requires { Room values.now }
    ensures { result ≡ shown (wires_in links.now values.now) o }
{
    if o < links.outputs() {
        let tag = get(values, OUT_TAGS + o);
        let content = get(values, OUT_CONTENTS + o);
        value_held(tag, content)
    } else {
        Value::Nothing
    }
}

// Output o shows v, and its readers are not told.
pub fn show(links: &Links, values: &mut [u8], o: usize, v: Value)
    requires { Room values.old }
    ensures { Turns links.now (values.old, values.new) (λ _ w. show w o v) }
{
    if o < links.outputs() {
        put(values, OUT_TAGS + o, tag_of(v));
        put(values, OUT_CONTENTS + o, content_of(v));
    }
}

// What stands at input i: what its source shows, or else the value stored in it.
pub fn look(links: &Links, values: &[u8], i: usize) -> Value
    requires { Room values.now }
    ensures { result ≡ look (net_of links.now) (wires_in links.now values.now) i }
{
    match links.source(i) {
        Some(o) => shown(links, values, o),
        None => links.stored_in(i),
    }
}
