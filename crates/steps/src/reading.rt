// Reading several inputs of a gate.
ghost use Rattle.std.specs.Prelude.{◌≡◌, map, ◌+◌, ◌^◌, ◌<◌};
ghost use Rattle.model.specs.Base.{each, from};
ghost use Rattle.model.specs.Wires.{look, ready};
ghost use Rattle.links.specs.Lent.{net_of, Room};
ghost use Rattle.wires.specs.Lent.{wires_in, Turns};

use links::Links;
use model::Value;
use wires::reading::look;
use wires::refreshing::ready;

// n inputs from i on are made ready to be read, in their order.
pub fn readied(links: &Links, values: &mut [u8], i: usize, n: usize)
    requires { Room values.old × (i + n < 2 ^ 64) }
    ensures { Turns links.now (values.old, values.new) (λ c w. each (ready c) w (from i n)) }
{
    for k in 0..n {
        ready(links, values, i + k);
    }
}

// What the eight inputs from i on read.
pub fn look_row(links: &Links, values: &[u8], i: usize) -> [Value; 8]
    requires { Room values.now × (i + 8 < 2 ^ 64) }
    ensures { result ≡ map (look (net_of links.now) (wires_in links.now values.now)) (from i 8) }
{
    [
        look(links, values, i),
        look(links, values, i + 1),
        look(links, values, i + 2),
        look(links, values, i + 3),
        look(links, values, i + 4),
        look(links, values, i + 5),
        look(links, values, i + 6),
        look(links, values, i + 7),
    ]
}
