// The 31 kinds of gates: how many inputs and outputs each has, and what each of them is. A number that is no kind's has none.
#![tactic(auto)]

ghost use Rattle.std.specs.Prelude.{◌≡◌, length, get_or};
ghost use Rattle.model.specs.Kinds.{kind_at, pure, value, fires};
ghost use Rattle.model.specs.Questions.{within};
ghost use Rattle.kinds.specs.Pins.{in_of, out_of};

use crate::numbers::*;

pub mod numbers;

// What an input is. The last six are settings, named for what their constants have to be.
#[derive(Clone, Copy, PartialEq, Eq, Debug)]
pub enum Pin {
    Exec,
    ExecOnly,
    Value,
    Watched,
    Route,
    Anything,
    Ticks,
    Seconds,
    Variable,
    Channel,
    Loop,
}

// What an output is.
#[derive(Clone, Copy, PartialEq, Eq, Debug)]
pub enum Out {
    Fires,
    Shows,
    Passes,
}

// How many inputs a gate of this kind has.
pub fn inputs(kind: u64) -> usize
    ensures { result ≡ length (kind_at kind).ins }
{
    match kind {
        REROUTE
        | VAR..=EDGE_EXEC
        | UNION..=TOGGLE
        | EVENT_CUSTOM..=EVENT_CUSTOM_GLOBAL
        | LOOP_ENTRY..=BREAK => 1,
        VAR_GET | BRANCH => 2,
        SELECT | BUFFER_TICKS..=CLOCK | VAR_SET | CYCLE => 3,
        STOPWATCH | LOOP => 4,
        QUEUE_IN_TICKS..=QUEUE_IN_SECONDS | SEND_EVENT..=SEND_EVENT_GLOBAL => 10,
        _ => 0,
    }
}

// How many outputs a gate of this kind has.
pub fn outputs(kind: u64) -> usize
    ensures { result ≡ length (kind_at kind).outs }
{
    match kind {
        SELECT..=CHANGE_DETECTOR
        | CHANGE
        | BUFFER_TICKS..=CLOCK
        | VAR_SET
        | UNION
        | SEND_EVENT..=SEND_EVENT_GLOBAL
        | BREAK => 1,
        EDGE | EDGE_EXEC | STOPWATCH | VAR_GET | BRANCH | TOGGLE | WORLD_EVENT | LOOP_ENTRY => 2,
        CYCLE => 3,
        LOOP => 4,
        QUEUE_IN_TICKS..=QUEUE_IN_SECONDS | EVENT_CUSTOM..=EVENT_CUSTOM_GLOBAL => 9,
        _ => 0,
    }
}

// What input p of a gate of this kind is; a value where the gate has no input p.
pub fn pin_at(kind: u64, p: usize) -> Pin
    ensures { in_of result ≡ get_or (kind_at kind).ins p value }
{
    match p {
        0 => first_input(kind),
        1 => second_input(kind),
        2 => third_input(kind),
        _ => Pin::Value,
    }
}

// What output p of a gate of this kind is; it fires where the gate has no output p.
pub fn out_at(kind: u64, p: usize) -> Out
    ensures { out_of result ≡ get_or (kind_at kind).outs p fires }
{
    match p {
        0 => first_output(kind),
        1 => second_output(kind),
        2 => third_output(kind),
        3 => fourth_output(kind),
        4..=8 => later_output(kind),
        _ => Out::Fires,
    }
}

// Whether a gate of this kind is pure: Select, Reroute, DeltaTime, ServerUptime.
#[tactic(auto, unfolding(model::specs::Kinds::pure))]
pub fn is_pure(kind: u64) -> bool
    ensures { result ≡ pure kind }
{
    matches!(kind, SELECT..=SERVER_UPTIME)
}

// Whether a gate of this kind is a Queue, in ticks or in seconds.
#[tactic(auto, unfolding(model::specs::Questions::within))]
pub fn is_queue(kind: u64) -> bool
    ensures { result ≡ within 16 17 kind }
{
    matches!(kind, QUEUE_IN_TICKS..=QUEUE_IN_SECONDS)
}

// What input 0 is.
fn first_input(kind: u64) -> Pin
    ensures { in_of result ≡ get_or (kind_at kind).ins 0 value }
{
    match kind {
        REROUTE => Pin::Route,
        VAR => Pin::Anything,
        CHANGE_DETECTOR..=BUFFER_TICKS | BUFFER_SECONDS => Pin::Watched,
        BUFFER_TICKS_EXEC | BUFFER_SECONDS_EXEC => Pin::ExecOnly,
        STOPWATCH..=SEND_EVENT_GLOBAL | LOOP | BREAK => Pin::Exec,
        EVENT_CUSTOM..=EVENT_CUSTOM_GLOBAL => Pin::Channel,
        LOOP_ENTRY => Pin::Loop,
        _ => Pin::Value,
    }
}

// What input 1 is.
fn second_input(kind: u64) -> Pin
    ensures { in_of result ≡ get_or (kind_at kind).ins 1 value }
{
    match kind {
        BUFFER_TICKS..=BUFFER_TICKS_EXEC => Pin::Ticks,
        BUFFER_SECONDS..=BUFFER_SECONDS_EXEC => Pin::Seconds,
        STOPWATCH | CYCLE => Pin::Exec,
        VAR_GET..=VAR_SET => Pin::Variable,
        SEND_EVENT..=SEND_EVENT_GLOBAL => Pin::Channel,
        _ => Pin::Value,
    }
}

// What input 2 is.
fn third_input(kind: u64) -> Pin
    ensures { in_of result ≡ get_or (kind_at kind).ins 2 value }
{
    match kind {
        BUFFER_TICKS..=BUFFER_TICKS_EXEC => Pin::Ticks,
        BUFFER_SECONDS..=CLOCK => Pin::Seconds,
        STOPWATCH => Pin::Exec,
        _ => Pin::Value,
    }
}

// What output 0 is.
fn first_output(kind: u64) -> Out
    ensures { out_of result ≡ get_or (kind_at kind).outs 0 fires }
{
    match kind {
        SELECT | DELTA_TIME..=VAR | EDGE..=CHANGE | BUFFER_TICKS | BUFFER_SECONDS | STOPWATCH =>
            Out::Shows,
        REROUTE => Out::Passes,
        _ => Out::Fires,
    }
}

// What output 1 is.
fn second_output(kind: u64) -> Out
    ensures { out_of result ≡ get_or (kind_at kind).outs 1 fires }
{
    match kind {
        EDGE | QUEUE_IN_TICKS..=VAR_GET | TOGGLE | EVENT_CUSTOM..=LOOP_ENTRY => Out::Shows,
        _ => Out::Fires,
    }
}

// What output 2 is.
fn third_output(kind: u64) -> Out
    ensures { out_of result ≡ get_or (kind_at kind).outs 2 fires }
{
    match kind {
        QUEUE_IN_TICKS..=QUEUE_IN_SECONDS | CYCLE | EVENT_CUSTOM..=EVENT_CUSTOM_GLOBAL | LOOP =>
            Out::Shows,
        _ => Out::Fires,
    }
}

// What output 3 is.
fn fourth_output(kind: u64) -> Out
    ensures { out_of result ≡ get_or (kind_at kind).outs 3 fires }
{
    match kind {
        QUEUE_IN_TICKS..=QUEUE_IN_SECONDS | EVENT_CUSTOM..=EVENT_CUSTOM_GLOBAL | LOOP => Out::Shows,
        _ => Out::Fires,
    }
}

// What outputs 4 to 8 are.
fn later_output(kind: u64) -> Out
    ensures { out_of result ≡ get_or (kind_at kind).outs 4 fires }
{
    match kind {
        QUEUE_IN_TICKS..=QUEUE_IN_SECONDS | EVENT_CUSTOM..=EVENT_CUSTOM_GLOBAL => Out::Shows,
        _ => Out::Fires,
    }
}
