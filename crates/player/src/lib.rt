// The player as C functions, for a host program in Rust or C.
#![tactic(auto)]

ghost use Rattle.std.specs.Prelude.{◌≡◌};
ghost use Rattle.std.proofs.Math.Option.{none};
ghost use Rattle.model.specs.Questions.{refusal};
ghost use Rattle.run.specs.Call.{RightCall};
ghost use Rattle.class.specs.Call.{Right as RightClass, call_of, left_of};
ghost use Rattle.hours.specs.Call.{Right as RightHours, call_of as hours_call, left_of as hours_left};
ghost use Rattle.size.specs.Call.{Right as RightSize};
ghost use Rattle.player.specs.Numbers.{TellsHost};

use circuit::check;
use circuit::refusals::refused;
use telling::{number_of, numbered, tell_end};

// The number of the first question whose answer is no, for a call that is lent no areas; 0 where all are yes.
#[unsafe(no_mangle)]
pub extern "C" fn hazhirun_check(circuit: &[u8], script: &[u8]) -> u64
    ensures { result ≡ refusal none circuit.now script.now }
{
    refused(check(circuit, script))
}

// Asks the questions, and where none of them refuses the call plays the script over the circuit. The number of the answer; the words of `told` become the ticks
// done and the bytes of the log that hold records.
#[unsafe(no_mangle)]
pub extern "C" fn hazhirun_run(
    circuit: &[u8],
    script: &[u8],
    log: &mut [u8],
    values: &mut [u8],
    units: &mut [u8],
    delays: &mut [u8],
    told: &mut [u64],
) -> u64
    ensures { RightCall circuit.now script.now (log.old, log.new) (values.old, values.new) (units.old, units.new) (delays.old, delays.new) (λ a. TellsHost a result told.old told.new) }
{
    let answer = numbered(run::run(circuit, script, log, values, units, delays));
    tell_end(told, 0, answer);
    number_of(answer)
}

// Asks the questions about the circuit, and 15 of the book; where none of them refuses the call each script of the book is asked about and played over the circuit,
// as it would be alone, with its part as the log. The number of the whole call; the words of `told` become three for each script: its number, the ticks done, and
// the bytes of its part that hold records.
#[unsafe(no_mangle)]
pub extern "C" fn hazhirun_class(
    circuit: &[u8],
    book: &[u8],
    log: &mut [u8],
    values: &mut [u8],
    units: &mut [u8],
    delays: &mut [u8],
    told: &mut [u64],
) -> u64
    ensures { RightClass (call_of circuit.now book.now log.old values.old units.old delays.old told.old) (left_of log.new values.new units.new delays.new told.new) result }
{
    refused(class::class(circuit, book, log, values, units, delays, told))
}

// Asks the questions about the circuit, and 16, 17 and 18 of a finished log, of the outputs for driver and activity, the length of a tick in milliseconds, and the room;
// where none of them refuses the call the report of the hours per driver is written. The number of the answer; the first word of `told` becomes the bytes of the report.
#[unsafe(no_mangle)]
pub extern "C" fn hazhirun_hours(
    circuit: &[u8],
    log: &[u8],
    driver: u64,
    activity: u64,
    len: u64,
    report: &mut [u8],
    told: &mut [u64],
) -> u64
    ensures { RightHours (hours_call circuit.now log.now driver activity len report.old told.old) (hours_left report.new told.new) result }
{
    refused(hours::hours(circuit, log, driver, activity, len, report, told))
}

// Asks the questions about the circuit, 23 of its calls and its gates, and 24 of the ticks. The number of the answer; where none of them refuses the call the words of
// `told` become the most steps that any one unit can cause, and the most bytes of a log of so many ticks.
#[unsafe(no_mangle)]
pub extern "C" fn hazhirun_size(circuit: &[u8], ticks: u64, told: &mut [u64]) -> u64
    ensures { RightSize circuit.now ticks told.old told.new result }
{
    refused(size::size(circuit, ticks, told))
}
