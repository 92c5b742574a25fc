// Hours per driver: a report on a finished log (specs/Hours.antt).
#![tactic(auto)]

ghost use Rattle.std.specs.Prelude.{◌≡◌, ◌≤◌, length};
ghost use Rattle.links.specs.Lent.{net_of};
ghost use Rattle.walk.specs.Walk.{WholeLog};
ghost use Rattle.circuit.specs.Numbers.{refused};
ghost use Rattle.hours.specs.Hours.{longest, good_names, reported};
ghost use Rattle.hours.specs.Tally.{Named, shares_of};
ghost use Rattle.hours.specs.Call.{Written, Right, call_of, left_of};

use circuit::inputs::value_output;
use circuit::refusals::Refusal;
use counting::{Names, count_all};
use links::Links;
use whole::log_refusal;
use words::told::put_at;
use writing::{DRIVER, LINE, write_report};

mod counting;
mod minutes;
mod tally;
mod writing;

// The milliseconds of a tick at the most.
const LONGEST: u64 = 60000;

// Whether driver and activity are value outputs, and the length is 1 to 60,000 milliseconds.
fn good_names(links: &Links, driver: u64, activity: u64, len: u64) -> bool
    ensures { result ≡ good_names (net_of links.now) driver activity len }
{
    if !value_output(links, driver as usize) {
        return false;
    }
    if !value_output(links, activity as usize) {
        return false;
    }
    if len < 1 {
        return false;
    }
    len <= LONGEST
}

// The report of a whole log, where there is room for it: how many bytes it has; else nothing is written.
fn write_hours(
    log: &[u8],
    outs: usize,
    driver: usize,
    activity: usize,
    len: u64,
    report: &mut [u8],
) -> Option<usize>
    requires { Named outs driver activity × WholeLog outs log.now × (len ≤ longest) }
    ensures { Written (reported len (length report.old) (shares_of outs driver activity log.now)) report.old report.new result }
{
    let names = Names {
        outs,
        driver,
        activity,
    };
    let Some(tally) = count_all(log, names) else {
        return None;
    };
    let size = 8 * (DRIVER * tally.n + LINE);
    if report.len() < size {
        return None;
    }
    write_report(report, &tally, len);
    Some(size)
}

// The whole call: what it is refused with; or the report is written, and the first word of `told` becomes the number of its bytes.
pub fn hours(
    circuit: &[u8],
    log: &[u8],
    driver: u64,
    activity: u64,
    len: u64,
    report: &mut [u8],
    told: &mut [u64],
) -> Result<(), Refusal>
    ensures { Right (call_of circuit.now log.now driver activity len report.old told.old) (left_of report.new told.new) (refused result) }
{
    let mut links = Links::new();
    log_refusal(circuit, log, &mut links)?;
    if !good_names(&links, driver, activity, len) {
        return Err(Refusal::WrongNames);
    }
    let outs = links.outputs();
    let written = write_hours(log, outs, driver as usize, activity as usize, len, report);
    let size = written.ok_or(Refusal::NoRoom)?;
    put_at(told, 0, size as u64);
    Ok(())
}
