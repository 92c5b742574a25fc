// The report, line by line, from the tables.
ghost use Rattle.std.specs.Prelude.{◌≡◌, ◌+◌, ◌*◌, ◌<◌, ◌≤◌, get_or, take};
ghost use Rattle.words.specs.Words.{Filled};
ghost use Rattle.words.specs.Slices.{HasWords};
ghost use Rattle.hours.specs.Hours.{longest};
ghost use Rattle.hours.specs.Tally.{above_all, UpTo, line_row, driver_rows, rows_from, line_size, driver_size};

use super::minutes::minutes;
use super::tally::Tally;
use words::put;

// The words of a line.
pub const LINE: usize = 5;

// Of the four lines of a driver.
pub const DRIVER: usize = 4 * LINE;

// A line becomes the words of the report from word p on.
fn write_line(report: &mut [u8], p: usize, first: u64, d: u64, a: u64, ms: u64)
    requires { HasWords report.old p line_size }
    ensures { Filled report.old report.new p (line_row first d a ms) }
{
    put(report, p, first);
    put(report, p + 1, d);
    put(report, p + 2, a);
    put(report, p + 3, ms);
    put(report, p + 4, minutes(ms));
}

// The four lines of driver i.
fn write_driver(report: &mut [u8], i: usize, tally: &Tally, len: u64)
    requires i_lt_n { (i < tally.now.n) × HasWords report.old (driver_size * i) driver_size }
    requires few { UpTo above_all tally.now.counts × (len ≤ longest) }
    ensures { Filled report.old report.new (driver_size * i) (driver_rows len (get_or tally.now.drivers i 0) tally.now.counts i) }
{
    let d = tally.drivers[i];
    let k = 1 + 4 * i;
    for a in 0..4 {
        write_line(
            report,
            DRIVER * i + LINE * a,
            1,
            d,
            a as u64,
            tally.spent(k + a, len),
        );
    }
}

// The whole report.
pub fn write_report(report: &mut [u8], tally: &Tally, len: u64)
    requires has_words { HasWords report.old 0 (driver_size * tally.now.n + line_size) }
    requires few { UpTo above_all tally.now.counts × (len ≤ longest) }
    ensures { Filled report.old report.new 0 (rows_from len tally.now.counts 0 (take tally.now.n tally.now.drivers)) }
{
    for i in 0..tally.n {
        write_driver(report, i, tally, len);
    }
    write_line(report, DRIVER * tally.n, 0, 0, 0, tally.spent(0, len));
}
