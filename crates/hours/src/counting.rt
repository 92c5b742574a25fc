// The ticks of each driver, counted in one pass over the log.
ghost use Rattle.words.specs.Words.{words};
ghost use Rattle.std.specs.Prelude.{◌≡◌, [], ◌∷◌, ◌+◌, ◌*◌, drop};
ghost use Rattle.words.specs.Slices.{HasWords};
ghost use Rattle.model.specs.Record.{record_at};
ghost use Rattle.walk.specs.Walk.{Fits, WholeLog};
ghost use Rattle.hours.specs.Hours.{shares};
ghost use Rattle.hours.specs.Tally.{above_all, UpTo, Named, shares_of, share_there, is_assigned};
ghost use Rattle.hours.specs.Counted.{Counted, CountedAll};

use crate::tally::Tally;
use walk::{record_size, shown_at, unstopped};
use words::get;

// The kind of an Int.
const INT: u64 = 1;

// The activities are 0 to 3.
const LAST_ACTIVITY: u64 = 3;

// Which outputs of so many show the driver and the activity.
#[derive(Clone, Copy)]
pub struct Names {
    pub outs: usize,
    pub driver: usize,
    pub activity: usize,
    pub ghost named: { Named outs driver activity },
}

impl Names {
    // Whether both show an Int, the activity one of 0 to 3. The kinds of the outputs stand from word k on, and their contents behind them.
    fn is_assigned(self, log: &[u8], k: usize) -> bool
        requires { HasWords log.now k (self.outs + self.outs) }
        ensures { result ≡ is_assigned (share_there log.now self.outs k self.driver self.activity) }
    {
        if get(log, k + self.driver) != INT {
            return false;
        }
        if get(log, k + self.activity) != INT {
            return false;
        }
        get(log, k + self.outs + self.activity) <= LAST_ACTIVITY
    }
}

// A tick whose outputs stand from word k on; none where its driver is one too many.
fn count_tick(log: &[u8], k: usize, names: Names, tally: &mut Tally) -> Option<()>
    requires { HasWords log.now k (names.outs + names.outs) × UpTo above_all tally.old.counts }
    ensures { Counted (share_there log.now names.outs k names.driver names.activity ∷ []) tally.old tally.new result }
{
    if names.is_assigned(log, k) {
        let d = get(log, k + names.outs + names.driver);
        let a = get(log, k + names.outs + names.activity) as usize;
        return tally.assign(d, a);
    }
    tally.skip();
    Some(())
}

// The record at word `at`; a stopped one is no tick.
fn count_record(log: &[u8], at: usize, names: Names, tally: &mut Tally) -> Option<()>
    requires { Fits names.outs log.now at × UpTo above_all tally.old.counts }
    ensures { Counted (shares names.driver names.activity (record_at names.outs (drop at (words log.now)) ∷ [])) tally.old tally.new result }
{
    if unstopped(log, at) {
        return count_tick(log, shown_at(log, at), names, tally);
    }
    Some(())
}

// All records of a whole log, tick by tick; none as soon as there is one driver too many.
pub fn count_all(log: &[u8], names: Names) -> Option<Tally>
    requires { WholeLog names.outs log.now }
    ensures { CountedAll (shares_of names.outs names.driver names.activity log.now) result }
{
    let size = log.len() / 8;
    let mut tally = Tally::new();
    let mut at: usize = 0;
    // Stays: each record has a size of its own, by which `at` goes on, so no range has these places.
    while at < size {
        count_record(log, at, names, &mut tally)?;
        at += record_size(log, at, size - at, names.outs);
    }
    Some(tally)
}
