// The tally of each driver's ticks. The tables are those of specs/Tally.antt.
ghost use Rattle.std.specs.Prelude.{◌≡◌, ◌≤◌};

// The drivers of a report at the most.
pub const MOST_DRIVERS: usize = 32;

// The counts: nobody's, and four for each driver.
const MOST_COUNTS: usize = 1 + 4 * MOST_DRIVERS;

// The drivers so far, n of the table, and counts, first nobody's, then four for each driver.
#[derive(Drop)]
pub struct Tally {
    pub drivers: [u64; MOST_DRIVERS],
    pub counts: [u64; MOST_COUNTS],
    pub n: usize,
    pub ghost few: { n ≤ 32 },
}

impl Tally {
    ghost use Rattle.std.specs.Prelude.{◌≡◌, [], ◌∷◌, ◌*◌, ◌<◌, ◌≤◌, get_or, take, replicate};
    ghost use Rattle.hours.specs.Hours.{assigned, last_activity, longest};
    ghost use Rattle.hours.specs.Tally.{most_counts, place, more, above_all, UpTo};
    ghost use Rattle.hours.specs.Counted.{Counted};

    // Before the first tick.
    pub fn new() -> Tally
        ensures { (result.counts ≡ replicate most_counts 0) × (result.n ≡ 0) }
    {
        Tally {
            drivers: [0; MOST_DRIVERS],
            counts: [0; MOST_COUNTS],
            n: 0,
        }
    }

    // The place of driver d, or how many there are.
    fn place(&self, d: u64) -> usize
        ensures { (result ≡ place d (take self.now.n self.now.drivers)) × (result ≤ self.now.n) }
    {
        for i in 0..self.n {
            if self.drivers[i] == d {
                return i;
            }
        }
        self.n
    }

    // One more in place i.
    fn more(&mut self, i: usize)
        requires { UpTo above_all self.old.counts × (i < most_counts) }
        ensures { (self.new.counts ≡ more self.old.counts i) × (self.new.drivers ≡ self.old.drivers) × (self.new.n ≡ self.old.n) }
    {
        self.counts[i] += 1;
    }

    // A tick of nobody.
    pub fn skip(&mut self)
        requires { UpTo above_all self.old.counts }
        ensures { (self.new.counts ≡ more self.old.counts 0) × (self.new.drivers ≡ self.old.drivers) × (self.new.n ≡ self.old.n) }
    {
        self.more(0);
    }

    // A tick of driver d in activity a; none where the driver is one too many.
    pub fn assign(&mut self, d: u64, a: usize) -> Option<()>
        requires { UpTo above_all self.old.counts × (a ≤ last_activity) }
        ensures { Counted (assigned d a ∷ []) self.old self.new result }
    {
        let p = self.place(d);
        if p == self.n {
            if self.n == MOST_DRIVERS {
                return None;
            }
            self.drivers[p] = d;
            self.n += 1;
        }
        self.more(1 + 4 * p + a);
        Some(())
    }

    // The ticks in place i as milliseconds.
    pub fn spent(&self, i: usize, len: u64) -> u64
        requires { UpTo above_all self.now.counts × (i < most_counts) × (len ≤ longest) }
        ensures { result ≡ get_or self.now.counts i 0 * len }
    {
        self.counts[i] * len
    }
}
