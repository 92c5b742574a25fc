// Words in a row: a test of each, how many pass it, what they come to.
ghost use Rattle.std.specs.Prelude.{◌≡◌, ℕ, Bool, ◌&&◌, ◌+◌, ◌*◌, ◌<◌, ◌≤◌, Option, Some, length, map, eqb, get_or};
ghost use Rattle.std.specs.Bool.{then_some};
ghost use Rattle.words.specs.Words.{words};
ghost use Rattle.model.specs.Base.{all, keep, sum};
ghost use Rattle.model.specs.Circuit.{part};
ghost use Rattle.model.specs.Script.{most_ticks};
ghost use Rattle.model.specs.Questions.{within};

use words::get;

// Whether a word is low to high.
pub fn within(low: u64, high: u64, word: u64) -> bool
    ensures { result ≡ within low high word }
{
    low <= word && word <= high
}

// The `count` words of an area from word `first` on.
#[derive(Clone, Copy)]
pub struct Column<'a> {
    pub area: &'a [u8],
    pub first: usize,
    pub count: usize,
    ghost there: { (first + count) * 8 ≤ length area.now },
}

impl<'a> Column<'a> {
    // Word i of them.
    pub fn get(&self, i: usize) -> u64
        requires { i < self.now.count }
        ensures { result ≡ get_or (words self.now.area.now) (self.now.first + i) 0 }
    {
        get(self.area, self.first + i)
    }

    // Whether each passes a test.
    pub fn all<F: Fn(u64) -> bool>(&self, passes: F) -> bool
        requires { F.IsAlwaysCallable passes }
        ensures { (p : ℕ → Bool) → ((w : ℕ) (t : Bool) → F.post passes w t → t ≡ p w) → result ≡ all p (part (words self.now.area.now) self.now.first self.now.count) }
    {
        for i in 0..self.count {
            if !passes(self.get(i)) {
                return false;
            }
        }
        true
    }

    // How many pass a test.
    pub fn passing<F: Fn(u64) -> bool>(&self, passes: F) -> usize
        requires { F.IsAlwaysCallable passes }
        ensures { (p : ℕ → Bool) → ((w : ℕ) (t : Bool) → F.post passes w t → t ≡ p w) → result ≡ length (keep p (part (words self.now.area.now) self.now.first self.now.count)) }
    {
        let mut passed: usize = 0;
        for i in 0..self.count {
            if passes(self.get(i)) {
                passed += 1;
            }
        }
        passed
    }

    // What they come to, each as it is counted; nothing where one is not.
    fn total<F: Fn(u64) -> Option<u64>>(&self, counted: F) -> Option<u64>
        requires callable { F.IsAlwaysCallable counted }
        requires few { self.now.count ≤ most_ticks }
        requires small { (w n : ℕ) → F.post counted w (Some n) → n ≤ 64 }
        ensures { (p : ℕ → Bool) (f : ℕ → ℕ) → ((w : ℕ) (n : Option ℕ) → F.post counted w n → n ≡ then_some (p w) (f w)) → result ≡ then_some (all p (part (words self.now.area.now) self.now.first self.now.count)) (sum (map f (part (words self.now.area.now) self.now.first self.now.count))) }
    {
        let mut total: u64 = 0;
        for i in 0..self.count {
            let n = counted(self.get(i))?;
            total += n;
        }
        Some(total)
    }

    // Whether each is counted, and they come to `whole`.
    pub fn come_to<F: Fn(u64) -> Option<u64>>(&self, counted: F, whole: u64) -> bool
        requires callable { F.IsAlwaysCallable counted }
        requires few { self.now.count ≤ most_ticks }
        requires small { (w n : ℕ) → F.post counted w (Some n) → n ≤ 64 }
        ensures { (p : ℕ → Bool) (f : ℕ → ℕ) → ((w : ℕ) (n : Option ℕ) → F.post counted w n → n ≡ then_some (p w) (f w)) → result ≡ (all p (part (words self.now.area.now) self.now.first self.now.count) && eqb (sum (map f (part (words self.now.area.now) self.now.first self.now.count))) whole) }
    {
        match self.total(counted) {
            Some(total) => total == whole,
            None => false,
        }
    }
}
