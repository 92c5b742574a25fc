// A buffer in exec mode: the fires under way, at most 32, each with a countdown.
ghost use Rattle.std.specs.Prelude.{◌≡◌, [], map, ◌≤◌, ◌<◌, min, leb, length};
ghost use Rattle.model.specs.Delays.{moved, tick_down, drop_due, advance_fires};
ghost use Rattle.model.specs.Exec.{most_fires};
ghost use Rattle.model.specs.State.{idle};
ghost use Rattle.delays.specs.States.{counted, counts_seconds, under_way, fires_of, fires, fires_moved, add_fire};

use crate::countdown::{Countdown, of_word};

// The most fires that can be under way.
pub const MOST_FIRES: usize = 32;

// The fires stand as words in a ring, `count` of them from slot `first` on, the oldest first. `seconds` says whether their countdowns count seconds, and `fired`
// how many fired as the buffer last moved on.
#[derive(Clone, Copy)]
pub struct Fires {
    pub seconds: bool,
    pub first: usize,
    pub count: usize,
    pub words: [u64; MOST_FIRES],
    pub fired: usize,
}

// The words of the fires, each of which counts down by one tick of the length dt.
fn count_down(
    mut words: [u64; MOST_FIRES],
    seconds: bool,
    first: usize,
    count: usize,
    dt: u32,
) -> [u64; MOST_FIRES]
    requires { (first < 32) × (count ≤ 32) }
    ensures { under_way seconds count first result ≡ map (tick_down dt) (under_way seconds count first words) }
{
    for i in 0..count {
        let at = (first + i) % MOST_FIRES;
        words[at] = of_word(seconds, words[at]).tick_down(dt).word();
    }
    words
}

impl Fires {
    // Whether 32 fires are under way.
    pub fn full(self) -> bool
        ensures { result ≡ leb most_fires (length (fires_of self)) }
    {
        MOST_FIRES <= self.count
    }

    // One fire more, with this countdown. When it is full none is added.
    pub fn add(mut self, k: Countdown) -> Self
        requires { counts_seconds (counted k) ≡ self.seconds }
        ensures { (result.seconds ≡ self.seconds) × (fires_moved result ≡ moved (add_fire (fires self) (counted k)) [] 0) }
    {
        self.fired = 0;
        let count = self.count;
        if count < MOST_FIRES {
            let at = (self.first % MOST_FIRES + count) % MOST_FIRES;
            self.words[at] = k.word();
            self.count = count + 1;
        }
        self
    }

    // Those due leave from the front, and fire.
    fn drop_due(mut self) -> Self
        requires { self.count ≤ 32 }
        ensures { (result.seconds ≡ self.seconds) × (fires_moved result ≡ drop_due idle (fires_of self) 0) }
    {
        self.fired = 0;
        // Stays: what falls is the ring's own count, as its fires leave.
        while 0 < self.count {
            let at = self.first % MOST_FIRES;
            let front = of_word(self.seconds, self.words[at]);
            if !front.due() {
                return self;
            }
            self.first = at + 1;
            self.count -= 1;
            self.fired += 1;
        }
        self
    }

    // One tick, of the length dt in f32 bits: all count down, and those due leave from the front and fire.
    pub fn advance(mut self, dt: u32) -> Self
        ensures { (result.seconds ≡ self.seconds) × (fires_moved result ≡ advance_fires dt (fires self)) }
    {
        self.first %= MOST_FIRES;
        self.count = self.count.min(MOST_FIRES);
        self.words = count_down(self.words, self.seconds, self.first, self.count, dt);
        self.drop_due()
    }
}
