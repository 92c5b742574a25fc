// Milliseconds in minutes.
ghost use Rattle.std.specs.Prelude.{◌≡◌};
ghost use Rattle.hours.specs.Hours.{minutes};

// The milliseconds of a minute.
const MINUTE: u64 = 60000;

// Of half of one.
const HALF_MINUTE: u64 = 30000;

// To the nearest minute, the half upwards.
pub fn minutes(ms: u64) -> u64
    ensures { result ≡ minutes ms }
{
    let full = ms / MINUTE;
    if ms % MINUTE < HALF_MINUTE {
        full
    } else {
        full + 1
    }
}
