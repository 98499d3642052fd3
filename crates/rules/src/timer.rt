// The active bucket timer: time in the active window, in increments of five minutes and ms since the last one.
ghost use Rattle.std.specs.Prelude.{◌≡◌, ◌≤◌};
ghost use Rattle.rules.specs.Timer.{tick, ticked, in_window, grown};

// The timer's increment: five minutes, in ms.
const INCREMENT: u64 = 300_000;

// The most time that one call may bring.
pub const ELAPSED_TOP: u32 = 300_000;

// The largest clock.
pub const CLOCK_TOP: u64 = 281_474_976_710_655;

// The timer after elapsed time.
#[derive(Clone, Copy)]
pub struct Tick {
    pub timer: u16,
    pub partial: u32,
    // Whether the timer reached its threshold, which ends the active window.
    pub expired: bool,
}

impl Tick {
    fn of(timer: u16, partial: u32, expired: bool) -> Self
        ensures { result ≡ tick timer partial expired }
    {
        Tick {
            timer,
            partial,
            expired,
        }
    }
}

// The timer after elapsed time, which it measures while enabled. Its two numbers stand apart, as in the record.
#[tactic(auto, unfolding(crate::specs::Timer::ticked))]
pub fn ticked(enabled: bool, threshold: u16, timer: u16, partial: u32, ms: u32) -> Tick
    requires { ms ≤ 300000 }
    ensures { result ≡ ticked enabled threshold timer partial ms }
{
    if enabled {
        let sum = u64::from(partial) + u64::from(ms);
        if sum < INCREMENT {
            return Tick::of(timer, sum as u32, false);
        }
        let rest = (sum - INCREMENT) as u32;
        let next = u32::from(timer) + 1;
        if next < u32::from(threshold) {
            return Tick::of(next as u16, rest, false);
        }
        return Tick::of(0, rest, true);
    }
    Tick::of(timer, partial, false)
}

// Time in the active window, in ms.
pub fn in_window(timer: u16, partial: u32) -> u64
    ensures { result ≡ in_window timer partial }
{
    u64::from(timer) * INCREMENT + u64::from(partial)
}

// The clock after elapsed time, held at its top.
pub fn grown(clock: u64, ms: u32) -> u64
    ensures { result ≡ grown clock ms }
{
    clock.saturating_add(u64::from(ms)).min(CLOCK_TOP)
}
