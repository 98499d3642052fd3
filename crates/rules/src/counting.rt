// A counted completion: its counter, its counter's latency stamp, and the debug log. One below threshold A: its kind's
// count.
ghost use Rattle.std.specs.Prelude.{◌≡◌, cond, ◌-◌, ◌^◌, ◌<◌};
ghost use Rattle.rules.specs.Counting.{bit, once_more_at, larger, waited, exceeds, loads, triggers, debug_log};

use logpage::DebugLog;
use window::UNSET;

// Whether counter n's bit is set. No branch: where n is known to be small, both tests of it go.
pub fn bit(mask: u16, n: usize) -> bool
    ensures { result ≡ bit mask n }
{
    (n < 16) & ((mask >> (n % 16)) % 2 == 1)
}

// The mask that has counter n's bit alone.
fn one_bit(n: usize) -> u16
    requires { n < 12 }
    ensures { result ≡ 2 ^ n }
{
    1 << n
}

// The counts after one more completion for number n, each held at its top; a number that has no count changes none. All
// are looked at: a store at n alone would send them through memory.
pub fn counted_at<const N: usize>(mut counts: [u32; N], n: u16) -> [u32; N]
    ensures { result ≡ once_more_at counts.entry n }
{
    for (i, count) in counts.iter_mut().enumerate() {
        if i == usize::from(n) {
            *count = count.saturating_add(1);
        }
    }
    counts
}

// Whether a latency of `ms` is larger than the one measured.
pub fn larger(latency: u16, ms: u16) -> bool
    ensures { result ≡ larger latency ms }
{
    latency < ms
}

// Whether at least the minimum window has passed since the last load. `loaded` and `time` are times in the active
// window; none has passed where the load comes later, which no history makes.
pub fn waited(loaded: u64, time: u64, minimum: u8) -> bool
    ensures { result ≡ waited (time - loaded) minimum }
{
    100 * u64::from(minimum) <= time.saturating_sub(loaded)
}

// Whether a latency of `ms` loads a stamp that is set, in mode largest.
pub fn exceeds(latency: u16, loaded: u64, ms: u16, minimum: u8, time: u64) -> bool
    ensures { result ≡ exceeds latency (time - loaded) ms minimum }
{
    larger(latency, ms) && waited(loaded, time, minimum)
}

// Whether a completion of `ms` loads a stamp: an unset one, or one in mode largest. Its parts come one by one: the record
// and a loop over an event file keep them in different places.
#[tactic(auto, unfolding(crate::specs::Counting::loads))]
pub fn loads(
    stamp: u64,
    latency: u16,
    loaded: u64,
    ms: u16,
    largest: bool,
    minimum: u8,
    time: u64,
) -> bool
    ensures { result ≡ loads stamp latency (time - loaded) ms largest minimum }
{
    stamp == UNSET || (largest && exceeds(latency, loaded, ms, minimum, time))
}

// Whether a completion for counter n takes a debug log: its trigger bit is set, and none is held, so that the log's
// stamp is unset.
#[tactic(auto, unfolding(crate::specs::Counting::triggers))]
pub fn triggers(trigger: u16, n: usize, stamp: u64) -> bool
    ensures { result ≡ triggers (bit trigger n) stamp }
{
    bit(trigger, n) && stamp == UNSET
}

// The debug log after a completion for counter n: its own if it takes one, else the one that was held.
pub fn logged(takes: bool, held: DebugLog, n: usize, clock: u64, ms: u16, units: bool) -> DebugLog
    requires { n < 12 }
    ensures { result ≡ cond takes (debug_log n clock ms units) held }
{
    if takes {
        DebugLog {
            stamp: clock,
            latency: ms,
            source: one_bit(n),
            units,
        }
    } else {
        held
    }
}
