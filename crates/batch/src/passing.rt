// For a loop over many records: what a call makes of the clock and the timer, where it changes these alone, so that all
// else stays where it is.
ghost use Rattle.std.specs.Prelude.{◌≡◌};
ghost use Rattle.batch.specs.Passing.{passed_by, clocked_by, powered_by, with_time};

use crate::parts::Time;
use monitor::Monitor;
use rules::timer;

// Elapsed time, in ms; none where it is refused, or ends the active window.
#[tactic(auto, unfolding(crate::specs::Passing::passed_by, rules::specs::Refusals::elapsed_refusal))]
pub fn passed(m: Monitor, ms: u32) -> Option<Time>
    ensures { result ≡ passed_by m ms }
{
    if timer::ELAPSED_TOP < ms {
        return None;
    }
    let t = timer::ticked(
        m.settings.enabled,
        m.settings.timer_threshold,
        m.timer,
        m.partial,
        ms,
    );
    if t.expired {
        return None;
    }
    Some(Time {
        clock: timer::grown(m.clock, ms),
        host_set: m.host_set,
        timer: t.timer,
        partial: t.partial,
    })
}

// The host's clock, in ms; none where it is refused.
#[tactic(auto, unfolding(crate::specs::Passing::clocked_by, rules::specs::Refusals::clock_refusal))]
pub fn clocked(m: Monitor, value: u64) -> Option<Time>
    ensures { result ≡ clocked_by m value }
{
    if timer::CLOCK_TOP < value {
        return None;
    }
    Some(Time {
        clock: value,
        host_set: true,
        timer: m.timer,
        partial: m.partial,
    })
}

// Power-up, which nothing turns away.
pub fn powered(m: Monitor) -> Time
    ensures { result ≡ powered_by m }
{
    Time {
        clock: 0,
        host_set: false,
        timer: m.timer,
        partial: m.partial,
    }
}

// The record with this clock and timer.
pub fn with_time(mut m: Monitor, t: Time) -> Monitor
    ensures { result ≡ with_time m t }
{
    m.clock = t.clock;
    m.host_set = t.host_set;
    m.timer = t.timer;
    m.partial = t.partial;
    m
}
