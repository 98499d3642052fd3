// A stretch: the records, from a slice's start on, that change nothing but the active window, the clock and the timer.
// Nearly all records are such. The active window is kept apart, so that the monitor is put together once a stretch.
ghost use Rattle.std.specs.Prelude.{◌≡◌, ◌≤◌, ◌+◌, ℕ, true, false, None};
ghost use Rattle.monitor.specs.Calls.{play_from};
ghost use Rattle.batch.specs.Passing.{time_by};
ghost use Rattle.batch.specs.Tally.{AtMost, with_active};
ghost use Rattle.records.specs.Records.{call_in, record_refusal, after_record};
ghost use Rattle.events.specs.Files.{calls_before, whole_records, NoneRefused};
ghost use Rattle.events.specs.Stretch.{Steady};

use batch::tally::Places;
use batch::{Active, Time, passing, tally};
use monitor::Monitor;
use records::{Event, RECORD};

// The monitor after a stretch, and how many records it has.
#[derive(Clone, Copy)]
pub(crate) struct Played {
    pub(crate) monitor: Monitor,
    pub(crate) records: usize,
}

// The clock and the timer after an event that changes these alone; none after any other.
pub fn timed(m: Monitor, event: Event) -> Option<Time>
    ensures { result ≡ time_by m (call_in event) }
{
    match event {
        Event::Elapsed(ms) => passing::passed(m, ms),
        Event::Clock(value) => passing::clocked(m, value),
        Event::PowerUp => Some(passing::powered(m)),
        Event::Settings(_) | Event::Completion(_) => None,
    }
}

// One record more. False where it does more than a stretch takes: then nothing is done. The active window is a local of
// its own, and no part of a struct with the monitor, which then would go through memory at each stretch.
fn record(monitor: &mut Monitor, active: &mut Active, places: &Places, r: &[u8; RECORD]) -> bool
    requires steady { Steady places.now.settings monitor.old active.old }
    requires room { AtMost 18446744073709551614 active.old.counts }
    ensures kept { result ≡ false → (monitor.new ≡ monitor.old) × (active.new ≡ active.old) }
    ensures steady { result ≡ true → Steady places.now.settings monitor.new active.new }
    ensures room { (top : ℕ) → AtMost top active.old.counts → AtMost (top + 1) active.new.counts }
    ensures accepted { result ≡ true → record_refusal r.now ≡ None }
    ensures next { result ≡ true → with_active monitor.new active.new ≡ after_record (with_active monitor.old active.old) r.now }
{
    if let Some(c) = records::completion(r) {
        return active.completion(monitor, places.place(c), c);
    }
    let Ok(event) = Event::read(r) else {
        return false;
    };
    let Some(time) = timed(*monitor, event) else {
        return false;
    };
    *monitor = passing::with_time(*monitor, time);
    true
}

// The end of a stretch of so many records.
fn end(monitor: Monitor, active: Active, records: usize) -> Played
    ensures monitor { result.monitor ≡ with_active monitor active }
    ensures records { result.records ≡ records }
{
    let monitor = tally::with_active(monitor, active);
    Played { monitor, records }
}

// The first record that does more ends the stretch.
pub(crate) fn stretch(m: Monitor, s: &[u8]) -> Played
    ensures monitor { result.monitor ≡ play_from m (calls_before s.now result.records) }
    ensures records { result.records ≤ whole_records s.now }
    ensures accepted { NoneRefused s.now result.records }
{
    let places = Places::of(m.settings);
    let mut monitor = m;
    let mut active = tally::active(m);
    let (records, _) = s.as_chunks::<RECORD>();
    for (i, r) in records.iter().enumerate() {
        if !record(&mut monitor, &mut active, &places, r) {
            return end(monitor, active, i);
        }
    }
    end(monitor, active, records.len())
}
