// The active window, taken out of the record for a loop over many completions. Its counts stand in one array: counter
// n's at place n, and those below threshold A, by kind, at 12 to 14. From place 15 on none is kept. Counts go on past
// their top, where the record holds them.
ghost use Rattle.std.specs.Prelude.{◌≡◌, ◌<◌, false, [], ◌∷◌, take, drop};
ghost use Rattle.monitor.specs.Calls.{only_if};
ghost use Rattle.rules.specs.Counting.{held};
ghost use Rattle.batch.specs.Tally.{code_of, kind_place, KindPlaces, count_place, held_all, AtMost};
ghost use Rattle.batch.specs.Tally.{counter_at_place, bound_for, Bounds, at_most_loads, stamp_at, stamped_by, completed_by};
ghost use Rattle.batch.specs.Tally.{with_active, Apart};

use crate::parts::{Active, Stamp, Stamped};
use logpage::Settings;
use monitor::Monitor;
use rules::commands::Command;
use rules::{commands, counting, settings, timer};
use window::{UNSET, Window};

// The places that hold a counter.
const COUNTERS: usize = 12;

// The first place that holds a count below threshold A.
const BELOW_A: usize = 12;

// There are four buckets; behind them a table of their places has that of a latency without a bucket.
const NO_BUCKET: u16 = 4;

// The first place that holds no count. Numbers and no Options, since they are added and compared for each record.
const NO_PLACE: u8 = 15;

// The bound where a completion can only count: every latency but the largest is below it.
const NO_BOUND: u32 = u32::MAX;

// What a command's kind adds to the place of its bucket's first count.
#[tactic(auto, unfolding(crate::specs::Tally::kind_place))]
fn kind_place(enabled: bool, c: Command) -> u8
    ensures { result ≡ kind_place enabled c }
{
    match c.kind() {
        Some(kind) if enabled => kind as u8,
        _ => NO_PLACE,
    }
}

// All that a command's kind depends on, as one number.
pub fn code(c: Command) -> usize
    ensures code { result ≡ code_of c }
    ensures few { result < 512 }
{
    2 * usize::from(c.opcode) + usize::from(c.deallocate)
}

// What a kind adds to a place, by the command's code, for all of them: a table has no branch that a processor could
// guess wrong. No opcode from 16 on has a kind.
pub fn kind_places(enabled: bool) -> [u8; 512]
    ensures { KindPlaces enabled result }
{
    let mut places = [NO_PLACE; 512];
    for (code, place) in places[..32].iter_mut().enumerate() {
        *place = kind_place(
            enabled,
            Command {
                latency: 0,
                opcode: (code / 2) as u8,
                deallocate: code % 2 == 1,
            },
        );
    }
    places
}

// A count, held at its top.
fn held(count: u64) -> u32
    ensures { result ≡ held count }
{
    u32::try_from(count).unwrap_or(u32::MAX)
}

// Counts of the record, to go on from. A loop, as in `held_all`: with the library's `map` a stretch of one record takes
// twice the time.
fn widened(counts: [u32; 28]) -> [u64; 28]
    ensures { result ≡ counts }
{
    let mut wide = [0; 28];
    for (place, count) in wide.iter_mut().enumerate() {
        *count = u64::from(counts[place]);
    }
    wide
}

// Counts below threshold A and counters in one array.
fn joined(below: [u32; 3], counters: [u32; 12]) -> [u64; 28]
    ensures below { take 3 (drop 12 (held_all result)) ≡ below }
    ensures counters { take 12 (held_all result) ≡ counters }
    ensures top { AtMost u32.MAX result }
{
    let mut counts = [0; 28];
    counts[..COUNTERS].copy_from_slice(&counters);
    counts[BELOW_A..BELOW_A + 3].copy_from_slice(&below);
    widened(counts)
}

// The counts of such an array as the record holds them.
fn held_all(counts: [u64; 28]) -> [u32; 28]
    ensures { result ≡ held_all counts }
{
    let mut all = [0; 28];
    for (place, count) in all.iter_mut().enumerate() {
        *count = held(counts[place]);
    }
    all
}

// The counter of a place; 0 for a place that is no counter's, as the definitions of what is stamped have it.
pub fn counter_at(place: usize) -> usize
    ensures { result ≡ counter_at_place place }
{
    if place < COUNTERS { place } else { 0 }
}

// The latency from which on a completion for counter n, with this stamp and measured latency, may load the stamp, or
// takes a debug log.
#[tactic(auto, unfolding(crate::specs::Tally::bound_for))]
fn bound_for(m: Monitor, n: usize, stamp: u64, latency: u16) -> u32
    ensures { result ≡ bound_for m n stamp latency }
{
    if counting::triggers(m.settings.trigger, n, m.debug.stamp) || stamp == UNSET {
        0
    } else if counting::bit(m.settings.mode, n) {
        commands::latency_above(latency)
    } else {
        NO_BOUND
    }
}

// The bounds of all places.
fn bounds(m: Monitor) -> [u32; 28]
    ensures { Bounds m result }
{
    let thresholds = m.settings.thresholds;
    if settings::unordered(thresholds) {
        return [0; 28];
    }
    let stamps = m.active_window.stamps;
    let latencies = m.active_window.latencies;
    let mut bounds = [NO_BOUND; 28];
    for (n, bound) in bounds[..COUNTERS].iter_mut().enumerate() {
        *bound = bound_for(m, n, stamps[n], latencies[n]);
    }
    bounds
}

// The active window.
pub fn active(m: Monitor) -> Active
    ensures window { with_active m result ≡ m }
    ensures apart { Apart m result }
    ensures top { AtMost u32.MAX result.counts }
{
    let below_a = m.active_below_a;
    let counters = m.active_window.counters;
    let counts = joined(below_a, counters);
    let bounds = bounds(m);
    let stamps = m.active_window.stamps;
    let latencies = m.active_window.latencies;
    let units = m.active_window.units;
    let loaded = m.loaded;
    Active {
        counts,
        bounds,
        stamps,
        latencies,
        units,
        loaded,
    }
}

// The record with this active window.
pub fn with_active(mut m: Monitor, a: Active) -> Monitor
    ensures { result ≡ with_active m a }
{
    let counts = held_all(a.counts);
    let mut below_a = [0; 3];
    below_a.copy_from_slice(&counts[BELOW_A..BELOW_A + 3]);
    let mut counters = [0; 12];
    counters.copy_from_slice(&counts[..COUNTERS]);
    let stamps = a.stamps;
    let latencies = a.latencies;
    let units = a.units;
    let loaded = a.loaded;
    m.active_below_a = below_a;
    m.active_window = Window::of(counters, stamps, latencies, units);
    m.loaded = loaded;
    m
}

// Whether a completion has a counter, by its place, which says it for thresholds in order, and takes no debug log: then
// it loads the stamp, at the most. Out of order the rule asks threshold A first, and the search for a bucket does not.
#[tactic(auto, unfolding(crate::specs::Tally::at_most_loads))]
fn at_most_loads(m: Monitor, place: usize) -> bool
    ensures { result ≡ at_most_loads m place }
{
    let thresholds = m.settings.thresholds;
    place < COUNTERS
        && !settings::unordered(thresholds)
        && !counting::triggers(m.settings.trigger, place, m.debug.stamp)
}

// A completion at a place whose counter has this stamp; none where it does more than count there and load it.
#[tactic(auto, unfolding(crate::specs::Tally::stamped_by))]
pub fn stamped(m: Monitor, place: usize, c: Command, stamp: Stamp) -> Option<Stamped>
    ensures { result ≡ stamped_by m place c stamp }
{
    if !at_most_loads(m, place) {
        return None;
    }
    let ms = c.milliseconds();
    let time = timer::in_window(m.timer, m.partial);
    let loads = counting::loads(
        stamp.stamp,
        stamp.latency,
        stamp.loaded,
        ms,
        counting::bit(m.settings.mode, place),
        m.settings.minimum_window,
        time,
    );
    let stamp = if loads {
        Stamp {
            stamp: m.clock,
            latency: ms,
            units: m.host_set,
            loaded: time,
        }
    } else {
        stamp
    };
    let bound = bound_for(m, place, stamp.stamp, stamp.latency);
    Some(Stamped { stamp, bound })
}

// The places of counts under settings: each bucket's first, and last that of the counts below threshold A; and what a
// kind adds. Tables have no branch that a processor could guess wrong.
#[derive(Clone, Copy)]
pub struct Places {
    settings: Settings,
    buckets: [usize; 5],
    kinds: [u8; 512],
    ghost by_bucket: { buckets ≡ 0 ∷ 3 ∷ 6 ∷ 9 ∷ 12 ∷ [] },
    ghost by_kind: { KindPlaces settings.enabled kinds },
}

impl Places {
    pub fn of(settings: Settings) -> Self
        ensures { result.settings ≡ settings }
    {
        let kinds = kind_places(settings.enabled);
        Places {
            settings,
            buckets: [0, 3, 6, 9, 12],
            kinds,
        }
    }

    // The place of a completion's count.
    pub fn place(&self, c: Command) -> usize
        ensures place { result ≡ count_place self.now.settings c }
        ensures few { result < 28 }
    {
        let thresholds = self.settings.thresholds;
        let bucket = c.bucket(thresholds).unwrap_or(NO_BUCKET);
        self.buckets[usize::from(bucket)] + usize::from(self.kinds[code(c)])
    }
}

impl Active {
    // Counter n's stamp, with what is kept beside it.
    fn stamp(&self, n: usize) -> Stamp
        requires { n < 12 }
        ensures { result ≡ stamp_at self.now n }
    {
        Stamp {
            stamp: self.stamps[n],
            latency: self.latencies[n],
            units: self.units[n],
            loaded: self.loaded[n],
        }
    }

    // A completion at a place. False where it does more than count there and load its counter's stamp: then nothing is
    // done.
    #[tactic(auto, unfolding(crate::specs::Tally::completed_by))]
    pub fn completion(&mut self, m: &Monitor, place: usize, c: Command) -> bool
        requires place { place < 28 }
        requires room { AtMost 18446744073709551614 self.old.counts }
        ensures next { only_if result self.new ≡ completed_by m.now self.old place c }
        ensures kept { result ≡ false → self.new ≡ self.old }
    {
        if c.latency < self.bounds[place] {
            self.counts[place] += 1;
            return true;
        }
        let n = counter_at(place);
        let Some(stamped) = stamped(*m, place, c, self.stamp(n)) else {
            return false;
        };
        self.counts[place] += 1;
        self.bounds[place] = stamped.bound;
        self.stamps[n] = stamped.stamp.stamp;
        self.latencies[n] = stamped.stamp.latency;
        self.units[n] = stamped.stamp.units;
        self.loaded[n] = stamped.stamp.loaded;
        true
    }
}
