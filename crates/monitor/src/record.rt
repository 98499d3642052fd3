// The monitor's record, and the calls that take it and hand back the next one with their answer.
ghost use Rattle.std.specs.Prelude.{◌≡◌, ◌<◌};
ghost use Rattle.rules.specs.Answers.{done, says_answer, says_completion, says_below_a, says_elapsed};
ghost use Rattle.rules.specs.Commands.{is_below_a};
ghost use Rattle.monitor.specs.Record.{new_monitor, after_settings, settings_answer, after_completion, completion_answer};
ghost use Rattle.monitor.specs.Record.{after_elapsed, elapsed_answer, after_clock, clock_answer, after_power_up};
ghost use Rattle.monitor.specs.Record.{loads_at};

use logpage::{DebugLog, Refusal, Settings};
use rules::answers::{CompletionAnswer, ElapsedAnswer};
use rules::commands::Command;
use rules::{counting, settings, timer};
use window::{UNSET, Window};

// What the firmware keeps. The order of the fields keeps calls cheap (docs/DECISIONS.md, 'Shape for speed').
#[repr(C)]
#[derive(Clone, Copy)]
pub struct Monitor {
    pub settings: Settings,
    // Active Bucket Timer: increments of five minutes in the active window (document 01: steps).
    pub timer: u16,
    // Whether the host set the clock (document 01: host-set).
    pub host_set: bool,
    // Time since the timer's last increment, in ms (document 01: partial step).
    pub partial: u32,
    // For each kind by its number, the enabled completions below threshold A: in the static window, and in the active.
    pub static_below_a: [u32; 3],
    pub active_below_a: [u32; 3],
    // In ms.
    pub clock: u64,
    // For each counter, the time in the active window at the last load of its stamp, in ms.
    pub loaded: [u64; 12],
    pub debug: DebugLog,
    // Document 01: the last finished window.
    pub static_window: Window,
    // Document 01: the running window.
    pub active_window: Window,
}

// The next record and the answer.
#[derive(Clone, Copy)]
pub struct Outcome<A> {
    pub next: Monitor,
    pub answer: A,
}

impl Monitor {
    // A new monitor.
    pub fn new() -> Self
        ensures { result ≡ new_monitor }
    {
        let s = Settings::none();
        let w = Window::empty();
        let d = DebugLog::none();
        Monitor {
            settings: s,
            timer: 0,
            host_set: false,
            partial: 0,
            static_below_a: [0; 3],
            active_below_a: [0; 3],
            clock: 0,
            loaded: [0; 12],
            debug: d,
            static_window: w,
            active_window: w,
        }
    }

    // Settings, as 4,096 bytes.
    pub fn configure(mut self, s: &[u8]) -> Outcome<Result<(), Refusal>>
        ensures next { result.next ≡ after_settings self s.now }
        ensures answer { says_answer result.answer ≡ settings_answer s.now }
    {
        match settings::check(s) {
            Err(refusal) => Outcome {
                next: self,
                answer: Err(refusal),
            },
            Ok(()) => {
                let next = settings::decode(s);
                let debug = settings::after_discard(self.debug, s[settings::DISCARD]);
                self.settings = next;
                self.debug = debug;
                if next.enabled {
                    let w = Window::empty();
                    self.timer = 0;
                    self.partial = 0;
                    self.static_below_a = [0; 3];
                    self.active_below_a = [0; 3];
                    self.loaded = [0; 12];
                    self.static_window = w;
                    self.active_window = w;
                    let answer = Ok(());
                    Outcome { next: self, answer }
                } else {
                    let answer = Ok(());
                    Outcome { next: self, answer }
                }
            }
        }
    }

    // Whether a completion of `ms` loads counter n's stamp. In mode first the latencies and load times are not read.
    fn loads(self, n: usize, ms: u16) -> bool
        requires { n < 12 }
        ensures { result ≡ loads_at self n ms }
    {
        let stamps = self.active_window.stamps;
        if stamps[n] == UNSET {
            true
        } else if counting::bit(self.settings.mode, n) {
            let latencies = self.active_window.latencies;
            let loaded = self.loaded;
            let time = timer::in_window(self.timer, self.partial);
            counting::exceeds(
                latencies[n],
                loaded[n],
                ms,
                self.settings.minimum_window,
                time,
            )
        } else {
            false
        }
    }

    // A completed command. The debug log takes nothing from the counter or the stamp, so it comes before them.
    pub fn completion(mut self, c: Command) -> Outcome<CompletionAnswer>
        ensures next { result.next ≡ after_completion self c }
        ensures answer { says_completion result.answer ≡ completion_answer self c }
        ensures below_a { says_below_a result.answer ≡ is_below_a self.settings c }
    {
        if c.is_below_a(self.settings) {
            let active = self.active_below_a;
            let counts = c.counts_below_a(self.settings, active);
            self.active_below_a = counts;
            let answer = CompletionAnswer::BelowA;
            Outcome { next: self, answer }
        } else if let Some(counter) = c.counter(self.settings) {
            let n = usize::from(counter);
            let ms = c.milliseconds();
            let debug = counting::triggers(self.settings.trigger, n, self.debug.stamp);
            self.debug = counting::logged(debug, self.debug, n, self.clock, ms, self.host_set);
            let active = self.active_window.counters;
            let counters = counting::counted_at(active, counter);
            if self.loads(n, ms) {
                let mut stamps = self.active_window.stamps;
                let mut latencies = self.active_window.latencies;
                let mut units = self.active_window.units;
                let mut loaded = self.loaded;
                stamps[n] = self.clock;
                latencies[n] = ms;
                units[n] = self.host_set;
                loaded[n] = timer::in_window(self.timer, self.partial);
                self.active_window = Window::of(counters, stamps, latencies, units);
                self.loaded = loaded;
                let answer = CompletionAnswer::Loaded { counter, debug };
                Outcome { next: self, answer }
            } else {
                let stamps = self.active_window.stamps;
                let latencies = self.active_window.latencies;
                let units = self.active_window.units;
                self.active_window = Window::of(counters, stamps, latencies, units);
                let answer = CompletionAnswer::Counted { counter, debug };
                Outcome { next: self, answer }
            }
        } else {
            let answer = CompletionAnswer::NotCounted;
            Outcome { next: self, answer }
        }
    }

    // Elapsed time, in ms.
    pub fn elapsed(mut self, ms: u32) -> Outcome<Result<ElapsedAnswer, Refusal>>
        ensures next { result.next ≡ after_elapsed self ms }
        ensures answer { says_elapsed result.answer ≡ elapsed_answer self ms }
    {
        if ms <= timer::ELAPSED_TOP {
            let t = timer::ticked(
                self.settings.enabled,
                self.settings.timer_threshold,
                self.timer,
                self.partial,
                ms,
            );
            self.clock = timer::grown(self.clock, ms);
            self.timer = t.timer;
            self.partial = t.partial;
            if t.expired {
                let w = self.active_window;
                let below_a = self.active_below_a;
                let e = Window::empty();
                self.static_below_a = below_a;
                self.active_below_a = [0; 3];
                self.loaded = [0; 12];
                self.static_window = w;
                self.active_window = e;
                let answer = Ok(ElapsedAnswer::Ended);
                Outcome { next: self, answer }
            } else {
                let answer = Ok(ElapsedAnswer::Active);
                Outcome { next: self, answer }
            }
        } else {
            let answer = Err(Refusal::ElapsedTime);
            Outcome { next: self, answer }
        }
    }

    // The host sets the clock, in ms.
    pub fn set_clock(mut self, value: u64) -> Outcome<Result<(), Refusal>>
        ensures next { result.next ≡ after_clock self value }
        ensures answer { says_answer result.answer ≡ clock_answer value }
    {
        if value <= timer::CLOCK_TOP {
            self.clock = value;
            self.host_set = true;
            let answer = Ok(());
            Outcome { next: self, answer }
        } else {
            let answer = Err(Refusal::ClockValue);
            Outcome { next: self, answer }
        }
    }

    // Power-up, which nothing turns away.
    pub fn power_up(mut self) -> Outcome<Result<(), Refusal>>
        ensures next { result.next ≡ after_power_up self }
        ensures answer { says_answer result.answer ≡ done }
    {
        self.clock = 0;
        self.host_set = false;
        let answer = Ok(());
        Outcome { next: self, answer }
    }
}
