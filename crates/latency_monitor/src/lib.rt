// The firmware's boundary: the record is lent for each call, in C's calling convention. Each function calls the
// monitor's rule on the record, stores the record that comes back, and gives the answer as numbers;
// include/latency_monitor.h declares them. `page`, `settings_back`, `reason` and the counts below threshold A only read
// the record; `read_page` has no part in it, and is lent the fields of a page.
#![tactic(auto)]

mod answers;

ghost use Rattle.std.specs.Prelude.{◌≡◌, length};
ghost use Rattle.rules.specs.Answers.{done};
ghost use Rattle.monitor.specs.Reasons.{reason_of};
ghost use Rattle.monitor.specs.Record.{new_monitor, after_settings, settings_answer, after_completion, completion_answer};
ghost use Rattle.monitor.specs.Record.{after_elapsed, elapsed_answer, after_clock, clock_answer, after_power_up};
ghost use Rattle.monitor.specs.Report.{after_page, page_answer, after_settings_back, settings_back_answer, counts_below_a};
ghost use Rattle.monitor.specs.declared.windows.WindowChoice.TheVariants.{Active, Static};
ghost use Rattle.latency_monitor.specs.Answers.{as_refusal, as_completion, as_elapsed, as_below_a};
ghost use Rattle.latency_monitor.specs.Reading.{read_into, read_answer};

pub use answers::{PlainBelowA, PlainCompletionAnswer, PlainElapsedAnswer};
use logpage::{LogPage, Reading};
use monitor::{Command, ElapsedAnswer, Monitor, Outcome, WindowChoice};

// A new monitor.
#[unsafe(no_mangle)]
pub extern "C" fn latency_monitor_new(m: &mut Monitor)
    ensures { m.new ≡ new_monitor }
{
    *m = Monitor::new();
}

// Settings, as 4,096 bytes.
#[unsafe(no_mangle)]
pub extern "C" fn latency_monitor_configure(m: &mut Monitor, s: &[u8]) -> u8
    ensures next { m.new ≡ after_settings m.old s.now }
    ensures answer { result ≡ as_refusal (settings_answer s.now) }
{
    let Outcome { next, answer } = m.configure(s);
    *m = next;
    answers::refusal(answer)
}

// A completed command.
#[unsafe(no_mangle)]
pub extern "C" fn latency_monitor_completion(m: &mut Monitor, c: Command) -> PlainCompletionAnswer
    ensures next { m.new ≡ after_completion m.old c }
    ensures answer { result ≡ as_completion (completion_answer m.old c) }
{
    let Outcome { next, answer } = m.completion(c);
    *m = next;
    answer.into()
}

// Elapsed time, in ms. The record is stored in each arm, so that the compiled ways stay apart and write what they change.
#[unsafe(no_mangle)]
pub extern "C" fn latency_monitor_elapsed(m: &mut Monitor, ms: u32) -> PlainElapsedAnswer
    ensures next { m.new ≡ after_elapsed m.old ms }
    ensures answer { result ≡ as_elapsed (elapsed_answer m.old ms) }
{
    let o = m.elapsed(ms);
    match o.answer {
        Ok(ElapsedAnswer::Active) => {
            *m = o.next;
            o.answer.into()
        }
        Ok(ElapsedAnswer::Ended) => {
            *m = o.next;
            o.answer.into()
        }
        Err(_) => {
            *m = o.next;
            o.answer.into()
        }
    }
}

// The host sets the clock, in ms.
#[unsafe(no_mangle)]
pub extern "C" fn latency_monitor_set_clock(m: &mut Monitor, value: u64) -> u8
    ensures next { m.new ≡ after_clock m.old value }
    ensures answer { result ≡ as_refusal (clock_answer value) }
{
    let Outcome { next, answer } = m.set_clock(value);
    *m = next;
    answers::refusal(answer)
}

// Power-up.
#[unsafe(no_mangle)]
pub extern "C" fn latency_monitor_power_up(m: &mut Monitor) -> u8
    ensures next { m.new ≡ after_power_up m.old }
    ensures answer { result ≡ as_refusal done }
{
    let Outcome { next, answer } = m.power_up();
    *m = next;
    answers::refusal(answer)
}

// Log page C3h, into a buffer of 512 bytes.
#[unsafe(no_mangle)]
pub extern "C" fn latency_monitor_page(m: &Monitor, page: &mut [u8]) -> u8
    ensures bytes { page.new ≡ after_page m.now page.old }
    ensures answer { result ≡ as_refusal (page_answer (length page.old)) }
{
    answers::refusal(m.page(page))
}

// The settings in force, into a buffer of 4,096 bytes.
#[unsafe(no_mangle)]
pub extern "C" fn latency_monitor_settings_back(m: &Monitor, s: &mut [u8]) -> u8
    ensures bytes { s.new ≡ after_settings_back m.now s.old }
    ensures answer { result ≡ as_refusal (settings_back_answer (length s.old)) }
{
    answers::refusal(m.settings_back(s))
}

// The enabled completions below threshold A in the active window: a function for each window, since no enum crosses to C.
#[unsafe(no_mangle)]
pub extern "C" fn latency_monitor_active_below_a(m: &Monitor) -> PlainBelowA
    ensures { result ≡ as_below_a (counts_below_a Active m.now) }
{
    m.below_a(WindowChoice::Active).into()
}

// The same in the static window.
#[unsafe(no_mangle)]
pub extern "C" fn latency_monitor_static_below_a(m: &Monitor) -> PlainBelowA
    ensures { result ≡ as_below_a (counts_below_a Static m.now) }
{
    m.below_a(WindowChoice::Static).into()
}

// Why a completed command would not load a latency stamp, were it brought to the record now: the lowest reason, 1 to 6,
// or 0 where it would.
#[unsafe(no_mangle)]
pub extern "C" fn latency_monitor_reason(m: &Monitor, c: Command) -> u8
    ensures { result ≡ reason_of m.now c }
{
    m.reason(c).map_or(0, u8::from)
}

// A page of 512 bytes read back into its fields.
#[tactic(auto, unfolding(crate::specs::Reading::read_into, crate::specs::Reading::read_answer, logpage::specs::Reader::reading_of))]
#[unsafe(no_mangle)]
pub extern "C" fn latency_monitor_read_page(fields: &mut Reading, page: &[u8]) -> u8
    ensures next { fields.new ≡ read_into fields.old page.now }
    ensures answer { result ≡ as_refusal (read_answer page.now) }
{
    match LogPage::read(page) {
        Ok(reading) => {
            *fields = reading;
            answers::ACCEPTED
        }
        Err(refusal) => u8::from(refusal),
    }
}
