// The call of an event, and of a record.
ghost use Rattle.std.specs.Prelude.{◌≡◌};
ghost use Rattle.monitor.specs.Calls.{after, answer_of};
ghost use Rattle.monitor.specs.Record.{after_settings, settings_answer};
ghost use Rattle.rules.specs.Answers.{says_answer, says_elapsed};
ghost use Rattle.records.specs.Records.{after_record, record_answer, says_record, call_in, settings_with};

use crate::answers::RecordAnswer;
use crate::event::Event;
use monitor::{ElapsedAnswer, Monitor, Outcome, Refusal};

// Settings bytes 0 to 12, the others zero.
fn settings_bytes(fields: [u8; 13]) -> [u8; 4096]
    ensures { result ≡ settings_with fields }
{
    let mut s = [0; 4096];
    endian::copy(&mut s, &fields);
    s
}

// A call that has no more to tell than that it was accepted. Not one function with the next: the contracts name different
// definitions.
fn plain(o: Outcome<Result<(), Refusal>>) -> Outcome<Result<RecordAnswer, Refusal>>
    ensures next { result.next ≡ o.next }
    ensures answer { says_record result.answer ≡ says_answer o.answer }
{
    Outcome {
        next: o.next,
        answer: o.answer.map(|()| RecordAnswer::Done),
    }
}

// Elapsed time.
fn of_elapsed(o: Outcome<Result<ElapsedAnswer, Refusal>>) -> Outcome<Result<RecordAnswer, Refusal>>
    ensures next { result.next ≡ o.next }
    ensures answer { says_record result.answer ≡ says_elapsed o.answer }
{
    Outcome {
        next: o.next,
        answer: o.answer.map(|answer| RecordAnswer::from(answer)),
    }
}

// The call of settings. A function that is not inlined, so that no other record pays for the 4,096 bytes.
#[inline(never)]
fn configured(m: Monitor, fields: [u8; 13]) -> Outcome<Result<RecordAnswer, Refusal>>
    ensures next { result.next ≡ after_settings m (settings_with fields) }
    ensures answer { says_record result.answer ≡ settings_answer (settings_with fields) }
{
    plain(m.configure(&settings_bytes(fields)))
}

// The same, with a record and an outcome of its own: what goes to a function that is not inlined lies in memory, and no
// other record's call is to pay for that.
fn of_settings(m: Monitor, fields: [u8; 13]) -> Outcome<Result<RecordAnswer, Refusal>>
    ensures next { result.next ≡ after_settings m (settings_with fields) }
    ensures answer { says_record result.answer ≡ settings_answer (settings_with fields) }
{
    let o = configured(m, fields);
    Outcome {
        next: o.next,
        answer: o.answer,
    }
}

impl Event {
    // The event's call, brought to a monitor.
    pub fn call(self, m: Monitor) -> Outcome<Result<RecordAnswer, Refusal>>
        ensures next { result.next ≡ after (call_in self) m }
        ensures answer { says_record result.answer ≡ answer_of m (call_in self) }
    {
        match self {
            Event::Settings(fields) => of_settings(m, fields),
            Event::Completion(c) => {
                let o = m.completion(c);
                Outcome {
                    next: o.next,
                    answer: Ok(RecordAnswer::from(o.answer)),
                }
            }
            Event::Elapsed(ms) => of_elapsed(m.elapsed(ms)),
            Event::Clock(value) => plain(m.set_clock(value)),
            Event::PowerUp => plain(m.power_up()),
        }
    }
}

// One record. What is not 16 bytes stands for no call.
pub fn apply(m: Monitor, r: &[u8]) -> Outcome<Result<RecordAnswer, Refusal>>
    ensures next { result.next ≡ after_record m r.now }
    ensures answer { says_record result.answer ≡ record_answer m r.now }
{
    match Event::read(r) {
        Ok(event) => event.call(m),
        Err(refusal) => Outcome {
            next: m,
            answer: Err(refusal),
        },
    }
}
