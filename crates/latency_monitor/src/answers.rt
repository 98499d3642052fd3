// What the calls answer, as C reads it: neither enums nor arrays cross the boundary.
ghost use Rattle.std.specs.Prelude.{◌≡◌};
ghost use Rattle.rules.specs.Answers.{says_answer, says_completion, says_elapsed};
ghost use Rattle.latency_monitor.specs.Answers.{as_refusal, as_completion, as_elapsed, as_below_a};

use monitor::{CompletionAnswer, ElapsedAnswer, Refusal};

// The refusal number of an accepted call.
pub(crate) const ACCEPTED: u8 = 0;

// The answer to a completion.
#[repr(C)]
#[derive(Clone, Copy)]
pub struct PlainCompletionAnswer {
    // The counter's number, 0 if not counted.
    pub counter: u16,
    pub counted: bool,
    // Whether the latency stamp was loaded.
    pub loaded: bool,
    // Whether a debug log was taken.
    pub debug: bool,
}

// The answer to elapsed time.
#[repr(C)]
#[derive(Clone, Copy)]
pub struct PlainElapsedAnswer {
    // Document 01's number, 0 if accepted.
    pub refusal: u8,
    // Whether the active window ended, and is the static one now.
    pub ended: bool,
}

// The enabled completions of each kind below threshold A in a window.
#[repr(C)]
#[derive(Clone, Copy)]
pub struct PlainBelowA {
    pub read: u32,
    pub write: u32,
    pub deallocate: u32,
}

// The number that turned a call away, 0 if accepted.
pub(crate) fn refusal(answer: Result<(), Refusal>) -> u8
    ensures { result ≡ as_refusal (says_answer answer) }
{
    answer.err().map_or(ACCEPTED, u8::from)
}

impl From<CompletionAnswer> for PlainCompletionAnswer {
    ghost from_gives = { λ answer plain. plain ≡ as_completion (says_completion answer) };

    fn from(answer: CompletionAnswer) -> PlainCompletionAnswer {
        match answer {
            CompletionAnswer::NotCounted | CompletionAnswer::BelowA => PlainCompletionAnswer {
                counter: 0,
                counted: false,
                loaded: false,
                debug: false,
            },
            CompletionAnswer::Counted { counter, debug } => PlainCompletionAnswer {
                counter,
                counted: true,
                loaded: false,
                debug,
            },
            CompletionAnswer::Loaded { counter, debug } => PlainCompletionAnswer {
                counter,
                counted: true,
                loaded: true,
                debug,
            },
        }
    }
}

impl From<Result<ElapsedAnswer, Refusal>> for PlainElapsedAnswer {
    ghost from_gives = { λ answer plain. plain ≡ as_elapsed (says_elapsed answer) };

    fn from(answer: Result<ElapsedAnswer, Refusal>) -> PlainElapsedAnswer {
        match answer {
            Ok(answer) => PlainElapsedAnswer {
                refusal: ACCEPTED,
                ended: answer == ElapsedAnswer::Ended,
            },
            Err(refusal) => PlainElapsedAnswer {
                refusal: u8::from(refusal),
                ended: false,
            },
        }
    }
}

impl From<[u32; 3]> for PlainBelowA {
    ghost from_gives = { λ counts plain. plain ≡ as_below_a counts };

    fn from(counts: [u32; 3]) -> PlainBelowA {
        let [read, write, deallocate] = counts;
        PlainBelowA {
            read,
            write,
            deallocate,
        }
    }
}
