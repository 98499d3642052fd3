// What a record answers that is not turned away. specs/Records.antt gives the values of document 01 for each case.
use monitor::{CompletionAnswer, ElapsedAnswer};

#[derive(Clone, Copy, Debug, PartialEq, Eq)]
pub enum RecordAnswer {
    Done,
    NotCounted,
    // Whether the stamp was loaded, and a debug log taken.
    Counted {
        counter: u16,
        loaded: bool,
        debug: bool,
    },
    // Elapsed time: whether the active window ended.
    Ended(bool),
}

impl From<CompletionAnswer> for RecordAnswer {
    ghost use Rattle.std.specs.Prelude.{◌≡◌};
    ghost use Rattle.rules.specs.Answers.{says_completion};
    ghost use Rattle.records.specs.Records.{says_accepted};

    ghost from_gives = { λ answer record_answer. says_accepted record_answer ≡ says_completion answer };

    fn from(answer: CompletionAnswer) -> RecordAnswer {
        match answer {
            CompletionAnswer::NotCounted | CompletionAnswer::BelowA => RecordAnswer::NotCounted,
            CompletionAnswer::Counted { counter, debug } => RecordAnswer::Counted {
                counter,
                loaded: false,
                debug,
            },
            CompletionAnswer::Loaded { counter, debug } => RecordAnswer::Counted {
                counter,
                loaded: true,
                debug,
            },
        }
    }
}

impl From<ElapsedAnswer> for RecordAnswer {
    ghost use Rattle.std.specs.Prelude.{◌≡◌};
    ghost use Rattle.rules.specs.Answers.{says_elapsed_answer};
    ghost use Rattle.records.specs.Records.{says_accepted};

    ghost from_gives = { λ answer record_answer. says_accepted record_answer ≡ says_elapsed_answer answer };

    fn from(answer: ElapsedAnswer) -> RecordAnswer {
        RecordAnswer::Ended(answer == ElapsedAnswer::Ended)
    }
}
