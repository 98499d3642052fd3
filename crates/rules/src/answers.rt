// What calls answer that have more to tell than that they were accepted. specs/Answers.antt gives the number and the
// values of document 01 for each case.

// The answer to a completion, which is never turned away.
#[derive(Clone, Copy, Debug, PartialEq, Eq)]
pub enum CompletionAnswer {
    NotCounted,
    // 'Not counted' too, of those below threshold A while enabled: a way out of its own, for speed (docs/DECISIONS.md,
    // 'Shape for speed').
    BelowA,
    // Counted, with the stamp as it was; whether a debug log was taken.
    Counted { counter: u16, debug: bool },
    // Counted, and the stamp loaded; whether a debug log was taken.
    Loaded { counter: u16, debug: bool },
}

// The answer to elapsed time that is accepted.
#[derive(Clone, Copy, Debug, PartialEq, Eq)]
pub enum ElapsedAnswer {
    // The active window goes on.
    Active,
    // The active window ended, and is the static one now.
    Ended,
}
