// The kinds of commands that have counters.

#[derive(Clone, Copy, Debug, PartialEq, Eq)]
pub enum Kind {
    Read = 0,
    Write = 1,
    Deallocate = 2,
}

// The number of a kind, by which counters are numbered.
impl From<Kind> for u16 {
    ghost use Rattle.std.specs.Prelude.{◌≡◌};
    ghost use Rattle.rules.specs.Kinds.{number_of};

    ghost from_gives = { λ kind number. number ≡ number_of kind };

    fn from(kind: Kind) -> u16 {
        kind as u16
    }
}
