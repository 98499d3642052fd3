// Why a call, a record or a page is turned away: each refusal of the product, and its number (docs/MANUAL.md).
#![tactic(auto)]

#[derive(Clone, Copy, Debug, PartialEq, Eq)]
pub enum Refusal {
    // Settings are not 4,096 bytes.
    SettingsLength = 1,
    // A reserved byte of the settings is not zero.
    ReservedByte = 2,
    // Discard or enable is above 1.
    FlagAboveOne = 3,
    // The timer threshold is 0.
    NoTimerThreshold = 4,
    // A threshold is above the next.
    ThresholdOrder = 5,
    // The mode or the trigger has a bit of no counter.
    ReservedBit = 6,
    // Elapsed time is above its top.
    ElapsedTime = 7,
    // The clock is above its top.
    ClockValue = 8,
    // The buffer for the page is not 512 bytes.
    PageLength = 9,
    // The buffer for the settings is not 4,096 bytes.
    SettingsBackLength = 10,
    // A record's kind is unknown, an unnamed byte of it is set, or its deallocate attribute is above 1.
    UnknownRecord = 11,
    // A file does not end with a whole record.
    PartOfRecord = 12,
    // A page that is read is not 512 bytes.
    ReadLength = 13,
    // Its version or GUID is another.
    ReadIdentity = 14,
    // It breaks a rule of the layout.
    ReadLayout = 15,
    // A number is not whole, or no completion has it.
    NotACompletion = 16,
}

impl From<Refusal> for u8 {
    ghost use Rattle.std.specs.Prelude.{◌≡◌};
    ghost use Rattle.refusals.specs.Refusals.{number_of};

    ghost from_gives = { λ refusal number. number ≡ number_of refusal };

    fn from(refusal: Refusal) -> u8 {
        refusal as u8
    }
}
