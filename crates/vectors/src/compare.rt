// The product's answers, and what it leaves in lent buffers, held against what is expected.
use crate::input::Expected;
use events::RecordAnswer;
use monitor::{Monitor, Refusal, WindowChoice};

// What every byte of a buffer holds when it is lent. It is not zero, so that a byte left unwritten is seen.
const LENT: u8 = 165;

// The longest buffer that a vector lends.
pub const LONGEST: usize = 4200;

// A record's answer as a number: reference/src/vectors.rs has the table.
pub fn coded(answer: Result<RecordAnswer, Refusal>) -> u32 {
    match answer {
        Err(refusal) => 8 * u32::from(u8::from(refusal)),
        Ok(RecordAnswer::Done) => 1,
        Ok(RecordAnswer::NotCounted) => 2,
        Ok(
            RecordAnswer::Counted {
                counter,
                loaded,
                debug,
            },
        ) => 3 + 8 * u32::from(loaded) + 16 * u32::from(debug) + 32 * u32::from(counter),
        Ok(RecordAnswer::Ended(ended)) => 4 + u32::from(ended),
    }
}

// Whether a call refused a lent buffer as expected and left it, or put the expected bytes into it, and zeros behind.
fn agrees<const N: usize>(answer: Result<(), Refusal>, s: &[u8], expected: &Expected<N>) -> bool {
    match (answer, expected) {
        (Ok(()), Ok(bytes)) => s
            .strip_prefix(bytes)
            .is_some_and(|rest| rest.iter().all(|b| *b == 0)),
        (Err(refusal), Err(number)) => u8::from(refusal) == *number && s.iter().all(|b| *b == LENT),
        _ => false,
    }
}

// Whether a call does as expected with a buffer of this length.
pub fn fills<const N: usize, F: FnOnce(&mut [u8]) -> Result<(), Refusal>>(
    call: F,
    n: usize,
    expected: &Expected<N>,
) -> bool
    requires { F.IsAlwaysCallable call }
{
    let mut buffer = [LENT; LONGEST];
    match buffer.get_mut(..n) {
        Some(s) => agrees(call(s), s, expected),
        None => false,
    }
}

// Expected bytes, held against what comes part by part: those still to come; none, once others came.
#[derive(Clone, Copy)]
pub struct Comparison<'a>(Option<&'a [u8]>);

impl<'a> Comparison<'a> {
    pub fn new(expected: &'a [u8]) -> Self {
        Comparison(Some(expected))
    }

    // The next part comes.
    pub fn take(&mut self, part: &[u8]) {
        self.0 = self.0.and_then(|rest| rest.strip_prefix(part));
    }

    // Whether all expected bytes came, and no others.
    pub fn agrees(&self) -> bool {
        self.0.is_some_and(|rest| rest.is_empty())
    }
}

// Whether a window has these counts below A.
pub fn below_a(m: Monitor, window: WindowChoice, expected: &[u8; 12]) -> bool {
    m.below_a(window).map(u32::to_le_bytes).as_flattened() == expected.as_slice()
}
