// Bytes as numbers, the lowest byte first. Knows nothing of the monitor.
#![tactic(auto)]

mod loads;
mod stores;

ghost use Rattle.std.specs.Prelude.{◌≡◌};
ghost use Rattle.endian.specs.Bytes.{word, any_set};

pub use loads::{load, load_fields};
pub use stores::{copy, put, put_fields};

// The number that two bytes make.
pub fn word(low: u8, high: u8) -> u16
    ensures { result ≡ word low high }
{
    u16::from_le_bytes([low, high])
}

// Whether a byte of the slice is not zero. All are looked at, so that many are compared at once.
pub fn any_set(s: &[u8]) -> bool
    ensures { result ≡ any_set s.now }
{
    s.iter().fold(false, |set, b| set | (*b != 0))
}
