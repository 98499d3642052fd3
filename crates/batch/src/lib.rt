// The quick way for a loop over many records, for speed alone: what a call makes of the clock and the timer, and of the
// active window, taken out of the record. No promise to a buyer rests on it (specs/Claims.antt).
#![tactic(auto)]

mod parts;
pub mod passing;
pub mod tally;

pub use parts::{Active, Stamp, Stamped, Time};
