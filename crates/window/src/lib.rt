// A window: its plain fields, written to the 186 bytes of a block and read back, with the rules that a block keeps.
#![tactic(auto)]

pub mod block;
pub mod block_reader;
mod fields;

pub use fields::{UNSET, Window};
