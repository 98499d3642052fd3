// Event files: records of 16 bytes, the calls that they stand for, and what these make of a monitor.
#![tactic(auto)]

mod blocks;
mod explain;
mod files;
mod stretch;

pub use blocks::{Block, end_line, replay_block};
pub use explain::{Explanation, Question, Said, explained_line, numbered};
pub use files::{RefusedRecord, Stop, left_over, replay, run};
pub use records::{Event, RecordAnswer, apply};
pub use stretch::timed;
