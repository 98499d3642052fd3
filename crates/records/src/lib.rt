// One record of an event file: the call that 16 bytes stand for, and its answer.
#![tactic(auto)]

mod answers;
mod calls;
mod event;

pub use answers::RecordAnswer;
pub use calls::apply;
pub use event::{Event, RECORD, command, completion};
