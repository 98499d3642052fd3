// The latency monitor: its record, and the calls that take the record and hand back the next one.
#![tactic(auto)]

mod reasons;
mod record;
mod report;
mod windows;

pub use logpage::Refusal;
pub use reasons::Reason;
pub use record::{Monitor, Outcome};
pub use rules::answers::{CompletionAnswer, ElapsedAnswer};
pub use rules::commands::Command;
pub use windows::WindowChoice;
