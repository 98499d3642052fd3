// Log page C3h: its plain fields, written to bytes and read back.
#![tactic(auto)]

mod fields;
mod page;
mod reader;

pub use fields::{DebugLog, Settings};
pub use page::LogPage;
pub use reader::Reading;
pub use refusals::Refusal;
pub use window::Window;
