// The rules of the monitor on plain values: settings, commands, counting and time, and what is answered.
#![tactic(auto)]

pub mod answers;
pub mod commands;
pub mod counting;
pub mod kinds;
pub mod settings;
pub mod timer;
