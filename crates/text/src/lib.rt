// What the programs print: refused lines, a number alone, a page in hex, and a page's counters.
#![tactic(auto)]

mod lines;
mod listing;
mod pages;

pub use lines::{LINE, Line, no_line, number_line, refused_line, refused_record};
pub use listing::{Listing, page_listing};
pub use pages::{Text, page_text};
