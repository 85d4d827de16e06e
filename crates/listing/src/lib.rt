// A sheet record as text: its listing for people, and its one line for programs.
#![tactic(auto)]

mod line;
mod page;
mod words;

pub use line::Line;
pub use page::Listing;
