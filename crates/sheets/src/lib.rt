// The sheet record: what a sheet says of the draw, and what one more record makes of it.
#![tactic(auto)]

mod put;
mod sheet;
mod whole;

pub use sheet::{Entrant, Sheet};
