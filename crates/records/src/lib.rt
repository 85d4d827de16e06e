// The records of a sheet: what the bytes at its front say, before they are compared with the shape.
#![tactic(auto)]

mod item;
mod refusal;

pub use item::{Record, record_at};
pub use refusal::{SheetFault, SheetRefusal};
