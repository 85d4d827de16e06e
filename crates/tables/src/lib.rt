// The table of a draw: a set of placements, in which a team has at most one group, and a group at most one team of
// each pot.
#![tactic(auto)]

mod compare;
mod place;
mod seats;
mod table;

pub use table::Table;
