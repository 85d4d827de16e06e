// The clash rule of listed pairs: no listed pair has both its teams in one group.
#![tactic(auto)]

mod pairs;
mod rule;

pub use pairs::Pairs;
