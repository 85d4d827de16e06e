// What a clash rule is, the rule made of two, and which full draws a rule admits.
#![tactic(auto)]

mod admissible;
mod both;
mod rule;

pub use admissible::is_admissible;
pub use both::Both;
pub use rule::ClashRule;
