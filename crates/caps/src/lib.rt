// The clash rule of caps: in each group, the teams of a capped association number at most its cap.
#![tactic(auto)]

mod caps;
mod mates;
mod rule;

pub use caps::Caps;
