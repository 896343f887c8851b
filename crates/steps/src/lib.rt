// The steps of the walks: relaxing temperatures, raising majorants and tightening brackets.
#![tactic(auto)]

pub mod height;
pub mod print;
pub mod raise;
pub mod relax;
pub mod report;
pub mod rules;
pub mod start;
pub mod sums;
pub mod tighten;
pub mod told;
