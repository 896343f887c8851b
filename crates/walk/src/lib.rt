// One walk over a grid, and runs of walks, for every kind of entry.
#![tactic(auto)]

pub mod rule;
pub mod run;
pub mod types;
pub mod walk;
