// How a call is refused: a number, a place and a level.
#![tactic(auto)]

pub mod print;
pub mod told;
pub mod types;
