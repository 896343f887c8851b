// Calls of a study as data, and a list of them made in order.
#![tactic(auto)]

mod make;
pub mod replay;
pub mod types;
