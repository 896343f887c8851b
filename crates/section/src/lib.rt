// A section through a floor: its shape and its records.
#![tactic(auto)]

pub mod limits;
pub mod make;
pub mod print;
pub mod read;
pub mod rows;
pub mod types;
