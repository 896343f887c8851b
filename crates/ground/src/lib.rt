// Grounds: what describes each cell of a section.
#![tactic(auto)]

pub mod ground;
pub mod listed;
pub mod ring;
pub mod slab;
