// Layers: what is laid over a ground, which makes a ground again.
#![tactic(auto)]

pub mod laid;
pub mod layer;
pub mod loss;
pub mod pin;
mod places;
mod scan;
pub mod table;
