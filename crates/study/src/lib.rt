// A study: one ground seen through a pin layer, with what is proved of it.
#![tactic(auto)]

mod event;
pub mod proving;
mod raise;
mod relax;
pub mod study;
mod tighten;
pub mod types;
