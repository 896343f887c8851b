// The equations of a plan laid out for walking: each free cell's five-point stencil.
#![tactic(auto)]

mod kept;
pub mod laid;
pub mod lay;
pub mod side;
pub mod sides;
pub mod types;
