// Certificates: proposed grids checked, and the brackets that they give.
#![tactic(auto)]

pub mod basis;
pub mod certify;
pub mod count;
mod meet;
mod proposal;
pub mod propose;
