// What proposed temperatures and a majorant are worth: rest, margin and spread.
#![tactic(auto)]

pub mod at;
pub mod grids;
pub mod measure;
