//! The program that the names of a file of the grammar resolve to is well made, and within limits, as functions without code whose
//! contracts are the laws.
#![tactic(auto)]

mod law;
mod limits;

pub use law::meant_law;
pub use limits::limits_law;
