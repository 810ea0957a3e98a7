//! Obligations and their verdicts: equal ones have one number and are decided once.
#![tactic(auto)]

mod code;
mod memo;
mod obligation;

pub use memo::Memo;
pub use obligation::Obligation;
