//! The decision of linear formulas over the naturals.
#![tactic(auto)]

mod claim;
mod decision;
mod divisor;
mod explore;
mod literal;
mod number;
mod rewrite;
mod search;
mod solution;
mod term;
mod verdict;

pub use decision::decide;
pub use verdict::Verdict;
