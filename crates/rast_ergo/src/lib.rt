//! Potential: what is asked of one who spends it, what is left, and what a gain adds.
#![tactic(auto)]

mod potential;

pub use potential::{affords, empty, gains, spends};
