//! `rast decide`: whether the formula that a text is holds.
#![tactic(auto)]

mod decision;
mod line;
mod text;

pub use decision::{Decision, status};
pub use text::{Decided, decide_text};
