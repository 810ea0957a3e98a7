//! From the text of a file to its accepted program, or to the first reason why there is none.
#![tactic(auto)]

mod fault;
mod loading;
mod refusal;

pub use fault::{NameFault, RuleFault};
pub use loading::load;
pub use refusal::{LoadErr, Refusal, line, status};
