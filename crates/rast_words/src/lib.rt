//! What the words of a command line ask for, by `clap`.
#![tactic(auto)]

mod asked;
mod command_line;
mod matched;

pub use asked::{BUDGET, Command};
pub use command_line::{WordsErr, command};
