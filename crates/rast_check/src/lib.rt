//! All that a check asks of a program, in order, and its answer.
#![tactic(auto)]

mod answer;
mod body;
mod checked;
mod decision;
mod decls;
mod equations;
mod formed;
mod node;
mod premise;
mod scope;
mod types;
mod walk;

pub use answer::CheckErr;
pub use checked::{Checked, check};
pub use formed::is_formed;
