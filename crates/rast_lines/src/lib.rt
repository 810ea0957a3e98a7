//! The lines that are printed where a program isn't accepted.
#![tactic(auto)]

mod evidence;
mod names;
mod place;
mod refusal;
mod scopes;
mod shown;
mod valuation;
mod write;

pub use names::{Names, body_names, names_at, names_below};
pub use refusal::line;
pub use shown::{NameList, Printed};
