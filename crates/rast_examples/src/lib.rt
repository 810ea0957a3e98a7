//! Examples of the definitions that no code computes: right ones, which a definition takes, and wrong ones, each different
//! from a right one in one place, which it refuses. Each row is a clause of a law, as a function without code.
#![tactic(auto)]

mod configuration;
mod run;
mod session;
mod view;

pub use configuration::configurations_law;
pub use run::{ends_law, numbers_law, runs_law};
pub use session::sessions_law;
pub use view::{equality_law, views_law};
