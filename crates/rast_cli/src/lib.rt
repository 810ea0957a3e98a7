//! The program as one call over the words, the files and the sink.
#![tactic(auto)]

mod answer;
mod check;
mod decide;
mod found;
mod run;
mod said;
mod show;
mod top;
mod without_runs;

pub use answer::Answer;
pub use top::{Exit, rast};
pub use without_runs::rast_static;
