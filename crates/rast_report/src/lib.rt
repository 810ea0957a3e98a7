//! The printed value of a configuration, and the report of a run with its trace.
#![tactic(auto)]

mod amounts;
mod printing;
mod providers;
mod summary;
mod sums;
mod text;
mod trace;

pub use printing::value;
pub use summary::report_text;
