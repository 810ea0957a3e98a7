//! Reads the file that a text is.
#![tactic(auto)]

mod built;
mod fault;
mod form;
mod text_file;

pub use built::unbuilt;
pub use fault::{TextFault, line, status};
pub use form::{FormErr, read_built};
pub use text_file::{TextErr, read};
