//! Writes the canonical text of a file, which reads as the same file.
#![tactic(auto)]

mod file;
mod formula;
mod linear;
mod process;
mod put;
mod reading;
mod type_expr;

pub use file::print;
pub use reading::{one_text_law, parsing_law, reading_law};
