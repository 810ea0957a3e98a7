//! Reads a file, or a formula, from its tokens.
#![tactic(auto)]

mod cursor;
mod file;
mod formula;
mod linear;
mod outcome;
mod process;
mod statement;
mod type_expr;

pub use outcome::{ParseErr, parse, parse_form};
