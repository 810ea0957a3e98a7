//! A program's tables: names, types, declarations, equations and nodes.
#![tactic(auto)]

mod kids;
mod node;
mod program;
mod texts;

pub use node::Node;
pub use program::{Decl, Program, Said};
pub use texts::{put_decl, put_def, put_name};
