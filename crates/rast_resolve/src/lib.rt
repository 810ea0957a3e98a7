//! Numbers for names: the program that a file says, or its first fault in names.
#![tactic(auto, using(crate::proofs::Chains::passes, crate::proofs::Chains::fails))]

mod bindings;
mod bodies;
mod callees;
mod facts;
mod fault;
mod gather;
mod headers;
mod index;
mod known;
mod mains;
mod maps;
mod parts;
mod place;
mod program;
mod seen;
mod sizes;
mod steps;
mod tables;
mod terms;
mod types;
mod variables;
mod written;

pub use fault::NameErr;
pub use mains::main_law;
pub use program::{Resolved, resolve};
