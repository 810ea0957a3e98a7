//! The search for equations by which two types are the same.
#![tactic(auto)]

mod arguments;
mod choice;
mod finding;
mod make;
mod read;
mod search;
mod seek;
mod walk;

pub use finding::Finding;
pub use seek::find;
