//! Programs that are well made: all numbers are in range, all variables and channels in scope, and the nodes are a forest.
#![tactic(auto)]

mod labels;
mod names;
mod node;
mod places;
mod program;
mod quantifiers;
mod said;
mod scope;
mod tables;

pub use program::well_made;
