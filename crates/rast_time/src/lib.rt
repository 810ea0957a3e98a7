//! Time: the ticks that pass before a type's head, and the type after a delay.
#![tactic(auto)]

mod outside;
mod shifting;
mod ticks;

pub use outside::{definition, next_of};
pub use shifting::shift;
pub use ticks::{lasts, now};
