//! Processes, messages and events, and what a step is.
#![tactic(auto)]

mod action;
mod callee;
mod channels;
mod deed;
mod entries;
mod event;
mod item;
mod link;
mod message;
mod process;
mod reading;
mod send;
mod took;

pub use action::Action;
pub use channels::link_of;
pub use deed::next_action;
pub use event::Event;
pub use item::Item;
pub use link::{Link, Pid, Side};
pub use message::{Body, Msg};
pub use process::Proc;
pub use took::after_take;
