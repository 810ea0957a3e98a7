//! Laws of runs, each as a function without code whose contract is the law.
#![tactic(auto)]

mod order;

pub use order::{links_law, numbers_law, order_law};
