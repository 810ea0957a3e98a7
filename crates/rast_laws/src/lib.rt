//! What holds after every run of an accepted program, as a function without code whose contract is the law.
#![tactic(auto)]

mod law;

pub use law::sound_law;
