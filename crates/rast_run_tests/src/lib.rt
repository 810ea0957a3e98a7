//! Tests of runs in several orders, of programs that are read from texts: the crates `rast_core` and
//! `rast_report`, over what `rast_accept` loads. They stand apart, since a crate that has tests is
//! proved twice.
#![tactic(auto)]

#[cfg(test)]
mod orders;
#[cfg(test)]
mod replay;
#[cfg(test)]
mod texts;
