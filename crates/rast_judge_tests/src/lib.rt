//! Tests of the crates that judge programs, of potential and time, and of the beginning of a run.
//! They stand apart, since a crate that has tests is proved twice.
#![tactic(auto)]

#[cfg(test)]
mod check;
#[cfg(test)]
mod equal;
#[cfg(test)]
mod ergo;
#[cfg(test)]
mod items;
#[cfg(test)]
mod laws;
#[cfg(test)]
mod lines;
#[cfg(test)]
mod made;
#[cfg(test)]
mod memo;
#[cfg(test)]
mod rules;
#[cfg(test)]
mod runs;
#[cfg(test)]
mod small;
#[cfg(test)]
mod time;
