//! Tests of the crates from a text's tokens to its formulas and types, and of the crate of files. They
//! need values of Rust; what a file, a formula and a command line show stands in the case files of
//! `rast_rows`. They stand apart, since a crate that has tests is proved twice.
#![tactic(auto)]

#[cfg(test)]
mod cooper;
#[cfg(test)]
mod decide;
#[cfg(test)]
mod files;
#[cfg(test)]
mod index;
#[cfg(test)]
mod laws;
#[cfg(test)]
mod parse;
#[cfg(test)]
mod tokens;
#[cfg(test)]
mod types;
#[cfg(test)]
mod written;
