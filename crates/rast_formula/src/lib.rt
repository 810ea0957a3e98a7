//! The index terms and formulas that written ones stand for, where names stand for numbered variables.
#![tactic(auto)]

mod formulas;
mod lookup;
mod numbered;
mod refusal;
mod scope;
mod terms;
mod variables;

pub use formulas::formula_of;
pub use lookup::Scope;
pub use numbered::{Numbered, number};
pub use refusal::ScopeErr;
pub use scope::Bound;
pub use terms::linear_of;
