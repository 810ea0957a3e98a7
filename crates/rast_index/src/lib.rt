//! Linear index terms and formulas over them: their values and truth, their sums and multiples,
//! and the replacing of variables by terms.
#![tactic(auto)]

mod arithmetic;
mod formula;
mod refusal;
mod substitution;
mod term;
mod value;

pub use arithmetic::{add, scale, sub, subst};
pub use formula::{Formula, Rel};
pub use refusal::{Coefficient, IndexErr};
pub use substitution::subst_formula;
pub use term::Lin;
pub use value::{eval, holds};
