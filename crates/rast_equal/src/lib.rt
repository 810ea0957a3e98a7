//! Validity of types, and equality of types by a walk with references to equations.
#![tactic(auto)]

mod answer;
mod demand;
mod equality;
mod equations;
mod law;
mod met;
mod place;
mod references;
mod scope;
mod validity;
mod walk;

pub use answer::{Part, SameErr};
pub use demand::ask_name;
pub use equality::same;
pub use equations::{EquationErr, check_equations, expose_both};
pub use law::equality_law;
pub use met::Met;
pub use place::{Pair, Place, copy_formulas};
pub use references::ask_instance;
pub use scope::{are_closed, is_closed, is_equation_fit, is_formula_fit, is_type_fit};
pub use validity::{TypeErr, validate, validate_type};
pub use walk::{Shown, are_in_order, copy_both, is_name, next, pair, show_heads, timed};
