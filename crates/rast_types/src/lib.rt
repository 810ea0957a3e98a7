//! Session types with index terms: definitions, heads, parts, equality and views.
#![tactic(auto)]

mod copy;
mod depth;
mod equation;
mod head;
mod put;
mod stop;
mod table;
mod timing;
mod ty;
mod wide;

pub use copy::copy_terms;
pub use equation::{Equation, Ref};
pub use head::{Exposed, expose, unfold};
pub use stop::Stop;
pub use table::{Ctx, TypeDef, TypeTable};
pub use timing::arrival;
pub use ty::{Kind, Ty};
