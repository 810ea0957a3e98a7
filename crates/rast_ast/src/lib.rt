//! Surface trees: what is written in a file, one variant for each alternative of the grammar.
//! Each tree has one list of tokens, and two trees have two.
#![tactic(auto)]

mod file;
mod form;
mod kind;
mod name;
mod process;
mod term;
mod type_expr;

pub use file::{Channel, File, Item};
pub use form::{Conjunction, Disjunction, Form, Literal, Rel};
pub use kind::Kind;
pub use name::Name;
pub use process::{Branch, By, End, Proc, Ref, Step};
pub use term::{Lin, Sign, Term};
pub use type_expr::{Atom, Choice, Prefix, TypeExpr};
