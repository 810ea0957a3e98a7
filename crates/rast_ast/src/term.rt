// Linear terms.
use crate::name::Name;
use sqlite_items::{Boxed, Items};

/// The sign between two terms of a sum.
#[derive(Clone, Copy, Debug, PartialEq, Eq)]
pub enum Sign {
    /// `+`
    Plus,
    /// `-`
    Minus,
}

/// A linear term: its first term, and the further ones, each with the sign before it.
#[cycle(lin)]
#[derive(Debug, Drop)]
pub struct Lin {
    pub first: Boxed<Term>,
    pub rest: Items<(Sign, Term)>,
}

/// A term of a sum.
#[cycle(lin)]
#[derive(Debug, Drop)]
pub enum Term {
    /// `k * t`
    Times(u32, Boxed<Term>),
    /// `k`
    Number(u32),
    /// `n`
    Variable(Name),
    /// `(e)`
    Group(Boxed<Lin>),
}
