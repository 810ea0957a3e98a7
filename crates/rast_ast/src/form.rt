// Formulas.
use crate::term::Lin;
use sqlite_items::{Boxed, Items};

/// The sign of a relation between two linear terms.
#[derive(Clone, Copy, Debug, PartialEq, Eq)]
pub enum Rel {
    /// `=`
    Eq,
    /// `<>`
    Ne,
    /// `<`
    Lt,
    /// `<=`
    Le,
    /// `>`
    Gt,
    /// `>=`
    Ge,
}

/// A formula.
#[cycle(form)]
#[derive(Debug, Drop)]
pub enum Form {
    /// A disjunction alone.
    Plain(Disjunction),
    /// `F => G`
    Implies(Disjunction, Boxed<Form>),
}

/// Conjunctions joined by `\/`: the first, and the further ones.
#[cycle(form)]
#[derive(Debug, Drop)]
pub struct Disjunction {
    pub first: Conjunction,
    pub rest: Items<Conjunction>,
}

/// Literals joined by `/\`: the first, and the further ones.
#[cycle(form)]
#[derive(Debug, Drop)]
pub struct Conjunction {
    pub first: Boxed<Literal>,
    pub rest: Items<Literal>,
}

/// A member of a conjunction.
#[cycle(form)]
#[derive(Debug, Drop)]
pub enum Literal {
    /// `~ F`
    Not(Boxed<Literal>),
    /// `[F]`
    Group(Boxed<Form>),
    /// `true`
    True,
    /// `false`
    False,
    /// `k | e`
    Divides(u32, Lin),
    /// `e = f`, and the other relations
    Related(Lin, Rel, Lin),
}
