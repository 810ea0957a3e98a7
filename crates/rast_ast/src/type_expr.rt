// Types.
use crate::form::Form;
use crate::name::Name;
use crate::term::Lin;
use sqlite_items::{Boxed, Items};

/// A type.
#[cycle(type_expr)]
#[derive(Debug, Drop)]
pub enum TypeExpr {
    /// A prefix before a type.
    Prefixed(Prefix, Boxed<TypeExpr>),
    /// An atom alone.
    Atom(Atom),
    /// `A * B`
    Tensor(Atom, Boxed<TypeExpr>),
    /// `A -o B`
    Lolli(Atom, Boxed<TypeExpr>),
}

/// What may stand on the left of `*` and `-o`.
#[cycle(type_expr)]
#[derive(Debug, Drop)]
pub enum Atom {
    /// `1`
    One,
    /// `+{..}`
    Plus(Boxed<Choice>),
    /// `&{..}`
    With(Boxed<Choice>),
    /// `a{e}..`: the name of a definition, and its arguments.
    Named(Name, Items<Lin>),
    /// `(A)`
    Group(Boxed<TypeExpr>),
}

/// The labels of a choice, each with its type: the first, and the further ones.
#[cycle(type_expr)]
#[derive(Debug, Drop)]
pub struct Choice {
    pub label: Name,
    pub body: TypeExpr,
    pub rest: Items<(Name, TypeExpr)>,
}

/// What may stand before a type.
#[derive(Debug, Drop)]
pub enum Prefix {
    /// `?n.`
    Ex(Name),
    /// `!n.`
    All(Name),
    /// `?{F}.`
    Assert(Form),
    /// `!{F}.`
    Assume(Form),
    /// `|{p}>`
    Pays(Lin),
    /// `<{p}|`
    Gets(Lin),
    /// `()`
    NextOne,
    /// `({t})`
    Next(Lin),
}
