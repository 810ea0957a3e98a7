// Session types, and the kinds of their heads.
use rast_index::{Formula, Lin};
use sqlite_items::{Boxed, Items};

/// A session type. A bound variable has the number of the variables in scope at its binder.
#[derive(Drop)]
pub enum Ty {
    /// The end of a session.
    One,
    /// Internal choice: the provider sends one of the labels.
    Plus(Items<(u32, Ty)>),
    /// External choice: the client sends one of the labels.
    With(Items<(u32, Ty)>),
    /// The provider sends a channel of the first type and goes on at the second.
    Tensor(Boxed<Ty>, Boxed<Ty>),
    /// The client sends a channel of the first type and goes on at the second.
    Lolli(Boxed<Ty>, Boxed<Ty>),
    /// A definition, by its number, with its arguments.
    Named(u32, Items<Lin>),
    /// The provider sends a natural.
    Ex(Boxed<Ty>),
    /// The client sends a natural.
    All(Boxed<Ty>),
    /// The provider asserts the formula.
    Assert(Formula, Boxed<Ty>),
    /// The client asserts the formula.
    Assume(Formula, Boxed<Ty>),
    /// The provider pays this potential.
    Pays(Lin, Boxed<Ty>),
    /// The client pays this potential.
    Gets(Lin, Boxed<Ty>),
    /// The body, so many ticks later.
    Next(Lin, Boxed<Ty>),
}

/// The kind of a head: of a type that is neither a name nor a next.
#[derive(Clone, Copy)]
pub enum Kind {
    /// Internal choice.
    Plus,
    /// External choice.
    With,
    /// A channel sent by the provider.
    Tensor,
    /// A channel sent by the client.
    Lolli,
    /// The end.
    One,
    /// A natural sent by the provider.
    Ex,
    /// A natural sent by the client.
    All,
    /// A formula asserted by the provider.
    Assert,
    /// A formula asserted by the client.
    Assume,
    /// Potential paid by the provider.
    Pays,
    /// Potential paid by the client.
    Gets,
}
