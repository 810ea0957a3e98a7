// Process terms.
use crate::name::Name;
use crate::term::Lin;
use sqlite_items::{Boxed, Items};

/// A process term: its steps in order, and its end.
#[cycle(process)]
#[derive(Debug, Drop)]
pub struct Proc {
    pub steps: Items<Step>,
    pub end: Boxed<End>,
}

/// A step of a process term.
#[derive(Debug, Drop)]
pub enum Step {
    /// `x.l`
    Label {
        channel: Name,
        label: Name,
    },
    /// `send x w by ..`
    Send {
        channel: Name,
        sent: Name,
        by: Option<By>,
    },
    /// `send x {e}`
    Index {
        channel: Name,
        value: Lin,
    },
    /// `y <- recv x`
    Recv {
        bound: Name,
        channel: Name,
    },
    /// `{n} <- recv x`
    Bind {
        bound: Name,
        channel: Name,
    },
    /// `wait x`
    Wait(Name),
    /// `x <- f{e}.. y.. by ..`
    Spawn {
        bound: Name,
        name: Name,
        args: Items<Lin>,
        used: Items<Name>,
        by: Option<By>,
    },
    /// `work {r}`
    Work(Lin),
    /// `delay {t}`
    Delay(Lin),
    /// `assert x`
    Assert(Name),
    /// `assume x`
    Assume(Name),
    /// `pay x`
    Pay(Name),
    /// `get x`
    Get(Name),
}

/// The end of a process term.
#[cycle(process)]
#[derive(Debug, Drop)]
pub enum End {
    /// `close x`
    Close(Name),
    /// `x <-> y by ..`
    Forward {
        channel: Name,
        other: Name,
        by: Option<By>,
    },
    /// `x <- f{e}.. y.. by ..`
    Call {
        channel: Name,
        name: Name,
        args: Items<Lin>,
        used: Items<Name>,
        by: Option<By>,
    },
    /// `case x (..)`: the first branch, and the further ones.
    Case {
        channel: Name,
        first: Branch,
        rest: Items<Branch>,
    },
    /// `impossible`
    Impossible,
}

/// A branch of a case: `l => ..`.
#[cycle(process)]
#[derive(Debug, Drop)]
pub struct Branch {
    pub label: Name,
    pub body: Proc,
}

/// A list of references: the first, and the further ones.
#[derive(Debug, Drop)]
pub struct By {
    pub first: Ref,
    pub rest: Items<Ref>,
}

/// A reference.
#[derive(Debug, Drop)]
pub enum Ref {
    /// `refl`
    Refl,
    /// `k{e}..`: the number of an equation, and its arguments.
    Equation(u32, Items<Lin>),
}
