// Nodes of terms.
use rast_index::Lin;
use rast_types::Ref;
use sqlite_items::Items;

/// One step or end of a term. Channels, names, declarations and nodes are numbers; `next` is the child's node.
/// In a declaration channel 0 is provided, channels 1 and up are the used ones in order,
/// and each binding takes the next number on its branch.
#[derive(Drop)]
pub enum Node {
    /// `x.l`
    Label {
        x: u32,
        label: u32,
        next: u32,
    },
    /// `case x (..)`, each branch a label and a child.
    Case {
        x: u32,
        branches: Items<(u32, u32)>,
    },
    /// `send x w`
    Send {
        x: u32,
        w: u32,
        refs: Items<Ref>,
        next: u32,
    },
    /// `y <- recv x`; `name` is printed for `y`.
    Recv {
        x: u32,
        name: u32,
        next: u32,
    },
    /// `send x {e}`
    Index {
        x: u32,
        value: Lin,
        next: u32,
    },
    /// `{n} <- recv x`; `name` is printed for `n`.
    Bind {
        x: u32,
        name: u32,
        next: u32,
    },
    /// `assert x`
    Assert {
        x: u32,
        next: u32,
    },
    /// `assume x`
    Assume {
        x: u32,
        next: u32,
    },
    /// `pay x`
    Pay {
        x: u32,
        next: u32,
    },
    /// `get x`
    Get {
        x: u32,
        next: u32,
    },
    /// `close x`
    Close {
        x: u32,
    },
    /// `wait x`
    Wait {
        x: u32,
        next: u32,
    },
    /// `x <-> y`
    Forward {
        x: u32,
        y: u32,
        refs: Items<Ref>,
    },
    /// `x <- f{e} ys ; ..`; `name` is printed for `x`.
    Spawn {
        name: u32,
        decl: u32,
        args: Items<Lin>,
        ys: Items<u32>,
        refs: Items<Ref>,
        next: u32,
    },
    /// `x <- f{e} ys` as an end.
    Call {
        x: u32,
        decl: u32,
        args: Items<Lin>,
        ys: Items<u32>,
        refs: Items<Ref>,
    },
    /// `impossible`
    Impossible,
    /// `work {r}`
    Work {
        amount: Lin,
        next: u32,
    },
    /// `delay {t}`
    Delay {
        ticks: Lin,
        next: u32,
    },
}
