// Messages.
use crate::link::{Link, Side};

/// What a message carries.
#[derive(Clone, Copy, Debug, PartialEq, Eq)]
pub enum Body {
    /// A label, by the number of its name.
    Label(u32),
    /// The end of the session.
    End,
    /// A channel, by its link.
    Chan(Link),
    /// A natural.
    Nat(u64),
    /// That a formula is true.
    Assert,
    /// Potential.
    Pay,
}

/// A message on a link.
#[derive(Clone, Copy, Debug, PartialEq, Eq)]
pub struct Msg {
    /// The link on which it was sent.
    pub link: Link,
    /// The link on which the session goes on; at the end it is `link`, and nobody's.
    pub next: Link,
    /// What it carries.
    pub body: Body,
    /// Where it goes.
    pub toward: Side,
    /// When it was sent, in ticks.
    pub moment: u128,
    /// The potential that it holds.
    pub potential: u128,
}
