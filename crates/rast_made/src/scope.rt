// What is in scope at a node.

/// How many index variables are in scope at a node, and the number that the next channel has.
#[derive(Clone, Copy)]
pub(crate) struct Scope {
    /// How many variables are in scope.
    pub vars: u128,
    /// The channels in scope have the numbers below this.
    pub channels: u128,
}
