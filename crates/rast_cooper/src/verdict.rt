// What is decided of an obligation.

/// The answer to whether a goal follows from premises.
#[derive(Clone, Copy, Debug, PartialEq, Eq)]
pub enum Verdict {
    /// The goal is true at all naturals at which the premises are.
    Holds,
    /// The premises are true and the goal is false at these naturals.
    Fails {
        /// A natural for each variable, by its number; 0 from the number of variables on.
        values: [u128; 16],
    },
    /// More states would have to be visited than the search may visit.
    NodeLimit,
    /// A number beyond 2^120 in magnitude was met.
    NumberLimit,
}
