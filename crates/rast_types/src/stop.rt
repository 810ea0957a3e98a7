// Bounds that stop a check.

/// The bound that was reached.
#[derive(Clone, Copy)]
pub enum Stop {
    /// A decision would visit more than 1,048,576 states.
    NodeLimit,
    /// A decision met a number beyond 2^120 in magnitude.
    NumberLimit,
    /// A coefficient or constant would have magnitude 2^32 or more.
    Coefficient,
    /// There would be more than 16 index variables.
    Variables,
    /// There would be more than 16 channels.
    Channels,
}
