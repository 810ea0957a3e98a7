// Where processes come from.
use rast_items::Pid;

/// How a process was made.
#[derive(Clone, Copy, Debug, PartialEq, Eq)]
pub struct Origin {
    /// The process that made it; main's is main.
    pub parent: Pid,
    /// Its number among that process's children, from 1 on; main's is 0.
    pub ordinal: u32,
}
