// What the calls answer.
use rast_items::{Event, Link, Pid};
use std::alloc::{AllocError, AllocFailed};

/// What a process does next.
#[derive(Clone, Copy, Debug, PartialEq, Eq)]
pub enum Next {
    /// This event.
    Ready(Event),
    /// It needs a message on this link, and there is none.
    Waits(Link),
    /// It would need this index value, which is 2^64 or more.
    Halted(u128),
    /// There is no such process.
    Ended,
}

/// How far a run has come.
#[derive(Clone, Copy, Debug, PartialEq, Eq)]
pub enum Outcome {
    /// Some process has an event, and the budget isn't used.
    Running,
    /// No process has an event and none is halted; each item waits for a client then.
    Finished,
    /// The budget is used, and some process has an event.
    OutOfBudget,
    /// No process has an event, and this is the first in the list that is halted, at this value.
    IndexLimit { pid: Pid, value: u128 },
}

/// What lies ahead of a configuration.
#[derive(Clone, Copy, Debug, PartialEq, Eq)]
pub enum Ahead {
    /// This is the first process in the list that has an event.
    Event(Pid),
    /// No process has an event, and this is the first in the list that is halted, at this value.
    Limit { pid: Pid, value: u128 },
    /// No process has an event and none is halted.
    Nothing,
}

/// Why a list of picks isn't replayed.
#[derive(Clone, Copy, Debug, PartialEq, Eq)]
pub enum ReplayErr {
    /// The process of this pick, counted from 0, has no event.
    At { place: u32 },
    /// There is no memory.
    Memory,
}

impl From<AllocError> for ReplayErr {
    ghost use Rattle.std.specs.Prelude.{◌≡◌};
    ghost use Rattle.rast_core.specs.declared.answer.ReplayErr.TheVariants.{Memory};

    ghost from_gives = { λ _ e. e ≡ Memory };

    fn from(_: AllocError) -> ReplayErr {
        ReplayErr::Memory
    }
}

impl<T: Drop> From<AllocFailed<T>> for ReplayErr {
    ghost use Rattle.std.specs.Prelude.{◌≡◌};
    ghost use Rattle.rast_core.specs.declared.answer.ReplayErr.TheVariants.{Memory};

    ghost from_gives = { λ _ e. e ≡ Memory };

    fn from(_: AllocFailed<T>) -> ReplayErr {
        ReplayErr::Memory
    }
}
