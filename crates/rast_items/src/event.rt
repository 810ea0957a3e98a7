// Events of a run.
use crate::link::{Link, Pid};
use crate::message::Body;

/// One step of one process. `moment` is the process's moment after the event, and at `Move` the message's.
#[derive(Clone, Copy, Debug, PartialEq, Eq)]
pub enum Event {
    /// A message was sent.
    Send {
        pid: Pid,
        link: Link,
        body: Body,
        moment: u128,
        potential: u128,
    },
    /// A message was taken.
    Take {
        pid: Pid,
        link: Link,
        body: Body,
        moment: u128,
    },
    /// A forward handed a message on and ended.
    Move {
        pid: Pid,
        from: Link,
        to: Link,
        body: Body,
        moment: u128,
    },
    /// A process was made at a declaration.
    Spawn {
        pid: Pid,
        child: Pid,
        decl: u32,
        moment: u128,
    },
    /// The process went on at a declaration.
    Call {
        pid: Pid,
        decl: u32,
        moment: u128,
    },
    /// Potential was spent.
    Work {
        pid: Pid,
        amount: u128,
        moment: u128,
    },
    /// Time passed.
    Delay {
        pid: Pid,
        ticks: u128,
        moment: u128,
    },
}
