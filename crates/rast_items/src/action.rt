// What a process does next.
use crate::link::{Link, Side};
use crate::message::Msg;
use crate::process::Proc;

/// What a process does next, by its node and by what it holds.
#[derive(Clone, Copy)]
pub enum Action {
    /// It sends a message and goes on; after a close no process is left.
    Put { msg: Msg, rest: Option<Proc> },
    /// It takes the message on this link that goes to this side, once there is one.
    Take { link: Link, side: Side },
    /// It hands on a message toward the client on `other`, or one toward the provider on its own link;
    /// until there is one it waits on `wait`.
    Move { other: Link, wait: Link },
    /// It makes a process at a declaration.
    Make { child: Proc, rest: Proc, decl: u32 },
    /// It goes on at a declaration.
    Turn { rest: Proc, decl: u32 },
    /// It spends potential.
    Work { amount: u128, rest: Proc },
    /// It lets time pass.
    Delay { ticks: u128, rest: Proc },
    /// It would need an index value of 2^64 or more.
    Halt { value: u128 },
    /// No rule says what it does. Runs of accepted programs never come to it.
    Breaks,
}
