// Items of a configuration.
use crate::message::Msg;
use crate::process::Proc;

/// A process or a message.
#[derive(Clone, Copy)]
pub enum Item {
    /// A process.
    Proc(Proc),
    /// A message.
    Msg(Msg),
}
