// A place in a process term.
ghost use Rattle.std.specs.Prelude.{◌≡◌, OnOk};
ghost use Rattle.rast_resolve.specs.Answers.{Gives};
ghost use Rattle.rast_resolve.specs.Bodies.{channel_of, channels_of, with_channel, with_variable};

use crate::bindings::Bindings;
use crate::fault::{NameErr, unknown};
use crate::known::narrow;
use rast_ast::Name;
use sqlite_items::Items;
use std::alloc::{AllocError, Global};

/// What is in scope at a place in a process term.
#[derive(Drop)]
pub(crate) struct Place {
    /// The index variables, by number.
    pub vars: Bindings,
    /// The channels, by number: the provided one, the used ones of the head, and what is bound on the branch.
    pub channels: Bindings,
}

impl Place {
    // Binds a channel.
    pub fn bind_channel(&mut self, alloc: Global, name: &Name) -> Result<(), AllocError>
        ensures { OnOk result (self.new ≡ with_channel name.now self.old) }
    {
        self.channels.push(alloc, name)
    }

    // Binds an index variable.
    pub fn bind_variable(&mut self, alloc: Global, name: &Name) -> Result<(), AllocError>
        ensures { OnOk result (self.new ≡ with_variable name.now self.old) }
    {
        self.vars.push(alloc, name)
    }

    // The number of a channel.
    pub fn channel_number(&self, alloc: Global, name: &Name) -> Result<u32, NameErr>
        ensures { Gives (channel_of self.now.channels name.now) result }
    {
        match self.channels.newest(name) {
            Some(number) => Ok(narrow(number)?),
            None => Err(unknown(alloc, name)),
        }
    }

    // The numbers of channels.
    pub fn channel_numbers(&self, alloc: Global, names: &[Name]) -> Result<Items<u32>, NameErr>
        ensures { Gives (channels_of self.now.channels names.now) result }
    {
        let mut out = Items::new(alloc);
        for name in names {
            out.push(self.channel_number(alloc, name)?)?;
        }
        Ok(out)
    }
}
