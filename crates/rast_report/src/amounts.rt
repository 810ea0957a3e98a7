// What messages hold, by their links.
ghost use Rattle.std.specs.Prelude.{◌≡◌, OnOk, List, [], ◌∷◌};
ghost use Rattle.rast_core.specs.Words.{Event};
ghost use Rattle.rast_report.specs.Amounts.{AreKept, Keeps, key, kept_on};

use rast_items::{Event, Link};
use std::alloc::{AllocError, Global};
use std::collections::BTreeMap;

/// The potential of each message that was sent, by its link, and by that to which it was handed on.
#[derive(Drop)]
pub(crate) struct Amounts {
    kept: BTreeMap<(u32, u32), u128>,
}

impl Amounts {
    /// Before the first event.
    pub(crate) fn new(alloc: Global) -> Amounts
        ensures { AreKept result [] }
    {
        Amounts {
            kept: BTreeMap::new(alloc),
        }
    }

    /// What the message on a link holds.
    pub(crate) fn on(&self, link: Link) -> u128
        ensures { result ≡ kept_on self.now link }
    {
        match self.kept.get(&key(link)) {
            Some(amount) => *amount,
            None => 0,
        }
    }

    /// One more event came.
    pub(crate) fn see(&mut self, event: &Event) -> Result<(), AllocError>
        ensures { (past : List Event) → AreKept self.old past → OnOk result (AreKept self.new (event.now ∷ past)) }
    {
        match *event {
            Event::Send {
                link,
                potential,
                ..
            } => self.keep(link, potential),
            Event::Move { from, to, .. } => {
                let amount = self.on(from);
                self.keep(to, amount)
            }
            _ => Ok(()),
        }
    }

    fn keep(&mut self, link: Link, amount: u128) -> Result<(), AllocError>
        ensures { OnOk result (Keeps self.old self.new link amount) }
    {
        let _before = self.kept.insert(key(link), amount)?;
        Ok(())
    }
}

/// A link as a key.
pub(crate) fn key(link: Link) -> (u32, u32)
    ensures { result ≡ key link }
{
    (link.session.0, link.index)
}
