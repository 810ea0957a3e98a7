// Where the values at links stand.
ghost use Rattle.std.specs.Prelude.{◌≡◌, IfOk, OnOk, option_copied};
ghost use Rattle.rast_report.specs.Values.{is_client};
ghost use Rattle.rast_report.specs.Providers.{offered, handle_on, Keeps, Notes, FindsAll};

use crate::amounts::key;
use rast_core::{Config, Handle};
use rast_items::{Item, Link, Side};
use std::alloc::{AllocError, Global};
use std::collections::BTreeMap;

/// For each link at which a value stands, where the first item lies that offers it.
#[derive(Drop)]
pub(crate) struct Providers {
    handles: BTreeMap<(u32, u32), Handle>,
}

impl Providers {
    /// Those of a configuration, by one pass.
    pub(crate) fn of(alloc: Global, config: &Config) -> Result<Providers, AllocError>
        ensures { IfOk result (λ table. FindsAll table config.now) }
    {
        let mut table = Providers {
            handles: BTreeMap::new(alloc),
        };
        let mut at = config.first();
        while let Some(handle) = at {
            table.note(config.get(handle), handle)?;
            at = config.after(handle);
        }
        Ok(table)
    }

    /// Where the value at a link stands.
    pub(crate) fn on(&self, link: Link) -> Option<Handle>
        ensures { result ≡ handle_on self.now link }
    {
        self.handles.get(&key(link)).copied()
    }

    // Notes the link that an item offers, if none before offers it.
    fn note(&mut self, item: &Item, handle: Handle) -> Result<(), AllocError>
        ensures { OnOk result (Notes self.old self.new item.now handle) }
    {
        match offered(item) {
            Some(link) => self.keep(link, handle),
            None => Ok(()),
        }
    }

    // Keeps the handle at a link that has none.
    fn keep(&mut self, link: Link, handle: Handle) -> Result<(), AllocError>
        ensures { OnOk result (Keeps self.old self.new link handle) }
    {
        if self.on(link).is_some() {
            return Ok(());
        }
        let _before = self.handles.insert(key(link), handle)?;
        Ok(())
    }
}

// The link at which the item stands for a client.
fn offered(item: &Item) -> Option<Link>
    ensures { result ≡ offered item.now }
{
    match item {
        Item::Proc(proc) => Some(proc.own()),
        Item::Msg(msg) => {
            if is_to_client(msg.toward) {
                Some(msg.link)
            } else {
                None
            }
        }
    }
}

/// Whether a message goes to a client.
fn is_to_client(side: Side) -> bool
    ensures { result ≡ is_client side }
{
    match side {
        Side::Client => true,
        Side::Provider => false,
    }
}
