// The names of the items before.
ghost use Rattle.std.specs.Prelude.{◌≡◌, OnOk};
ghost use Rattle.rast_resolve.specs.Programs.{none_seen, seen_with};

use crate::index::Index;
use rast_ast::Item;
use std::alloc::{AllocError, Global};

/// The names of the items before.
#[derive(Drop)]
pub(crate) struct Seen {
    /// Of the type definitions.
    pub types: Index,
    /// Of the declarations.
    pub decls: Index,
    /// Of the process items.
    pub procs: Index,
    /// Whether something is executed.
    pub exec: bool,
}

impl Seen {
    // No items.
    pub fn none(alloc: Global) -> Seen
        ensures { result ≡ none_seen }
    {
        Seen {
            types: Index::new(alloc),
            decls: Index::new(alloc),
            procs: Index::new(alloc),
            exec: false,
        }
    }

    // A further item.
    pub fn add(&mut self, alloc: Global, item: &Item) -> Result<(), AllocError>
        ensures { OnOk result (self.new ≡ seen_with item.now self.old) }
    {
        match item {
            Item::Def { name, .. } => self.types.push(alloc, name),
            Item::Decl { name, .. } => self.decls.push(alloc, name),
            Item::Proc { name, .. } => self.procs.push(alloc, name),
            Item::Eq { .. } => Ok(()),
            Item::Exec { .. } => {
                self.exec = true;
                Ok(())
            }
        }
    }
}
