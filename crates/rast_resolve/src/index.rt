// Names in order, with the place of the first of each.
ghost use Rattle.std.specs.Prelude.{◌≡◌, ◌<◌, [], ◌∷◌, ◌++◌, length, IfOk, IfSome, OnOk};
ghost use Rattle.rast_resolve.specs.Lists.{is_among, place_of, once_from};

use crate::maps::put;
use rast_ast::Name;
use sqlite_items::Items;
use std::alloc::{AllocError, Global};
use std::collections::HashMap;
use std::marker::Model;

/// Names in order, in which the first of a name is found.
#[derive(Drop)]
pub(crate) struct Index {
    names: Items<Name>,
    /// For each name its first place.
    places: HashMap<Vec<u8>, usize>,
}

impl Model for Index {
    ghost use Rattle.std.specs.Prelude.{List, ℕ};
    ghost use Rattle.rast_resolve.specs.Maps.{FindsFirst};

    ghost Value = { List (List ℕ) };

    ghost view = { λ i. i.names };

    ghost invariant = { λ i. FindsFirst i.places i.names };
}

impl Index {
    // No names.
    pub fn new(alloc: Global) -> Index
        ensures { result ≡ [] }
    {
        Index {
            names: Items::new(alloc),
            places: HashMap::new(alloc),
        }
    }

    // One name.
    pub fn alone(alloc: Global, name: &Name) -> Result<Index, AllocError>
        ensures { IfOk result (λ names. names ≡ name.now ∷ []) }
    {
        let mut names = Index::new(alloc);
        match names.push(alloc, name) {
            Ok(()) => Ok(names),
            Err(e) => {
                drop(names);
                Err(e)
            }
        }
    }

    // The place of the first such name.
    pub fn place(&self, name: &Name) -> Option<usize>
        ensures place { result ≡ place_of name.now self.now }
        ensures within { IfSome result (λ k. k < length self.now) }
    {
        self.places.get(name.as_bytes()).copied()
    }

    // Whether the name is there.
    pub fn has(&self, name: &Name) -> bool
        ensures { result ≡ is_among name.now self.now }
    {
        self.places.contains_key(name.as_bytes())
    }

    // A further name.
    pub fn push(&mut self, alloc: Global, name: &Name) -> Result<(), AllocError>
        ensures { OnOk result (self.new ≡ self.old ++ name.now ∷ []) }
    {
        let place = self.names.len();
        self.names.push(Name::new(alloc, name.as_bytes())?)?;
        if self.places.contains_key(name.as_bytes()) {
            return Ok(());
        }
        match put(alloc, &mut self.places, name, place) {
            Ok(()) => Ok(()),
            Err(e) => {
                let _ = self.names.pop();
                Err(e)
            }
        }
    }

    // A further name, where it isn't there yet.
    pub fn push_once(&mut self, alloc: Global, name: &Name) -> Result<(), AllocError>
        ensures { OnOk result (self.new ≡ once_from self.old (name.now ∷ [])) }
    {
        if self.has(name) {
            return Ok(());
        }
        self.push(alloc, name)?;
        Ok(())
    }

    // How many names there are.
    pub fn len(&self) -> usize
        ensures { result ≡ length self.now }
    {
        self.names.len()
    }

    // The names.
    pub fn into_names(self) -> Items<Name>
        ensures { result ≡ self }
    {
        let Index { names, .. } = self;
        names
    }
}
