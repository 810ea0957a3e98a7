// Names that are bound, the oldest first.
ghost use Rattle.std.specs.Prelude.{◌≡◌, ◌<◌, [], ◌∷◌, ◌++◌, length, take, OnOk, ◌-◌};
ghost use Rattle.rast_resolve.specs.Lists.{newest_of, is_among};

use crate::maps::{put, replace};
use rast_ast::Name;
use sqlite_items::Items;
use std::alloc::{AllocError, Global};
use std::collections::HashMap;
use std::marker::Model;

/// Bound names, the oldest first: a later one hides an older one of the same name.
#[derive(Drop)]
pub(crate) struct Bindings {
    names: Items<Name>,
    /// For each name the place of the one that it hides.
    hidden: Items<Option<usize>>,
    /// For each name the place of its newest binding.
    places: HashMap<Vec<u8>, usize>,
}

impl Model for Bindings {
    ghost use Rattle.std.specs.Prelude.{◌≡◌, List, ℕ};
    ghost use Rattle.rast_resolve.specs.Maps.{FindsNewest, hides};

    ghost Value = { List (List ℕ) };

    ghost view = { λ b. b.names };

    ghost invariant = { λ b. FindsNewest b.places b.names × (b.hidden ≡ hides b.names) };
}

impl Bindings {
    // No names.
    pub fn new(alloc: Global) -> Bindings
        ensures { result ≡ [] }
    {
        Bindings {
            names: Items::new(alloc),
            hidden: Items::new(alloc),
            places: HashMap::new(alloc),
        }
    }

    // Binds a name.
    pub fn push(&mut self, alloc: Global, name: &Name) -> Result<(), AllocError>
        ensures { OnOk result (self.new ≡ self.old ++ name.now ∷ []) }
    {
        let place = self.names.len();
        let hidden = self.places.get(name.as_bytes()).copied();
        let copy = Name::new(alloc, name.as_bytes())?;
        self.hidden.push(hidden)?;
        match self.names.push(copy) {
            Ok(()) => (),
            Err(e) => {
                let _ = self.hidden.pop();
                return Err(e);
            }
        }
        match put(alloc, &mut self.places, name, place) {
            Ok(()) => Ok(()),
            Err(e) => {
                let _ = self.hidden.pop();
                let _ = self.names.pop();
                Err(e)
            }
        }
    }

    // Frees the newest name.
    fn pop(&mut self)
        ensures { self.new ≡ take (length self.old - 1) self.old }
    {
        if let Some(name) = self.names.pop() {
            if let Some(hidden) = self.hidden.pop() {
                replace(&mut self.places, &name, hidden);
            }
        }
    }

    // Frees all names but the oldest ones.
    pub fn truncate(&mut self, kept: usize)
        ensures { self.new ≡ take kept self.old }
    {
        while self.names.len() > kept {
            self.pop();
        }
    }

    // The place of the newest binding of a name.
    pub fn newest(&self, name: &Name) -> Option<usize>
        ensures place { result ≡ newest_of name.now self.now }
    {
        self.places.get(name.as_bytes()).copied()
    }

    // Whether the name is bound.
    pub fn has(&self, name: &Name) -> bool
        ensures { result ≡ is_among name.now self.now }
    {
        self.places.contains_key(name.as_bytes())
    }

    // How many names are bound.
    pub fn len(&self) -> usize
        ensures { result ≡ length self.now }
    {
        self.names.len()
    }
}
