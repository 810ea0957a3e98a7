// What is known of a whole file from its beginning.
ghost use Rattle.std.specs.Prelude.{◌≡◌, ◌+◌, IfOk};

use crate::index::Index;
use rast_ast::Name;
use sqlite_items::Items;
use std::alloc::AllocError;

// A number of the program's tables: there is no memory for more than 2^32 entries.
pub(crate) fn narrow(number: usize) -> Result<u32, AllocError>
    ensures { IfOk result (λ n. n ≡ number) }
{
    match u32::try_from(number) {
        Ok(number) => Ok(number),
        Err(_) => Err(AllocError),
    }
}

// The sum of two numbers of the program's tables.
pub(crate) fn plus(a: u32, b: u32) -> Result<u32, AllocError>
    ensures { IfOk result (λ sum. sum ≡ a + b) }
{
    match a.checked_add(b) {
        Some(sum) => Ok(sum),
        None => Err(AllocError),
    }
}

/// What a declaration says of its process.
#[derive(Clone, Copy)]
pub(crate) struct Counts {
    /// How many index parameters it has.
    pub params: usize,
    /// How many channels it uses.
    pub channels: usize,
}

/// What is known of a whole file.
#[derive(Drop)]
pub(crate) struct Known {
    /// The names of its program by number.
    pub names: Index,
    /// The names of its type definitions.
    pub types: Index,
    /// How many parameters each has.
    pub params: Items<usize>,
    /// The names of its declarations.
    pub decls: Index,
    /// What each says.
    pub counts: Items<Counts>,
    /// The names of its process items.
    pub procs: Index,
    /// For each declaration the number of the first node of its body.
    pub starts: Items<u32>,
}

impl Known {
    ghost use Rattle.rast_resolve.specs.Scopes.{number_in};
    ghost use Rattle.rast_resolve.specs.Bodies.{is_process, declared, decl_number, body_start};

    // The names of its program by number.
    pub fn into_names(self) -> Items<Name>
        ensures { result ≡ self.names }
    {
        let Known { names, .. } = self;
        names.into_names()
    }

    // The number of a name; 0 where the program has no such name.
    pub fn number(&self, name: &Name) -> Result<u32, AllocError>
        ensures { IfOk result (λ number. number ≡ number_in self.now.names name.now) }
    {
        match self.names.place(name) {
            Some(place) => narrow(place),
            None => Ok(0),
        }
    }

    // Whether a declaration or a process item has this name.
    pub fn is_process(&self, name: &Name) -> bool
        ensures { result ≡ is_process self.now name.now }
    {
        self.decls.has(name) || self.procs.has(name)
    }

    // What the declaration of this name says.
    pub fn declared(&self, name: &Name) -> Option<Counts>
        ensures { result ≡ declared self.now name.now }
    {
        match self.decls.place(name) {
            Some(place) => self.counts.get(place).copied(),
            None => None,
        }
    }

    // The number of the declaration of this name; where there is none, the number of declarations.
    pub fn decl_number(&self, name: &Name) -> Result<u32, AllocError>
        ensures { IfOk result (λ number. number ≡ decl_number self.now name.now) }
    {
        match self.decls.place(name) {
            Some(place) => narrow(place),
            None => narrow(self.decls.len()),
        }
    }

    // The number of the first node of the body of this name; 0 where it has no declaration.
    pub fn body_start(&self, name: &Name) -> u32
        ensures { result ≡ body_start self.now name.now }
    {
        match self.decls.place(name) {
            Some(place) => self.starts.get(place).copied().unwrap_or(0),
            None => 0,
        }
    }
}
