// Faults in names.
ghost use Rattle.std.specs.Prelude.{Err};
ghost use Rattle.rast_ast.specs.declared.name.Name.{Name};
ghost use Rattle.rast_resolve.specs.Answers.{FailsWith};

use rast_ast::Name;
use std::alloc::{AllocError, AllocFailed, Global};

/// Why a file says no program: the first fault in its text, with its name.
#[derive(Debug, Drop)]
pub enum NameErr {
    /// A type, process, index or channel name that isn't bound there.
    Unknown { name: Name },
    /// A second item of the same name, a second execution, or a name or label twice in one list.
    Twice { name: Name },
    /// A wrong number of arguments, parameters or channels of this name.
    Arity { name: Name },
    /// The executed process has parameters or uses channels.
    BadMain { name: Name },
    /// A limit on parameters, channels, variables or numbers is passed in the item of this name; an equation's is `equation`.
    Limit { name: Name },
    /// Want of memory.
    Memory,
}

impl From<AllocError> for NameErr {
    ghost use Rattle.std.specs.Prelude.{◌≡◌};
    ghost use Rattle.rast_resolve.specs.declared.fault.NameErr.TheVariants.{Memory};

    ghost from_gives = { λ _ e. e ≡ Memory };

    fn from(_: AllocError) -> NameErr {
        NameErr::Memory
    }
}

impl<T: Drop> From<AllocFailed<T>> for NameErr {
    ghost use Rattle.std.specs.Prelude.{◌≡◌};
    ghost use Rattle.rast_resolve.specs.declared.fault.NameErr.TheVariants.{Memory};

    ghost from_gives = { λ _ e. e ≡ Memory };

    fn from(_: AllocFailed<T>) -> NameErr {
        NameErr::Memory
    }
}

// The fault of an unknown name.
pub(crate) fn unknown(alloc: Global, name: &Name) -> NameErr
    ensures { FailsWith (NameErr.Unknown name.now) result }
{
    match Name::new(alloc, name.as_bytes()) {
        Ok(name) => NameErr::Unknown { name },
        Err(_) => NameErr::Memory,
    }
}

// The fault of a name that stands twice.
pub(crate) fn twice(alloc: Global, name: &Name) -> NameErr
    ensures { FailsWith (NameErr.Twice name.now) result }
{
    match Name::new(alloc, name.as_bytes()) {
        Ok(name) => NameErr::Twice { name },
        Err(_) => NameErr::Memory,
    }
}

// The fault of a wrong number of arguments.
pub(crate) fn arity(alloc: Global, name: &Name) -> NameErr
    ensures { FailsWith (NameErr.Arity name.now) result }
{
    match Name::new(alloc, name.as_bytes()) {
        Ok(name) => NameErr::Arity { name },
        Err(_) => NameErr::Memory,
    }
}

// The fault of a limit that is passed in an item.
pub(crate) fn limit(alloc: Global, name: &Name) -> NameErr
    ensures { FailsWith (NameErr.Limit name.now) result }
{
    match Name::new(alloc, name.as_bytes()) {
        Ok(name) => NameErr::Limit { name },
        Err(_) => NameErr::Memory,
    }
}

// The fault of an executed process with parameters or used channels.
pub(crate) fn bad_main(alloc: Global, name: &Name) -> NameErr
    ensures { FailsWith (NameErr.BadMain name.now) result }
{
    match Name::new(alloc, name.as_bytes()) {
        Ok(name) => NameErr::BadMain { name },
        Err(_) => NameErr::Memory,
    }
}
