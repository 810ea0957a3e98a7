// What a search for equations comes to.
ghost use Rattle.std.specs.Prelude.{◌≡◌};
ghost use Rattle.rast_eqfind.specs.declared.finding.Finding.TheVariants.{Stopped};
ghost use Rattle.rast_eqfind.specs.declared.finding.Halt.TheVariants.{Ends};

use rast_equal::Part;
use rast_types::{Equation, Ref, Stop};
use sqlite_items::Items;
use std::alloc::{AllocError, AllocFailed};

/// What the search for equations by which two types are the same comes to.
#[derive(Drop)]
pub enum Finding {
    /// They are the same by these references, where these equations stand behind those that were known.
    Found {
        /// The new equations.
        added: Items<Equation>,
        /// The references for both types.
        refs: Items<Ref>,
    },
    /// They differ at these values of so many variables.
    Different {
        /// The parts that lead there, through the equations.
        path: Items<Part>,
        /// How many variables are in scope there.
        vars: u8,
        /// Their values; those past `vars` are 0.
        values: [u128; 16],
    },
    /// A new equation would be needed after these 256.
    EqBound {
        /// The new equations. Those that were walked whole have their references, and the others none.
        equations: Items<Equation>,
    },
    /// A bound was reached.
    Stopped {
        /// Which one.
        stop: Stop,
    },
}

/// Why a search ends early.
#[derive(Drop)]
pub(crate) enum Halt {
    /// It comes to this.
    Ends(Finding),
    /// Want of memory.
    Memory,
}

impl From<AllocError> for Halt {
    ghost use Rattle.std.specs.Prelude.{◌≡◌};
    ghost use Rattle.rast_eqfind.specs.declared.finding.Halt.TheVariants.{Memory};

    ghost from_gives = { λ _ e. e ≡ Memory };

    fn from(_: AllocError) -> Halt {
        Halt::Memory
    }
}

impl<T: Drop> From<AllocFailed<T>> for Halt {
    ghost use Rattle.std.specs.Prelude.{◌≡◌};
    ghost use Rattle.rast_eqfind.specs.declared.finding.Halt.TheVariants.{Memory};

    ghost from_gives = { λ _ e. e ≡ Memory };

    fn from(_: AllocFailed<T>) -> Halt {
        Halt::Memory
    }
}

/// The search ends at this bound.
pub(crate) fn stopped(stop: Stop) -> Halt
    ensures { result ≡ Ends (Stopped stop) }
{
    Halt::Ends(Finding::Stopped { stop })
}
