// Refusals of the calls on terms and formulas.
use std::alloc::{AllocError, AllocFailed};

/// A number of the result would have magnitude 2^32 or more.
#[derive(Clone, Copy, Debug, PartialEq, Eq)]
pub struct Coefficient;

/// Why a term, a formula or a type was not made.
#[derive(Clone, Copy, Debug, PartialEq, Eq)]
pub enum IndexErr {
    /// A number of the result would have magnitude 2^32 or more.
    Coefficient,
    /// A variable of the result would have the number 16 or more.
    Variables,
    /// Memory ran out.
    Memory,
}

impl From<Coefficient> for IndexErr {
    ghost use Rattle.std.specs.Prelude.{◌≡◌};
    ghost use Rattle.rast_index.specs.declared.refusal.IndexErr.TheVariants.{Coefficient};

    ghost from_gives = { λ _ e. e ≡ Coefficient };

    fn from(_: Coefficient) -> IndexErr {
        IndexErr::Coefficient
    }
}

impl From<AllocError> for IndexErr {
    ghost use Rattle.std.specs.Prelude.{◌≡◌};
    ghost use Rattle.rast_index.specs.declared.refusal.IndexErr.TheVariants.{Memory};

    ghost from_gives = { λ _ e. e ≡ Memory };

    fn from(_: AllocError) -> IndexErr {
        IndexErr::Memory
    }
}

impl<T: Drop> From<AllocFailed<T>> for IndexErr {
    ghost use Rattle.std.specs.Prelude.{◌≡◌};
    ghost use Rattle.rast_index.specs.declared.refusal.IndexErr.TheVariants.{Memory};

    ghost from_gives = { λ _ e. e ≡ Memory };

    fn from(_: AllocFailed<T>) -> IndexErr {
        IndexErr::Memory
    }
}
