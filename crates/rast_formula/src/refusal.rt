// Why a written term or formula stands for none.
use rast_ast::Name;
use rast_index::Coefficient;
use std::alloc::{AllocError, AllocFailed};

/// Why a written term or formula stands for none: the first fault in its text.
#[derive(Debug, Drop)]
pub enum ScopeErr {
    /// No variable in scope has this name.
    Unknown { name: Name },
    /// A variable has the number 16 or more, or a coefficient or constant has magnitude 2^32 or more.
    Limit,
    /// Want of memory.
    Memory,
}

impl From<Coefficient> for ScopeErr {
    ghost use Rattle.std.specs.Prelude.{◌≡◌};
    ghost use Rattle.rast_formula.specs.declared.refusal.ScopeErr.TheVariants.{Limit};

    ghost from_gives = { λ _ e. e ≡ Limit };

    fn from(_: Coefficient) -> ScopeErr {
        ScopeErr::Limit
    }
}

impl From<AllocError> for ScopeErr {
    ghost use Rattle.std.specs.Prelude.{◌≡◌};
    ghost use Rattle.rast_formula.specs.declared.refusal.ScopeErr.TheVariants.{Memory};

    ghost from_gives = { λ _ e. e ≡ Memory };

    fn from(_: AllocError) -> ScopeErr {
        ScopeErr::Memory
    }
}

impl<T: Drop> From<AllocFailed<T>> for ScopeErr {
    ghost use Rattle.std.specs.Prelude.{◌≡◌};
    ghost use Rattle.rast_formula.specs.declared.refusal.ScopeErr.TheVariants.{Memory};

    ghost from_gives = { λ _ e. e ≡ Memory };

    fn from(_: AllocFailed<T>) -> ScopeErr {
        ScopeErr::Memory
    }
}
