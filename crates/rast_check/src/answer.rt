// What a check answers.
use rast_equal::{EquationErr, TypeErr};
use rast_rules::Evidence;
use rast_types::Stop;
use std::alloc::{AllocError, AllocFailed};

/// Why a program isn't accepted: the first place, of types, declarations, equations and nodes in this order,
/// that is false, undecided or over a limit.
#[derive(Drop)]
pub enum CheckErr {
    /// A rule of a type definition is false or undecided.
    BadType {
        /// Which, and why.
        why: TypeErr,
    },
    /// A rule of the types or of the potential of a declaration is false or undecided.
    BadDecl {
        /// The declaration, by its number.
        decl: u32,
        /// Which rule, and why.
        why: TypeErr,
    },
    /// A premise of an equation is false or undecided.
    BadEquation {
        /// Which, and why.
        why: EquationErr,
    },
    /// A premise of a node is false.
    Refused {
        /// The node, by its number.
        node: u32,
        /// The number of the premise.
        premise: u8,
        /// What shows that it is false.
        evidence: Evidence,
    },
    /// A premise of a node is undecided, or can't be made within the bounds.
    Bound {
        /// The node, by its number.
        node: u32,
        /// The number of the premise.
        premise: u8,
        /// The bound.
        stop: Stop,
    },
    /// The judgement of a node is over a limit.
    Limit {
        /// The node, by its number.
        node: u32,
        /// The limit.
        stop: Stop,
    },
    /// Want of memory.
    Memory,
}

impl From<AllocError> for CheckErr {
    ghost use Rattle.std.specs.Prelude.{◌≡◌};
    ghost use Rattle.rast_check.specs.declared.answer.CheckErr.TheVariants.{Memory};

    ghost from_gives = { λ _ e. e ≡ Memory };

    fn from(_: AllocError) -> CheckErr {
        CheckErr::Memory
    }
}

impl<T: Drop> From<AllocFailed<T>> for CheckErr {
    ghost use Rattle.std.specs.Prelude.{◌≡◌};
    ghost use Rattle.rast_check.specs.declared.answer.CheckErr.TheVariants.{Memory};

    ghost from_gives = { λ _ e. e ≡ Memory };

    fn from(_: AllocFailed<T>) -> CheckErr {
        CheckErr::Memory
    }
}
