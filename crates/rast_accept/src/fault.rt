// Faults in names and in rules. Want of memory is none.
ghost use Rattle.std.specs.Prelude.{◌≡◌, true};
ghost use Rattle.rast_accept.specs.Faults as faults;

use rast_ast::Name;
use rast_check::CheckErr;
use rast_equal::{SameErr, TypeErr};

/// A fault in the names of a file.
#[derive(Drop)]
pub enum NameFault {
    /// A name that isn't bound where it stands.
    Unknown {
        /// The name.
        name: Name,
    },
    /// A name or a label that is there twice.
    Twice {
        /// The name.
        name: Name,
    },
    /// A name with a wrong number of arguments, parameters or channels.
    Arity {
        /// The name.
        name: Name,
    },
    /// An executed process that has parameters or uses channels.
    BadMain {
        /// Its name.
        name: Name,
    },
    /// An item that is over a limit.
    Limit {
        /// Its name.
        name: Name,
    },
}

/// The first place of a program that is false, undecided or over a limit.
#[derive(Drop)]
pub struct RuleFault {
    /// The place, as the check names it.
    pub why: CheckErr,
    ghost real: { faults.is_rule_fault why ≡ true },
}

fn is_type_fault(why: &TypeErr) -> bool
    ensures { result ≡ faults.is_type_fault why.now }
{
    !matches!(why, TypeErr::Memory)
}

fn is_same_fault(why: &SameErr) -> bool
    ensures { result ≡ faults.is_same_fault why.now }
{
    !matches!(why, SameErr::Memory)
}

/// Whether a refusal of the check isn't want of memory.
pub(crate) fn is_rule_fault(why: &CheckErr) -> bool
    ensures { result ≡ faults.is_rule_fault why.now }
{
    match why {
        CheckErr::BadType { why } => is_type_fault(why),
        CheckErr::BadDecl { why, .. } => is_type_fault(why),
        CheckErr::BadEquation { why } => is_same_fault(&why.why),
        CheckErr::Memory => false,
        _ => true,
    }
}
