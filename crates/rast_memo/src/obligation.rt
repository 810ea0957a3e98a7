// What is to be decided.
ghost use Rattle.std.specs.Prelude.{◌≡◌, IfOk};
ghost use Rattle.rast_memo.specs.Obligations.{asked};

use rast_index::Formula;
use sqlite_items::Items;
use std::alloc::{AllocError, Global};

/// Whether a goal is true at all naturals at which the premises are.
#[derive(Drop)]
pub struct Obligation {
    /// The number of variables.
    pub vars: u8,
    /// What is taken to be true.
    pub premises: Items<Formula>,
    /// What is asked.
    pub goal: Formula,
}

/// The obligation of these parts, copied.
pub(crate) fn copied(
    alloc: Global,
    vars: u8,
    premises: &[Formula],
    goal: &Formula,
) -> Result<Obligation, AllocError>
    ensures { IfOk result (λ o. o ≡ asked vars premises.now goal.now) }
{
    let mut again = Items::new(alloc);
    for premise in premises {
        again.push(premise.copy(alloc)?)?;
    }
    Ok(Obligation {
        vars,
        premises: again,
        goal: goal.copy(alloc)?,
    })
}
