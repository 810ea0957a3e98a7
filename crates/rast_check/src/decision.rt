// The decision of an obligation, once for all that are equal.
ghost use Rattle.std.specs.Prelude.{◌≡◌, ◌≤◌, true, IfOk};
ghost use Rattle.std.specs.List.{list_all};
ghost use Rattle.rast_cooper.specs.Verdicts.{Tells, is_within, most_states, verdict};

use rast_cooper::Verdict;
use rast_index::Formula;
use rast_memo::Memo;
use std::alloc::{AllocError, Global};

/// The verdict on an obligation. It is decided where no equal one has been.
pub(crate) fn decide_once(
    alloc: Global,
    memo: &mut Memo,
    vars: u8,
    premises: &[Formula],
    goal: &Formula,
) -> Result<Verdict, AllocError>
    requires few { vars ≤ 16 }
    requires premises { list_all (is_within vars) premises.now ≡ true }
    requires goal { is_within vars goal.now ≡ true }
    ensures exact { IfOk result (λ v. v ≡ verdict most_states vars premises.now goal.now) }
    ensures tells { IfOk result (Tells vars premises.now goal.now) }
{
    let number = memo.insert(alloc, vars, premises, goal)?;
    memo.decide_all(alloc)?;
    match memo.verdict_of(number) {
        Some(verdict) => Ok(*verdict),
        None => unreachable!(),
    }
}
