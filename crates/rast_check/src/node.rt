// The premises of a node, decided.
ghost use Rattle.std.specs.Prelude.{All, ℕ, Option};
ghost use Rattle.rast_equal.specs.Fit.{IsFitEquation};
ghost use Rattle.rast_check.specs.Questions.{Refusal, asked_at};
ghost use Rattle.rast_check.specs.Refusals.{Asked, IsRefusal, IsWhy};

use crate::answer::CheckErr;
use crate::premise::{Why, check_premise};
use rast_memo::Memo;
use rast_rules::{Judgement, Premise};
use rast_terms::Program;
use std::alloc::Global;

/// Decides the premises of a node, in order.
pub(crate) fn check_premises(
    alloc: Global,
    memo: &mut Memo,
    program: &Program,
    node: u32,
    at: &Judgement,
    premises: &[(u8, Premise)],
) -> Result<(), CheckErr>
    requires { All IsFitEquation program.now.equations }
    ensures { Asked program.now (asked_at node at.now premises.now) result }
{
    for (number, premise) in premises {
        if let Err(why) = check_premise(alloc, memo, program, at, premise) {
            return Err(refuse(node, *number, why));
        }
    }
    Ok(())
}

fn refuse(node: u32, premise: u8, why: Why) -> CheckErr
    ensures { (o : Option Refusal) → IsWhy node premise o why → IsRefusal o result }
{
    match why {
        Why::False(evidence) => CheckErr::Refused {
            node,
            premise,
            evidence,
        },
        Why::Stopped(stop) => CheckErr::Bound {
            node,
            premise,
            stop,
        },
        Why::Memory => CheckErr::Memory,
    }
}
