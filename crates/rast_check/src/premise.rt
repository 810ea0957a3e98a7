// One premise, decided.
ghost use Rattle.std.specs.Prelude.{◌≡◌, All, IfOk, ℕ, Option, true};
ghost use Rattle.rast_equal.specs.Fault.{IsFault};
ghost use Rattle.rast_equal.specs.Fit.{IsFitEquation};
ghost use Rattle.rast_equal.specs.Walk.{IsSame};
ghost use Rattle.rast_equal.specs.declared.answer.SameErr.{SameErr};
ghost use Rattle.rast_index.specs.Truth.{Follows};
ghost use Rattle.rast_check.specs.Decided.{searched};
ghost use Rattle.rast_check.specs.Questions.{shape_error, truth_error, types_error, same_refusal};
ghost use Rattle.rast_check.specs.Refusals.{AnswersPremise, Answered, IsWhy};

use crate::decision::decide_once;
use crate::scope::{are_compared, is_asked};
use rast_cooper::Verdict;
use rast_equal::{SameErr, same};
use rast_index::Formula;
use rast_memo::Memo;
use rast_rules::{Evidence, Judgement, Premise};
use rast_terms::Program;
use rast_types::{Ref, Stop, Ty};
use sqlite_items::Items;
use std::alloc::{AllocError, AllocFailed, Global};

/// Why a premise isn't accepted.
#[derive(Drop)]
pub(crate) enum Why {
    /// This shows that it is false.
    False(Evidence),
    /// It is undecided, or can't be made.
    Stopped(Stop),
    /// Want of memory.
    Memory,
}

impl From<AllocError> for Why {
    ghost use Rattle.std.specs.Prelude.{◌≡◌};
    ghost use Rattle.rast_check.specs.declared.premise.Why.TheVariants.{Memory};

    ghost from_gives = { λ _ e. e ≡ Memory };

    fn from(_: AllocError) -> Why {
        Why::Memory
    }
}

impl<T: Drop> From<AllocFailed<T>> for Why {
    ghost use Rattle.std.specs.Prelude.{◌≡◌};
    ghost use Rattle.rast_check.specs.declared.premise.Why.TheVariants.{Memory};

    ghost from_gives = { λ _ e. e ≡ Memory };

    fn from(_: AllocFailed<T>) -> Why {
        Why::Memory
    }
}

/// Decides one premise under a judgement.
pub(crate) fn check_premise(
    alloc: Global,
    memo: &mut Memo,
    program: &Program,
    at: &Judgement,
    premise: &Premise,
) -> Result<(), Why>
    requires { All IsFitEquation program.now.equations }
    ensures { AnswersPremise program.now at.now premise.now result }
{
    match premise {
        Premise::Truth { goal } => check_truth(alloc, memo, at, goal),
        Premise::Shape { ok, why } => check_shape(alloc, *ok, why),
        Premise::Same { a, b, refs } => check_same(alloc, program, at, (a, b), refs.as_slice()),
        Premise::Passed { stop } => Err(Why::Stopped(*stop)),
    }
}

fn check_truth(alloc: Global, memo: &mut Memo, at: &Judgement, goal: &Formula) -> Result<(), Why>
    ensures { Answered (truth_error searched at.now goal.now) (Follows at.now.ctx.vars at.now.ctx.premises goal.now) result }
{
    let vars = at.ctx.vars;
    let premises = at.ctx.premises.as_slice();
    if !is_asked(vars, premises, goal) {
        return Err(Why::Stopped(Stop::Variables));
    }
    match decide_once(alloc, memo, vars, premises, goal)? {
        Verdict::Holds => Ok(()),
        Verdict::Fails { values } => Err(Why::False(Evidence::Fails { vars, values })),
        Verdict::NodeLimit => Err(Why::Stopped(Stop::NodeLimit)),
        Verdict::NumberLimit => Err(Why::Stopped(Stop::NumberLimit)),
    }
}

fn check_shape(alloc: Global, ok: bool, why: &Evidence) -> Result<(), Why>
    ensures { Answered (shape_error ok why.now) (ok ≡ true) result }
{
    if ok {
        return Ok(());
    }
    Err(Why::False(copy_evidence(alloc, why)?))
}

fn copy_evidence(alloc: Global, why: &Evidence) -> Result<Evidence, AllocError>
    ensures { IfOk result (λ e. e ≡ why.now) }
{
    match why {
        Evidence::Fails { vars, values } => Ok(Evidence::Fails {
            vars: *vars,
            values: *values,
        }),
        Evidence::Head { found } => Ok(Evidence::Head { found: *found }),
        Evidence::Linear { channel } => Ok(Evidence::Linear { channel: *channel }),
        Evidence::Label { label } => Ok(Evidence::Label { label: *label }),
        Evidence::Types { why } => Ok(Evidence::Types {
            why: copy_same(alloc, why)?,
        }),
    }
}

fn copy_same(alloc: Global, why: &SameErr) -> Result<SameErr, AllocError>
    ensures { IfOk result (λ e. e ≡ why.now) }
{
    match why {
        SameErr::Fails { path, vars, values } => Ok(SameErr::Fails {
            path: Items::from_slice(alloc, path.as_slice())?,
            vars: *vars,
            values: *values,
        }),
        SameErr::Wanted { path } => Ok(SameErr::Wanted {
            path: Items::from_slice(alloc, path.as_slice())?,
        }),
        SameErr::Left => Ok(SameErr::Left),
        SameErr::Bound { stop } => Ok(SameErr::Bound { stop: *stop }),
        SameErr::Memory => Ok(SameErr::Memory),
    }
}

fn check_same(
    alloc: Global,
    program: &Program,
    at: &Judgement,
    types: (&Ty, &Ty),
    refs: &[Ref],
) -> Result<(), Why>
    requires { All IsFitEquation program.now.equations }
    ensures { Answered (types_error searched program.now at.now types.entry.0.now types.entry.1.now refs.now) (IsSame program.now.equations at.now.ctx.vars at.now.ctx.premises types.entry.0.now types.entry.1.now refs.now) result }
{
    let (a, b) = types;
    if !are_compared(at.ctx.vars, at.ctx.premises.as_slice(), a, b) {
        return Err(Why::Stopped(Stop::Variables));
    }
    match same(alloc, program.equations.as_slice(), &at.ctx, a, b, refs) {
        Ok(()) => Ok(()),
        Err(why) => Err(unlike(why)),
    }
}

// An undecided walk is a stop, any other refusal its evidence.
fn unlike(why: SameErr) -> Why
    ensures { (o : Option SameErr) (n k : ℕ) → IsFault o why → IsWhy n k (same_refusal n k o) result }
{
    match why {
        SameErr::Bound { stop } => Why::Stopped(stop),
        SameErr::Memory => Why::Memory,
        why => Why::False(Evidence::Types { why }),
    }
}
