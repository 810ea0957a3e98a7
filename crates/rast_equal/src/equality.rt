// Whether two types are the same.
ghost use Rattle.std.specs.Prelude.{All, IfOk};
ghost use Rattle.rast_equal.specs.Fault.{Answers, first_fault};
ghost use Rattle.rast_equal.specs.Fit.{AreFit, IsFitEquation};
ghost use Rattle.rast_equal.specs.Sound.{AreEqualWhereGood};
ghost use Rattle.rast_equal.specs.Walk.{IsSame, same_points, top};

use crate::answer::SameErr;
use crate::place::Place;
use crate::references::serve;
use crate::walk::pair;
use rast_types::{Ctx, Equation, Ref, Ty};
use sqlite_items::Items;
use std::alloc::Global;

/// Walks two types together, and decides whether they are the same by the references.
///
/// `ctx` has the variables in scope and what is presumed of them. The references are served in order at the
/// pairs of which one is a name; where there are none, each such pair has to be the same name with equal arguments.
/// The first demand of the walk that is false or can't be decided is answered: `Fails` with where the walk stood
/// and the first counterexample, `Wanted` where no reference serves, `Left` where references are left at the end,
/// `Bound` where a bound is reached, and `Memory` for want of memory.
///
/// `Ok` says that the types are equal to every depth, at each valuation at which what is presumed is true: under each table of
/// valid definitions under which the equations are good, where both types are valid.
pub fn same(
    alloc: Global,
    equations: &[Equation],
    ctx: &Ctx,
    a: &Ty,
    b: &Ty,
    refs: &[Ref],
) -> Result<(), SameErr>
    requires fit { AreFit (top ctx.now.vars ctx.now.premises) a.now b.now }
    requires equations { All IsFitEquation equations.now }
    ensures first { Answers (first_fault (same_points equations.now ctx.now.vars ctx.now.premises a.now b.now refs.now)) result }
    ensures holds { IfOk result (λ done. IsSame equations.now ctx.now.vars ctx.now.premises a.now b.now refs.now) }
    ensures equal { IfOk result (λ done. AreEqualWhereGood equations.now ctx.now.vars ctx.now.premises a.now b.now) }
{
    let place = Place::top(alloc, ctx.vars, ctx.premises.as_slice())?;
    let both = pair(alloc, place, a, b)?;
    let mut pairs = Items::new(alloc);
    pairs.push(both)?;
    serve(alloc, equations, refs, pairs)
}
