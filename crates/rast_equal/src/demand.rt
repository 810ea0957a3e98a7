// Single demands of a walk, decided.
ghost use Rattle.std.specs.Prelude.{◌∷◌, []};
ghost use Rattle.rast_index.specs.Truth.{is_equal};
ghost use Rattle.rast_equal.specs.Fault.{Decides, IsFault, first_fault};
ghost use Rattle.rast_equal.specs.Fit.{IsAsked, AreFit, IsScope, IsClosedFrom, AreClosed};
ghost use Rattle.rast_equal.specs.Valid.{nonneg};
ghost use Rattle.rast_equal.specs.Walk.{Asks, Wanted, by_name, equal_points, natural_points};

use crate::answer::SameErr;
use crate::place::Place;
use rast_cooper::{Verdict, decide};
use rast_index::{Formula, Lin, Rel};
use rast_types::{Stop, Ty};
use sqlite_items::Items;
use std::alloc::Global;

/// Decides whether the goal follows at the place.
pub(crate) fn ask(alloc: Global, place: &Place, goal: &Formula) -> Result<(), SameErr>
    requires { IsAsked place.now goal.now }
    ensures { Decides (Asks place.now goal.now ∷ []) result }
{
    match decide(alloc, place.vars, place.premises.as_slice(), goal)? {
        Verdict::Holds => Ok(()),
        Verdict::Fails { values } => Err(SameErr::Fails {
            path: Items::from_slice(alloc, place.path.as_slice())?,
            vars: place.vars,
            values,
        }),
        Verdict::NodeLimit => Err(SameErr::Bound {
            stop: Stop::NodeLimit,
        }),
        Verdict::NumberLimit => Err(SameErr::Bound {
            stop: Stop::NumberLimit,
        }),
    }
}

/// The refusal that no reference serves at the place.
pub(crate) fn wanted(alloc: Global, place: &Place) -> SameErr
    ensures { IsFault (first_fault (Wanted place.now.path ∷ [])) result }
{
    match Items::from_slice(alloc, place.path.as_slice()) {
        Ok(path) => SameErr::Wanted { path },
        Err(_) => SameErr::Memory,
    }
}

/// Whether both types are the same name with equal arguments.
pub fn ask_name(alloc: Global, place: &Place, left: &Ty, right: &Ty) -> Result<(), SameErr>
    requires { AreFit place.now left.now right.now }
    ensures { Decides (by_name place.now left.now right.now) result }
{
    let Ty::Named(k, xs) = left else {
        return Err(wanted(alloc, place));
    };
    let Ty::Named(j, ys) = right else {
        return Err(wanted(alloc, place));
    };
    if *k != *j {
        return Err(wanted(alloc, place));
    }
    ask_equal_each(alloc, place, xs.as_slice(), ys.as_slice())
}

fn ask_equal_each(alloc: Global, place: &Place, xs: &[Lin], ys: &[Lin]) -> Result<(), SameErr>
    requires scope { IsScope place.now }
    requires left { AreClosed place.now.vars xs.now }
    requires right { AreClosed place.now.vars ys.now }
    ensures { Decides (equal_points place.now xs.now ys.now) result }
{
    for i in 0..xs.len().min(ys.len()) {
        ask_equal(alloc, place, &xs[i], &ys[i])?;
    }
    Ok(())
}

/// Whether two terms are equal.
pub(crate) fn ask_equal(alloc: Global, place: &Place, a: &Lin, b: &Lin) -> Result<(), SameErr>
    requires scope { IsScope place.now }
    requires left { IsClosedFrom place.now.vars a.now }
    requires right { IsClosedFrom place.now.vars b.now }
    ensures { Decides (Asks place.now (is_equal a.now b.now) ∷ []) result }
{
    let goal = Formula::Rel(a.again(), Rel::Eq, b.again());
    ask(alloc, place, &goal)
}

/// Whether each term is at least 0.
pub(crate) fn ask_natural_each(alloc: Global, place: &Place, args: &[Lin]) -> Result<(), SameErr>
    requires scope { IsScope place.now }
    requires args { AreClosed place.now.vars args.now }
    ensures { Decides (natural_points place.now args.now) result }
{
    for l in args {
        ask_natural(alloc, place, l)?;
    }
    Ok(())
}

fn ask_natural(alloc: Global, place: &Place, term: &Lin) -> Result<(), SameErr>
    requires scope { IsScope place.now }
    requires within { IsClosedFrom place.now.vars term.now }
    ensures { Decides (Asks place.now (nonneg term.now) ∷ []) result }
{
    let goal = Formula::Rel(term.again(), Rel::Ge, Lin::nought());
    ask(alloc, place, &goal)
}
