// The references of a walk, served in order.
ghost use Rattle.std.specs.Prelude.{◌≡◌, ◌∷◌, [], ◌≤◌, All, IfOk, Some, flat_map, length};
ghost use Rattle.std.specs.Option.{option_copied};
ghost use Rattle.rast_index.specs.Truth.{put};
ghost use Rattle.rast_types.specs.Made.{Answers as Makes};
ghost use Rattle.rast_types.specs.Symbolic.{put_type, made_type};
ghost use Rattle.rast_equal.specs.Fault.{Decides, Serves, stopped};
ghost use Rattle.rast_equal.specs.Fit.{AreFit, IsAsked, IsFit, IsFitEquation, IsFitMet, IsScope, IsWithinType};
ghost use Rattle.rast_equal.specs.declared.met.Met.TheVariants.{Names};
ghost use Rattle.rast_equal.specs.Walk.{alike, alike_at, by_equation, by_ref, left, numbered_from_1, or_refl, pair, premise_points, serve, side_alike};

use crate::answer::SameErr;
use crate::demand::{ask, ask_name, ask_natural_each, wanted};
use crate::met::Met;
use crate::place::{Pair, Place};
use crate::scope::are_closed;
use crate::walk::next;
use rast_index::{Formula, IndexErr, Lin, subst_formula};
use rast_types::{Equation, Ref, Stop, Ty, TypeDef, TypeTable, copy_terms, unfold};
use sqlite_items::Items;
use std::alloc::{AllocError, Global};

/// Walks two types together without references: a name has to meet the same name with equal arguments.
fn alike(alloc: Global, place: Place, left: Ty, right: Ty) -> Result<(), SameErr>
    requires { AreFit place left right }
    ensures { Decides (alike place left right) result }
{
    let mut pairs = only_pair(alloc, place, left, right)?;
    while let Some(mets) = next(alloc, &mut pairs)? {
        alike_each(alloc, mets.as_slice())?;
    }
    Ok(())
}

// These two types at this place, and no other pair.
fn only_pair(alloc: Global, place: Place, left: Ty, right: Ty) -> Result<Items<Pair>, AllocError>
    ensures { IfOk result (λ pairs. pairs ≡ pair place left right ∷ []) }
{
    let mut pairs = Items::new(alloc);
    pairs.push(Pair { place, left, right })?;
    Ok(pairs)
}

fn alike_each(alloc: Global, mets: &[Met]) -> Result<(), SameErr>
    requires { All IsFitMet mets.now }
    ensures { Decides (flat_map alike_at mets.now) result }
{
    for met in mets {
        alike_at(alloc, met)?;
    }
    Ok(())
}

fn alike_at(alloc: Global, met: &Met) -> Result<(), SameErr>
    requires { IsFitMet met.now }
    ensures { Decides (alike_at met.now) result }
{
    match met {
        Met::Wants(place, goal) => ask(alloc, place, goal),
        Met::Names(place, left, right) => ask_name(alloc, place, left, right),
        Met::Differs(place) | Met::Shuffled(place) => Err(wanted(alloc, place)),
        Met::Over => Err(SameErr::Bound {
            stop: Stop::Variables,
        }),
    }
}

// A side of an equation at arguments.
fn instance(alloc: Global, side: &Ty, params: u8, vars: u8, args: &[Lin]) -> Result<Ty, IndexErr>
    ensures { Makes (made_type vars (put_type vars args.now side.now)) result }
{
    let args = copy_terms(alloc, args)?;
    let table = table_of(alloc, side, params)?;
    let named = Ty::Named(0, args);
    let made = unfold(alloc, &table, vars, &named);
    drop(named);
    drop(table);
    made
}

// A table whose only definition is this type, with so many parameters.
fn table_of(alloc: Global, body: &Ty, params: u8) -> Result<TypeTable, AllocError>
    ensures { IfOk result (λ t. t.defs ≡ record { name = 0; params = params; body = body.now } ∷ []) }
{
    let body = body.copy(alloc)?;
    let mut defs = Items::new(alloc);
    defs.push(TypeDef {
        name: 0,
        params,
        body,
    })?;
    Ok(TypeTable { defs })
}

// Whether a type is alike a side of an equation at arguments.
fn alike_side(alloc: Global, place: &Place, a: &Ty, side: &Ty, args: &[Lin]) -> Result<(), SameErr>
    requires scope { IsScope place.now }
    requires left { IsWithinType place.now.vars a.now }
    requires side { IsWithinType place.now.vars (put_type place.now.vars args.now side.now) }
    ensures { Decides (side_alike place.now a.now (put_type place.now.vars args.now side.now)) result }
{
    match instance(alloc, side, 0, place.vars, args) {
        Ok(made) => match placed(alloc, place, a) {
            Ok((place, a)) => alike(alloc, place, a, made),
            Err(_) => {
                drop(made);
                Err(SameErr::Memory)
            }
        },
        Err(e) => Err(stopped(e)),
    }
}

// The same place and the same type again.
fn placed(alloc: Global, place: &Place, a: &Ty) -> Result<(Place, Ty), AllocError>
    ensures { IfOk result (λ both. (both.0 ≡ place.now) × (both.1 ≡ a.now)) }
{
    let place = place.copy(alloc)?;
    match a.copy(alloc) {
        Ok(a) => Ok((place, a)),
        Err(error) => {
            drop(place);
            Err(error)
        }
    }
}

/// The bound at which a type or a formula was not made.
pub(crate) fn stopped(refusal: IndexErr) -> SameErr
    ensures { result ≡ stopped refusal }
{
    match refusal {
        IndexErr::Coefficient => SameErr::Bound {
            stop: Stop::Coefficient,
        },
        IndexErr::Variables => SameErr::Bound {
            stop: Stop::Variables,
        },
        IndexErr::Memory => SameErr::Memory,
    }
}

// The premise of an equation at arguments.
fn ask_premise(alloc: Global, place: &Place, premise: &Formula, args: &[Lin]) -> Result<(), SameErr>
    requires few { length args.now ≤ 16 }
    requires asked { IsAsked place.now (put args.now premise.now) }
    ensures { Decides (premise_points place.now args.now premise.now) result }
{
    match subst_formula(alloc, premise, args) {
        Ok(made) => {
            let asked = ask(alloc, place, &made);
            drop(made);
            asked
        }
        Err(e) => Err(stopped(e)),
    }
}

// The equation with this number, where the first has the number 1.
fn numbered(equations: &[Equation], number: u32) -> Option<&Equation>
    ensures { option_copied result ≡ numbered_from_1 equations.now number }
{
    if number == 0 {
        return None;
    }
    equations.get(number as usize - 1)
}

/// Whether two types are an instance of the equation at these arguments.
pub fn ask_instance(
    alloc: Global,
    equation: &Equation,
    args: &[Lin],
    place: &Place,
    left: &Ty,
    right: &Ty,
) -> Result<(), SameErr>
    requires fit { AreFit place.now left.now right.now }
    requires equation { IsFitEquation equation.now }
    ensures { Decides (by_equation (Some equation.now) args.now place.now left.now right.now) result }
{
    if args.len() != equation.vars as usize {
        return Err(wanted(alloc, place));
    }
    if !are_closed(args, place.vars) {
        return Err(wanted(alloc, place));
    }
    ask_natural_each(alloc, place, args)?;
    ask_premise(alloc, place, &equation.premise, args)?;
    alike_side(alloc, place, left, &equation.left, args)?;
    alike_side(alloc, place, right, &equation.right, args)
}

// Whether two types are an instance of the equation with this number.
fn ask_equation(
    alloc: Global,
    equations: &[Equation],
    reference: (u32, &[Lin]),
    place: &Place,
    left: &Ty,
    right: &Ty,
) -> Result<(), SameErr>
    requires fit { AreFit place.now left.now right.now }
    requires equations { All IsFitEquation equations.now }
    ensures { Decides (by_equation (numbered_from_1 equations.now reference.entry.0) reference.entry.1.now place.now left.now right.now) result }
{
    let (number, args) = reference;
    let Some(equation) = numbered(equations, number) else {
        return Err(wanted(alloc, place));
    };
    ask_instance(alloc, equation, args, place, left, right)
}

fn ask_ref(
    alloc: Global,
    equations: &[Equation],
    reference: &Ref,
    place: &Place,
    left: &Ty,
    right: &Ty,
) -> Result<(), SameErr>
    requires fit { AreFit place.now left.now right.now }
    requires equations { All IsFitEquation equations.now }
    ensures { Decides (by_ref equations.now reference.now place.now left.now right.now) result }
{
    match reference {
        Ref::Refl => ask_name(alloc, place, left, right),
        Ref::Eq(number, args) => ask_equation(
            alloc,
            equations,
            (*number, args.as_slice()),
            place,
            left,
            right,
        ),
    }
}

// A name met: by the next of the references, or by refl where there are none at all. Gives how many are used.
fn serve_name(
    alloc: Global,
    equations: &[Equation],
    refs: &[Ref],
    used: usize,
    place: &Place,
    left: &Ty,
    right: &Ty,
) -> Result<usize, SameErr>
    requires fit { AreFit place.now left.now right.now }
    requires equations { All IsFitEquation equations.now }
    ensures { Serves equations.now refs.now used (Names place.now left.now right.now ∷ []) result }
{
    if refs.is_empty() {
        ask_name(alloc, place, left, right)?;
        return Ok(used);
    }
    let Some(reference) = refs.get(used) else {
        return Err(wanted(alloc, place));
    };
    ask_ref(alloc, equations, reference, place, left, right)?;
    Ok(used + 1)
}

fn serve_met(
    alloc: Global,
    equations: &[Equation],
    refs: &[Ref],
    used: usize,
    met: &Met,
) -> Result<usize, SameErr>
    requires fit { IsFitMet met.now }
    requires equations { All IsFitEquation equations.now }
    ensures { Serves equations.now refs.now used (met.now ∷ []) result }
{
    match met {
        Met::Wants(place, goal) => ask(alloc, place, goal)?,
        Met::Names(place, left, right) => {
            return serve_name(alloc, equations, refs, used, place, left, right);
        }
        Met::Differs(place) => ask(alloc, place, &Formula::False)?,
        Met::Shuffled(_) => {}
        Met::Over => {
            return Err(SameErr::Bound {
                stop: Stop::Variables,
            });
        }
    }
    Ok(used)
}

/// Serves what is met in order, where so many of the references were used before. Gives how many are used then.
pub(crate) fn serve_each(
    alloc: Global,
    equations: &[Equation],
    refs: &[Ref],
    used: usize,
    mets: &[Met],
) -> Result<usize, SameErr>
    requires fit { All IsFitMet mets.now }
    requires equations { All IsFitEquation equations.now }
    ensures { Serves equations.now refs.now used mets.now result }
{
    let mut used = used;
    for met in mets {
        used = serve_met(alloc, equations, refs, used, met)?;
    }
    Ok(used)
}

/// Walks pairs of types together, the last first, and serves what is met by the references.
pub(crate) fn serve(
    alloc: Global,
    equations: &[Equation],
    refs: &[Ref],
    pairs: Items<Pair>,
) -> Result<(), SameErr>
    requires fit { All IsFit pairs }
    requires equations { All IsFitEquation equations.now }
    ensures { Decides (serve equations.now (or_refl refs.now (left pairs)) (left pairs)) result }
{
    let mut pairs = pairs;
    let mut used = 0;
    while let Some(mets) = next(alloc, &mut pairs)? {
        used = serve_each(alloc, equations, refs, used, mets.as_slice())?;
    }
    if used < refs.len() {
        return Err(SameErr::Left);
    }
    Ok(())
}
