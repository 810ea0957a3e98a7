// Equations between types, checked.
ghost use Rattle.std.specs.Prelude.{◌≡◌, ◌<◌, ◌+◌, ◌^◌, ◌∷◌, ◌++◌, [], All, IfOk, length};
ghost use Rattle.rast_index.specs.Truth.{is_equal};
ghost use Rattle.rast_types.specs.Symbolic.{exposed_type, is_deep};
ghost use Rattle.rast_equal.specs.Equated.{Accepts, AcceptsNumbered, AnswersEquations, AreGood, ExposesBoth, IsFitExposed, SecondStop, equation_err, equations_fault, exposed_points, made, side_refused};
ghost use Rattle.rast_equal.specs.Fault.{Decides};
ghost use Rattle.rast_equal.specs.Fit.{IsFit, IsFitEquation, IsFitMet, IsFitTypeDef, IsWithinType};
ghost use Rattle.rast_equal.specs.Sound.{AreDefined, HaveEqualSides};
ghost use Rattle.rast_equal.specs.Valid.{IsValidTable};
ghost use Rattle.rast_equal.specs.Walk.{Asks, IsGoodTable, count, equation_points, left, parts_served, serve, side_points, tagged, top};

use crate::answer::SameErr;
use crate::demand::ask_equal;
use crate::met::Met;
use crate::place::{Pair, Place};
use crate::references::{serve, serve_each, stopped};
use crate::validity::{Refusal, check_type};
use crate::walk::{Shown, show_heads};
use rast_index::{Formula, IndexErr};
use rast_types::{Ctx, Equation, Exposed, Ref, Ty, TypeTable, expose};
use sqlite_items::Items;
use std::alloc::{AllocError, Global};

/// Which premise of which equation is false or can't be decided, and why.
///
/// The premises, under the equation's variables and what it presumes: 1, the left side is valid; 2, the right side
/// is valid; 3, the ticks before both heads are equal; 4, the heads agree; 5, the parts are the same by the
/// equation's references.
#[derive(Drop)]
pub struct EquationErr {
    /// The number of the equation, from 1 on.
    pub number: u32,
    /// The number of the premise.
    pub premise: u8,
    /// What is wrong there.
    pub why: SameErr,
}

/// Checks each equation of a program in order, where any of them may be referred to once the heads of its sides are opened.
///
/// `table` has the definitions that the equations name. The first premise that is false or can't be decided is
/// answered, with the number of its equation, where the first equation has the number 1.
///
/// `Ok` says that the equations are a good table, and so that the sides of each are equal to every depth at each valuation at which
/// its premise is true, where the definitions are valid.
pub fn check_equations(
    alloc: Global,
    table: &TypeTable,
    equations: &[Equation],
) -> Result<(), EquationErr>
    requires few { length equations.now + 1 < 2 ^ 32 }
    requires defs { All IsFitTypeDef table.now.defs }
    requires equations { All IsFitEquation equations.now }
    ensures first { AnswersEquations (equations_fault table.now.defs equations.now 1 equations.now) result }
    ensures holds { IfOk result (λ done. IsGoodTable table.now.defs equations.now) }
    ensures equal { IfOk result (λ done. AreDefined table.now.defs equations.now → IsValidTable table.now.defs → HaveEqualSides table.now.defs equations.now) }
{
    for i in 0..equations.len() {
        check_numbered(alloc, table, equations, number_of(i), &equations[i])?;
    }
    Ok(())
}

// The number of the equation at this place.
fn number_of(place: usize) -> u32
    requires { place + 1 < 2 ^ 32 }
    ensures { result ≡ place + 1 }
{
    place as u32 + 1
}

// The premises of the equation with this number.
fn check_numbered(
    alloc: Global,
    table: &TypeTable,
    equations: &[Equation],
    number: u32,
    equation: &Equation,
) -> Result<(), EquationErr>
    requires defs { All IsFitTypeDef table.now.defs }
    requires equations { All IsFitEquation equations.now }
    requires fit { IsFitEquation equation.now }
    ensures { AcceptsNumbered number (equation_points table.now.defs equations.now equation.now) result }
{
    match check_equation(alloc, table, equations, equation) {
        Ok(()) => Ok(()),
        Err(refusal) => Err(equation_err(number, refusal)),
    }
}

// The refusal of the equation with this number.
fn equation_err(number: u32, refusal: (u8, SameErr)) -> EquationErr
    ensures { result ≡ equation_err number refusal }
{
    let (premise, why) = refusal;
    EquationErr {
        number,
        premise,
        why,
    }
}

// The premises of an equation, beginning with the rules of its left side.
fn check_equation(
    alloc: Global,
    table: &TypeTable,
    equations: &[Equation],
    equation: &Equation,
) -> Result<(), (u8, SameErr)>
    requires defs { All IsFitTypeDef table.now.defs }
    requires equations { All IsFitEquation equations.now }
    requires fit { IsFitEquation equation.now }
    ensures { Accepts (equation_points table.now.defs equations.now equation.now) result }
{
    match check_side(alloc, table, equation, &equation.left) {
        Ok(()) => check_right(alloc, table, equations, equation),
        Err(why) => Err((1, why)),
    }
}

// Where the rules of the left side are true.
fn check_right(
    alloc: Global,
    table: &TypeTable,
    equations: &[Equation],
    equation: &Equation,
) -> Result<(), (u8, SameErr)>
    requires defs { All IsFitTypeDef table.now.defs }
    requires equations { All IsFitEquation equations.now }
    requires fit { IsFitEquation equation.now }
    requires left { AreGood (side_points table.now.defs equation.now.vars (equation.now.premise ∷ []) equation.now.left) }
    ensures { Accepts (equation_points table.now.defs equations.now equation.now) result }
{
    match check_side(alloc, table, equation, &equation.right) {
        Ok(()) => check_opened(alloc, table, equations, equation),
        Err(why) => Err((2, why)),
    }
}

// Where the rules of both sides are true.
fn check_opened(
    alloc: Global,
    table: &TypeTable,
    equations: &[Equation],
    equation: &Equation,
) -> Result<(), (u8, SameErr)>
    requires defs { All IsFitTypeDef table.now.defs }
    requires equations { All IsFitEquation equations.now }
    requires fit { IsFitEquation equation.now }
    requires left { AreGood (side_points table.now.defs equation.now.vars (equation.now.premise ∷ []) equation.now.left) }
    requires right { AreGood (side_points table.now.defs equation.now.vars (equation.now.premise ∷ []) equation.now.right) }
    ensures { Accepts (equation_points table.now.defs equations.now equation.now) result }
{
    match expose_both(alloc, table, equation) {
        Ok((left, right)) => {
            let checked = check_exposed(alloc, equations, equation, &left, &right);
            drop(left);
            drop(right);
            checked
        }
        Err(why) => Err((3, why)),
    }
}

// The rules of one side.
fn check_side(
    alloc: Global,
    table: &TypeTable,
    equation: &Equation,
    side: &Ty,
) -> Result<(), SameErr>
    requires fit { IsFitEquation equation.now }
    requires side { IsWithinType equation.now.vars side.now }
    ensures { Decides (side_points table.now.defs equation.now.vars (equation.now.premise ∷ []) side.now) result }
{
    let ctx = Ctx {
        vars: equation.vars,
        premises: presumed(alloc, equation)?,
    };
    match check_type(alloc, table, &ctx, side) {
        Ok(()) => Ok(()),
        Err(refusal) => Err(side_refused(alloc, refusal)),
    }
}

fn presumed(alloc: Global, equation: &Equation) -> Result<Items<Formula>, AllocError>
    ensures { IfOk result (λ ps. ps ≡ equation.now.premise ∷ []) }
{
    let mut premises = Items::new(alloc);
    premises.push(equation.premise.copy(alloc)?)?;
    Ok(premises)
}

// A false rule stands at the outside of the type; one without values has zeros.
fn side_refused(alloc: Global, refusal: Refusal) -> SameErr
    ensures { result ≡ side_refused refusal }
{
    match refusal {
        Refusal::False(_, vars, values) => SameErr::Fails {
            path: Items::new(alloc),
            vars,
            values: match values {
                Some(values) => values,
                None => [0; 16],
            },
        },
        Refusal::Stopped(stop) => SameErr::Bound { stop },
        Refusal::Memory => SameErr::Memory,
    }
}

/// Ticks and heads of both sides of an equation.
pub fn expose_both(
    alloc: Global,
    table: &TypeTable,
    equation: &Equation,
) -> Result<(Exposed, Exposed), SameErr>
    ensures { ExposesBoth equation.now.vars (exposed_type table.now.defs equation.now.vars equation.now.left) (exposed_type table.now.defs equation.now.vars equation.now.right) result }
{
    match expose(alloc, table, equation.vars, &equation.left) {
        Ok(left) => match expose(alloc, table, equation.vars, &equation.right) {
            Ok(right) => Ok((left, right)),
            Err(e) => {
                drop(left);
                Err(stopped(e))
            }
        },
        Err(IndexErr::Coefficient) => Err(second_stop(alloc, table, equation)),
        Err(IndexErr::Variables) => Err(stopped(IndexErr::Variables)),
        Err(IndexErr::Memory) => Err(SameErr::Memory),
    }
}

// The bound that is passed where a number of the left side is too great: more variables on the right come first.
fn second_stop(alloc: Global, table: &TypeTable, equation: &Equation) -> SameErr
    ensures { SecondStop (is_deep equation.now.vars (exposed_type table.now.defs equation.now.vars equation.now.right).body) result }
{
    match expose(alloc, table, equation.vars, &equation.right) {
        Ok(right) => {
            drop(right);
            stopped(IndexErr::Coefficient)
        }
        Err(e) => stopped(e),
    }
}

// The premises on ticks, heads and parts.
fn check_exposed(
    alloc: Global,
    equations: &[Equation],
    equation: &Equation,
    left: &Exposed,
    right: &Exposed,
) -> Result<(), (u8, SameErr)>
    requires equations { All IsFitEquation equations.now }
    requires fit { IsFitEquation equation.now }
    requires left { IsFitExposed equation.now.vars left.now }
    requires right { IsFitExposed equation.now.vars right.now }
    ensures { Accepts (exposed_points equations.now equation.now (made left.now) (made right.now)) result }
{
    match place_of(alloc, equation) {
        Ok(place) => check_ticks(alloc, equations, equation, &place, (left, right)),
        Err(_) => Err((3, SameErr::Memory)),
    }
}

// At the place of an equation: the ticks, and then the heads.
fn check_ticks(
    alloc: Global,
    equations: &[Equation],
    equation: &Equation,
    place: &Place,
    sides: (&Exposed, &Exposed),
) -> Result<(), (u8, SameErr)>
    requires equations { All IsFitEquation equations.now }
    requires fit { IsFitEquation equation.now }
    requires left { IsFitExposed equation.now.vars sides.0.now }
    requires right { IsFitExposed equation.now.vars sides.1.now }
    requires place { place.now ≡ top equation.now.vars (equation.now.premise ∷ []) }
    ensures { Accepts (exposed_points equations.now equation.now (made sides.entry.0.now) (made sides.entry.1.now)) result }
{
    let (left, right) = sides;
    match ask_equal(alloc, place, &left.ticks, &right.ticks) {
        Ok(()) => check_heads(alloc, equations, equation, place, (left, right)),
        Err(why) => Err((3, why)),
    }
}

// Where the ticks are equal: the heads, and then the parts.
fn check_heads(
    alloc: Global,
    equations: &[Equation],
    equation: &Equation,
    place: &Place,
    sides: (&Exposed, &Exposed),
) -> Result<(), (u8, SameErr)>
    requires equations { All IsFitEquation equations.now }
    requires fit { IsFitEquation equation.now }
    requires left { IsFitExposed equation.now.vars sides.0.now }
    requires right { IsFitExposed equation.now.vars sides.1.now }
    requires place { place.now ≡ top equation.now.vars (equation.now.premise ∷ []) }
    requires ticks { AreGood (Asks place.now (is_equal sides.0.now.ticks sides.1.now.ticks) ∷ []) }
    ensures { Accepts (exposed_points equations.now equation.now (made sides.entry.0.now) (made sides.entry.1.now)) result }
{
    let (left, right) = sides;
    match show_heads(alloc, place, &left.head, &right.head) {
        Ok(shown) => check_shown(alloc, equations, equation.refs.as_slice(), shown),
        Err(_) => Err((4, SameErr::Memory)),
    }
}

// What is met at the heads, and then the parts.
fn check_shown(
    alloc: Global,
    equations: &[Equation],
    refs: &[Ref],
    shown: Shown,
) -> Result<(), (u8, SameErr)>
    requires equations { All IsFitEquation equations.now }
    requires own { All IsFitMet shown.own }
    requires plain { count shown.own ≡ 0 }
    requires parts { All IsFit shown.parts }
    ensures { Accepts (tagged 4 (serve equations.now [] shown.own) ++ tagged 5 (parts_served equations.now refs.now (left shown.parts))) result }
{
    match serve_own(alloc, equations, shown.own.as_slice()) {
        Ok(()) => check_parts(alloc, equations, refs, shown.parts),
        Err(why) => Err((4, why)),
    }
}

// The parts, by the references.
fn check_parts(
    alloc: Global,
    equations: &[Equation],
    refs: &[Ref],
    parts: Items<Pair>,
) -> Result<(), (u8, SameErr)>
    requires equations { All IsFitEquation equations.now }
    requires parts { All IsFit parts }
    ensures { Accepts (tagged 5 (parts_served equations.now refs.now (left parts))) result }
{
    match serve_parts(alloc, equations, refs, parts) {
        Ok(()) => Ok(()),
        Err(why) => Err((5, why)),
    }
}

fn place_of(alloc: Global, equation: &Equation) -> Result<Place, AllocError>
    ensures { IfOk result (λ p. p ≡ top equation.now.vars (equation.now.premise ∷ [])) }
{
    let premises = presumed(alloc, equation)?;
    Place::top(alloc, equation.vars, premises.as_slice())
}

// What is met at the heads asks for no reference.
fn serve_own(alloc: Global, equations: &[Equation], own: &[Met]) -> Result<(), SameErr>
    requires equations { All IsFitEquation equations.now }
    requires fit { All IsFitMet own.now }
    requires plain { count own.now ≡ 0 }
    ensures { Decides (serve equations.now [] own.now) result }
{
    match serve_each(alloc, equations, &[], 0, own) {
        Ok(_) => Ok(()),
        Err(why) => Err(why),
    }
}

// Where there are no parts to walk, the references aren't looked at.
fn serve_parts(
    alloc: Global,
    equations: &[Equation],
    refs: &[Ref],
    parts: Items<Pair>,
) -> Result<(), SameErr>
    requires equations { All IsFitEquation equations.now }
    requires fit { All IsFit parts }
    ensures { Decides (parts_served equations.now refs.now (left parts)) result }
{
    if parts.is_empty() {
        return Ok(());
    }
    serve(alloc, equations, refs, parts)
}
