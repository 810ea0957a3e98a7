// New equations.
ghost use Rattle.std.specs.Prelude.{◌≡◌, ◌≤◌, ◌<◌, ◌+◌, suc, length, IfOk};
ghost use Rattle.rast_index.specs.Linear.{variables};
ghost use Rattle.rast_equal.specs.Fit.{AreFit, IsFitEquation};
ghost use Rattle.rast_eqfind.specs.Answer.{AreKnown, Goes, IsFitSearch};
ghost use Rattle.rast_types.specs.declared.equation.Ref.TheVariants.{Eq};
ghost use Rattle.rast_eqfind.specs.Search.{joined, made_by, make, new_equation, new_ref, new_test, referred, with_new};

use crate::choice::{Test, test_instance};
use crate::finding::{Finding, Halt, stopped};
use crate::search::Search;
use rast_equal::{Place, copy_both, copy_formulas};
use rast_index::{Formula, Lin};
use rast_types::{Equation, Ref, Stop, Ty};
use sqlite_items::Items;
use std::alloc::{AllocError, Global};

/// How many equations a search may make.
const MOST_MADE: usize = 256;

// What is presumed, as one formula.
fn joined(alloc: Global, premises: &[Formula]) -> Result<Formula, AllocError>
    ensures { IfOk result (λ f. f ≡ joined premises.now) }
{
    if premises.is_empty() {
        return Ok(Formula::True);
    }
    if premises.len() == 1 {
        return premises[0].copy(alloc);
    }
    Ok(Formula::And(copy_formulas(alloc, premises)?))
}

/// The equation with this premise and these references, whose sides are copied.
pub(crate) fn equation_with(
    alloc: Global,
    vars: u8,
    premise: Formula,
    left: &Ty,
    right: &Ty,
    refs: Items<Ref>,
) -> Result<Equation, AllocError>
    ensures { IfOk result (λ e. e ≡ record { vars = vars; premise = premise; left = left.now; right = right.now; refs = refs }) }
{
    match copy_both(alloc, left, right) {
        Ok((left, right)) => Ok(Equation {
            vars,
            premise,
            left,
            right,
            refs,
        }),
        Err(error) => {
            drop(premise);
            drop(refs);
            Err(error)
        }
    }
}

// The equation between the types, under the variables and premises of the place.
fn new_equation(alloc: Global, place: &Place, left: &Ty, right: &Ty) -> Result<Equation, AllocError>
    ensures { IfOk result (λ e. e ≡ new_equation place.now left.now right.now) }
{
    let premise = joined(alloc, place.premises.as_slice())?;
    equation_with(alloc, place.vars, premise, left, right, Items::new(alloc))
}

// The first variables, so many.
fn variables(alloc: Global, vars: u8) -> Result<Items<Lin>, AllocError>
    requires { vars ≤ 16 }
    ensures { IfOk result (λ ls. ls ≡ variables vars) }
{
    let mut out = Items::new(alloc);
    for i in 0..vars as usize {
        out.push(Lin::variable(i))?;
    }
    Ok(out)
}

// The number of the next equation that is made.
fn number_of(known: &[Equation], search: &Search) -> u32
    requires known { AreKnown known.now }
    requires search { IsFitSearch search.now }
    ensures { result ≡ suc (length known.now + length search.now.made) }
{
    known.len() as u32 + search.made.len() as u32 + 1
}

// Whether the types are an instance of the new equation between them, at its own variables.
fn test_new(
    alloc: Global,
    equation: &Equation,
    place: &Place,
    left: &Ty,
    right: &Ty,
) -> Result<Test, AllocError>
    requires fit { AreFit place.now left.now right.now }
    requires equation { equation.now ≡ new_equation place.now left.now right.now }
    ensures { IfOk result (λ t. t ≡ new_test place.now left.now right.now) }
{
    let args = variables(alloc, place.vars)?;
    let test = test_instance(alloc, equation, args.as_slice(), place, left, right);
    drop(args);
    test
}

// The equation is made at this place, and referred to with its own variables.
fn refer_to_new(
    alloc: Global,
    number: u32,
    search: &mut Search,
    place: &Place,
    equation: Equation,
) -> Result<(), AllocError>
    requires { place.now.vars ≤ 16 }
    ensures { IfOk result (λ done. search.new ≡ referred (Eq number (variables place.now.vars)) (with_new equation place.now search.old)) }
{
    search.add(alloc, equation, place)?;
    let args = variables(alloc, place.vars)?;
    search.refer(Ref::Eq(number, args))
}

// What comes of the new equation, by the test of its reference.
fn make_tested(
    alloc: Global,
    known: &[Equation],
    search: &mut Search,
    place: &Place,
    equation: Equation,
    test: Test,
) -> Result<(), Halt>
    requires known { AreKnown known.now }
    requires search { IsFitSearch search.old }
    requires room { length search.old.made < 256 }
    requires equation { IsFitEquation equation }
    requires place { place.now.vars ≤ 16 }
    ensures { Goes (made_by equation (new_ref known.now search.old place.now) place.now search.old test) search.new result }
{
    match test {
        Test::Serves => {
            let number = number_of(known, search);
            refer_to_new(alloc, number, search, place, equation)?;
            Ok(())
        }
        Test::Refuses => {
            drop(equation);
            Err(stopped(Stop::NodeLimit))
        }
        Test::Reaches(stop) => {
            drop(equation);
            Err(stopped(stop))
        }
    }
}

/// A new equation between the types is made and referred to.
pub(crate) fn make(
    alloc: Global,
    known: &[Equation],
    search: &mut Search,
    place: &Place,
    left: &Ty,
    right: &Ty,
) -> Result<(), Halt>
    requires known { AreKnown known.now }
    requires search { IsFitSearch search.old }
    requires fit { AreFit place.now left.now right.now }
    ensures { Goes (make known.now search.old place.now left.now right.now) search.new result }
{
    if search.made.len() >= MOST_MADE {
        return Err(Halt::Ends(Finding::EqBound {
            equations: search.take_made(alloc),
        }));
    }
    let equation = new_equation(alloc, place, left, right)?;
    match test_new(alloc, &equation, place, left, right) {
        Ok(test) => make_tested(alloc, known, search, place, equation, test),
        Err(_) => {
            drop(equation);
            Err(Halt::Memory)
        }
    }
}
