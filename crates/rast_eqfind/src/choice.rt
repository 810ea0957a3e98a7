// What serves two types of which one is a name.
ghost use Rattle.std.specs.Prelude.{◌≡◌, ◌+◌, ◌<◌, ◌^◌, ◌++◌, All, IfOk, length};
ghost use Rattle.rast_equal.specs.Fault.{first_fault};
ghost use Rattle.rast_equal.specs.Fit.{AreFit, IsFitEquation};
ghost use Rattle.rast_equal.specs.Walk.{by_name};
ghost use Rattle.rast_eqfind.specs.Answer.{Tests};
ghost use Rattle.rast_eqfind.specs.Search.{by_listed, chosen, instance_test, is_making, listed, tested, tried};
ghost use Rattle.rast_types.specs.declared.equation.Ref.TheVariants.{Refl};

use crate::arguments::arguments;
use rast_equal::{Place, SameErr, ask_instance, ask_name};
use rast_index::{IndexErr, Lin};
use rast_types::{Equation, Ref, Stop, Ty};
use std::alloc::{AllocError, Global};

/// What the test of a reference says.
#[derive(Clone, Copy)]
pub(crate) enum Test {
    /// It serves.
    Serves,
    /// It doesn't serve.
    Refuses,
    /// A bound was reached.
    Reaches(Stop),
}

/// What serves two types of which one is a name.
#[derive(Drop)]
pub(crate) enum Choice {
    /// This reference: refl, or an equation that is there.
    Takes(Ref),
    /// A new equation.
    Makes,
    /// A bound was reached.
    Halts(Stop),
}

impl Choice {
    // Whether nothing that is there serves.
    fn is_making(&self) -> bool
        ensures { result ≡ is_making self.now }
    {
        matches!(self, Choice::Makes)
    }
}

// What an answer of the walk says of a reference.
fn tested(answer: Result<(), SameErr>) -> Result<Test, AllocError>
    ensures { Tests answer result }
{
    match answer {
        Ok(()) => Ok(Test::Serves),
        Err(SameErr::Bound { stop }) => Ok(Test::Reaches(stop)),
        Err(SameErr::Memory) => Err(AllocError),
        Err(SameErr::Fails { .. }) => Ok(Test::Refuses),
        Err(SameErr::Wanted { .. }) => Ok(Test::Refuses),
        Err(SameErr::Left) => Ok(Test::Refuses),
    }
}

// This reference, where its test serves.
fn tried(reference: Ref, test: Test) -> Choice
    ensures { result ≡ tried reference test }
{
    match test {
        Test::Serves => Choice::Takes(reference),
        Test::Refuses => Choice::Makes,
        Test::Reaches(stop) => Choice::Halts(stop),
    }
}

/// Whether the types are an instance of the equation at these arguments.
pub(crate) fn test_instance(
    alloc: Global,
    equation: &Equation,
    args: &[Lin],
    place: &Place,
    left: &Ty,
    right: &Ty,
) -> Result<Test, AllocError>
    requires fit { AreFit place.now left.now right.now }
    requires equation { IsFitEquation equation.now }
    ensures { IfOk result (λ t. t ≡ instance_test equation.now args.now place.now left.now right.now) }
{
    tested(ask_instance(alloc, equation, args, place, left, right))
}

// Refl, where both types are the same name with equal arguments.
fn by_refl(alloc: Global, place: &Place, left: &Ty, right: &Ty) -> Result<Choice, AllocError>
    requires { AreFit place.now left.now right.now }
    ensures { IfOk result (λ c. c ≡ tried Refl (tested (first_fault (by_name place.now left.now right.now)))) }
{
    let test = tested(ask_name(alloc, place, left, right))?;
    Ok(tried(Ref::Refl, test))
}

// The equation with this number, where the types are an instance of it.
fn by_listed(
    alloc: Global,
    number: u32,
    equation: &Equation,
    place: &Place,
    left: &Ty,
    right: &Ty,
) -> Result<Choice, AllocError>
    requires fit { AreFit place.now left.now right.now }
    requires equation { IsFitEquation equation.now }
    ensures { IfOk result (λ c. c ≡ by_listed number equation.now place.now left.now right.now) }
{
    match arguments(alloc, equation, place, left, right) {
        Ok(args) => match test_instance(alloc, equation, args.as_slice(), place, left, right) {
            Ok(test) => Ok(tried(Ref::Eq(number, args), test)),
            Err(error) => {
                drop(args);
                Err(error)
            }
        },
        Err(IndexErr::Coefficient) => Ok(Choice::Halts(Stop::Coefficient)),
        Err(IndexErr::Variables) => Ok(Choice::Halts(Stop::Variables)),
        Err(IndexErr::Memory) => Err(AllocError),
    }
}

// The first of the equations of which the types are an instance, where the first has this number.
fn listed(
    alloc: Global,
    first: u32,
    equations: &[Equation],
    place: &Place,
    left: &Ty,
    right: &Ty,
) -> Result<Choice, AllocError>
    requires fit { AreFit place.now left.now right.now }
    requires equations { All IsFitEquation equations.now }
    requires few { first + length equations.now < 2 ^ 32 }
    ensures { IfOk result (λ c. c ≡ listed first equations.now place.now left.now right.now) }
{
    for i in 0..equations.len() {
        let number = first + i as u32;
        let choice = by_listed(alloc, number, &equations[i], place, left, right)?;
        if !choice.is_making() {
            return Ok(choice);
        }
        drop(choice);
    }
    Ok(Choice::Makes)
}

// The first of the known equations, and then of those that were made.
fn listed_in_both(
    alloc: Global,
    known: &[Equation],
    made: &[Equation],
    place: &Place,
    left: &Ty,
    right: &Ty,
) -> Result<Choice, AllocError>
    requires fit { AreFit place.now left.now right.now }
    requires known { All IsFitEquation known.now }
    requires made { All IsFitEquation made.now }
    requires few { length known.now + length made.now + 1 < 2 ^ 32 }
    ensures { IfOk result (λ c. c ≡ listed 1 (known.now ++ made.now) place.now left.now right.now) }
{
    let choice = listed(alloc, 1, known, place, left, right)?;
    if !choice.is_making() {
        return Ok(choice);
    }
    drop(choice);
    listed(alloc, known.len() as u32 + 1, made, place, left, right)
}

/// What serves the two types, where these equations are known and these were made.
pub(crate) fn choose(
    alloc: Global,
    known: &[Equation],
    made: &[Equation],
    place: &Place,
    left: &Ty,
    right: &Ty,
) -> Result<Choice, AllocError>
    requires fit { AreFit place.now left.now right.now }
    requires known { All IsFitEquation known.now }
    requires made { All IsFitEquation made.now }
    requires few { length known.now + length made.now + 1 < 2 ^ 32 }
    ensures { IfOk result (λ c. c ≡ chosen (known.now ++ made.now) place.now left.now right.now) }
{
    let choice = by_refl(alloc, place, left, right)?;
    if !choice.is_making() {
        return Ok(choice);
    }
    drop(choice);
    listed_in_both(alloc, known, made, place, left, right)
}
