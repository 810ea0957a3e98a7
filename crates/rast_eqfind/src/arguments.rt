// The arguments at which two types are an instance of an equation, read off.
ghost use Rattle.std.specs.Prelude.{◌≡◌, ◌≤◌, ◌<◌, IfOk};
ghost use Rattle.std.specs.List.{list_all};
ghost use Rattle.rast_cooper.specs.Answer.{FitsSome};
ghost use Rattle.rast_equal.specs.Fit.{AreFit, IsFitEquation};
ghost use Rattle.rast_index.specs.Answer.{Fits, Gives};
ghost use Rattle.rast_index.specs.Linear.{is_small, less, tabulate, variable};
ghost use Rattle.rast_eqfind.specs.Answer.{is_small_some};
ghost use Rattle.rast_eqfind.specs.Read.{all_terms, argument_of, arguments, first_read, is_constant};

use crate::read::read;
use rast_equal::{Place, is_closed};
use rast_index::{Coefficient, IndexErr, Lin, sub};
use rast_types::{Equation, Ty};
use sqlite_items::Items;
use std::alloc::{AllocError, Global};

// The terms of both sides of the equation, each with the term at its place in the pair.
fn all_terms(
    alloc: Global,
    equation: &Equation,
    place: &Place,
    left: &Ty,
    right: &Ty,
) -> Result<Items<(Lin, Lin)>, AllocError>
    requires place { place.now.vars ≤ 16 }
    requires equation { equation.now.vars ≤ 16 }
    ensures { IfOk result (λ xs. xs ≡ all_terms equation.now place.now left.now right.now) }
{
    let vars = equation.vars.max(place.vars);
    let mut terms = Items::new(alloc);
    read(&mut terms, vars, &equation.left, left)?;
    read(&mut terms, vars, &equation.right, right)?;
    Ok(terms)
}

// What is left of the term without the variable, where that is a constant.
fn constant_beside(term: &Lin, number: usize) -> Option<Lin>
    requires { number < 16 }
    ensures { FitsSome is_constant (less term.now (variable number)) result }
{
    match sub(term, &Lin::variable(number)) {
        Ok(rest) => {
            if is_closed(&rest, 0) {
                Some(rest)
            } else {
                None
            }
        }
        Err(Coefficient) => None,
    }
}

// What is read for the variable, where anything is.
fn first_read(number: usize, terms: &[(Lin, Lin)]) -> Result<Option<Lin>, Coefficient>
    requires { number < 16 }
    ensures { Fits is_small_some (first_read number terms.now) result }
{
    for (term, other) in terms {
        if let Some(rest) = constant_beside(term, number) {
            return Ok(Some(sub(other, &rest)?));
        }
    }
    Ok(None)
}

// The argument for the variable.
fn argument(number: usize, vars: u8, terms: &[(Lin, Lin)]) -> Result<Lin, Coefficient>
    requires { number < 16 }
    ensures { Fits is_small (argument_of vars terms.now number) result }
{
    match first_read(number, terms)? {
        Some(l) => Ok(l),
        None => {
            if number < vars as usize {
                Ok(Lin::variable(number))
            } else {
                Ok(Lin::nought())
            }
        }
    }
}

// The arguments for so many variables, with what was read.
fn arguments_from(
    alloc: Global,
    count: u8,
    vars: u8,
    terms: &[(Lin, Lin)],
) -> Result<Items<Lin>, IndexErr>
    requires { count ≤ 16 }
    ensures { Gives (list_all is_small) (tabulate (argument_of vars terms.now) 0 count) result }
{
    let mut out = Items::new(alloc);
    for i in 0..count as usize {
        out.push(argument(i, vars, terms)?)?;
    }
    Ok(out)
}

/// The arguments at which the types may be an instance of the equation.
pub(crate) fn arguments(
    alloc: Global,
    equation: &Equation,
    place: &Place,
    left: &Ty,
    right: &Ty,
) -> Result<Items<Lin>, IndexErr>
    requires fit { AreFit place.now left.now right.now }
    requires equation { IsFitEquation equation.now }
    ensures { Gives (list_all is_small) (arguments equation.now place.now left.now right.now) result }
{
    let terms = all_terms(alloc, equation, place, left, right)?;
    arguments_from(alloc, equation.vars, place.vars, terms.as_slice())
}
