// Lists of literals that are made from others.
ghost use Rattle.std.specs.Prelude.{◌≡◌, ◌<◌, ◌≤◌, ◌^◌, true, ◌++◌, map, IfOk, OnOk};
ghost use Rattle.std.specs.List.{list_any};
ghost use Rattle.rast_cooper.specs.Answer.{FitsSome};
ghost use Rattle.rast_cooper.specs.Arithmetic.{at_most, shifted};
ghost use Rattle.rast_cooper.specs.Eliminate.{has, substituted, scaled, parts, without_equations, common, prepared_by, Positive};
ghost use Rattle.rast_cooper.specs.Moderate.{are_moderate};
ghost use Rattle.rast_cooper.specs.Search.{in_bounds, all_in_bounds, fails, varied, test, fit};

use crate::divisor::{common, period};
use crate::literal::{Literal, Sort};
use crate::term::Term;
use sqlite_items::Items;
use std::alloc::{AllocError, Global};

/// Whether a literal without variables is false.
pub fn any_fails(ls: &[Literal]) -> bool
    ensures { result ≡ list_any fails ls.now }
{
    ls.iter().any(|lit| lit.fails())
}

/// Whether no number of a term is greater than 2^59 in magnitude.
pub fn are_moderate(ls: &[Literal]) -> bool
    ensures { result ≡ are_moderate ls.now }
{
    ls.iter().all(|lit| lit.term.is_moderate())
}

/// Whether a literal was found that has no variable and is false with `t + more` in the place of a variable.
/// They are tried from the place `last` on, and then from the first on; `last` is then that literal's place.
pub fn finds_false(ls: &[Literal], x: usize, t: &Term, more: u128, last: &mut usize) -> bool
    requires variable { x < 16 }
    requires more { more ≤ 2 ^ 120 }
    requires bounded { all_in_bounds ls.now ≡ true }
    ensures { result ≡ true → list_any fails (map (substituted x (shifted more t.now)) ls.now) ≡ true }
{
    let mut place = *last;
    for _turn in 0..ls.len() {
        if place >= ls.len() {
            place = 0;
        }
        if ls[place].fails_at(x, t, more) {
            *last = place;
            return true;
        }
        place += 1;
    }
    false
}

/// The literals that have variables.
pub fn varied(alloc: Global, ls: &[Literal]) -> Result<Items<Literal>, AllocError>
    ensures { IfOk result (λ it. it ≡ varied ls.now) }
{
    let mut out = Items::new(alloc);
    for lit in ls {
        if lit.is_ground() {
            continue;
        }
        out.push(*lit)?;
    }
    Ok(out)
}

/// The literals with `t + more` in the place of a variable, where their numbers are bounded.
pub fn put_all(
    alloc: Global,
    ls: &[Literal],
    x: usize,
    t: &Term,
    more: u128,
) -> Result<Option<Items<Literal>>, AllocError>
    requires variable { x < 16 }
    requires more { more ≤ 2 ^ 120 }
    requires bounded { all_in_bounds ls.now ≡ true }
    ensures { IfOk result (FitsSome all_in_bounds (map (substituted x (shifted more t.now)) ls.now)) }
{
    let mut out = Vec::with_capacity(alloc, ls.len())?;
    for lit in ls {
        match lit.substituted(x, t, more) {
            Some(put) => out.push(put)?,
            None => return Ok(None),
        }
    }
    Ok(Some(Items::from_vec(out)))
}

/// The literals multiplied for a variable, where their numbers are bounded.
fn scaled_all(
    alloc: Global,
    ls: &[Literal],
    x: usize,
    l: u128,
) -> Result<Option<Items<Literal>>, AllocError>
    requires variable { x < 16 }
    requires least { at_most l ≡ true }
    requires bounded { all_in_bounds ls.now ≡ true }
    ensures { IfOk result (FitsSome all_in_bounds (map (scaled x l) ls.now)) }
{
    let mut out = Vec::with_capacity(alloc, ls.len())?;
    for lit in ls {
        match lit.scaled(x, l) {
            Some(multiplied) => out.push(multiplied)?,
            None => return Ok(None),
        }
    }
    Ok(Some(Items::from_vec(out)))
}

/// Adds what stands in the place of a literal where a variable is tested: two bounds for an equation that has it.
fn push_parts(out: &mut Items<Literal>, lit: &Literal, x: usize) -> Result<(), AllocError>
    requires variable { x < 16 }
    requires bounded { in_bounds lit.now ≡ true }
    ensures made { OnOk result (out.new ≡ out.old ++ parts x lit.now) }
    ensures bounded { OnOk result (all_in_bounds (parts x lit.now) ≡ true) }
{
    if lit.sort == Sort::Equals && lit.has(x) {
        out.push(Literal::at_least(lit.term))?;
        out.push(Literal::at_least(lit.term.negated()))?;
    } else {
        out.push(*lit)?;
    }
    Ok(())
}

/// The literals, with two bounds in the place of each equation that has a variable.
fn without_equations(alloc: Global, ls: &[Literal], x: usize) -> Result<Items<Literal>, AllocError>
    requires variable { x < 16 }
    requires bounded { all_in_bounds ls.now ≡ true }
    ensures made { IfOk result (λ it. it ≡ without_equations x ls.now) }
    ensures bounded { IfOk result (λ it. all_in_bounds it ≡ true) }
{
    let mut out = Items::new(alloc);
    for lit in ls {
        push_parts(&mut out, lit, x)?;
    }
    Ok(out)
}

/// Literals and rows that are ready to be tested at the bounds of a variable.
#[derive(Drop)]
pub struct Prepared {
    /// What the variable's coefficients were multiplied to.
    pub common: u128,
    /// How many points are to be tested from each bound on.
    pub period: u128,
    /// The literals.
    pub literals: Items<Literal>,
    /// The rows.
    pub rows: Items<Literal>,
}

/// The least common multiple of the magnitudes of a variable's coefficients in literals and rows, where it is at most 2^120.
fn least(ls: &[Literal], rows: &[Literal], x: usize) -> Option<u128>
    requires { x < 16 }
    ensures { FitsSome at_most (common x (ls.now ++ rows.now)) result }
{
    match common(rows, x, 1) {
        Some(of_rows) => common(ls, x, of_rows),
        None => None,
    }
}

/// The literals multiplied for a variable, and that it is a multiple of `l`, where their numbers are bounded.
fn multiples(
    alloc: Global,
    ls: &[Literal],
    x: usize,
    l: u128,
) -> Result<Option<Items<Literal>>, AllocError>
    requires variable { x < 16 }
    requires least { at_most l ≡ true }
    requires bounded { all_in_bounds ls.now ≡ true }
    ensures { IfOk result (FitsSome all_in_bounds (prepared_by x l ls.now)) }
{
    match scaled_all(alloc, ls, x, l)? {
        Some(mut literals) => {
            literals.push(Literal {
                sort: Sort::Multiple,
                divisor: l,
                term: Term::variable(x),
            })?;
            Ok(Some(literals))
        }
        None => Ok(None),
    }
}

/// The literals and rows made ready for the test of a variable, where their numbers are bounded.
pub fn prepare(
    alloc: Global,
    ls: &[Literal],
    rows: &[Literal],
    x: usize,
) -> Result<Option<Prepared>, AllocError>
    requires variable { x < 16 }
    requires literals { all_in_bounds ls.now ≡ true }
    requires rows { all_in_bounds rows.now ≡ true }
    requires divisors { Positive ls.now }
    ensures { IfOk result (FitsSome fit (test x ls.now rows.now)) }
{
    let split = without_equations(alloc, ls, x)?;
    let Some(l) = least(split.as_slice(), rows, x) else {
        return Ok(None);
    };
    let Some(literals) = multiples(alloc, split.as_slice(), x, l)? else {
        return Ok(None);
    };
    let Some(rows) = scaled_all(alloc, rows, x, l)? else {
        return Ok(None);
    };
    match period(literals.as_slice(), x) {
        Some(period) => Ok(Some(Prepared {
            common: l,
            period,
            literals,
            rows,
        })),
        None => Ok(None),
    }
}
