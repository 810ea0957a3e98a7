// The search below a state without pending claims.
ghost use Rattle.std.specs.Prelude.{◌≡◌, ◌<◌, ◌≤◌, ◌^◌, true, List, [], ◌∷◌, map, IfOk};
ghost use Rattle.std.specs.List.{list_any};
ghost use Rattle.rast_cooper.specs.Arithmetic.{at_most};
ghost use Rattle.rast_cooper.specs.Course.{Explores, Advances, IsBelow, IsAtMost, continued, broken};
ghost use Rattle.rast_cooper.specs.Eliminate.{Positive, substituted, at_point, bounds};
ghost use Rattle.rast_cooper.specs.Moderate.{is_moderate, are_moderate};
ghost use Rattle.rast_cooper.specs.Search.{State, state, all_in_bounds, fails, run, after, settled, tested, test, first_solved, point_states, bound_states};

use crate::literal::Literal;
use crate::number::MOST_MODERATE;
use crate::rewrite::{any_fails, are_moderate, finds_false, prepare, put_all, varied};
use crate::solution::{first_solved, lowest};
use crate::term::Term;
use sqlite_items::Items;
use std::alloc::{AllocError, Global};

/// What came of a state and all states below it.
#[derive(Drop)]
pub enum Course {
    /// No solution; so many more states may be visited.
    Done(u32),
    /// A solution, by its rows.
    Found(Items<Literal>),
    /// More states would have to be visited than may be.
    TooMany,
    /// A number beyond 2^120 in magnitude was met.
    TooGreat,
}

/// What comes of a state with numbers beyond 2^120.
fn broken(left: u32) -> Course
    ensures { result ≡ broken left }
{
    if left == 0 {
        Course::TooMany
    } else {
        Course::TooGreat
    }
}

/// Visits the state of these literals and rows, and what follows from it, at most `left` states.
#[cycle(explore)]
pub fn explore(
    alloc: Global,
    ls: &[Literal],
    rows: &[Literal],
    left: u32,
) -> Result<Course, AllocError>
    requires literals { all_in_bounds ls.now ≡ true }
    requires rows { all_in_bounds rows.now ≡ true }
    requires divisors { Positive ls.now }
    ensures course { IfOk result (Explores left (state [] ls.now rows.now ∷ [])) }
    ensures below { IfOk result (IsBelow left) }
{
    if left == 0 {
        return Ok(Course::TooMany);
    }
    if any_fails(ls) {
        return Ok(Course::Done(left - 1));
    }
    let kept = varied(alloc, ls)?;
    bare(alloc, kept.as_slice(), rows, left - 1)
}

/// Visits what follows from a state of literals with variables and of rows.
#[cycle(explore)]
fn bare(alloc: Global, ls: &[Literal], rows: &[Literal], left: u32) -> Result<Course, AllocError>
    requires literals { all_in_bounds ls.now ≡ true }
    requires rows { all_in_bounds rows.now ≡ true }
    requires divisors { Positive ls.now }
    ensures course { IfOk result (λ c. (ss : List State) → after (run left) (settled (first_solved ls.now) ls.now rows.now) (state [] ls.now rows.now) ss ≡ continued c ss) }
    ensures at_most { IfOk result (IsAtMost left) }
{
    match first_solved(ls) {
        Some(solution) => substitute(alloc, ls, rows, solution.variable, &solution.term, left),
        None => match lowest(ls, rows) {
            Some(x) => test(alloc, ls, rows, x, left),
            None => Ok(Course::Found(Items::from_slice(alloc, rows)?)),
        },
    }
}

/// Visits the state in which a variable of a solved equation was replaced.
#[cycle(explore)]
fn substitute(
    alloc: Global,
    ls: &[Literal],
    rows: &[Literal],
    x: usize,
    term: &Term,
    left: u32,
) -> Result<Course, AllocError>
    requires variable { x < 16 }
    requires literals { all_in_bounds ls.now ≡ true }
    requires rows { all_in_bounds rows.now ≡ true }
    requires divisors { Positive ls.now }
    ensures course { IfOk result (Explores left (state [] (map (substituted x term.now) ls.now) (map (substituted x term.now) rows.now) ∷ [])) }
    ensures at_most { IfOk result (IsAtMost left) }
{
    replace(alloc, ls, rows, x, term, 0, left)
}

/// Visits the state in which a variable was replaced by `term + more`.
#[cycle(explore)]
fn replace(
    alloc: Global,
    ls: &[Literal],
    rows: &[Literal],
    x: usize,
    term: &Term,
    more: u128,
    left: u32,
) -> Result<Course, AllocError>
    requires variable { x < 16 }
    requires more { more ≤ 2 ^ 120 }
    requires literals { all_in_bounds ls.now ≡ true }
    requires rows { all_in_bounds rows.now ≡ true }
    requires divisors { Positive ls.now }
    ensures course { IfOk result (Explores left (state [] (at_point x term.now more ls.now) (at_point x term.now more rows.now) ∷ [])) }
    ensures at_most { IfOk result (IsAtMost left) }
{
    let Some(literals) = put_all(alloc, ls, x, term, more)? else {
        return Ok(broken(left));
    };
    let Some(rows) = put_all(alloc, rows, x, term, more)? else {
        return Ok(broken(left));
    };
    explore(alloc, literals.as_slice(), rows.as_slice(), left)
}

/// Whether no number of the literals' and rows' terms is greater than 2^59 in magnitude.
fn both_moderate(ls: &[Literal], rows: &[Literal]) -> bool
    ensures { result ≡ true → (are_moderate ls.now ≡ true) × (are_moderate rows.now ≡ true) }
{
    if are_moderate(ls) {
        are_moderate(rows)
    } else {
        false
    }
}

/// Whether it was found that with `term + more` in the place of a variable a literal without variables is false,
/// and that no number of the new state passes 2^120, as all that it is made of are moderate.
fn ends(ls: &[Literal], x: usize, term: &Term, more: u128, moderate: bool, last: &mut usize) -> bool
    requires variable { x < 16 }
    requires more { more ≤ 2 ^ 120 }
    requires literals { all_in_bounds ls.now ≡ true }
    ensures given { result ≡ true → moderate ≡ true }
    ensures near { result ≡ true → more ≤ 2 ^ 59 }
    ensures term { result ≡ true → is_moderate term.now ≡ true }
    ensures fails { result ≡ true → list_any fails (at_point x term.now more ls.now) ≡ true }
{
    if !moderate {
        return false;
    }
    if more > MOST_MODERATE {
        return false;
    }
    if !term.is_moderate() {
        return false;
    }
    finds_false(ls, x, term, more, last)
}

/// Visits the state of a test point, which is not made where it is known to end.
#[cycle(explore)]
fn point(
    alloc: Global,
    ls: &[Literal],
    rows: &[Literal],
    x: usize,
    term: &Term,
    more: u128,
    moderate: bool,
    last: &mut usize,
    left: u32,
) -> Result<Course, AllocError>
    requires variable { x < 16 }
    requires more { more ≤ 2 ^ 120 }
    requires literals { all_in_bounds ls.now ≡ true }
    requires rows { all_in_bounds rows.now ≡ true }
    requires divisors { Positive ls.now }
    requires moderate { moderate ≡ true → (are_moderate ls.now ≡ true) × (are_moderate rows.now ≡ true) }
    ensures course { IfOk result (Explores left (state [] (at_point x term.now more ls.now) (at_point x term.now more rows.now) ∷ [])) }
    ensures at_most { IfOk result (IsAtMost left) }
{
    if left == 0 {
        return Ok(Course::TooMany);
    }
    if ends(ls, x, term, more, moderate, last) {
        return Ok(Course::Done(left - 1));
    }
    replace(alloc, ls, rows, x, term, more, left)
}

/// Visits the states in which a variable has the values of its test points.
#[cycle(explore)]
fn test(
    alloc: Global,
    ls: &[Literal],
    rows: &[Literal],
    x: usize,
    left: u32,
) -> Result<Course, AllocError>
    requires variable { x < 16 }
    requires literals { all_in_bounds ls.now ≡ true }
    requires rows { all_in_bounds rows.now ≡ true }
    requires divisors { Positive ls.now }
    ensures course { IfOk result (Advances left (tested x (test x ls.now rows.now))) }
    ensures at_most { IfOk result (IsAtMost left) }
{
    match prepare(alloc, ls, rows, x)? {
        Some(ready) => {
            let literals = ready.literals.as_slice();
            let rows = ready.rows.as_slice();
            let moderate = both_moderate(literals, rows);
            bounds(alloc, literals, rows, ready.period, x, moderate, left)
        }
        None => Ok(Course::TooGreat),
    }
}

/// Visits the states of the test points of all lower bounds of a variable.
#[cycle(explore)]
fn bounds(
    alloc: Global,
    ls: &[Literal],
    rows: &[Literal],
    period: u128,
    x: usize,
    moderate: bool,
    most: u32,
) -> Result<Course, AllocError>
    requires variable { x < 16 }
    requires period { at_most period ≡ true }
    requires literals { all_in_bounds ls.now ≡ true }
    requires rows { all_in_bounds rows.now ≡ true }
    requires divisors { Positive ls.now }
    requires moderate { moderate ≡ true → (are_moderate ls.now ≡ true) × (are_moderate rows.now ≡ true) }
    ensures course { IfOk result (Explores most (bound_states x (bounds x ls.now) period ls.now rows.now)) }
    ensures at_most { IfOk result (IsAtMost most) }
{
    let mut left = most;
    let mut last = 0;
    for lit in ls {
        if !lit.is_lower(x) {
            continue;
        }
        let bound = lit.bound(x);
        match points(
            alloc, ls, rows, period, x, &bound, moderate, &mut last, left,
        )? {
            Course::Done(rest) => left = rest,
            end => return Ok(end),
        }
    }
    Ok(Course::Done(left))
}

/// Visits the states of the test points from one bound on.
#[cycle(explore)]
fn points(
    alloc: Global,
    ls: &[Literal],
    rows: &[Literal],
    period: u128,
    x: usize,
    bound: &Term,
    moderate: bool,
    last: &mut usize,
    most: u32,
) -> Result<Course, AllocError>
    requires variable { x < 16 }
    requires period { at_most period ≡ true }
    requires literals { all_in_bounds ls.now ≡ true }
    requires rows { all_in_bounds rows.now ≡ true }
    requires divisors { Positive ls.now }
    requires moderate { moderate ≡ true → (are_moderate ls.now ≡ true) × (are_moderate rows.now ≡ true) }
    ensures course { IfOk result (Explores most (point_states x bound.now 0 period ls.now rows.now)) }
    ensures at_most { IfOk result (IsAtMost most) }
{
    let mut left = most;
    for j in 0..period {
        match point(alloc, ls, rows, x, bound, j, moderate, last, left)? {
            Course::Done(rest) => left = rest,
            end => return Ok(end),
        }
    }
    Ok(Course::Done(left))
}
