// The equation that is solved, and the variable that is tested.
ghost use Rattle.std.specs.Prelude.{◌≡◌, ◌<◌, ◌++◌, pos, neg_ℤ, unsigned_abs, IfSome};
ghost use Rattle.std.specs.List.{list_any};
ghost use Rattle.rast_cooper.specs.Arithmetic.{coefficient, put, times};
ghost use Rattle.rast_cooper.specs.Eliminate.{has};
ghost use Rattle.rast_cooper.specs.Search.{unit, first_solved, lowest};

use crate::literal::{Literal, Sort};
use crate::term::Term;

/// A variable, and the term that it equals.
#[derive(Clone, Copy)]
pub struct Solution {
    /// The variable.
    pub variable: usize,
    /// What it equals.
    pub term: Term,
}

/// The lowest variable whose coefficient is 1 or -1.
fn unit(term: &Term) -> Option<usize>
    ensures lowest { result ≡ unit term.now }
    ensures within { IfSome result (λ x. x < 16) }
    ensures is_unit { IfSome result (λ x. unsigned_abs (coefficient term.now x) ≡ 1) }
{
    for x in 0..16 {
        if term.coefficient_of(x).unsigned_abs() == 1 {
            return Some(x);
        }
    }
    None
}

/// The solution of `0 = term` for a variable whose coefficient is 1 or -1.
fn solved(term: &Term, x: usize) -> Term
    requires variable { x < 16 }
    requires unit { unsigned_abs (coefficient term.now x) ≡ 1 }
    ensures { result ≡ times (neg_ℤ (coefficient term.now x)) (put x (pos 0) term.now) }
{
    let rest = term.with(x, 0);
    if term.coefficient_of(x) == 1 {
        rest.negated()
    } else {
        rest
    }
}

/// The solution of the first equation that has a variable with coefficient 1 or -1.
pub fn first_solved(ls: &[Literal]) -> Option<Solution>
    ensures first { result ≡ first_solved ls.now }
    ensures within { IfSome result (λ s. s.variable < 16) }
{
    for lit in ls {
        if lit.sort == Sort::Equals {
            if let Some(variable) = unit(&lit.term) {
                return Some(Solution {
                    variable,
                    term: solved(&lit.term, variable),
                });
            }
        }
    }
    None
}

/// Whether the variable occurs in a literal.
fn any_has(ls: &[Literal], x: usize) -> bool
    requires { x < 16 }
    ensures { result ≡ list_any (has x) ls.now }
{
    ls.iter().any(|lit| lit.has(x))
}

/// The lowest variable that occurs.
pub fn lowest(ls: &[Literal], rows: &[Literal]) -> Option<usize>
    ensures lowest { result ≡ lowest (ls.now ++ rows.now) }
    ensures within { IfSome result (λ x. x < 16) }
{
    for x in 0..16 {
        if any_has(ls, x) || any_has(rows, x) {
            return Some(x);
        }
    }
    None
}
