// Common multiples.
ghost use Rattle.std.specs.Prelude.{◌≡◌, ◌<◌, true};
ghost use Rattle.rast_cooper.specs.Answer.{FitsSome};
ghost use Rattle.rast_cooper.specs.Arithmetic.{at_most};
ghost use Rattle.rast_cooper.specs.Eliminate.{gcd, lcm, common_over, period, Positive};

use crate::literal::Literal;
use crate::number::bounded_product;

/// The greatest common divisor.
fn gcd(a: u128, b: u128) -> u128
    ensures { result ≡ gcd a b }
{
    let mut x = a;
    let mut y = b;
    while y != 0 {
        let rest = x % y;
        x = y;
        y = rest;
    }
    x
}

/// The least common multiple, where it is at most 2^120.
fn lcm(a: u128, b: u128) -> Option<u128>
    requires { 0 < a }
    ensures { FitsSome at_most (lcm a b) result }
{
    bounded_product(a / gcd(a, b), b)
}

/// The least common multiple of the magnitudes of a variable's coefficients and of `start`, where it is at most 2^120.
pub fn common(ls: &[Literal], x: usize, start: u128) -> Option<u128>
    requires variable { x < 16 }
    requires above { 0 < start }
    requires bounded { at_most start ≡ true }
    ensures { FitsSome at_most (common_over x ls.now start) result }
{
    let mut l = start;
    let mut i = ls.len();
    while i > 0 {
        i -= 1;
        let lit = &ls[i];
        if lit.has(x) {
            match lcm(lit.term.coefficient_of(x).unsigned_abs(), l) {
                Some(more) => l = more,
                None => return None,
            }
        }
    }
    Some(l)
}

/// The least common multiple of the divisors of the literals that have a variable, where it is at most 2^120.
pub fn period(ls: &[Literal], x: usize) -> Option<u128>
    requires variable { x < 16 }
    requires above { Positive ls.now }
    ensures { FitsSome at_most (period x ls.now) result }
{
    let mut l = 1;
    let mut i = ls.len();
    while i > 0 {
        i -= 1;
        let lit = &ls[i];
        if lit.has(x) && lit.is_divided() {
            match lcm(lit.divisor, l) {
                Some(more) => l = more,
                None => return None,
            }
        }
    }
    Some(l)
}
