// Literals of the search.
ghost use Rattle.std.specs.Prelude.{◌≡◌, ◌<◌, ◌≤◌, ◌^◌, true, pos};
ghost use Rattle.rast_cooper.specs.Answer.{FitsSome};
ghost use Rattle.rast_cooper.specs.Arithmetic.{at_most, shifted};
ghost use Rattle.rast_cooper.specs.Eliminate.{has, is_divided, substituted, multiplied, scaled, is_lower, bound};
ghost use Rattle.rast_index.specs.Truth.{divides};
ghost use Rattle.rast_cooper.specs.Meaning.{literal};
ghost use Rattle.rast_cooper.specs.Rows.{number_of};
ghost use Rattle.rast_cooper.specs.Search.{ground, says, fails, in_bounds};

use crate::number::{bounded_product, sign};
use crate::term::Term;

/// What a literal says of its term's value.
#[derive(Clone, Copy, PartialEq, Eq)]
pub enum Sort {
    /// It is at least 0.
    AtLeast,
    /// It is 0.
    Equals,
    /// It is a multiple of the divisor.
    Multiple,
    /// It is no multiple of the divisor.
    NotMultiple,
}

/// A demand on the value of a linear term.
#[derive(Clone, Copy)]
pub struct Literal {
    /// What is demanded.
    pub sort: Sort,
    /// The divisor of a demand on multiples, else 0.
    pub divisor: u128,
    /// The term.
    pub term: Term,
}

/// Whether a demand is true of a number.
fn says(sort: Sort, divisor: u128, number: i128) -> bool
    ensures { result ≡ says sort divisor number }
{
    match sort {
        Sort::AtLeast => 0 <= number,
        Sort::Equals => number == 0,
        Sort::Multiple => is_multiple(divisor, number),
        Sort::NotMultiple => !is_multiple(divisor, number),
    }
}

/// Whether `z` is a multiple of `d`.
fn is_multiple(d: u128, z: i128) -> bool
    ensures { result ≡ divides d z }
{
    let magnitude = z.unsigned_abs();
    if d == 0 {
        magnitude == 0
    } else {
        magnitude % d == 0
    }
}

impl Literal {
    /// The demand that a term is at least 0.
    pub fn at_least(term: Term) -> Literal
        ensures { result ≡ literal Sort.AtLeast 0 term }
    {
        Literal {
            sort: Sort::AtLeast,
            divisor: 0,
            term,
        }
    }

    /// Whether it has a divisor.
    pub fn is_divided(&self) -> bool
        ensures { result ≡ is_divided self.now.sort }
    {
        match self.sort {
            Sort::AtLeast | Sort::Equals => false,
            Sort::Multiple | Sort::NotMultiple => true,
        }
    }

    /// Whether the variable occurs.
    pub fn has(&self, x: usize) -> bool
        requires { x < 16 }
        ensures { result ≡ has x self.now }
    {
        self.term.coefficient_of(x) != 0
    }

    /// Whether no variable occurs.
    pub fn is_ground(&self) -> bool
        ensures { result ≡ ground self.now }
    {
        for x in 0..16 {
            if self.has(x) {
                return false;
            }
        }
        true
    }

    /// Whether what is demanded is true of the constant.
    fn says_constant(&self) -> bool
        ensures { result ≡ says self.now.sort self.now.divisor self.now.term.constant }
    {
        says(self.sort, self.divisor, self.term.constant)
    }

    /// Whether it has no variables and is false.
    pub fn fails(&self) -> bool
        ensures { result ≡ fails self.now }
    {
        self.is_ground() && !self.says_constant()
    }

    /// This literal with `t + more` in the place of a variable, where its numbers are bounded.
    pub fn substituted(&self, x: usize, t: &Term, more: u128) -> Option<Literal>
        requires variable { x < 16 }
        requires more { more ≤ 2 ^ 120 }
        requires bounded { in_bounds self.now ≡ true }
        ensures { FitsSome in_bounds (substituted x (shifted more t.now) self.now) result }
    {
        if !self.has(x) {
            return Some(*self);
        }
        let term = self.term.exchanged(x, t, more)?;
        Some(Literal {
            sort: self.sort,
            divisor: self.divisor,
            term,
        })
    }

    /// Whether `t + more` in the place of a variable leaves no variable, and a demand that is false.
    /// Only then is the new literal made: first its constant is looked at, with a sum that may wrap.
    pub fn fails_at(&self, x: usize, t: &Term, more: u128) -> bool
        requires variable { x < 16 }
        requires more { more ≤ 2 ^ 120 }
        requires bounded { in_bounds self.now ≡ true }
        ensures { result ≡ true → fails (substituted x (shifted more t.now) self.now) ≡ true }
    {
        let value = t.constant.wrapping_add(more as i128);
        let part = self.term.coefficient_of(x).wrapping_mul(value);
        let constant = self.term.constant.wrapping_add(part);
        if says(self.sort, self.divisor, constant) {
            return false;
        }
        match self.substituted(x, t, more) {
            Some(put) => put.fails(),
            None => false,
        }
    }

    /// This literal multiplied by `k`, with the sign of a variable's coefficient as its new coefficient.
    fn multiplied(&self, x: usize, k: u128) -> Option<Literal>
        requires variable { x < 16 }
        requires factor { k ≤ 2 ^ 120 }
        ensures { FitsSome in_bounds (multiplied x k self.now) result }
    {
        let Some(divisor) = bounded_product(k, self.divisor) else {
            return None;
        };
        let Some(term) = self.term.with(x, 0).times(k as i128) else {
            return None;
        };
        Some(Literal {
            sort: self.sort,
            divisor,
            term: term.with(x, sign(self.term.coefficient_of(x))),
        })
    }

    /// This literal multiplied so that a variable's coefficient is `l` or `-l`, with the variable in the place of `l` times itself.
    pub fn scaled(&self, x: usize, l: u128) -> Option<Literal>
        requires variable { x < 16 }
        requires least { at_most l ≡ true }
        requires bounded { in_bounds self.now ≡ true }
        ensures { FitsSome in_bounds (scaled x l self.now) result }
    {
        if !self.has(x) {
            return Some(*self);
        }
        self.multiplied(x, l / self.term.coefficient_of(x).unsigned_abs())
    }

    /// Whether it is a lower bound of the variable.
    pub fn is_lower(&self, x: usize) -> bool
        requires { x < 16 }
        ensures { result ≡ is_lower x self.now }
    {
        self.sort == Sort::AtLeast && self.term.coefficient_of(x) == 1
    }

    /// The term that a lower bound says the variable is at least.
    pub fn bound(&self, x: usize) -> Term
        requires { x < 16 }
        ensures { result ≡ bound x self.now }
    {
        self.term.with(x, 0).negated()
    }

    /// The natural that a row without variables gives: its constant's magnitude over its divisor.
    pub fn number(&self) -> u128
        requires { 0 < self.now.divisor }
        ensures { result ≡ number_of self.now }
    {
        let term = &self.term;
        term.constant.unsigned_abs() / self.divisor
    }
}
