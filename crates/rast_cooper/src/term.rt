// Linear terms with numbers up to 2^120.
ghost use Rattle.std.specs.Prelude.{◌≡◌, ◌<◌, ◌≤◌, ◌^◌, pos, negsuc, true, unsigned_abs};
ghost use Rattle.rast_index.specs.Linear.{nought, is_small};
ghost use Rattle.rast_cooper.specs.Answer.{FitsSome};
ghost use Rattle.rast_cooper.specs.Arithmetic.{bounded, is_bounded, put, added, times, minus, less_one, shifted, exchanged, variable, coefficient};
ghost use Rattle.rast_cooper.specs.Moderate.{is_moderate};

use crate::number::{all_moderate, combined, is_moderate, sum_product};
use rast_index::Lin;
use std::marker::Model;

/// A linear term of the search: a constant, and a coefficient for each of 16 variables.
/// No magnitude is greater than 2^120.
#[derive(Clone, Copy)]
pub struct Term {
    /// The constant.
    pub constant: i128,
    /// The coefficient of each variable, by the variable's number.
    pub coefficient: [i128; 16],
}

impl Model for Term {
    ghost use Rattle.rast_cooper.specs.Arithmetic.{Linear, is_bounded};
    ghost use Rattle.std.specs.Prelude.{IsTrue};

    ghost Value = { Linear };

    ghost view = { λ t. record { constant = t.constant; coefficients = t.coefficient } };

    ghost invariant = { λ t. IsTrue (is_bounded (record { constant = t.constant; coefficients = t.coefficient })) };

    ghost inverse = { λ v. record { constant = v.constant; coefficient = v.coefficients } };
}

impl Term {
    /// The variable by itself.
    pub fn variable(x: usize) -> Term
        requires { x < 16 }
        ensures { result ≡ variable x }
    {
        let mut coefficient = [0i128; 16];
        coefficient[x] = 1;
        Term {
            constant: 0,
            coefficient,
        }
    }

    /// The same term with numbers of this width.
    pub fn widened(lin: &Lin) -> Term
        ensures same { result ≡ lin.now }
        ensures small { is_small lin.now ≡ true }
        ensures bounded { is_bounded result ≡ true }
    {
        let mut coefficient = [0i128; 16];
        for i in 0..16 {
            coefficient[i] = lin.coefficient[i] as i128;
        }
        Term {
            constant: lin.constant as i128,
            coefficient,
        }
    }

    /// Whether no number's magnitude is greater than 2^59.
    pub fn is_moderate(&self) -> bool
        ensures { result ≡ is_moderate self.now }
    {
        is_moderate(self.constant) && all_moderate(&self.coefficient)
    }

    /// The coefficient of a variable.
    pub fn coefficient_of(&self, x: usize) -> i128
        requires { x < 16 }
        ensures { result ≡ coefficient self.now x }
    {
        self.coefficient[x]
    }

    /// This term with another coefficient of a variable.
    pub fn with(&self, x: usize, c: i128) -> Term
        requires variable { x < 16 }
        requires number { bounded c ≡ true }
        ensures { result ≡ put x c self.now }
    {
        let mut coefficient = self.coefficient;
        coefficient[x] = c;
        Term {
            constant: self.constant,
            coefficient,
        }
    }

    /// This term, and `factor` times another and `more`, where the numbers are bounded.
    fn and_times(&self, factor: i128, other: &Term, more: u128) -> Option<Term>
        requires { more ≤ 2 ^ 120 }
        ensures { FitsSome is_bounded (added self.now (times factor (shifted more other.now))) result }
    {
        let Some(constant) = sum_product(self.constant, factor, other.constant + more as i128)
        else {
            return None;
        };
        match combined(&self.coefficient, factor, &other.coefficient) {
            Some(coefficient) => Some(Term {
                constant,
                coefficient,
            }),
            None => None,
        }
    }

    /// This term with `t + more` in the place of a variable, where its numbers are bounded.
    pub fn exchanged(&self, x: usize, t: &Term, more: u128) -> Option<Term>
        requires variable { x < 16 }
        requires more { more ≤ 2 ^ 120 }
        ensures { FitsSome is_bounded (exchanged x (shifted more t.now) self.now) result }
    {
        self.with(x, 0).and_times(self.coefficient_of(x), t, more)
    }

    /// A multiple of this term, where its numbers are bounded.
    pub fn times(&self, k: i128) -> Option<Term>
        ensures { FitsSome is_bounded (times k self.now) result }
    {
        let _number = self.constant;
        Term::nought().and_times(k, self, 0)
    }

    /// The constant 0.
    fn nought() -> Term
        ensures { result ≡ nought }
    {
        Term {
            constant: 0,
            coefficient: [0i128; 16],
        }
    }

    /// This term with all its signs turned.
    pub fn negated(&self) -> Term
        ensures { result ≡ times (negsuc 0) self.now }
    {
        let _constant = self.constant;
        match self.times(-1) {
            Some(t) => t,
            None => unreachable!(),
        }
    }

    /// The difference of two terms.
    pub fn difference(a: &Lin, b: &Lin) -> Term
        ensures value { result ≡ minus a.now b.now }
        ensures bounded { is_bounded result ≡ true }
        ensures room { unsigned_abs result.constant ≤ 2 ^ 33 }
    {
        match Term::widened(a).and_times(-1, &Term::widened(b), 0) {
            Some(t) => t,
            None => unreachable!(),
        }
    }

    /// One less than the difference of two terms.
    pub fn difference_less_one(a: &Lin, b: &Lin) -> Term
        ensures value { result ≡ less_one (minus a.now b.now) }
        ensures bounded { is_bounded result ≡ true }
    {
        let mut t = Term::difference(a, b);
        t.constant -= 1;
        t
    }
}
