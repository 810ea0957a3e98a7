// Linear terms.
ghost use Rattle.std.specs.Prelude.{◌≡◌, ◌<◌, ◌≤◌, ◌↔◌, true, length, IsTrue};
ghost use Rattle.rast_index.specs.Linear.{part, small, is_small, nought, variable};

use std::marker::Model;

/// A linear term over 16 index variables: a constant, and a coefficient for each variable.
/// Every number is below 2^32 in magnitude.
#[derive(Clone, Copy, Debug, PartialEq, Eq)]
pub struct Lin {
    /// The constant.
    pub constant: i64,
    /// The coefficient of each variable, by the variable's number.
    pub coefficient: [i64; 16],
}

impl Model for Lin {
    ghost use Rattle.rast_index.specs.Linear.{Linear, is_small};
    ghost use Rattle.std.specs.Prelude.{IsTrue};

    ghost Value = { Linear };

    ghost view = { λ l. record { constant = l.constant; coefficients = l.coefficient } };

    ghost invariant = { λ l. IsTrue (is_small (record { constant = l.constant; coefficients = l.coefficient })) };

    ghost inverse = { λ v. record { constant = v.constant; coefficient = v.coefficients } };
}

impl Lin {
    /// The constant 0.
    pub fn nought() -> Lin
        ensures { result ≡ nought }
    {
        Lin {
            constant: 0,
            coefficient: [0; 16],
        }
    }

    /// The variable with this number.
    pub fn variable(number: usize) -> Lin
        requires { number < 16 }
        ensures { result ≡ variable number }
    {
        let mut coefficient = [0; 16];
        coefficient[number] = 1;
        Lin {
            constant: 0,
            coefficient,
        }
    }

    /// The same term again, whose numbers are below 2^32 in magnitude.
    pub fn again(&self) -> Lin
        ensures same { result ≡ self.now }
        ensures small { is_small self.now ≡ true }
        ensures sized { length self.now.coefficients ≡ 16 }
    {
        let _constant = self.constant;
        *self
    }

    /// Whether both are the same term.
    pub fn is_same(&self, other: &Lin) -> bool
        ensures { IsTrue result ↔ (self.now ≡ other.now) }
    {
        self.constant == other.constant && self.coefficient == other.coefficient
    }

    /// The constant at 0, and then the coefficient of the variable `j - 1`.
    pub(crate) fn part(&self, j: usize) -> i64
        requires { j ≤ 16 }
        ensures value { result ≡ part self.now j }
        ensures small { IsTrue (small result) }
    {
        if j == 0 {
            self.constant
        } else {
            self.coefficient[j - 1]
        }
    }
}
