// Linear terms with wide numbers: what a term becomes when its variables are replaced, before its numbers are tested.
ghost use Rattle.std.specs.Prelude.{◌≡◌, ◌<◌, ◌≤◌, ◌^◌, ◌*ℤ◌, length, ◌++◌, ◌∷◌, [], map, IsTrue, IfOk};
ghost use Rattle.std.specs.Int.RustNames.{unsigned_abs};
ghost use Rattle.rast_index.specs.Linear.{small, is_small, part, mixed, replaced, variable};
ghost use Rattle.rast_index.specs.Answer.{FitsSome, Gives};
ghost use Rattle.rast_types.specs.Wide.{wide};

use rast_index::{IndexErr, Lin};
use std::alloc::{AllocError, Global};
use std::marker::Model;

/// A linear term whose numbers are below 2^70 in magnitude.
#[derive(Clone, Copy)]
pub(crate) struct Wide {
    constant: i128,
    coefficient: [i128; 16],
}

impl Model for Wide {
    ghost use Rattle.rast_index.specs.Linear.{Linear};
    ghost use Rattle.rast_types.specs.Wide.{is_wide};
    ghost use Rattle.std.specs.Prelude.{IsTrue};

    ghost Value = { Linear };

    ghost view = { λ l. record { constant = l.constant; coefficients = l.coefficient } };

    ghost invariant = { λ l. IsTrue (is_wide (record { constant = l.constant; coefficients = l.coefficient })) };

    ghost inverse = { λ v. record { constant = v.constant; coefficient = v.coefficients } };
}

impl Wide {
    // The constant at 0, and then the coefficient of the variable `j - 1`.
    fn part(&self, j: usize) -> i128
        requires { j ≤ 16 }
        ensures value { result ≡ part self.now j }
        ensures wide { IsTrue (wide result) }
    {
        if j == 0 {
            self.constant
        } else {
            self.coefficient[j - 1]
        }
    }

    /// The variable with this number.
    pub(crate) fn variable(number: usize) -> Wide
        requires { number < 16 }
        ensures { result ≡ variable number }
    {
        let mut coefficient = [0; 16];
        coefficient[number] = 1;
        Wide {
            constant: 0,
            coefficient,
        }
    }

    /// The term itself.
    pub(crate) fn of(l: &Lin) -> Wide
        ensures { result ≡ l.now }
    {
        let constant = wide_part(l, 0);
        let mut coefficient = [0; 16];
        for j in 0..16 {
            coefficient[j] = wide_part(l, j + 1);
        }
        Wide {
            constant,
            coefficient,
        }
    }

    /// The term with each variable replaced by the argument at its place.
    pub(crate) fn replaced(l: &Lin, args: &[Lin]) -> Wide
        ensures { result ≡ replaced args.now l.now }
    {
        let constant = mixed_small(l, args, 0);
        let mut coefficient = [0; 16];
        for j in 0..16 {
            coefficient[j] = mixed_small(l, args, j + 1);
        }
        Wide {
            constant,
            coefficient,
        }
    }
}

// The constant at 0, and then the coefficient of the variable `j - 1`.
fn part_of(l: &Lin, j: usize) -> i64
    requires { j ≤ 16 }
    ensures value { result ≡ part l.now j }
    ensures small { IsTrue (small result) }
    ensures sized { length l.now.coefficients ≡ 16 }
{
    if j == 0 {
        l.constant
    } else {
        l.coefficient[j - 1]
    }
}

fn wide_part(l: &Lin, j: usize) -> i128
    requires { j ≤ 16 }
    ensures value { result ≡ part l.now j }
    ensures wide { IsTrue (wide result) }
    ensures sized { length l.now.coefficients ≡ 16 }
{
    part_of(l, j) as i128
}

// The part at `j` of a term whose variables are replaced.
fn mixed_small(l: &Lin, args: &[Lin], j: usize) -> i128
    requires { j ≤ 16 }
    ensures value { result ≡ mixed l.now args.now j }
    ensures wide { IsTrue (wide result) }
{
    let mut total = if j == 0 { l.constant as i128 } else { 0 };
    for i in 0..args.len().min(16) {
        total += product(l.coefficient[i], part_of(&args[i], j));
    }
    total
}

// The part at `j` of a term whose variables are replaced by wide terms.
fn mixed_wide(l: &Lin, args: &[Wide], j: usize) -> i128
    requires { j ≤ 16 }
    ensures { result ≡ mixed l.now args.now j }
{
    let mut total = if j == 0 { l.constant as i128 } else { 0 };
    for i in 0..args.len().min(16) {
        total += wide_product(l.coefficient[i], args[i].part(j));
    }
    total
}

fn product(c: i64, d: i64) -> i128
    requires left { IsTrue (small c) }
    requires right { IsTrue (small d) }
    ensures value { result ≡ c *ℤ d }
    ensures bound { unsigned_abs result ≤ 2 ^ 64 }
{
    c as i128 * d as i128
}

fn wide_product(c: i64, d: i128) -> i128
    requires left { IsTrue (small c) }
    requires right { IsTrue (wide d) }
    ensures value { result ≡ c *ℤ d }
    ensures bound { unsigned_abs result ≤ 2 ^ 102 }
{
    c as i128 * d
}

// The number, where it is below 2^32 in magnitude.
fn narrow(z: i128) -> Option<i64>
    ensures { FitsSome small z result }
{
    if -(1 << 32) < z && z < 1 << 32 {
        Some(z as i64)
    } else {
        None
    }
}

/// The term with each variable replaced by the argument at its place.
/// `Coefficient` comes exactly where a number of it has magnitude 2^32 or more.
pub(crate) fn narrowed(l: &Lin, args: &[Wide]) -> Result<Lin, IndexErr>
    ensures { Gives is_small (replaced args.now l.now) result }
{
    let Some(constant) = narrow(mixed_wide(l, args, 0)) else {
        return Err(IndexErr::Coefficient);
    };
    let mut coefficient = [0; 16];
    for j in 0..16 {
        let Some(number) = narrow(mixed_wide(l, args, j + 1)) else {
            return Err(IndexErr::Coefficient);
        };
        coefficient[j] = number;
    }
    Ok(Lin {
        constant,
        coefficient,
    })
}

/// Terms as they are.
pub(crate) fn widened(alloc: Global, args: &[Lin]) -> Result<Vec<Wide>, AllocError>
    ensures { IfOk result (λ ws. ws.items ≡ args.now) }
{
    let mut out = Vec::new(alloc);
    for l in args {
        out.push(Wide::of(l))?;
    }
    Ok(out)
}

/// Terms with each variable replaced by an argument.
pub(crate) fn composed(alloc: Global, terms: &[Lin], args: &[Lin]) -> Result<Vec<Wide>, AllocError>
    ensures { IfOk result (λ ws. ws.items ≡ map (replaced args.now) terms.now) }
{
    let mut out = Vec::new(alloc);
    for l in terms {
        out.push(Wide::replaced(l, args))?;
    }
    Ok(out)
}

/// The arguments, and one more.
pub(crate) fn with_variable(
    alloc: Global,
    args: &[Wide],
    number: usize,
) -> Result<Vec<Wide>, AllocError>
    requires { number < 16 }
    ensures { IfOk result (λ ws. ws.items ≡ args.now ++ variable number ∷ []) }
{
    let mut out = Vec::from_slice(alloc, args)?;
    out.push(Wide::variable(number))?;
    Ok(out)
}
