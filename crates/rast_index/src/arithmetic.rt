// Sums, differences, multiples and substitutions of terms. They take no memory.
ghost use Rattle.std.specs.Prelude.{◌≡◌, ◌≤◌, ◌^◌, ◌+ℤ◌, ◌-ℤ◌, ◌*ℤ◌, List, ℤ, pos, negsuc, map, length, IsTrue, IfOk};
ghost use Rattle.std.specs.Int.RustNames.{unsigned_abs};
ghost use Rattle.rast_index.specs.Linear.{value, small, is_small, part, plus, less, times, replaced, mixed, from_numbers};
ghost use Rattle.rast_index.specs.Answer.{Fits, FitsSome};

use crate::refusal::Coefficient;
use crate::term::Lin;

/// The sum of two terms.
pub fn add(a: &Lin, b: &Lin) -> Result<Lin, Coefficient>
    ensures sum { Fits is_small (plus a.now b.now) result }
    ensures value { IfOk result (λ sum. (vs : List ℤ) → length vs ≤ 16 → value sum vs ≡ (value a.now vs +ℤ value b.now vs)) }
{
    let mut numbers = [0; 17];
    for j in 0..17 {
        numbers[j] = sum(a.part(j), b.part(j));
    }
    narrowed(&numbers)
}

/// The first term without the second.
pub fn sub(a: &Lin, b: &Lin) -> Result<Lin, Coefficient>
    ensures difference { Fits is_small (less a.now b.now) result }
    ensures value { IfOk result (λ rest. (vs : List ℤ) → length vs ≤ 16 → value rest vs ≡ (value a.now vs -ℤ value b.now vs)) }
{
    let mut numbers = [0; 17];
    for j in 0..17 {
        numbers[j] = difference(a.part(j), b.part(j));
    }
    narrowed(&numbers)
}

/// The term taken `k` times.
pub fn scale(k: u32, a: &Lin) -> Result<Lin, Coefficient>
    ensures multiple { Fits is_small (times k a.now) result }
    ensures value { IfOk result (λ all. (vs : List ℤ) → length vs ≤ 16 → value all vs ≡ pos k *ℤ value a.now vs) }
{
    let mut numbers = [0; 17];
    for j in 0..17 {
        numbers[j] = multiple(k, a.part(j));
    }
    narrowed(&numbers)
}

/// The term with each variable replaced by the argument at its place. A variable without one counts as 0.
pub fn subst(a: &Lin, args: &[Lin]) -> Result<Lin, Coefficient>
    requires { length args.now ≤ 16 }
    ensures replaced { Fits is_small (replaced args.now a.now) result }
    ensures value { IfOk result (λ l. (vs : List ℤ) → length vs ≤ 16 → value l vs ≡ value a.now (map (λ x. value x vs) args.now)) }
{
    let mut numbers = [0; 17];
    for j in 0..17 {
        numbers[j] = mixed(a, args, j);
    }
    narrowed(&numbers)
}

// The part at `j` of a term whose variables are replaced.
fn mixed(a: &Lin, args: &[Lin], j: usize) -> i128
    requires at { j ≤ 16 }
    requires few { length args.now ≤ 16 }
    ensures { result ≡ mixed a.now args.now j }
{
    let mut total = if j == 0 { a.constant as i128 } else { 0 };
    for i in 0..args.len() {
        total += product(a.coefficient[i], args[i].part(j));
    }
    total
}

// The term with these numbers, the constant first.
fn narrowed(numbers: &[i128; 17]) -> Result<Lin, Coefficient>
    ensures { Fits is_small (from_numbers numbers.now) result }
{
    let Some(constant) = narrow(numbers[0]) else {
        return Err(Coefficient);
    };
    let mut coefficient = [0; 16];
    for j in 0..16 {
        let Some(number) = narrow(numbers[j + 1]) else {
            return Err(Coefficient);
        };
        coefficient[j] = number;
    }
    Ok(Lin {
        constant,
        coefficient,
    })
}

// The number, where it is below 2^32 in magnitude.
fn narrow(z: i128) -> Option<i64>
    ensures { FitsSome small z result }
{
    if -(1 << 32) < z && z < 1 << 32 {
        Some(z as i64)
    } else {
        None
    }
}

fn sum(x: i64, y: i64) -> i128
    ensures { result ≡ (x +ℤ y) }
{
    x as i128 + y as i128
}

fn difference(x: i64, y: i64) -> i128
    ensures { result ≡ (x +ℤ (negsuc 0 *ℤ y)) }
{
    x as i128 - y as i128
}

fn multiple(k: u32, x: i64) -> i128
    ensures { result ≡ pos k *ℤ x }
{
    k as i128 * x as i128
}

fn product(c: i64, d: i64) -> i128
    requires left { IsTrue (small c) }
    requires right { IsTrue (small d) }
    ensures value { result ≡ c *ℤ d }
    ensures bound { unsigned_abs result ≤ 2 ^ 64 }
{
    c as i128 * d as i128
}
