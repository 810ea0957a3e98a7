// The value of a term and the truth of a formula at naturals.
ghost use Rattle.std.specs.Prelude.{◌≡◌, ◌≤◌, ◌^◌, ◌*ℤ◌, pos, IsTrue};
ghost use Rattle.std.specs.Int.RustNames.{unsigned_abs};
ghost use Rattle.rast_index.specs.Linear.{value, small, whole};
ghost use Rattle.rast_index.specs.Truth.{truth, related, divides};

use crate::formula::{Formula, Rel};
use crate::term::Lin;

/// The value of a term where each variable has the number at its place. It takes no memory.
pub fn eval(lin: &Lin, values: &[u64; 16]) -> i128
    ensures { result ≡ value lin.now (whole values.now) }
{
    let mut total = lin.constant as i128;
    for i in 0..16 {
        total += product(lin.coefficient[i], values[i]);
    }
    total
}

fn product(c: i64, v: u64) -> i128
    requires { IsTrue (small c) }
    ensures value { result ≡ c *ℤ pos v }
    ensures bound { unsigned_abs result ≤ 2 ^ 96 }
{
    c as i128 * v as i128
}

/// Whether a formula is true where each variable has the number at its place. It takes no memory.
pub fn holds(formula: &Formula, values: &[u64; 16]) -> bool
    ensures { result ≡ truth formula.now (whole values.now) }
{
    match formula {
        Formula::True => true,
        Formula::False => false,
        Formula::Rel(a, rel, b) => compare(*rel, eval(a, values), eval(b, values)),
        Formula::Div(d, l) => is_multiple(*d, eval(l, values)),
        Formula::Not(f) => !holds(f.get(), values),
        Formula::And(fs) => {
            for f in fs.as_slice() {
                if !holds(f, values) {
                    return false;
                }
            }
            true
        }
        Formula::Or(fs) => {
            for f in fs.as_slice() {
                if holds(f, values) {
                    return true;
                }
            }
            false
        }
        Formula::Imp(f, g) => !holds(f.get(), values) || holds(g.get(), values),
    }
}

fn compare(rel: Rel, a: i128, b: i128) -> bool
    ensures { result ≡ related rel a b }
{
    match rel {
        Rel::Eq => a == b,
        Rel::Ne => a != b,
        Rel::Lt => a < b,
        Rel::Le => a <= b,
        Rel::Gt => a > b,
        Rel::Ge => a >= b,
    }
}

// Only 0 is a multiple of 0.
fn is_multiple(d: u32, z: i128) -> bool
    ensures { result ≡ divides d z }
{
    let magnitude = z.unsigned_abs();
    if d == 0 {
        magnitude == 0
    } else {
        magnitude % (d as u128) == 0
    }
}
