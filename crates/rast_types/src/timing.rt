// When the head of a type comes.
ghost use Rattle.std.specs.Prelude.{◌≡◌, All, length, map, pos};
ghost use Rattle.rast_index.specs.Linear.{value, whole};
ghost use Rattle.rast_types.specs.Closed.{closed, exposed};
ghost use Rattle.rast_types.specs.Timely.{IsTimely, IsIndex, IsValued};

use crate::head::{definition, next_of};
use crate::table::TypeTable;
use crate::ty::Ty;
use rast_index::{Lin, eval};

/// How many ticks pass before the head of the type, where each variable has the value at its place.
/// The arguments and the ticks that are met are at least 0 and below 2^64. It takes no memory.
pub fn arrival(table: &TypeTable, ty: &Ty, values: &[u64; 16]) -> u128
    requires { IsTimely table.now.defs (closed ty.now (whole values.now)) }
    ensures { pos result ≡ (exposed table.now.defs (closed ty.now (whole values.now))).ticks }
{
    match definition(table, ty) {
        Some((body, args)) => match next_of(body) {
            Some((ticks, _)) => ticks_at(&ticks.again(), &values_of(args, values)),
            None => 0,
        },
        None => match next_of(ty) {
            Some((ticks, _)) => ticks_at(ticks, values),
            None => 0,
        },
    }
}

// The value of ticks that are at least 0.
fn ticks_at(ticks: &Lin, values: &[u64; 16]) -> u128
    requires { IsIndex (value ticks.now (whole values.now)) }
    ensures { pos result ≡ value ticks.now (whole values.now) }
{
    eval(ticks, values) as u128
}

fn index_at(term: &Lin, values: &[u64; 16]) -> u64
    requires { IsIndex (value term.now (whole values.now)) }
    ensures { pos result ≡ value term.now (whole values.now) }
{
    eval(term, values) as u64
}

// The values of the first 16 terms, and 0 where there are fewer.
fn values_of(terms: &[Lin], values: &[u64; 16]) -> [u64; 16]
    requires { All (λ l. IsIndex (value l (whole values.now))) terms.now }
    ensures { IsValued (map (λ l. value l (whole values.now)) terms.now) result }
{
    let mut out = [0; 16];
    for i in 0..terms.len().min(16) {
        out[i] = index_at(&terms[i], values);
    }
    out
}
