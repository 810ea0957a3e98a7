// The ticks before the head of a type. No call takes memory.
ghost use Rattle.std.specs.Prelude.{◌≡◌, ℕ, true};
ghost use Rattle.rast_index.specs.Answer.{Fits};
ghost use Rattle.rast_index.specs.Linear.{is_small, nought, replaced};
ghost use Rattle.rast_index.specs.Truth.{all_small, is_at_least, is_equal};
ghost use Rattle.rast_types.specs.Symbolic.{before_delay, exposed_type, is_next, opened};

use crate::outside::{definition, next_of};
use rast_index::{Coefficient, Formula, Lin, Rel, subst};
use rast_types::{Ty, TypeTable};

fn is_next(a: &Ty) -> bool
    ensures { result ≡ is_next a.now }
{
    matches!(a, Ty::Next(_, _))
}

/// Whether the type is a next, or a name whose body is one.
pub(crate) fn is_timed(table: &TypeTable, ty: &Ty) -> bool
    ensures { (n : ℕ) → result ≡ is_next (opened table.now.defs n ty.now) }
{
    match definition(table, ty) {
        Some((body, _)) => is_next(body),
        None => is_next(ty),
    }
}

// The term with each variable replaced by the argument at its place.
fn at_arguments(term: &Lin, args: &[Lin]) -> Result<Lin, Coefficient>
    ensures { Fits is_small (replaced args.now term.now) result }
{
    let term = term.again();
    subst(&term, &args[..args.len().min(16)])
}

// The ticks of a next, or of a name whose body is one; else 0.
fn ticks(table: &TypeTable, ty: &Ty) -> Result<Lin, Coefficient>
    ensures { (n : ℕ) → Fits is_small (before_delay table.now.defs n ty.now).ticks result }
{
    match definition(table, ty) {
        Some((body, args)) => match next_of(body) {
            Some((ticks, _)) => at_arguments(ticks, args),
            None => Ok(Lin::nought()),
        },
        None => match next_of(ty) {
            Some((ticks, _)) => Ok(ticks.again()),
            None => Ok(Lin::nought()),
        },
    }
}

/// The obligation that the first term is at least the second.
pub(crate) fn at_least(a: &Lin, b: &Lin) -> Formula
    ensures same { result ≡ is_at_least a.now b.now }
    ensures small { all_small result ≡ true }
{
    Formula::Rel(a.again(), Rel::Ge, b.again())
}

/// The obligation that at least so many ticks pass before the head of the type; nothing is asked of the type that is left.
/// `Coefficient` comes exactly where a number of the ticks would have magnitude 2^32 or more.
pub fn lasts(table: &TypeTable, ty: &Ty, by: &Lin) -> Result<Formula, Coefficient>
    ensures { (n : ℕ) → Fits all_small (is_at_least (before_delay table.now.defs n ty.now).ticks by.now) result }
{
    match ticks(table, ty) {
        Ok(ticks) => Ok(at_least(&ticks, by)),
        Err(e) => Err(e),
    }
}

/// The obligation that no tick passes before the head of the type. `Coefficient` comes exactly where a number of the ticks would
/// have magnitude 2^32 or more.
pub fn now(table: &TypeTable, ty: &Ty) -> Result<Formula, Coefficient>
    ensures { (n : ℕ) → Fits all_small (is_equal (exposed_type table.now.defs n ty.now).ticks nought) result }
{
    match ticks(table, ty) {
        Ok(ticks) => Ok(Formula::Rel(ticks.again(), Rel::Eq, Lin::nought())),
        Err(e) => Err(e),
    }
}
