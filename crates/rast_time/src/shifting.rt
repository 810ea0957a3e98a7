// The type after a delay.
ghost use Rattle.std.specs.Prelude.{◌≡◌, IfOk};
ghost use Rattle.rast_index.specs.Linear.{is_nought};
ghost use Rattle.rast_types.specs.Made.{Answers, AnswersExposed};
ghost use Rattle.rast_types.specs.Symbolic.{made_type, before_delay, timed, timed_type};
ghost use Rattle.rast_time.specs.Shifted.{made_timed, made_shift};

use crate::ticks::{at_least, is_timed};
use rast_index::{Formula, IndexErr, Lin, sub};
use rast_types::{Exposed, Ty, TypeTable, unfold};
use sqlite_items::{Boxed, Items};
use std::alloc::{AllocError, Global};

/// The obligation that the ticks of the type are at least `by`, and the type with `by` ticks less before the same body. A name is
/// unfolded where its body is a next; any other type without ticks has 0. No next is written where the constant 0 is left.
/// `vars` is the number of variables in scope. `Variables` comes exactly where a variable of the type would have the number 16 or
/// more, and `Coefficient`, where `Variables` doesn't come, exactly where a number of the obligation or of the type would have
/// magnitude 2^32 or more.
pub fn shift(
    alloc: Global,
    table: &TypeTable,
    vars: u8,
    ty: &Ty,
    by: &Lin,
) -> Result<(Formula, Ty), IndexErr>
    ensures { Answers (made_shift table.now.defs vars by.now ty.now) result }
{
    match before(alloc, table, vars, ty) {
        Ok(found) => match sub(&found.ticks, by) {
            Ok(rest) => {
                let goal = at_least(&found.ticks, by);
                let sooner = put_before(alloc, rest, found.head)?;
                Ok((goal, sooner))
            }
            Err(_) => Err(IndexErr::Coefficient),
        },
        Err(e) => Err(e),
    }
}

// The ticks before a delay, and what is left when they are taken off, within the limits.
fn before(alloc: Global, table: &TypeTable, vars: u8, ty: &Ty) -> Result<Exposed, IndexErr>
    ensures { AnswersExposed (made_timed vars (before_delay table.now.defs vars ty.now)) result }
{
    if is_timed(table, ty) {
        match unfold(alloc, table, vars, ty) {
            Ok(unfolded) => Ok(taken_off(unfolded)),
            Err(e) => Err(e),
        }
    } else {
        match copy_within(alloc, vars, ty) {
            Ok(head) => Ok(Exposed {
                ticks: Lin::nought(),
                head,
            }),
            Err(e) => Err(e),
        }
    }
}

// The ticks of a type as it stands, and what is left when they are taken off.
fn taken_off(ty: Ty) -> Exposed
    ensures { record { ticks = result.ticks; body = result.head } ≡ timed ty }
{
    match ty {
        Ty::Next(ticks, body) => Exposed {
            ticks,
            head: body.into_inner(),
        },
        head => Exposed {
            ticks: Lin::nought(),
            head,
        },
    }
}

// The type again, within the limits.
fn copy_within(alloc: Global, vars: u8, ty: &Ty) -> Result<Ty, IndexErr>
    ensures { Answers (made_type vars ty.now) result }
{
    let nothing = TypeTable {
        defs: Items::new(alloc),
    };
    unfold(alloc, &nothing, vars, ty)
}

// Ticks before a body; none is written where they are the constant 0.
fn put_before(alloc: Global, ticks: Lin, body: Ty) -> Result<Ty, AllocError>
    ensures { IfOk result (λ a. a ≡ timed_type (record { ticks = ticks; body = body })) }
{
    if is_nought(&ticks) {
        return Ok(body);
    }
    Ok(Ty::Next(ticks, Boxed::new(alloc, body)?))
}

// Whether it is the constant 0.
fn is_nought(term: &Lin) -> bool
    ensures { result ≡ is_nought term.now }
{
    if term.constant != 0 {
        return false;
    }
    for coefficient in &term.coefficient {
        if *coefficient != 0 {
            return false;
        }
    }
    true
}
