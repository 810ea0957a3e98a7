// Types unfolded and exposed.
ghost use Rattle.std.specs.Prelude.{◌≡◌, false, MatchOption};
ghost use Rattle.rast_index.specs.Linear.{replaced};
ghost use Rattle.rast_types.specs.Found.{Names, is_defined};
ghost use Rattle.rast_types.specs.Symbolic.{put_type, is_deep, is_next, made_type, made_exposed, opened, timed};
ghost use Rattle.rast_types.specs.Made.{Answers, AnswersExposed, made_head};
ghost use Rattle.rast_types.specs.declared.ty.Ty.{out-Ty};
ghost use Rattle.rast_types.specs.declared.ty.Ty.TheOpen.{Next};

use crate::put::put_type;
use crate::table::TypeTable;
use crate::ty::Ty;
use crate::wide::{Wide, composed, narrowed, widened};
use rast_index::{IndexErr, Lin};
use std::alloc::Global;

/// What a type says first.
#[derive(Drop)]
pub struct Exposed {
    /// How many ticks pass before the head.
    pub ticks: Lin,
    /// What is left when the ticks are taken off.
    pub head: Ty,
}

// Whether a variable of the type has the number 16 or more, in a scope of so many variables.
fn is_deep(a: &Ty, vars: u8) -> bool
    ensures { result ≡ is_deep vars a.now }
{
    vars > 16 || !a.is_shallow(16 - vars)
}

// The definition that the type names: its body, and the arguments.
pub(crate) fn definition<'a>(table: &'a TypeTable, a: &'a Ty) -> Option<(&'a Ty, &'a [Lin])>
    ensures { MatchOption result (is_defined table.now.defs a.now ≡ false) (λ d. Names table.now.defs a.now d.0.now d.1.now) }
{
    match a {
        Ty::Named(def, args) => match table.defs.get(*def as usize) {
            Some(d) => Some((&d.body, args.as_slice())),
            None => None,
        },
        _ => None,
    }
}

// The ticks of a next, and its body.
pub(crate) fn next_of(a: &Ty) -> Option<(&Lin, &Ty)>
    ensures { MatchOption result (is_next a.now ≡ false) (λ e. out-Ty a.now ≡ Next e.0.now e.1.now) }
{
    match a {
        Ty::Next(ticks, body) => Some((ticks, body.get())),
        _ => None,
    }
}

fn copy_within(alloc: Global, a: &Ty, vars: u8) -> Result<Ty, IndexErr>
    ensures { Answers (made_type vars a.now) result }
{
    if is_deep(a, vars) {
        return Err(IndexErr::Variables);
    }
    Ok(a.copy(alloc)?)
}

fn put_within(alloc: Global, a: &Ty, vars: u8, args: &[Wide]) -> Result<Ty, IndexErr>
    ensures { Answers (made_type vars (put_type vars args.now a.now)) result }
{
    if is_deep(a, vars) {
        return Err(IndexErr::Variables);
    }
    put_type(alloc, a, vars, args)
}

/// A name becomes its definition's body at its arguments; any other type stays. `vars` is the number of variables in scope.
/// `Variables` comes exactly where a variable of the result would have the number 16 or more, and `Coefficient`, where
/// `Variables` does not come, exactly where a number of it would have magnitude 2^32 or more.
pub fn unfold(alloc: Global, table: &TypeTable, vars: u8, ty: &Ty) -> Result<Ty, IndexErr>
    ensures { Answers (made_type vars (opened table.now.defs vars ty.now)) result }
{
    match definition(table, ty) {
        Some((body, args)) => put_within(alloc, body, vars, &widened(alloc, args)?),
        None => copy_within(alloc, ty, vars),
    }
}

// The same of a type whose variables are replaced by arguments.
fn unfold_at(
    alloc: Global,
    table: &TypeTable,
    vars: u8,
    a: &Ty,
    args: &[Lin],
) -> Result<Ty, IndexErr>
    ensures { Answers (made_type vars (opened table.now.defs vars (put_type vars args.now a.now))) result }
{
    match definition(table, a) {
        Some((body, terms)) => put_within(alloc, body, vars, &composed(alloc, terms, args)?),
        None => put_within(alloc, a, vars, &widened(alloc, args)?),
    }
}

/// Ticks and head: a name is unfolded; if the result is a next, its ticks are kept and its body, where that is a name, is
/// unfolded; else the ticks are 0. `vars` is the number of variables in scope. `Variables` comes exactly where a variable of
/// the head would have the number 16 or more, and `Coefficient`, where `Variables` does not come, exactly where a number of
/// the result would have magnitude 2^32 or more.
pub fn expose(alloc: Global, table: &TypeTable, vars: u8, ty: &Ty) -> Result<Exposed, IndexErr>
    ensures { AnswersExposed (made_exposed table.now.defs vars ty.now) result }
{
    match definition(table, ty) {
        Some((body, args)) => expose_at(alloc, table, vars, body, args),
        None => expose_here(alloc, table, vars, ty),
    }
}

// Ticks and head of a type that is no name with a definition.
fn expose_here(alloc: Global, table: &TypeTable, vars: u8, a: &Ty) -> Result<Exposed, IndexErr>
    ensures { AnswersExposed (made_head table.now.defs vars (timed a.now)) result }
{
    match next_of(a) {
        Some((ticks, body)) => match unfold(alloc, table, vars, body) {
            Ok(head) => Ok(Exposed {
                ticks: ticks.again(),
                head,
            }),
            Err(e) => Err(e),
        },
        None => match unfold(alloc, table, vars, a) {
            Ok(head) => Ok(Exposed {
                ticks: Lin::nought(),
                head,
            }),
            Err(e) => Err(e),
        },
    }
}

// Ticks and head of a definition's body at arguments.
fn expose_at(
    alloc: Global,
    table: &TypeTable,
    vars: u8,
    a: &Ty,
    args: &[Lin],
) -> Result<Exposed, IndexErr>
    ensures { AnswersExposed (made_head table.now.defs vars (timed (put_type vars args.now a.now))) result }
{
    match next_of(a) {
        Some((ticks, body)) => match unfold_at(alloc, table, vars, body, args) {
            Ok(head) => match narrowed(ticks, &widened(alloc, args)?) {
                Ok(ticks) => Ok(Exposed { ticks, head }),
                Err(e) => Err(e),
            },
            Err(e) => Err(e),
        },
        None => match unfold_at(alloc, table, vars, a, args) {
            Ok(head) => Ok(Exposed {
                ticks: Lin::nought(),
                head,
            }),
            Err(e) => Err(e),
        },
    }
}
