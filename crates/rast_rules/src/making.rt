// Types, heads and terms made within the limits of terms.
ghost use Rattle.std.specs.Prelude.{◌≡◌, ◌∷◌, [], IfOk, Result};
ghost use Rattle.rast_index.specs.Linear.{replaced};
ghost use Rattle.rast_types.specs.Symbolic.{Timed, put_type, made_type, made_exposed};
ghost use Rattle.rast_types.specs.Made.{Answers, AnswersExposed};
ghost use Rattle.rast_types.specs.declared.stop.Stop.{Stop};
ghost use Rattle.rast_types.specs.declared.ty.Ty.{Ty};
ghost use Rattle.rast_rules.specs.Making.{IsExposed, made_term};

use rast_index::{IndexErr, Lin, subst};
use rast_types::{Exposed, Stop, Ty, TypeDef, TypeTable, copy_terms, expose, unfold};
use sqlite_items::Items;
use std::alloc::{AllocError, Global};

/// A type that was made, or the limit that it passes; only want of memory is an error.
pub(crate) fn settled(answer: Result<Ty, IndexErr>) -> Result<Result<Ty, Stop>, AllocError>
    ensures { (made : Result Ty Stop) → Answers made answer → IfOk result (λ m. m ≡ made) }
{
    match answer {
        Ok(ty) => Ok(Ok(ty)),
        Err(IndexErr::Coefficient) => Ok(Err(Stop::Coefficient)),
        Err(IndexErr::Variables) => Ok(Err(Stop::Variables)),
        Err(IndexErr::Memory) => Err(AllocError),
    }
}

fn settled_head(answer: Result<Exposed, IndexErr>) -> Result<Result<Exposed, Stop>, AllocError>
    ensures { (made : Result Timed Stop) → AnswersExposed made answer → IfOk result (λ m. IsExposed made m) }
{
    match answer {
        Ok(exposed) => Ok(Ok(exposed)),
        Err(IndexErr::Coefficient) => Ok(Err(Stop::Coefficient)),
        Err(IndexErr::Variables) => Ok(Err(Stop::Variables)),
        Err(IndexErr::Memory) => Err(AllocError),
    }
}

/// The type again, or the limit that it passes in a scope of so many variables.
pub(crate) fn copy_within(alloc: Global, vars: u8, ty: &Ty) -> Result<Result<Ty, Stop>, AllocError>
    ensures { IfOk result (λ m. m ≡ made_type vars ty.now) }
{
    let nothing = TypeTable {
        defs: Items::new(alloc),
    };
    settled(unfold(alloc, &nothing, vars, ty))
}

/// The type with each variable replaced by the argument at its place, or the limit that it passes in a scope of so many variables.
pub(crate) fn put_within(
    alloc: Global,
    vars: u8,
    ty: &Ty,
    args: &[Lin],
) -> Result<Result<Ty, Stop>, AllocError>
    ensures { IfOk result (λ m. m ≡ made_type vars (put_type vars args.now ty.now)) }
{
    let table = table_of(alloc, ty)?;
    let name = Ty::Named(0, copy_terms(alloc, args)?);
    let made = unfold(alloc, &table, vars, &name);
    drop(name);
    drop(table);
    settled(made)
}

// A table whose only definition is this type.
fn table_of(alloc: Global, ty: &Ty) -> Result<TypeTable, AllocError>
    ensures { IfOk result (λ t. t.defs ≡ record { name = 0; params = 0; body = ty.now } ∷ []) }
{
    let mut defs = Items::new(alloc);
    defs.push(TypeDef {
        name: 0,
        params: 0,
        body: ty.copy(alloc)?,
    })?;
    Ok(TypeTable { defs })
}

/// Ticks and head of a type, or the limit that they pass in a scope of so many variables.
pub(crate) fn expose_within(
    alloc: Global,
    table: &TypeTable,
    vars: u8,
    ty: &Ty,
) -> Result<Result<Exposed, Stop>, AllocError>
    ensures { IfOk result (λ m. IsExposed (made_exposed table.now.defs vars ty.now) m) }
{
    settled_head(expose(alloc, table, vars, ty))
}

/// The term with each variable replaced by the argument at its place, or the limit that it passes.
pub(crate) fn put_term(term: &Lin, args: &[Lin]) -> Result<Lin, Stop>
    ensures { result ≡ made_term (replaced args.now term.now) }
{
    let term = term.again();
    match subst(&term, &args[..args.len().min(16)]) {
        Ok(made) => Ok(made),
        Err(_) => Err(Stop::Coefficient),
    }
}
