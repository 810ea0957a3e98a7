// Sameness, with the references that serve it.
ghost use Rattle.std.specs.Prelude.{◌≡◌, IfOk, MatchOption};
ghost use Rattle.rast_rules.specs.Rules.{failure, same_or_passed};
ghost use Rattle.rast_types.specs.Symbolic.{made_type};
ghost use Rattle.rast_types.specs.declared.ty.Ty.{Ty};
ghost use Rattle.rast_types.specs.declared.ty.Ty.TheVariants as type;

use crate::premise::Premise;
use rast_types::{Ref, Stop, Ty, copy_terms};
use sqlite_items::Items;
use std::alloc::{AllocError, Global};

// The same references again.
pub(crate) fn copy_refs(alloc: Global, refs: &[Ref]) -> Result<Items<Ref>, AllocError>
    ensures { IfOk result (λ out. out ≡ refs.now) }
{
    let mut out = Items::new(alloc);
    for reference in refs {
        out.push(copy_ref(alloc, reference)?)?;
    }
    Ok(out)
}

fn copy_ref(alloc: Global, reference: &Ref) -> Result<Ref, AllocError>
    ensures { IfOk result (λ r. r ≡ reference.now) }
{
    match reference {
        Ref::Refl => Ok(Ref::Refl),
        Ref::Eq(number, args) => Ok(Ref::Eq(*number, copy_terms(alloc, args.as_slice())?)),
    }
}

/// The type again, or the end where there is none.
pub(crate) fn copy_or_end(alloc: Global, ty: Option<&Ty>) -> Result<Ty, AllocError>
    ensures { (a : Ty) → MatchOption ty.entry (a ≡ type.One) (λ b. a ≡ b.now) → IfOk result (λ copied. copied ≡ a) }
{
    match ty {
        Some(ty) => ty.copy(alloc),
        None => Ok(Ty::One),
    }
}

/// That two types are the same by these references; the end stands where there is no type.
pub(crate) fn same(
    alloc: Global,
    a: Option<&Ty>,
    b: Option<&Ty>,
    refs: &[Ref],
) -> Result<Premise, AllocError>
    ensures { (c d : Ty) → MatchOption a.entry (c ≡ type.One) (λ x. c ≡ x.now) → MatchOption b.entry (d ≡ type.One) (λ x. d ≡ x.now) → IfOk result (λ p. p ≡ Premise.Same c d refs.now) }
{
    let refs = copy_refs(alloc, refs)?;
    let a = copy_or_end(alloc, a)?;
    match copy_or_end(alloc, b) {
        Ok(b) => Ok(Premise::Same { a, b, refs }),
        Err(error) => {
            drop(a);
            Err(error)
        }
    }
}
