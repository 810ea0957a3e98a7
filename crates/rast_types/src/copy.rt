// Copies of types.
ghost use Rattle.std.specs.Prelude.{◌≡◌, true, IfOk};
ghost use Rattle.std.specs.List.{list_all};
ghost use Rattle.rast_index.specs.Linear.{is_small};
ghost use Rattle.rast_types.specs.Symbolic.{is_small_type};

use crate::ty::Ty;
use rast_index::Lin;
use sqlite_items::{Boxed, Items};
use std::alloc::{AllocError, Global};

impl Ty {
    /// The same type again.
    #[cycle(copy)]
    pub fn copy(&self, alloc: Global) -> Result<Ty, AllocError>
        ensures same { IfOk result (λ a. a ≡ self.now) }
        ensures small { IfOk result (λ a. is_small_type a ≡ true) }
    {
        match self {
            Ty::One => Ok(Ty::One),
            Ty::Plus(ts) => Ok(Ty::Plus(copy_choices(alloc, ts.as_slice())?)),
            Ty::With(ts) => Ok(Ty::With(copy_choices(alloc, ts.as_slice())?)),
            Ty::Tensor(a, b) => Ok(Ty::Tensor(
                Boxed::new(alloc, a.get().copy(alloc)?)?,
                Boxed::new(alloc, b.get().copy(alloc)?)?,
            )),
            Ty::Lolli(a, b) => Ok(Ty::Lolli(
                Boxed::new(alloc, a.get().copy(alloc)?)?,
                Boxed::new(alloc, b.get().copy(alloc)?)?,
            )),
            Ty::Named(def, args) => Ok(Ty::Named(*def, copy_terms(alloc, args.as_slice())?)),
            Ty::Ex(a) => Ok(Ty::Ex(Boxed::new(alloc, a.get().copy(alloc)?)?)),
            Ty::All(a) => Ok(Ty::All(Boxed::new(alloc, a.get().copy(alloc)?)?)),
            Ty::Assert(f, a) => Ok(Ty::Assert(
                f.copy(alloc)?,
                Boxed::new(alloc, a.get().copy(alloc)?)?,
            )),
            Ty::Assume(f, a) => Ok(Ty::Assume(
                f.copy(alloc)?,
                Boxed::new(alloc, a.get().copy(alloc)?)?,
            )),
            Ty::Pays(p, a) => Ok(Ty::Pays(p.again(), Boxed::new(alloc, a.get().copy(alloc)?)?)),
            Ty::Gets(p, a) => Ok(Ty::Gets(p.again(), Boxed::new(alloc, a.get().copy(alloc)?)?)),
            Ty::Next(t, a) => Ok(Ty::Next(t.again(), Boxed::new(alloc, a.get().copy(alloc)?)?)),
        }
    }
}

#[cycle(copy)]
fn copy_choices(alloc: Global, ts: &[(u32, Ty)]) -> Result<Items<(u32, Ty)>, AllocError>
    ensures same { IfOk result (λ us. us ≡ ts.now) }
    ensures small { IfOk result (λ us. list_all (λ e. is_small_type e.1) us ≡ true) }
{
    let mut out = Items::new(alloc);
    for (label, a) in ts {
        out.push((*label, a.copy(alloc)?))?;
    }
    Ok(out)
}

/// The same terms again.
pub fn copy_terms(alloc: Global, terms: &[Lin]) -> Result<Items<Lin>, AllocError>
    ensures same { IfOk result (λ out. out ≡ terms.now) }
    ensures small { IfOk result (λ out. list_all is_small out ≡ true) }
{
    let mut out = Items::new(alloc);
    for l in terms {
        out.push(l.again())?;
    }
    Ok(out)
}
