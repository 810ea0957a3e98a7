// Types whose names are definitions with as many arguments as these have parameters.
ghost use Rattle.std.specs.Prelude.{◌≡◌, slice_get};
ghost use Rattle.std.specs.List.{list_all};
ghost use Rattle.rast_equal.specs.WellMadeTypes.{is_named, takes_so_many};

use rast_types::{Ty, TypeDef};

/// Whether each name in the type is a definition's number with as many arguments as it has parameters.
#[cycle(is_named)]
pub(crate) fn is_named(defs: &[TypeDef], a: &Ty) -> bool
    ensures { result ≡ is_named defs.now a.now }
{
    match a {
        Ty::One => true,
        Ty::Plus(ts) => are_named(defs, ts.as_slice()),
        Ty::With(ts) => are_named(defs, ts.as_slice()),
        Ty::Tensor(b, c) => is_named(defs, b.get()) && is_named(defs, c.get()),
        Ty::Lolli(b, c) => is_named(defs, b.get()) && is_named(defs, c.get()),
        Ty::Named(k, args) => takes_so_many(defs, *k, args.len()),
        Ty::Ex(b) => is_named(defs, b.get()),
        Ty::All(b) => is_named(defs, b.get()),
        Ty::Assert(_, b) => is_named(defs, b.get()),
        Ty::Assume(_, b) => is_named(defs, b.get()),
        Ty::Pays(_, b) => is_named(defs, b.get()),
        Ty::Gets(_, b) => is_named(defs, b.get()),
        Ty::Next(_, b) => is_named(defs, b.get()),
    }
}

#[cycle(is_named)]
fn are_named(defs: &[TypeDef], ts: &[(u32, Ty)]) -> bool
    ensures { result ≡ list_all (λ e. is_named defs.now e.1) ts.now }
{
    for (_, a) in ts {
        if !is_named(defs, a) {
            return false;
        }
    }
    true
}

fn takes_so_many(defs: &[TypeDef], def: u32, args: usize) -> bool
    ensures { result ≡ takes_so_many (slice_get defs.now def) args }
{
    match defs.get(def as usize) {
        Some(def) => def.params as usize == args,
        None => false,
    }
}
