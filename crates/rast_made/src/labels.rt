// Labels that are numbers of names, none of them twice.
ghost use Rattle.std.specs.Prelude.{◌≡◌, ◌&&◌, IfOk, map};
ghost use Rattle.std.specs.List.{list_all};
ghost use Rattle.rast_equal.specs.WellMadeTypes.{are_labels, is_labelled};

use rast_types::Ty;
use std::alloc::{AllocError, Global};
use std::collections::BTreeSet;

/// Whether the labels of these entries are below the number of names, and none stands twice.
pub(crate) fn are_labels<T>(
    alloc: Global,
    names: usize,
    entries: &[(u32, T)],
) -> Result<bool, AllocError>
    ensures { IfOk result (λ t. t ≡ are_labels names (map (λ e. e.0) entries.now)) }
{
    let mut seen = BTreeSet::new(alloc);
    for (label, _) in entries {
        if *label as usize >= names {
            return Ok(false);
        }
        let added = seen.insert(*label)?;
        if !added {
            return Ok(false);
        }
    }
    Ok(true)
}

/// Whether the labels of each choice in the type are numbers of names, and different.
#[cycle(is_labelled)]
pub(crate) fn is_labelled(alloc: Global, names: usize, a: &Ty) -> Result<bool, AllocError>
    ensures { IfOk result (λ t. t ≡ is_labelled names a.now) }
{
    match a {
        Ty::One => Ok(true),
        Ty::Plus(ts) => is_choice(alloc, names, ts.as_slice()),
        Ty::With(ts) => is_choice(alloc, names, ts.as_slice()),
        Ty::Tensor(b, c) => {
            if !is_labelled(alloc, names, b.get())? {
                return Ok(false);
            }
            is_labelled(alloc, names, c.get())
        }
        Ty::Lolli(b, c) => {
            if !is_labelled(alloc, names, b.get())? {
                return Ok(false);
            }
            is_labelled(alloc, names, c.get())
        }
        Ty::Named(_, _) => Ok(true),
        Ty::Ex(b) => is_labelled(alloc, names, b.get()),
        Ty::All(b) => is_labelled(alloc, names, b.get()),
        Ty::Assert(_, b) => is_labelled(alloc, names, b.get()),
        Ty::Assume(_, b) => is_labelled(alloc, names, b.get()),
        Ty::Pays(_, b) => is_labelled(alloc, names, b.get()),
        Ty::Gets(_, b) => is_labelled(alloc, names, b.get()),
        Ty::Next(_, b) => is_labelled(alloc, names, b.get()),
    }
}

// A choice, with its parts.
#[cycle(is_labelled)]
fn is_choice(alloc: Global, names: usize, ts: &[(u32, Ty)]) -> Result<bool, AllocError>
    ensures { IfOk result (λ t. t ≡ (are_labels names (map (λ e. e.0) ts.now) && list_all (λ e. is_labelled names e.1) ts.now)) }
{
    if !are_labels(alloc, names, ts)? {
        return Ok(false);
    }
    are_labelled(alloc, names, ts)
}

#[cycle(is_labelled)]
fn are_labelled(alloc: Global, names: usize, ts: &[(u32, Ty)]) -> Result<bool, AllocError>
    ensures { IfOk result (λ t. t ≡ list_all (λ e. is_labelled names e.1) ts.now) }
{
    for (_, a) in ts {
        if !is_labelled(alloc, names, a)? {
            return Ok(false);
        }
    }
    Ok(true)
}
