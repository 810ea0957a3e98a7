// What is known of a file.
ghost use Rattle.std.specs.Prelude.{◌≡◌, flat_map, IfOk, OnOk};
ghost use Rattle.rast_resolve.specs.Scopes.{once_from};
ghost use Rattle.rast_resolve.specs.Names.{names_of, item_names, def_names, def_params, decl_names, decl_counts, body_names, known_of};

use crate::gather::item_names;
use crate::index::Index;
use crate::known::{Counts, Known};
use crate::sizes::body_starts;
use rast_ast::{Item, Name};
use sqlite_items::Items;
use std::alloc::{AllocError, Global};

// Adds the names that aren't there yet.
fn add_once(alloc: Global, names: &mut Index, more: &[Name]) -> Result<(), AllocError>
    ensures { OnOk result (names.new ≡ once_from names.old more.now) }
{
    for name in more {
        names.push_once(alloc, name)?;
    }
    Ok(())
}

// Adds the names of an item that aren't there yet.
fn add_item(alloc: Global, names: &mut Index, item: &Item) -> Result<(), AllocError>
    ensures { OnOk result (names.new ≡ once_from names.old (item_names item.now)) }
{
    let more = item_names(alloc, item)?;
    let done = add_once(alloc, names, more.as_slice());
    drop(more);
    done
}

// The names of a program, each once.
fn names_of(alloc: Global, items: &[Item]) -> Result<Index, AllocError>
    ensures { IfOk result (λ names. names ≡ names_of items.now) }
{
    let mut names = Index::new(alloc);
    for item in items {
        add_item(alloc, &mut names, item)?;
    }
    Ok(names)
}

// The names of the type definitions.
fn def_names(alloc: Global, items: &[Item]) -> Result<Index, AllocError>
    ensures { IfOk result (λ names. names ≡ flat_map def_names items.now) }
{
    let mut names = Index::new(alloc);
    for item in items {
        if let Item::Def { name, .. } = item {
            names.push(alloc, name)?;
        }
    }
    Ok(names)
}

// How many parameters each type definition has.
fn def_params(alloc: Global, items: &[Item]) -> Result<Items<usize>, AllocError>
    ensures { IfOk result (λ params. params ≡ flat_map def_params items.now) }
{
    let mut out = Items::new(alloc);
    for item in items {
        if let Item::Def { params, .. } = item {
            out.push(params.len())?;
        }
    }
    Ok(out)
}

// The names of the declarations.
fn decl_names(alloc: Global, items: &[Item]) -> Result<Index, AllocError>
    ensures { IfOk result (λ names. names ≡ flat_map decl_names items.now) }
{
    let mut names = Index::new(alloc);
    for item in items {
        if let Item::Decl { name, .. } = item {
            names.push(alloc, name)?;
        }
    }
    Ok(names)
}

// What the declarations say.
fn decl_counts(alloc: Global, items: &[Item]) -> Result<Items<Counts>, AllocError>
    ensures { IfOk result (λ counts. counts ≡ flat_map decl_counts items.now) }
{
    let mut out = Items::new(alloc);
    for item in items {
        if let Item::Decl { params, used, .. } = item {
            out.push(Counts {
                params: params.len(),
                channels: used.len(),
            })?;
        }
    }
    Ok(out)
}

// The names of the process items.
fn body_names(alloc: Global, items: &[Item]) -> Result<Index, AllocError>
    ensures { IfOk result (λ names. names ≡ flat_map body_names items.now) }
{
    let mut names = Index::new(alloc);
    for item in items {
        if let Item::Proc { name, .. } = item {
            names.push(alloc, name)?;
        }
    }
    Ok(names)
}

// Puts what is known of a file of these items.
fn fill(alloc: Global, known: &mut Known, items: &[Item]) -> Result<(), AllocError>
    ensures { OnOk result (known.new ≡ known_of items.now) }
{
    known.decls = decl_names(alloc, items)?;
    known.starts = body_starts(alloc, &known.decls, items)?;
    known.names = names_of(alloc, items)?;
    known.types = def_names(alloc, items)?;
    known.params = def_params(alloc, items)?;
    known.counts = decl_counts(alloc, items)?;
    known.procs = body_names(alloc, items)?;
    Ok(())
}

// What is known of a file of these items from its beginning.
pub(crate) fn known_of(alloc: Global, items: &[Item]) -> Result<Known, AllocError>
    ensures { IfOk result (λ known. known ≡ known_of items.now) }
{
    let mut known = Known {
        names: Index::new(alloc),
        types: Index::new(alloc),
        params: Items::new(alloc),
        decls: Index::new(alloc),
        counts: Items::new(alloc),
        procs: Index::new(alloc),
        starts: Items::new(alloc),
    };
    match fill(alloc, &mut known, items) {
        Ok(()) => Ok(known),
        Err(e) => {
            drop(known);
            Err(e)
        }
    }
}
