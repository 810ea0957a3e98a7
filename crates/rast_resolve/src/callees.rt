// References, and what a spawn and a call hand over.
ghost use Rattle.std.specs.Prelude.{◌≡◌, map};
ghost use Rattle.rast_resolve.specs.Answers.{Gives, each};
ghost use Rattle.rast_resolve.specs.Bodies.{ref_of, refs_of, is_process, is_counted, declared, callee_of};

use crate::bindings::Bindings;
use crate::fault::{NameErr, arity, unknown};
use crate::known::{Counts, Known};
use crate::place::Place;
use crate::written::linears;
use rast_ast::{By, Lin as Written, Name, Ref as WrittenRef};
use rast_index::Lin;
use rast_types::Ref;
use sqlite_items::Items;
use std::alloc::Global;

/// What a spawn and a call hand over.
#[derive(Drop)]
pub(crate) struct Callee {
    /// The number of the declaration; a process without one has the number of declarations.
    pub decl: u32,
    /// The index arguments.
    pub args: Items<Lin>,
    /// The channels.
    pub ys: Items<u32>,
    /// The references.
    pub refs: Items<Ref>,
}

fn reference(
    alloc: Global,
    item: &Name,
    vars: &Bindings,
    written: &WrittenRef,
) -> Result<Ref, NameErr>
    ensures { Gives (ref_of item.now vars.now written.now) result }
{
    match written {
        WrittenRef::Refl => Ok(Ref::Refl),
        WrittenRef::Equation(k, args) => {
            let args = linears(alloc, item, true, vars, args.as_slice())?;
            Ok(Ref::Eq(*k, args))
        }
    }
}

fn all_references(
    alloc: Global,
    item: &Name,
    vars: &Bindings,
    written: &[WrittenRef],
) -> Result<Items<Ref>, NameErr>
    ensures { Gives (each (map (ref_of item.now vars.now) written.now)) result }
{
    let mut out = Items::new(alloc);
    for r in written {
        out.push(reference(alloc, item, vars, r)?)?;
    }
    Ok(out)
}

// A list of references, in which the variables that a walk adds may be named.
pub(crate) fn references(
    alloc: Global,
    item: &Name,
    vars: &Bindings,
    written: &Option<By>,
) -> Result<Items<Ref>, NameErr>
    ensures { Gives (refs_of item.now vars.now written.now) result }
{
    let mut out = Items::new(alloc);
    let Some(by) = written else {
        return Ok(out);
    };
    out.push(reference(alloc, item, vars, &by.first)?)?;
    let rest = all_references(alloc, item, vars, by.rest.as_slice())?;
    out.append(rest)?;
    Ok(out)
}

// Whether the numbers of arguments and channels are those of the declaration, if there is one.
pub(crate) fn is_counted(counts: Option<Counts>, params: usize, channels: usize) -> bool
    ensures { result ≡ is_counted counts params channels }
{
    match counts {
        Some(counts) => params == counts.params && channels == counts.channels,
        None => true,
    }
}

// The process of this name, with what is handed over to it.
pub(crate) fn called(
    alloc: Global,
    known: &Known,
    item: &Name,
    place: &Place,
    name: &Name,
    args: &[Written],
    used: &[Name],
    by: &Option<By>,
) -> Result<Callee, NameErr>
    ensures { Gives (callee_of known.now item.now place.now name.now args.now used.now by.now) result }
{
    if !known.is_process(name) {
        return Err(unknown(alloc, name));
    }
    if !is_counted(known.declared(name), args.len(), used.len()) {
        return Err(arity(alloc, name));
    }
    let decl = known.decl_number(name)?;
    let args = linears(alloc, item, false, &place.vars, args)?;
    let ys = place.channel_numbers(alloc, used)?;
    let refs = references(alloc, item, &place.vars, by)?;
    Ok(Callee {
        decl,
        args,
        ys,
        refs,
    })
}
