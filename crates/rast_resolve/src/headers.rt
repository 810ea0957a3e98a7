// Parameters, channels, potentials and premises of items.
ghost use Rattle.std.specs.Prelude.{◌≡◌, ◌≤◌, length, IfOk, OnOk};
ghost use Rattle.rast_resolve.specs.Answers.{Gives, Leaves, Makes};
ghost use Rattle.rast_resolve.specs.Programs.{bound_names, params_of, header_channels, unless_among, used_types, potential_of, premise_of, if_counted};
ghost use Rattle.rast_resolve.specs.Bodies.{declared};

use crate::bindings::Bindings;
use crate::callees::is_counted;
use crate::fault::{NameErr, arity, limit, twice};
use crate::index::Index;
use crate::known::Known;
use crate::types::type_of;
use crate::written::{formula, linear};
use rast_ast::{Channel, Form, Lin as Written, Name};
use rast_index::{Formula, Lin};
use rast_types::Ty;
use sqlite_items::Items;
use std::alloc::Global;

// Binds names of one list of the item, at most so many, after those that are bound.
fn bind_names(
    alloc: Global,
    item: &Name,
    most: usize,
    all: &mut Bindings,
    names: &[Name],
) -> Result<(), NameErr>
    requires { length all.old ≤ most }
    ensures makes { Makes (bound_names item.now most all.old names.now) result all.new }
    ensures few { OnOk result (length all.new ≤ most) }
{
    for name in names {
        if all.has(name) {
            return Err(twice(alloc, name));
        }
        if all.len() >= most {
            return Err(limit(alloc, item));
        }
        all.push(alloc, name)?;
    }
    Ok(())
}

// Names bound in one list of the item, at most so many, after those that are bound before.
fn bound_names(
    alloc: Global,
    item: &Name,
    most: usize,
    before: Bindings,
    names: &[Name],
) -> Result<Bindings, NameErr>
    requires { length before ≤ most }
    ensures gives { Gives (bound_names item.now most before names.now) result }
    ensures few { IfOk result (λ all. length all ≤ most) }
{
    let mut all = before;
    match bind_names(alloc, item, most, &mut all, names) {
        Ok(()) => Ok(all),
        Err(e) => {
            drop(all);
            Err(e)
        }
    }
}

// The parameters of an item: at most 16, each once.
pub(crate) fn params_of(alloc: Global, item: &Name, names: &[Name]) -> Result<Bindings, NameErr>
    ensures gives { Gives (params_of item.now names.now) result }
    ensures few { IfOk result (λ all. length all ≤ 16) }
{
    bound_names(alloc, item, 16, Bindings::new(alloc), names)
}

// The channels of a process item: the provided one, and at most 15 others, each with a name of its own.
pub(crate) fn header_channels(
    alloc: Global,
    item: &Name,
    provided: &Name,
    used: &[Name],
) -> Result<Bindings, NameErr>
    ensures { Gives (header_channels item.now provided.now used.now) result }
{
    let mut first = Bindings::new(alloc);
    match first.push(alloc, provided) {
        Ok(()) => bound_names(alloc, item, 16, first, used),
        Err(_) => {
            drop(first);
            Err(NameErr::Memory)
        }
    }
}

// A name is twice where it is among these.
pub(crate) fn unless_among(alloc: Global, name: &Name, names: &Index) -> Result<(), NameErr>
    ensures { Gives (unless_among name.now names.now) result }
{
    if names.has(name) {
        Err(twice(alloc, name))
    } else {
        Ok(())
    }
}

// The types of at most 15 used channels, each with a name of its own after those in `seen`.
pub(crate) fn used_types(
    alloc: Global,
    known: &Known,
    item: &Name,
    vars: &mut Bindings,
    seen: &mut Index,
    used: &[Channel],
) -> Result<Items<Ty>, NameErr>
    ensures gives { Leaves (used_types known.now item.now vars.old seen.old used.now) result seen.new }
    ensures kept { OnOk result (vars.new ≡ vars.old) }
{
    let mut types = Items::new(alloc);
    for channel in used {
        if seen.has(&channel.name) {
            return Err(twice(alloc, &channel.name));
        }
        if seen.len() >= 15 {
            return Err(limit(alloc, item));
        }
        seen.push(alloc, &channel.name)?;
        types.push(type_of(alloc, known, item, vars, &channel.body)?)?;
    }
    Ok(types)
}

// The potential of a declaration: 0 where none is written.
pub(crate) fn potential_of(
    alloc: Global,
    item: &Name,
    vars: &Bindings,
    written: &Option<Written>,
) -> Result<Lin, NameErr>
    ensures { Gives (potential_of item.now vars.now written.now) result }
{
    match written {
        Some(l) => linear(alloc, item, false, vars, l),
        None => Ok(Lin::nought()),
    }
}

// The premise of an equation: true where none is written.
pub(crate) fn premise_of(
    alloc: Global,
    item: &Name,
    vars: &Bindings,
    written: &Option<Form>,
) -> Result<Formula, NameErr>
    ensures { Gives (premise_of item.now vars.now written.now) result }
{
    match written {
        Some(f) => formula(alloc, item, vars, f),
        None => Ok(Formula::True),
    }
}

// A process item has as many parameters and channels as its declaration, if there is one.
pub(crate) fn if_counted(
    alloc: Global,
    known: &Known,
    name: &Name,
    params: usize,
    channels: usize,
) -> Result<(), NameErr>
    ensures { Gives (if_counted (declared known.now name.now) name.now params channels) result }
{
    if is_counted(known.declared(name), params, channels) {
        Ok(())
    } else {
        Err(arity(alloc, name))
    }
}
