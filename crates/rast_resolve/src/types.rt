// Types.
ghost use Rattle.std.specs.Prelude.{◌≡◌, ◌++◌, ◌∷◌, [], map, pos, OnOk};
ghost use Rattle.rast_index.specs.Linear.{fixed};
ghost use Rattle.rast_resolve.specs.Answers.{Gives};
ghost use Rattle.rast_resolve.specs.Types.{named, type_of, atom_of, choice_of, choices, prefixed};

use crate::bindings::Bindings;
use crate::fault::{NameErr, arity, twice, unknown};
use crate::index::Index;
use crate::known::{Known, narrow};
use crate::written::{formula, linear, linears};
use rast_ast::{Atom, Choice, Lin, Name, Prefix, TypeExpr};
use rast_index::Lin as Linear;
use rast_types::Ty;
use sqlite_items::{Boxed, Items};
use std::alloc::Global;

// One tick.
fn one_tick() -> Linear
    ensures { result ≡ fixed (pos 1) }
{
    Linear {
        constant: 1,
        coefficient: [0; 16],
    }
}

// A definition by its name, with its arguments.
fn named(
    alloc: Global,
    known: &Known,
    item: &Name,
    vars: &Bindings,
    name: &Name,
    args: &[Lin],
) -> Result<Ty, NameErr>
    ensures { Gives (named known.now item.now name.now args.now vars.now) result }
{
    let Some(def) = known.types.place(name) else {
        return Err(unknown(alloc, name));
    };
    let Some(params) = known.params.get(def) else {
        return Err(unknown(alloc, name));
    };
    if args.len() != *params {
        return Err(arity(alloc, name));
    }
    let args = linears(alloc, item, false, vars, args)?;
    Ok(Ty::Named(narrow(def)?, args))
}

// The type that a written one stands for, in the item of this name, among these variables.
#[cycle(type_of)]
pub(crate) fn type_of(
    alloc: Global,
    known: &Known,
    item: &Name,
    vars: &mut Bindings,
    written: &TypeExpr,
) -> Result<Ty, NameErr>
    ensures gives { Gives (type_of known.now item.now written.now vars.old) result }
    ensures kept { OnOk result (vars.new ≡ vars.old) }
{
    match written {
        TypeExpr::Prefixed(prefix, body) => prefixed(alloc, known, item, vars, prefix, body.get()),
        TypeExpr::Atom(a) => atom(alloc, known, item, vars, a),
        TypeExpr::Tensor(a, b) => {
            let a = Boxed::new(alloc, atom(alloc, known, item, vars, a)?)?;
            let b = Boxed::new(alloc, type_of(alloc, known, item, vars, b.get())?)?;
            Ok(Ty::Tensor(a, b))
        }
        TypeExpr::Lolli(a, b) => {
            let a = Boxed::new(alloc, atom(alloc, known, item, vars, a)?)?;
            let b = Boxed::new(alloc, type_of(alloc, known, item, vars, b.get())?)?;
            Ok(Ty::Lolli(a, b))
        }
    }
}

// A type below a prefix.
#[cycle(type_of)]
fn prefixed(
    alloc: Global,
    known: &Known,
    item: &Name,
    vars: &mut Bindings,
    prefix: &Prefix,
    body: &TypeExpr,
) -> Result<Ty, NameErr>
    ensures gives { Gives (prefixed item.now prefix.now (type_of known.now item.now body.now) vars.old) result }
    ensures kept { OnOk result (vars.new ≡ vars.old) }
{
    match prefix {
        Prefix::Ex(name) => Ok(Ty::Ex(below(alloc, known, item, vars, name, body)?)),
        Prefix::All(name) => Ok(Ty::All(below(alloc, known, item, vars, name, body)?)),
        Prefix::Assert(form) => {
            let f = formula(alloc, item, vars, form)?;
            match boxed(alloc, known, item, vars, body) {
                Ok(a) => Ok(Ty::Assert(f, a)),
                Err(e) => {
                    drop(f);
                    Err(e)
                }
            }
        }
        Prefix::Assume(form) => {
            let f = formula(alloc, item, vars, form)?;
            match boxed(alloc, known, item, vars, body) {
                Ok(a) => Ok(Ty::Assume(f, a)),
                Err(e) => {
                    drop(f);
                    Err(e)
                }
            }
        }
        Prefix::Pays(l) => {
            let p = linear(alloc, item, false, vars, l)?;
            Ok(Ty::Pays(p, boxed(alloc, known, item, vars, body)?))
        }
        Prefix::Gets(l) => {
            let p = linear(alloc, item, false, vars, l)?;
            Ok(Ty::Gets(p, boxed(alloc, known, item, vars, body)?))
        }
        Prefix::NextOne => Ok(Ty::Next(one_tick(), boxed(alloc, known, item, vars, body)?)),
        Prefix::Next(l) => {
            let t = linear(alloc, item, false, vars, l)?;
            Ok(Ty::Next(t, boxed(alloc, known, item, vars, body)?))
        }
    }
}

// A type in a box.
#[cycle(type_of)]
fn boxed(
    alloc: Global,
    known: &Known,
    item: &Name,
    vars: &mut Bindings,
    written: &TypeExpr,
) -> Result<Boxed<Ty>, NameErr>
    ensures gives { Gives (type_of known.now item.now written.now vars.old) result }
    ensures kept { OnOk result (vars.new ≡ vars.old) }
{
    let a = type_of(alloc, known, item, vars, written)?;
    Ok(Boxed::new(alloc, a)?)
}

// A type below a quantifier.
#[cycle(type_of)]
fn below(
    alloc: Global,
    known: &Known,
    item: &Name,
    vars: &mut Bindings,
    name: &Name,
    body: &TypeExpr,
) -> Result<Boxed<Ty>, NameErr>
    ensures gives { Gives (type_of known.now item.now body.now (vars.old ++ name.now ∷ [])) result }
    ensures kept { OnOk result (vars.new ≡ vars.old) }
{
    let outer = vars.len();
    vars.push(alloc, name)?;
    let a = boxed(alloc, known, item, vars, body)?;
    vars.truncate(outer);
    Ok(a)
}

#[cycle(type_of)]
fn atom(
    alloc: Global,
    known: &Known,
    item: &Name,
    vars: &mut Bindings,
    written: &Atom,
) -> Result<Ty, NameErr>
    ensures gives { Gives (atom_of known.now item.now written.now vars.old) result }
    ensures kept { OnOk result (vars.new ≡ vars.old) }
{
    match written {
        Atom::One => Ok(Ty::One),
        Atom::Plus(c) => match choice(alloc, known, item, vars, c.get()) {
            Ok(ts) => Ok(Ty::Plus(ts)),
            Err(e) => Err(e),
        },
        Atom::With(c) => match choice(alloc, known, item, vars, c.get()) {
            Ok(ts) => Ok(Ty::With(ts)),
            Err(e) => Err(e),
        },
        Atom::Named(name, args) => named(alloc, known, item, vars, name, args.as_slice()),
        Atom::Group(a) => type_of(alloc, known, item, vars, a.get()),
    }
}

#[cycle(type_of)]
fn choice(
    alloc: Global,
    known: &Known,
    item: &Name,
    vars: &mut Bindings,
    written: &Choice,
) -> Result<Items<(u32, Ty)>, NameErr>
    ensures gives { Gives (choice_of known.now item.now written.now vars.old) result }
    ensures kept { OnOk result (vars.new ≡ vars.old) }
{
    let number = known.number(&written.label)?;
    let first = type_of(alloc, known, item, vars, &written.body)?;
    let mut parts = Items::new(alloc);
    parts.push((number, first))?;
    let mut seen = Index::alone(alloc, &written.label)?;
    match choices(alloc, known, item, vars, &mut seen, written.rest.as_slice()) {
        Ok(rest) => {
            drop(seen);
            parts.append(rest)?;
            Ok(parts)
        }
        Err(e) => {
            drop(seen);
            Err(e)
        }
    }
}

// Further labels of a choice with their types, none of which it has already.
#[cycle(type_of)]
fn choices(
    alloc: Global,
    known: &Known,
    item: &Name,
    vars: &mut Bindings,
    seen: &mut Index,
    written: &[(Name, TypeExpr)],
) -> Result<Items<(u32, Ty)>, NameErr>
    ensures gives { Gives (choices known.now.names seen.old (map (λ e. (e.0, type_of known.now item.now e.1)) written.now) vars.old) result }
    ensures kept { OnOk result (vars.new ≡ vars.old) }
{
    let mut parts = Items::new(alloc);
    for (label, body) in written {
        if seen.has(label) {
            return Err(twice(alloc, label));
        }
        seen.push(alloc, label)?;
        let number = known.number(label)?;
        let a = type_of(alloc, known, item, vars, body)?;
        parts.push((number, a))?;
    }
    Ok(parts)
}
