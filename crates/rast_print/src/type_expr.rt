// Types.
ghost use Rattle.std.specs.Prelude.{◌≡◌, ◌++◌, OnOk};
ghost use Rattle.std.specs.List.{flat_map};
ghost use Rattle.rast_print.specs.TypeText.{prefix_text, type_text, atom_text, choice_text, labelled, label_text};

use crate::formula::put_braced_form;
use crate::linear::{put_args, put_braced};
use crate::put::put;
use rast_ast::{Atom, Choice, Name, Prefix, TypeExpr};
use std::alloc::{AllocError, Global};

#[cycle(type_expr)]
pub fn put_type(alloc: Global, out: &mut Vec<u8>, body: &TypeExpr) -> Result<(), AllocError>
    ensures { OnOk result (out.new.items ≡ out.old.items ++ type_text body.now) }
{
    match body {
        TypeExpr::Prefixed(prefix, body) => {
            put_prefix(alloc, out, prefix)?;
            put(out, b" ")?;
            put_type(alloc, out, body.get())
        }
        TypeExpr::Atom(atom) => put_atom(alloc, out, atom),
        TypeExpr::Tensor(atom, body) => {
            put_atom(alloc, out, atom)?;
            put(out, b" * ")?;
            put_type(alloc, out, body.get())
        }
        TypeExpr::Lolli(atom, body) => {
            put_atom(alloc, out, atom)?;
            put(out, b" -o ")?;
            put_type(alloc, out, body.get())
        }
    }
}

#[cycle(type_expr)]
fn put_atom(alloc: Global, out: &mut Vec<u8>, atom: &Atom) -> Result<(), AllocError>
    ensures { OnOk result (out.new.items ≡ out.old.items ++ atom_text atom.now) }
{
    match atom {
        Atom::One => put(out, b"1"),
        Atom::Plus(choice) => {
            put(out, b"+{")?;
            put_choice(alloc, out, choice.get())?;
            put(out, b"}")
        }
        Atom::With(choice) => {
            put(out, b"&{")?;
            put_choice(alloc, out, choice.get())?;
            put(out, b"}")
        }
        Atom::Named(name, args) => {
            put(out, name.as_bytes())?;
            put_args(alloc, out, args.as_slice())
        }
        Atom::Group(body) => {
            put(out, b"(")?;
            put_type(alloc, out, body.get())?;
            put(out, b")")
        }
    }
}

#[cycle(type_expr)]
fn put_choice(alloc: Global, out: &mut Vec<u8>, choice: &Choice) -> Result<(), AllocError>
    ensures { OnOk result (out.new.items ≡ out.old.items ++ choice_text choice.now) }
{
    put_labelled(alloc, out, &choice.label, &choice.body)?;
    put_labels(alloc, out, choice.rest.as_slice())?;
    Ok(())
}

// Further labels with their types, each behind a comma.
#[cycle(type_expr)]
fn put_labels(
    alloc: Global,
    out: &mut Vec<u8>,
    labels: &[(Name, TypeExpr)],
) -> Result<(), AllocError>
    ensures { OnOk result (out.new.items ≡ out.old.items ++ flat_map label_text labels.now) }
{
    for (label, body) in labels {
        put_label(alloc, out, label, body)?;
    }
    Ok(())
}

#[cycle(type_expr)]
fn put_label(
    alloc: Global,
    out: &mut Vec<u8>,
    label: &Name,
    body: &TypeExpr,
) -> Result<(), AllocError>
    ensures { OnOk result (out.new.items ≡ out.old.items ++ label_text (label.now, body.now)) }
{
    put(out, b", ")?;
    put_labelled(alloc, out, label, body)
}

#[cycle(type_expr)]
fn put_labelled(
    alloc: Global,
    out: &mut Vec<u8>,
    label: &Name,
    body: &TypeExpr,
) -> Result<(), AllocError>
    ensures { OnOk result (out.new.items ≡ out.old.items ++ labelled label.now (type_text body.now)) }
{
    put(out, label.as_bytes())?;
    put(out, b" : ")?;
    put_type(alloc, out, body)
}

fn put_prefix(alloc: Global, out: &mut Vec<u8>, prefix: &Prefix) -> Result<(), AllocError>
    ensures { OnOk result (out.new.items ≡ out.old.items ++ prefix_text prefix.now) }
{
    match prefix {
        Prefix::Ex(name) => {
            put(out, b"?")?;
            put(out, name.as_bytes())?;
            put(out, b".")
        }
        Prefix::All(name) => {
            put(out, b"!")?;
            put(out, name.as_bytes())?;
            put(out, b".")
        }
        Prefix::Assert(form) => {
            put(out, b"?")?;
            put_braced_form(alloc, out, form)?;
            put(out, b".")
        }
        Prefix::Assume(form) => {
            put(out, b"!")?;
            put_braced_form(alloc, out, form)?;
            put(out, b".")
        }
        Prefix::Pays(lin) => {
            put(out, b"|")?;
            put_braced(alloc, out, lin)?;
            put(out, b">")
        }
        Prefix::Gets(lin) => {
            put(out, b"<")?;
            put_braced(alloc, out, lin)?;
            put(out, b"|")
        }
        Prefix::NextOne => put(out, b"()"),
        Prefix::Next(lin) => {
            put(out, b"(")?;
            put_braced(alloc, out, lin)?;
            put(out, b")")
        }
    }
}
