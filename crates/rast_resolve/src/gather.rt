// The names that a program has for what stands in a file.
ghost use Rattle.std.specs.Prelude.{◌≡◌, ◌++◌, ◌∷◌, [], flat_map, map, IfOk, OnOk};
ghost use Rattle.rast_resolve.specs.Names.{names_in_type, names_in_atom, names_in_choice, has_labels, has_quantifiers, names_in_term, names_in_end, names_in_branch, step_names, item_names, bound_by, only};

use rast_ast::{Atom, Branch, Channel, Choice, End, Item, Name, Prefix, Proc, Step, TypeExpr};
use sqlite_items::Items;
use std::alloc::{AllocError, Global};

/// Which names of a type are sought.
#[derive(Clone, Copy)]
pub(crate) enum Sought {
    /// Its labels and the names of its quantifiers.
    Both,
    /// Its labels.
    Labels,
    /// The names of its quantifiers.
    Quantifiers,
}

// Adds a name.
pub(crate) fn add(alloc: Global, out: &mut Items<Name>, name: &Name) -> Result<(), AllocError>
    ensures { OnOk result (out.new ≡ out.old ++ name.now ∷ []) }
{
    out.push(Name::new(alloc, name.as_bytes())?)
}

// Adds names.
pub(crate) fn add_all(
    alloc: Global,
    out: &mut Items<Name>,
    names: &[Name],
) -> Result<(), AllocError>
    ensures { OnOk result (out.new ≡ out.old ++ names.now) }
{
    for name in names {
        add(alloc, out, name)?;
    }
    Ok(())
}

fn add_label(
    alloc: Global,
    sought: Sought,
    out: &mut Items<Name>,
    label: &Name,
) -> Result<(), AllocError>
    ensures { OnOk result (out.new ≡ out.old ++ only (has_labels sought) label.now) }
{
    match sought {
        Sought::Both | Sought::Labels => add(alloc, out, label),
        Sought::Quantifiers => Ok(()),
    }
}

fn add_bound(
    alloc: Global,
    sought: Sought,
    out: &mut Items<Name>,
    prefix: &Prefix,
) -> Result<(), AllocError>
    ensures { OnOk result (out.new ≡ out.old ++ bound_by sought prefix.now) }
{
    let (Prefix::Ex(name) | Prefix::All(name)) = prefix else {
        return Ok(());
    };
    match sought {
        Sought::Both | Sought::Quantifiers => add(alloc, out, name),
        Sought::Labels => Ok(()),
    }
}

// Adds the names in a type, in text order.
#[cycle(in_type)]
pub(crate) fn add_type(
    alloc: Global,
    sought: Sought,
    out: &mut Items<Name>,
    a: &TypeExpr,
) -> Result<(), AllocError>
    ensures { OnOk result (out.new ≡ out.old ++ names_in_type sought a.now) }
{
    match a {
        TypeExpr::Prefixed(prefix, body) => {
            add_bound(alloc, sought, out, prefix)?;
            add_type(alloc, sought, out, body.get())
        }
        TypeExpr::Atom(a) => add_atom(alloc, sought, out, a),
        TypeExpr::Tensor(a, b) | TypeExpr::Lolli(a, b) => {
            add_atom(alloc, sought, out, a)?;
            add_type(alloc, sought, out, b.get())
        }
    }
}

#[cycle(in_type)]
fn add_atom(
    alloc: Global,
    sought: Sought,
    out: &mut Items<Name>,
    a: &Atom,
) -> Result<(), AllocError>
    ensures { OnOk result (out.new ≡ out.old ++ names_in_atom sought a.now) }
{
    match a {
        Atom::One | Atom::Named(_, _) => Ok(()),
        Atom::Plus(c) | Atom::With(c) => add_choice(alloc, sought, out, c.get()),
        Atom::Group(a) => add_type(alloc, sought, out, a.get()),
    }
}

#[cycle(in_type)]
fn add_choice(
    alloc: Global,
    sought: Sought,
    out: &mut Items<Name>,
    c: &Choice,
) -> Result<(), AllocError>
    ensures { OnOk result (out.new ≡ out.old ++ names_in_choice sought c.now) }
{
    add_label(alloc, sought, out, &c.label)?;
    add_type(alloc, sought, out, &c.body)?;
    add_choices(alloc, sought, out, c.rest.as_slice())?;
    Ok(())
}

#[cycle(in_type)]
fn add_choices(
    alloc: Global,
    sought: Sought,
    out: &mut Items<Name>,
    choices: &[(Name, TypeExpr)],
) -> Result<(), AllocError>
    ensures { OnOk result (out.new ≡ out.old ++ flat_map (λ e. only (has_labels sought) e.0 ++ names_in_type sought e.1) choices.now) }
{
    for (label, body) in choices {
        add_label(alloc, sought, out, label)?;
        add_type(alloc, sought, out, body)?;
    }
    Ok(())
}

fn add_step(alloc: Global, out: &mut Items<Name>, step: &Step) -> Result<(), AllocError>
    ensures { OnOk result (out.new ≡ out.old ++ step_names step.now) }
{
    match step {
        Step::Label { label, .. } => add(alloc, out, label),
        Step::Recv { bound, .. } | Step::Bind { bound, .. } | Step::Spawn { bound, .. } => add(
            alloc, out, bound,
        ),
        _ => Ok(()),
    }
}

fn add_steps(alloc: Global, out: &mut Items<Name>, steps: &[Step]) -> Result<(), AllocError>
    ensures { OnOk result (out.new ≡ out.old ++ flat_map step_names steps.now) }
{
    for step in steps {
        add_step(alloc, out, step)?;
    }
    Ok(())
}

// Adds the labels of a term, and the names that it binds by recv, bind and spawn, in text order.
#[cycle(in_term)]
fn add_term(alloc: Global, out: &mut Items<Name>, t: &Proc) -> Result<(), AllocError>
    ensures { OnOk result (out.new ≡ out.old ++ names_in_term t.now) }
{
    add_steps(alloc, out, t.steps.as_slice())?;
    add_end(alloc, out, t.end.get())
}

#[cycle(in_term)]
fn add_end(alloc: Global, out: &mut Items<Name>, end: &End) -> Result<(), AllocError>
    ensures { OnOk result (out.new ≡ out.old ++ names_in_end end.now) }
{
    match end {
        End::Case { first, rest, .. } => {
            add_branch(alloc, out, first)?;
            add_branches(alloc, out, rest.as_slice())?;
            Ok(())
        }
        _ => Ok(()),
    }
}

#[cycle(in_term)]
fn add_branch(alloc: Global, out: &mut Items<Name>, branch: &Branch) -> Result<(), AllocError>
    ensures { OnOk result (out.new ≡ out.old ++ names_in_branch branch.now) }
{
    add(alloc, out, &branch.label)?;
    add_term(alloc, out, &branch.body)
}

#[cycle(in_term)]
fn add_branches(alloc: Global, out: &mut Items<Name>, branches: &[Branch]) -> Result<(), AllocError>
    ensures { OnOk result (out.new ≡ out.old ++ flat_map names_in_branch branches.now) }
{
    for branch in branches {
        add_branch(alloc, out, branch)?;
    }
    Ok(())
}

// Adds the names of channels, each followed by those in its type.
fn add_channels(
    alloc: Global,
    out: &mut Items<Name>,
    channels: &[Channel],
) -> Result<(), AllocError>
    ensures { OnOk result (out.new ≡ out.old ++ flat_map (λ c. c.name ∷ names_in_type (Sought.Both) c.body) channels.now) }
{
    for channel in channels {
        add(alloc, out, &channel.name)?;
        add_type(alloc, Sought::Both, out, &channel.body)?;
    }
    Ok(())
}

// Adds the names of an item that its program numbers, in text order.
fn add_item(alloc: Global, out: &mut Items<Name>, item: &Item) -> Result<(), AllocError>
    ensures { OnOk result (out.new ≡ out.old ++ item_names item.now) }
{
    match item {
        Item::Def { name, params, body } => {
            add(alloc, out, name)?;
            add_all(alloc, out, params.as_slice())?;
            add_type(alloc, Sought::Both, out, body)
        }
        Item::Decl {
            name,
            params,
            used,
            provided,
            ..
        } => {
            add(alloc, out, name)?;
            add_all(alloc, out, params.as_slice())?;
            add_channels(alloc, out, used.as_slice())?;
            add(alloc, out, &provided.name)?;
            add_type(alloc, Sought::Both, out, &provided.body)
        }
        Item::Proc { body, .. } => add_term(alloc, out, body),
        Item::Eq { left, right, .. } => {
            add_type(alloc, Sought::Labels, out, left)?;
            add_type(alloc, Sought::Labels, out, right)
        }
        Item::Exec { .. } => Ok(()),
    }
}

// The names of an item that its program numbers, in text order.
pub(crate) fn item_names(alloc: Global, item: &Item) -> Result<Items<Name>, AllocError>
    ensures { IfOk result (λ out. out ≡ item_names item.now) }
{
    let mut out = Items::new(alloc);
    match add_item(alloc, &mut out, item) {
        Ok(()) => Ok(out),
        Err(e) => {
            drop(out);
            Err(e)
        }
    }
}
