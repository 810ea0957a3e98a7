// What each item adds to a program.
ghost use Rattle.std.specs.Prelude.{◌≡◌, ◌++◌, ◌∷◌, [], length, map, flat_map, codes, Ok, IfOk, OnOk};
ghost use Rattle.rast_terms.specs.declared.program.Decl.{Decl};
ghost use Rattle.rast_resolve.specs.declared.gather.Sought.TheVariants as sought;
ghost use Rattle.rast_resolve.specs.declared.parts.Part.TheVariants as part;
ghost use Rattle.rast_resolve.specs.Answers.{Gives, ◌>>=◌ as ◌then◌};
ghost use Rattle.rast_resolve.specs.Scopes.{place_of, number_in};
ghost use Rattle.rast_resolve.specs.Names.{names_in_type};
ghost use Rattle.rast_resolve.specs.Types.{type_of};
ghost use Rattle.rast_resolve.specs.Bodies.{nodes_of, refs_of, body_start};
ghost use Rattle.rast_resolve.specs.Programs.{numbers, channel_quantifiers, params_of, used_types, potential_of, premise_of, unless_among, def_of, decl_of, body_of, equation_of, main_of, part_of};

use crate::bindings::Bindings;
use crate::callees::references;
use crate::fault::{NameErr, twice, unknown};
use crate::gather::{Sought, add_all, add_type};
use crate::headers::{
    header_channels, if_counted, params_of, potential_of, premise_of, unless_among, used_types,
};
use crate::index::Index;
use crate::known::{Known, narrow};
use crate::place::Place;
use crate::seen::Seen;
use crate::terms::nodes_of;
use crate::types::type_of;
use rast_ast::{By, Channel, Form, Item, Lin, Name, Proc, TypeExpr};
use rast_terms::{Decl, Node};
use rast_types::{Equation, Ref, Ty, TypeDef};
use sqlite_items::{Boxed, Items};
use std::alloc::{AllocError, Global};

/// What an item adds to a program.
#[derive(Drop)]
pub(crate) enum Part {
    /// A type definition, and the numbers of its names for printing.
    Def {
        def: TypeDef,
        said: Items<u32>,
    },
    /// A declaration, and the numbers of its names and its channels' names for printing.
    Decl {
        decl: Decl,
        said: Items<u32>,
        channels: Items<u32>,
    },
    /// The nodes of a body, and the place of its declaration.
    Body {
        place: Option<usize>,
        nodes: Items<Node>,
    },
    /// An equation.
    Equation(Equation),
    /// What is executed.
    Main(u32),
}

// Adds the number of a name.
fn add_number(known: &Known, out: &mut Items<u32>, name: &Name) -> Result<(), AllocError>
    ensures { OnOk result (out.new ≡ out.old ++ number_in known.now.names name.now ∷ []) }
{
    out.push(known.number(name)?)
}

// The numbers of names.
fn numbers(alloc: Global, known: &Known, names: &[Name]) -> Result<Items<u32>, AllocError>
    ensures { IfOk result (λ out. out ≡ numbers known.now names.now) }
{
    let mut out = Items::new(alloc);
    for name in names {
        add_number(known, &mut out, name)?;
    }
    Ok(out)
}

// The numbers of the names of a declaration's channels, the provided one first.
fn channel_names(
    alloc: Global,
    known: &Known,
    provided: &Name,
    used: &[Channel],
) -> Result<Items<u32>, AllocError>
    ensures { IfOk result (λ out. out ≡ numbers known.now (provided.now ∷ map (λ c. c.name) used.now)) }
{
    let mut out = Items::new(alloc);
    add_number(known, &mut out, provided)?;
    for channel in used {
        add_number(known, &mut out, &channel.name)?;
    }
    Ok(out)
}

// Adds the names of the quantifiers of the channels' types.
fn add_quantifiers(
    alloc: Global,
    out: &mut Items<Name>,
    channels: &[Channel],
) -> Result<(), AllocError>
    ensures { OnOk result (out.new ≡ out.old ++ flat_map channel_quantifiers channels.now) }
{
    for channel in channels {
        add_type(alloc, Sought::Quantifiers, out, &channel.body)?;
    }
    Ok(())
}

// Adds a declaration's names for printing: its parameters, and the quantifiers of its types.
fn add_decl_said(
    alloc: Global,
    said: &mut Items<Name>,
    params: &[Name],
    used: &[Channel],
    provided: &Channel,
) -> Result<(), AllocError>
    ensures { OnOk result (said.new ≡ said.old ++ (params.now ++ (flat_map channel_quantifiers used.now ++ channel_quantifiers provided.now))) }
{
    add_all(alloc, said, params)?;
    add_quantifiers(alloc, said, used)?;
    add_type(alloc, Sought::Quantifiers, said, &provided.body)
}

// The numbers of a declaration's names for printing: of its parameters, and of the quantifiers of its types.
fn decl_said(
    alloc: Global,
    known: &Known,
    params: &[Name],
    used: &[Channel],
    provided: &Channel,
) -> Result<Items<u32>, AllocError>
    ensures { IfOk result (λ out. out ≡ numbers known.now (params.now ++ (flat_map channel_quantifiers used.now ++ channel_quantifiers provided.now))) }
{
    let mut said = Items::new(alloc);
    match add_decl_said(alloc, &mut said, params, used, provided) {
        Ok(()) => {
            let out = numbers(alloc, known, said.as_slice());
            drop(said);
            out
        }
        Err(e) => {
            drop(said);
            Err(e)
        }
    }
}

// Adds a definition's names for printing: its parameters, and the quantifiers of its type.
fn add_def_said(
    alloc: Global,
    said: &mut Items<Name>,
    params: &[Name],
    written: &TypeExpr,
) -> Result<(), AllocError>
    ensures { OnOk result (said.new ≡ said.old ++ (params.now ++ names_in_type sought.Quantifiers written.now)) }
{
    add_all(alloc, said, params)?;
    add_type(alloc, Sought::Quantifiers, said, written)
}

// The numbers of a definition's names for printing: of its parameters, and of the quantifiers of its type.
fn def_said(
    alloc: Global,
    known: &Known,
    params: &[Name],
    written: &TypeExpr,
) -> Result<Items<u32>, AllocError>
    ensures { IfOk result (λ out. out ≡ numbers known.now (params.now ++ names_in_type sought.Quantifiers written.now)) }
{
    let mut said = Items::new(alloc);
    match add_def_said(alloc, &mut said, params, written) {
        Ok(()) => {
            let out = numbers(alloc, known, said.as_slice());
            drop(said);
            out
        }
        Err(e) => {
            drop(said);
            Err(e)
        }
    }
}

fn def_of(
    alloc: Global,
    known: &Known,
    name: &Name,
    params: &[Name],
    written: &TypeExpr,
) -> Result<Part, NameErr>
    ensures { Gives (def_of known.now name.now params.now written.now) result }
{
    let number = known.number(name)?;
    let said = def_said(alloc, known, params, written)?;
    let mut vars = params_of(alloc, name, params)?;
    let many = vars.len();
    match type_of(alloc, known, name, &mut vars, written) {
        Ok(body) => {
            drop(vars);
            let def = TypeDef {
                name: number,
                params: many as u8,
                body,
            };
            Ok(Part::Def { def, said })
        }
        Err(e) => {
            drop(vars);
            drop(said);
            Err(e)
        }
    }
}

// The head of a declaration of this number, with so many parameters. The name of the provided channel isn't among the others'.
fn header_of(
    alloc: Global,
    known: &Known,
    name: &Name,
    number: u32,
    count: u8,
    vars: &mut Bindings,
    seen: &mut Index,
    used: &[Channel],
    potential: &Option<Lin>,
    provided: &Channel,
) -> Result<Decl, NameErr>
    ensures { Gives {X = Decl} (used_types known.now name.now vars.old seen.old used.now then λ r. potential_of name.now vars.old potential.now then λ p. unless_among provided.now.name r.1 then λ u. type_of known.now name.now provided.now.body vars.old then λ a. Ok (record { name = number; params = count; uses = r.0; potential = p; gives = a; body = body_start known.now name.now })) result }
{
    let uses = used_types(alloc, known, name, vars, seen, used)?;
    let potential = potential_of(alloc, name, vars, potential)?;
    unless_among(alloc, &provided.name, seen)?;
    let gives = type_of(alloc, known, name, vars, &provided.body)?;
    Ok(Decl {
        name: number,
        params: count,
        uses,
        potential,
        gives,
        body: known.body_start(name),
    })
}

fn decl_of(
    alloc: Global,
    known: &Known,
    name: &Name,
    params: &[Name],
    used: &[Channel],
    potential: &Option<Lin>,
    provided: &Channel,
) -> Result<Part, NameErr>
    ensures { Gives (decl_of known.now name.now params.now used.now potential.now provided.now) result }
{
    let number = known.number(name)?;
    let said = decl_said(alloc, known, params, used, provided)?;
    let channels = channel_names(alloc, known, &provided.name, used)?;
    let mut vars = params_of(alloc, name, params)?;
    let many = vars.len();
    let mut seen = Index::new(alloc);
    match header_of(
        alloc, known, name, number, many as u8, &mut vars, &mut seen, used, potential, provided,
    ) {
        Ok(decl) => {
            drop(seen);
            drop(vars);
            Ok(Part::Decl {
                decl,
                said,
                channels,
            })
        }
        Err(e) => {
            drop(seen);
            drop(vars);
            drop(said);
            drop(channels);
            Err(e)
        }
    }
}

// The nodes of the body of this name, at a place.
fn nodes_in(
    alloc: Global,
    known: &Known,
    name: &Name,
    place: Place,
    written: &Proc,
) -> Result<Items<Node>, NameErr>
    ensures { Gives (nodes_of known.now name.now written.now place (body_start known.now name.now)) result }
{
    let mut place = place;
    let start = known.body_start(name);
    let made = nodes_of(alloc, known, name, &mut place, start, written);
    drop(place);
    made
}

fn body_of(
    alloc: Global,
    known: &Known,
    provided: &Name,
    name: &Name,
    params: &[Name],
    used: &[Name],
    written: &Proc,
) -> Result<Part, NameErr>
    ensures { Gives (body_of known.now provided.now name.now params.now used.now written.now) result }
{
    if_counted(alloc, known, name, params.len(), used.len())?;
    let vars = params_of(alloc, name, params)?;
    match header_channels(alloc, name, provided, used) {
        Ok(channels) => {
            let place = Place { vars, channels };
            let nodes = nodes_in(alloc, known, name, place, written)?;
            Ok(Part::Body {
                place: known.decls.place(name),
                nodes,
            })
        }
        Err(e) => {
            drop(vars);
            Err(e)
        }
    }
}

// The types of both sides, and the references.
fn both_sides(
    alloc: Global,
    known: &Known,
    item: &Name,
    vars: &mut Bindings,
    left: &TypeExpr,
    right: &TypeExpr,
    by: &Option<By>,
) -> Result<(Ty, Ty, Items<Ref>), NameErr>
    ensures { Gives (type_of known.now item.now left.now vars.old then λ x. type_of known.now item.now right.now vars.old then λ y. refs_of item.now vars.old by.now then λ rs. Ok (x, y, rs)) result }
{
    let left = Boxed::new(alloc, type_of(alloc, known, item, vars, left)?)?;
    let right = Boxed::new(alloc, type_of(alloc, known, item, vars, right)?)?;
    let refs = references(alloc, item, vars, by)?;
    Ok((left.into_inner(), right.into_inner(), refs))
}

// An equation of an item of this name, over these variables, so many.
fn equation_over(
    alloc: Global,
    known: &Known,
    item: &Name,
    vars: &mut Bindings,
    count: u8,
    premise: &Option<Form>,
    left: &TypeExpr,
    right: &TypeExpr,
    by: &Option<By>,
) -> Result<Part, NameErr>
    ensures { Gives (premise_of item.now vars.old premise.now then λ g. type_of known.now item.now left.now vars.old then λ x. type_of known.now item.now right.now vars.old then λ y. refs_of item.now vars.old by.now then λ rs. Ok (part.Equation (record { vars = count; premise = g; left = x; right = y; refs = rs }))) result }
{
    let premise = premise_of(alloc, item, vars, premise)?;
    match both_sides(alloc, known, item, vars, left, right, by) {
        Ok((left, right, refs)) => Ok(Part::Equation(Equation {
            vars: count,
            premise,
            left,
            right,
            refs,
        })),
        Err(e) => {
            drop(premise);
            Err(e)
        }
    }
}

// An equation of an item of this name.
fn equation_by(
    alloc: Global,
    known: &Known,
    item: &Name,
    params: &[Name],
    premise: &Option<Form>,
    left: &TypeExpr,
    right: &TypeExpr,
    by: &Option<By>,
) -> Result<Part, NameErr>
    ensures { Gives (equation_of known.now item.now params.now premise.now left.now right.now by.now) result }
{
    let mut vars = params_of(alloc, item, params)?;
    let many = vars.len();
    let made = equation_over(
        alloc, known, item, &mut vars, many as u8, premise, left, right, by,
    );
    drop(vars);
    made
}

fn equation_of(
    alloc: Global,
    known: &Known,
    params: &[Name],
    premise: &Option<Form>,
    left: &TypeExpr,
    right: &TypeExpr,
    by: &Option<By>,
) -> Result<Part, NameErr>
    ensures { Gives (equation_of known.now (codes "equation") params.now premise.now left.now right.now by.now) result }
{
    let item = Name::new(alloc, b"equation")?;
    let made = equation_by(alloc, known, &item, params, premise, left, right, by);
    drop(item);
    made
}

fn main_of(alloc: Global, known: &Known, seen: &Seen, name: &Name) -> Result<Part, NameErr>
    ensures { Gives (main_of seen.now name.now (place_of name.now known.now.decls)) result }
{
    let Some(place) = known.decls.place(name) else {
        return Err(unknown(alloc, name));
    };
    if seen.exec {
        return Err(twice(alloc, name));
    }
    Ok(Part::Main(narrow(place)?))
}

// What an item adds to the program, after those that are seen.
pub(crate) fn part_of(
    alloc: Global,
    known: &Known,
    seen: &Seen,
    item: &Item,
) -> Result<Part, NameErr>
    ensures { Gives (part_of known.now seen.now item.now) result }
{
    match item {
        Item::Def { name, params, body } => {
            unless_among(alloc, name, &seen.types)?;
            def_of(alloc, known, name, params.as_slice(), body)
        }
        Item::Decl {
            name,
            params,
            used,
            potential,
            provided,
        } => {
            unless_among(alloc, name, &seen.decls)?;
            decl_of(
                alloc,
                known,
                name,
                params.as_slice(),
                used.as_slice(),
                potential,
                provided,
            )
        }
        Item::Proc {
            channel,
            name,
            params,
            used,
            body,
        } => {
            unless_among(alloc, name, &seen.procs)?;
            body_of(
                alloc,
                known,
                channel,
                name,
                params.as_slice(),
                used.as_slice(),
                body,
            )
        }
        Item::Eq {
            params,
            premise,
            left,
            right,
            by,
        } => equation_of(alloc, known, params.as_slice(), premise, left, right, by),
        Item::Exec { name } => main_of(alloc, known, seen, name),
    }
}
