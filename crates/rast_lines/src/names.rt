// The names that are printed at a node.
ghost use Rattle.std.specs.Prelude.{◌≡◌, ℕ, List, map, IfOk, OnOk, slice_get};
ghost use Rattle.std.specs.List.{IsDistinct};
ghost use Rattle.std.specs.Str.{bytes_eq};
ghost use Rattle.rast_lines.specs.Lines.{def_names, decl_names};
ghost use Rattle.rast_terms.specs.Texts.{name_text};
ghost use Rattle.rast_lines.specs.Naming.{or_none, with_new, body_names, names_below, names_after, names_at, AreApart};
ghost use Rattle.rast_lines.specs.Places as places;
ghost use Rattle.rast_rules.specs.Plan.{IsForest, IsBody};

use crate::place::{decl_of, nodes_above};
use crate::scopes::{Sought, refused_names};
use crate::shown::{NameList, Printed};
use rast_terms::{Node, Program};
use sqlite_items::Items;
use std::alloc::{AllocError, Global};

/// The names printed for the channels in scope, by their numbers, and for the index variables.
#[derive(Drop)]
pub struct Names {
    /// Those of the channels, also of those that are used up.
    pub channels: NameList,
    /// Those of the index variables.
    pub vars: NameList,
}

// One more name, printed so that it is new.
fn add(alloc: Global, names: &mut NameList, program: &Program, name: u32) -> Result<(), AllocError>
    ensures value { OnOk result (names.new ≡ with_new names.old (name_text program.now name)) }
    ensures apart { OnOk result (IsDistinct bytes_eq names.old → IsDistinct bytes_eq names.new) }
{
    let own = Printed::of(alloc, program, name)?;
    names.push_new(alloc, own)
}

/// The names with these numbers.
pub(crate) fn named(
    alloc: Global,
    program: &Program,
    numbers: &[u32],
) -> Result<Items<Printed>, AllocError>
    ensures { IfOk result (λ ns. ns ≡ map (name_text program.now) numbers.now) }
{
    let mut names = Items::new(alloc);
    for number in numbers {
        names.push(Printed::of(alloc, program, *number)?)?;
    }
    Ok(names)
}

// The same as a list in which a new name is found at once.
fn list_of(alloc: Global, program: &Program, numbers: &[u32]) -> Result<NameList, AllocError>
    ensures { IfOk result (λ ns. ns ≡ map (name_text program.now) numbers.now) }
{
    let mut names = NameList::new(alloc);
    for number in numbers {
        names.push(alloc, Printed::of(alloc, program, *number)?)?;
    }
    Ok(names)
}

// A list of numbers of names, where there is one.
fn listed(lists: &[Items<u32>], at: usize) -> &[u32]
    ensures { result.now ≡ or_none (slice_get lists.now at) }
{
    match lists.get(at) {
        Some(numbers) => numbers.as_slice(),
        None => &[],
    }
}

/// The names at a declaration's body: those that the declaration gives its channels and its parameters.
pub fn body_names(alloc: Global, program: &Program, decl: usize) -> Result<Names, AllocError>
    ensures { IfOk result (λ names. names ≡ body_names program.now decl) }
{
    let params = match program.decls.get(decl) {
        Some(decl) => decl.params as usize,
        None => 0,
    };
    let channels = listed(program.said.channels.as_slice(), decl);
    let numbers = listed(program.said.decls.as_slice(), decl);
    Ok(Names {
        channels: list_of(alloc, program, channels)?,
        vars: list_of(alloc, program, &numbers[..numbers.len().min(params)])?,
    })
}

/// The names below a node: one more where it binds one, printed so that no other of its kind is printed alike.
///
/// Its time doesn't grow with the names that are there: all nodes of a way down take about n log n together.
pub fn names_below(
    alloc: Global,
    program: &Program,
    names: &mut Names,
    node: u32,
) -> Result<(), AllocError>
    ensures value { OnOk result (names.new ≡ names_below program.now names.old (slice_get program.now.nodes node)) }
    ensures apart { OnOk result (AreApart names.old → AreApart names.new) }
{
    match program.nodes.get(node as usize) {
        Some(Node::Recv { name, .. }) => add(alloc, &mut names.channels, program, *name),
        Some(Node::Spawn { name, .. }) => add(alloc, &mut names.channels, program, *name),
        Some(Node::Bind { name, .. }) => add(alloc, &mut names.vars, program, *name),
        _ => Ok(()),
    }
}

/// The names that are printed at a node.
///
/// A declaration's channels and parameters have the names that it gives. What a node binds has its own name where no
/// channel, or no index variable, in scope there is printed with that name; else its own name, `_` and the least number
/// from 1 for which this isn't so.
///
/// Where each node has one place, the declaration is the one from whose body a way leads down to the node, and what binds
/// names are the nodes on that way. Where the names that the declaration gives are apart, no two channels and no two index
/// variables are printed alike.
pub fn names_at(alloc: Global, program: &Program, node: u32) -> Result<Names, AllocError>
    ensures value { IfOk result (λ names. names ≡ names_at program.now node) }
    ensures placed { IfOk result (λ names. (k m : ℕ) (path : List ℕ) → IsForest program.now → IsBody program.now k m → places.IsPath program.now m path node → (places.decl_of program.now node ≡ k) × (names ≡ names_after program.now (body_names program.now k) path)) }
    ensures apart { IfOk result (λ names. AreApart (body_names program.now (places.decl_of program.now node)) → AreApart names) }
{
    let above = nodes_above(alloc, program, node)?;
    let decl = decl_of(program, node, above.as_slice());
    let mut names = body_names(alloc, program, decl)?;
    names_after(alloc, program, &mut names, above.as_slice())?;
    Ok(names)
}

// The names below these nodes, each a child of the one before.
fn names_after(
    alloc: Global,
    program: &Program,
    names: &mut Names,
    path: &[u32],
) -> Result<(), AllocError>
    ensures value { OnOk result (names.new ≡ names_after program.now names.old path.now) }
    ensures apart { OnOk result (AreApart names.old → AreApart names.new) }
{
    for node in path {
        names_below(alloc, program, names, *node)?;
    }
    Ok(())
}

/// The names of the variables in scope at a refused rule of a type definition.
pub(crate) fn def_names(
    alloc: Global,
    program: &Program,
    def: u32,
    sought: &Sought,
) -> Result<Items<Printed>, AllocError>
    ensures { IfOk result (λ ns. ns ≡ def_names program.now def sought.now.rule sought.now.vars) }
{
    let said = listed(program.said.types.as_slice(), def as usize);
    let numbers = match program.types.defs.get(def as usize) {
        Some(def) => refused_names(alloc, said, def.params, &[], &def.body, sought)?,
        None => Items::new(alloc),
    };
    named(alloc, program, numbers.as_slice())
}

/// The names of the variables in scope at a refused rule of a declaration.
pub(crate) fn decl_names(
    alloc: Global,
    program: &Program,
    decl: u32,
    sought: &Sought,
) -> Result<Items<Printed>, AllocError>
    ensures { IfOk result (λ ns. ns ≡ decl_names program.now decl sought.now.rule sought.now.vars) }
{
    let said = listed(program.said.decls.as_slice(), decl as usize);
    let numbers = match program.decls.get(decl as usize) {
        Some(decl) => refused_names(
            alloc,
            said,
            decl.params,
            decl.uses.as_slice(),
            &decl.gives,
            sought,
        )?,
        None => Items::new(alloc),
    };
    named(alloc, program, numbers.as_slice())
}
