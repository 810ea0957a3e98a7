// The judgements of all nodes.
ghost use Rattle.std.specs.Prelude.{◌≡◌, ◌<◌, ℕ, length, slice_get, Some, None, Ok, Err, IfOk, OnOk, MatchOption};
ghost use Rattle.rast_types.specs.declared.stop.Stop.{Stop};
ghost use Rattle.rast_terms.specs.Nodes.{kids};
ghost use Rattle.rast_terms.specs.declared.node.Node.{Node};
ghost use Rattle.rast_rules.specs.declared.judgement.Judgement.{Judgement};
ghost use Rattle.rast_terms.specs.declared.program.Decl.{Decl};
ghost use Rattle.rast_rules.specs.Rules.{IsAccepted, IsJudgement};
ghost use Rattle.rast_rules.specs.Plan.{IsForest, HasJudgement, AreJudged, AreAll, AreChildren, HaveBodies, HaveKids};

use crate::below::children;
use crate::judgement::Judgement;
use crate::root::{RuleErr, start};
use rast_terms::{Decl, Node, Program};
use rast_types::Stop;
use sqlite_items::Items;
use std::alloc::{AllocError, Global};

/// The judgement of each node that has one. The program is accepted, and each node has one place.
/// Want of memory is also answered where there are 2^32 nodes or declarations.
pub(crate) fn judgements(
    alloc: Global,
    program: &Program,
) -> Result<Items<Option<Judgement>>, AllocError>
    requires accepted { IsAccepted program.now }
    requires forest { IsForest program.now }
    ensures sound { IfOk result (λ js. AreJudged program.now js) }
    ensures whole { IfOk result (λ js. AreAll program.now js) }
{
    let mut judged = nothing(alloc, program.nodes.len())?;
    match add_all(alloc, program, &mut judged) {
        Ok(()) => Ok(judged),
        Err(error) => {
            drop(judged);
            Err(error)
        }
    }
}

// The judgements of all bodies and of all nodes below them.
fn add_all(
    alloc: Global,
    program: &Program,
    judged: &mut Items<Option<Judgement>>,
) -> Result<(), AllocError>
    requires accepted { IsAccepted program.now }
    requires forest { IsForest program.now }
    requires old { AreJudged program.now judged.old }
    ensures sound { OnOk result (AreJudged program.now judged.new) }
    ensures whole { OnOk result (AreAll program.now judged.new) }
{
    let count = program.nodes.len();
    if count > u32::MAX as usize {
        return Err(AllocError);
    }
    add_bodies(alloc, program, judged)?;
    for node in 0..count {
        add_children(alloc, program, node as u32, judged)?;
    }
    Ok(())
}

// No judgement yet.
fn nothing(alloc: Global, count: usize) -> Result<Items<Option<Judgement>>, AllocError>
    ensures size { IfOk result (λ js. length js ≡ count) }
    ensures none { IfOk result (λ js. (m : ℕ) (j : Judgement) → slice_get js m ≡ Some (Some j) → ⊥) }
{
    let mut out = Items::new(alloc);
    for _node in 0..count {
        out.push(None)?;
    }
    Ok(out)
}

// The judgements of all bodies.
fn add_bodies(
    alloc: Global,
    program: &Program,
    judged: &mut Items<Option<Judgement>>,
) -> Result<(), AllocError>
    requires accepted { IsAccepted program.now }
    requires old { AreJudged program.now judged.old }
    ensures sound { OnOk result (AreJudged program.now judged.new) }
    ensures bodies { OnOk result (HaveBodies program.now (length program.now.decls) judged.new) }
{
    let count = program.decls.len();
    if count > u32::MAX as usize {
        return Err(AllocError);
    }
    for decl in 0..count {
        add_body(alloc, program, decl as u32, judged)?;
    }
    Ok(())
}

fn add_body(
    alloc: Global,
    program: &Program,
    decl: u32,
    judged: &mut Items<Option<Judgement>>,
) -> Result<(), AllocError>
    requires accepted { IsAccepted program.now }
    requires old { AreJudged program.now judged.old }
    requires there { decl < length program.now.decls }
    ensures sound { OnOk result (AreJudged program.now judged.new) }
    ensures keeps { OnOk result ((m : ℕ) → HasJudgement judged.old m → HasJudgement judged.new m) }
    ensures here { OnOk result ((d : Decl) → slice_get program.now.decls decl ≡ Some d → HasJudgement judged.new d.body) }
{
    match program.decls.get(decl as usize) {
        Some(found) => add_found(alloc, program, decl, found, judged),
        None => Err(AllocError),
    }
}

fn add_found(
    alloc: Global,
    program: &Program,
    decl: u32,
    found: &Decl,
    judged: &mut Items<Option<Judgement>>,
) -> Result<(), AllocError>
    requires accepted { IsAccepted program.now }
    requires old { AreJudged program.now judged.old }
    requires there { slice_get program.now.decls decl ≡ Some found.now }
    ensures sound { OnOk result (AreJudged program.now judged.new) }
    ensures keeps { OnOk result ((m : ℕ) → HasJudgement judged.old m → HasJudgement judged.new m) }
    ensures here { OnOk result (HasJudgement judged.new found.now.body) }
{
    match start(alloc, program, decl) {
        Ok(judgement) => {
            judged.set(found.body as usize, Some(judgement));
            Ok(())
        }
        Err(RuleErr::Limit { .. }) => unreachable!(),
        Err(RuleErr::Memory) => Err(AllocError),
    }
}

// The judgements of a node's children, where the node has one.
fn add_children(
    alloc: Global,
    program: &Program,
    node: u32,
    judged: &mut Items<Option<Judgement>>,
) -> Result<(), AllocError>
    requires accepted { IsAccepted program.now }
    requires old { AreJudged program.now judged.old }
    requires there { node < length program.now.nodes }
    ensures sound { OnOk result (AreJudged program.now judged.new) }
    ensures keeps { OnOk result ((m : ℕ) → HasJudgement judged.old m → HasJudgement judged.new m) }
    ensures here { OnOk result ((nd : Node) → HasJudgement judged.old node → slice_get program.now.nodes node ≡ Some nd → HaveKids program.now judged.new nd 0) }
{
    match program.nodes.get(node as usize) {
        Some(found) => add_below(alloc, program, node, found, judged),
        None => Err(AllocError),
    }
}

fn add_below(
    alloc: Global,
    program: &Program,
    node: u32,
    found: &Node,
    judged: &mut Items<Option<Judgement>>,
) -> Result<(), AllocError>
    requires accepted { IsAccepted program.now }
    requires old { AreJudged program.now judged.old }
    requires there { slice_get program.now.nodes node ≡ Some found.now }
    ensures sound { OnOk result (AreJudged program.now judged.new) }
    ensures keeps { OnOk result ((m : ℕ) → HasJudgement judged.old m → HasJudgement judged.new m) }
    ensures here { OnOk result (HasJudgement judged.old node → HaveKids program.now judged.new found.now 0) }
{
    let below = made_below(alloc, program, node, judged)?;
    match below {
        Some(made) => {
            add_made(program, found, made, judged);
            Ok(())
        }
        None => Ok(()),
    }
}

// The judgements of a node's children, where the node has one.
fn made_below(
    alloc: Global,
    program: &Program,
    node: u32,
    judged: &Items<Option<Judgement>>,
) -> Result<Option<Items<Result<Judgement, Stop>>>, AllocError>
    requires accepted { IsAccepted program.now }
    requires sound { AreJudged program.now judged.now }
    ensures { (nd : Node) → slice_get program.now.nodes node ≡ Some nd → IfOk result (λ o. MatchOption o (HasJudgement judged.now node → ⊥) (λ cs. AreChildren program.now judged.now node nd cs)) }
{
    match judged.get(node as usize) {
        Some(Some(at)) => Ok(Some(children(alloc, program, at, node)?)),
        _ => Ok(None),
    }
}

// The judgements of a node's children, which are made.
fn add_made(
    program: &Program,
    parent: &Node,
    made: Items<Result<Judgement, Stop>>,
    judged: &mut Items<Option<Judgement>>,
)
    requires accepted { IsAccepted program.now }
    requires old { AreJudged program.now judged.old }
    requires size { length made ≡ length (kids parent.now) }
    requires right { (i m : ℕ) (j : Judgement) → slice_get (kids parent.now) i ≡ Some m → slice_get made i ≡ Some (Ok j) → IsJudgement program.now m j }
    requires all_made { (i : ℕ) (s : Stop) → slice_get made i ≡ Some (Err s) → ⊥ }
    ensures sound { AreJudged program.now judged.new }
    ensures keeps { (m : ℕ) → HasJudgement judged.old m → HasJudgement judged.new m }
    ensures here { (i m : ℕ) → slice_get (kids parent.now) i ≡ Some m → HasJudgement judged.new m }
{
    let mut made = made;
    while let Some(child) = made.pop() {
        let node = parent.kid(made.len());
        add_one(program, node, child, judged);
    }
}

// One child's judgement, which is made.
fn add_one(
    program: &Program,
    node: u32,
    child: Result<Judgement, Stop>,
    judged: &mut Items<Option<Judgement>>,
)
    requires accepted { IsAccepted program.now }
    requires old { AreJudged program.now judged.old }
    requires right { (j : Judgement) → child ≡ Ok j → IsJudgement program.now node j }
    requires all_made { (s : Stop) → child ≡ Err s → ⊥ }
    ensures sound { AreJudged program.now judged.new }
    ensures keeps { (m : ℕ) → HasJudgement judged.old m → HasJudgement judged.new m }
    ensures here { HasJudgement judged.new node }
{
    match child {
        Ok(judgement) => judged.set(node as usize, Some(judgement)),
        Err(_) => unreachable!(),
    }
}
