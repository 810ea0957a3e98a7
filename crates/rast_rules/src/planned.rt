// What a run reads of the judgements of an accepted program.
ghost use Rattle.std.specs.Prelude.{◌≡◌, ℕ, false, length, slice_get, Some, IfOk, Option};
ghost use Rattle.rast_types.specs.Closed.{kind_of, is_positive};
ghost use Rattle.rast_types.specs.Symbolic.{opened, timed, exposed_type};
ghost use Rattle.rast_terms.specs.declared.node.Node.{Node};
ghost use Rattle.rast_rules.specs.declared.judgement.Judgement.{Judgement};
ghost use Rattle.rast_rules.specs.Rules.{defs, premises, positive_kind, positive_at, paid_at, IsAccepted, IsPlan};
ghost use Rattle.rast_rules.specs.Plan.{IsForest, AreJudged, ReadsAll};
ghost use Rattle.rast_rules.specs.Trail.{any_stops};

use crate::below::head_at;
use crate::head::{amount_of, kind_of};
use crate::judged::judgements;
use crate::judgement::{Judgement, Plan};
use rast_index::Lin;
use rast_terms::{Node, Program};
use rast_time::{definition, next_of};
use rast_types::{Kind, Ty, TypeTable};
use sqlite_items::Items;
use std::alloc::{AllocError, Global};

/// What a run reads of the judgements, one entry for each node: at a forward, whether the head of its used channel is one at which the
/// provider sends; at a pay, the potential that is paid. The program is accepted, and each node has one place.
/// Want of memory is also answered where there are 2^32 nodes or declarations.
pub fn plan(alloc: Global, program: &Program) -> Result<Plan, AllocError>
    requires accepted { IsAccepted program.now }
    requires forest { IsForest program.now }
    ensures { IfOk result (λ p. IsPlan program.now p) }
{
    let judged = judgements(alloc, program)?;
    let positive = sides(alloc, program, judged.as_slice())?;
    let paid = amounts(alloc, program, judged.as_slice())?;
    Ok(Plan { positive, paid })
}

// Whether each forward waits for a message toward the client.
fn sides(
    alloc: Global,
    program: &Program,
    judged: &[Option<Judgement>],
) -> Result<Items<bool>, AllocError>
    requires { AreJudged program.now judged.now }
    ensures size { IfOk result (λ out. length out ≡ length program.now.nodes) }
    ensures each { IfOk result (λ out. ReadsAll (positive_at program.now) judged.now program.now.nodes out) }
{
    let mut out = Items::new(alloc);
    let nodes = program.nodes.as_slice();
    for at in 0..nodes.len() {
        let side = side_in(program, &judged[at], &nodes[at]);
        out.push(side)?;
    }
    Ok(out)
}

fn side_in(program: &Program, judged: &Option<Judgement>, node: &Node) -> bool
    ensures { (j : Judgement) → judged.now ≡ Some j → result ≡ positive_at program.now j node.now }
{
    match judged {
        Some(at) => side(program, at, node),
        None => false,
    }
}

fn side(program: &Program, at: &Judgement, node: &Node) -> bool
    ensures { result ≡ positive_at program.now at.now node.now }
{
    match node {
        Node::Forward { y, .. } => match at.type_of(*y) {
            Some(ty) => is_sending(head_kind(&program.types, ty)),
            None => is_sending(head_kind(&program.types, &Ty::One)),
        },
        _ => false,
    }
}

// Whether the provider sends at a head of this kind.
fn is_sending(kind: Option<Kind>) -> bool
    ensures { result ≡ positive_kind kind }
{
    match kind {
        Some(kind) => matches!(
            kind,
            Kind::Plus | Kind::Tensor | Kind::One | Kind::Ex | Kind::Assert | Kind::Pays
        ),
        None => false,
    }
}

// The kind of a type's head. No term is made, so no limit is passed.
fn head_kind(table: &TypeTable, ty: &Ty) -> Option<Kind>
    ensures { (n : ℕ) → result ≡ kind_of (exposed_type table.now.defs n ty.now).body }
{
    match definition(table, ty) {
        Some((body, _)) => kind_below(table, body),
        None => kind_below(table, ty),
    }
}

// The same of a type that is unfolded already.
fn kind_below(table: &TypeTable, ty: &Ty) -> Option<Kind>
    ensures { (n : ℕ) → result ≡ kind_of (opened table.now.defs n (timed ty.now).body) }
{
    match next_of(ty) {
        Some((_, body)) => kind_unfolded(table, body),
        None => kind_unfolded(table, ty),
    }
}

// The kind of a type, which is unfolded where it is a name.
fn kind_unfolded(table: &TypeTable, ty: &Ty) -> Option<Kind>
    ensures { (n : ℕ) → result ≡ kind_of (opened table.now.defs n ty.now) }
{
    match definition(table, ty) {
        Some((body, _)) => kind_of(body),
        None => kind_of(ty),
    }
}

// The potential that each pay pays.
fn amounts(
    alloc: Global,
    program: &Program,
    judged: &[Option<Judgement>],
) -> Result<Items<Lin>, AllocError>
    requires accepted { IsAccepted program.now }
    requires sound { AreJudged program.now judged.now }
    ensures size { IfOk result (λ out. length out ≡ length program.now.nodes) }
    ensures each { IfOk result (λ out. ReadsAll (paid_at program.now) judged.now program.now.nodes out) }
{
    let mut out = Items::new(alloc);
    let nodes = program.nodes.as_slice();
    for at in 0..nodes.len() {
        let amount = amount_in(alloc, program, &judged[at], &nodes[at])?;
        out.push(amount)?;
    }
    Ok(out)
}

fn amount_in(
    alloc: Global,
    program: &Program,
    judged: &Option<Judgement>,
    node: &Node,
) -> Result<Lin, AllocError>
    requires { (j : Judgement) → judged.now ≡ Some j → any_stops (premises program.now j node.now) ≡ false }
    ensures { (j : Judgement) → judged.now ≡ Some j → IfOk result (λ l. l ≡ paid_at program.now j node.now) }
{
    match judged {
        Some(at) => amount(alloc, program, at, node),
        None => Ok(Lin::nought()),
    }
}

fn amount(alloc: Global, program: &Program, at: &Judgement, node: &Node) -> Result<Lin, AllocError>
    requires { any_stops (premises program.now at.now node.now) ≡ false }
    ensures { IfOk result (λ l. l ≡ paid_at program.now at.now node.now) }
{
    match node {
        Node::Pay { x, .. } => {
            let head = head_at(alloc, program, at, *x)?;
            let amount = amount_of(&head);
            drop(head);
            Ok(amount)
        }
        _ => Ok(Lin::nought()),
    }
}
