// Process terms.
ghost use Rattle.std.specs.Prelude.{◌≡◌, ◌+◌, ◌∷◌, ◌++◌, [], length, map, Ok, IfOk, OnOk};
ghost use Rattle.rast_terms.specs.declared.node.Node.TheVariants as node;
ghost use Rattle.rast_resolve.specs.Answers.{Gives, Leaves, ◌>>=◌ as ◌then◌};
ghost use Rattle.rast_resolve.specs.Bodies.{channel_of, refs_of, callee_of, steps_of, nodes_of, term_nodes, end_of, branch_of, branches_of};

use crate::callees::{called, references};
use crate::fault::{NameErr, twice};
use crate::index::Index;
use crate::known::{Known, narrow, plus};
use crate::place::Place;
use crate::steps::step;
use rast_ast::{Branch, By, End, Lin as Written, Name, Proc, Step};
use rast_terms::Node;
use sqlite_items::Items;
use std::alloc::{AllocError, Global};

// The number that is so much greater.
fn after(number: u32, more: usize) -> Result<u32, AllocError>
    ensures { IfOk result (λ sum. sum ≡ number + more) }
{
    plus(number, narrow(more)?)
}

// A list of one node.
fn alone(alloc: Global, node: Node) -> Result<Items<Node>, AllocError>
    ensures { IfOk result (λ nodes. nodes ≡ node ∷ []) }
{
    let mut nodes = Items::new(alloc);
    nodes.push(node)?;
    Ok(nodes)
}

// The nodes of steps, the first of which has the number `at`. What they bind is bound then.
fn steps_of(
    alloc: Global,
    known: &Known,
    item: &Name,
    place: &mut Place,
    at: u32,
    written: &[Step],
) -> Result<Items<Node>, NameErr>
    ensures { Leaves (steps_of known.now item.now written.now place.old at) result place.new }
{
    let mut nodes = Items::new(alloc);
    let mut next = at;
    for s in written {
        next = after(next, 1)?;
        nodes.push(step(alloc, known, item, place, next, s)?)?;
    }
    Ok(nodes)
}

// The node that closes a channel.
fn close_of(alloc: Global, place: &Place, channel: &Name) -> Result<Items<Node>, NameErr>
    ensures { Gives (channel_of place.now.channels channel.now then λ c. Ok (node.Close c ∷ [])) result }
{
    let x = place.channel_number(alloc, channel)?;
    Ok(alone(alloc, Node::Close { x })?)
}

// The node that forwards one channel to another.
fn forward_of(
    alloc: Global,
    item: &Name,
    place: &Place,
    channel: &Name,
    other: &Name,
    by: &Option<By>,
) -> Result<Items<Node>, NameErr>
    ensures { Gives (channel_of place.now.channels channel.now then λ c. channel_of place.now.channels other.now then λ d. refs_of item.now place.now.vars by.now then λ rs. Ok (node.Forward c d rs ∷ [])) result }
{
    let x = place.channel_number(alloc, channel)?;
    let y = place.channel_number(alloc, other)?;
    let refs = references(alloc, item, &place.vars, by)?;
    Ok(alone(alloc, Node::Forward { x, y, refs })?)
}

// The node that calls a process.
fn call_of(
    alloc: Global,
    known: &Known,
    item: &Name,
    place: &Place,
    channel: &Name,
    name: &Name,
    args: &[Written],
    used: &[Name],
    by: &Option<By>,
) -> Result<Items<Node>, NameErr>
    ensures { Gives (channel_of place.now.channels channel.now then λ c. callee_of known.now item.now place.now name.now args.now used.now by.now then λ k. Ok (node.Call c k.decl k.args k.ys k.refs ∷ [])) result }
{
    let x = place.channel_number(alloc, channel)?;
    let f = called(alloc, known, item, place, name, args, used, by)?;
    let call = Node::Call {
        x,
        decl: f.decl,
        args: f.args,
        ys: f.ys,
        refs: f.refs,
    };
    Ok(alone(alloc, call)?)
}

// The nodes of a term in preorder, the first of which has the number `at`, where this is in scope.
#[cycle(term)]
pub(crate) fn nodes_of(
    alloc: Global,
    known: &Known,
    item: &Name,
    place: &mut Place,
    at: u32,
    written: &Proc,
) -> Result<Items<Node>, NameErr>
    ensures gives { Gives (nodes_of known.now item.now written.now place.old at) result }
    ensures kept { OnOk result (place.new ≡ place.old) }
{
    term_of(
        alloc,
        known,
        item,
        place,
        at,
        written.steps.as_slice(),
        written.end.get(),
    )
}

// The nodes of steps and then the end.
#[cycle(term)]
fn term_of(
    alloc: Global,
    known: &Known,
    item: &Name,
    place: &mut Place,
    at: u32,
    steps: &[Step],
    last: &End,
) -> Result<Items<Node>, NameErr>
    ensures gives { Gives (term_nodes known.now item.now steps.now last.now place.old at) result }
    ensures kept { OnOk result (place.new ≡ place.old) }
{
    let vars = place.vars.len();
    let channels = place.channels.len();
    let mut nodes = steps_of(alloc, known, item, place, at, steps)?;
    let below = end(alloc, known, item, place, after(at, steps.len())?, last)?;
    nodes.append(below)?;
    place.vars.truncate(vars);
    place.channels.truncate(channels);
    Ok(nodes)
}

// The nodes of the end of a term.
#[cycle(term)]
fn end(
    alloc: Global,
    known: &Known,
    item: &Name,
    place: &mut Place,
    at: u32,
    written: &End,
) -> Result<Items<Node>, NameErr>
    ensures gives { Gives (end_of known.now item.now written.now place.old at) result }
    ensures kept { OnOk result (place.new ≡ place.old) }
{
    match written {
        End::Close(channel) => close_of(alloc, place, channel),
        End::Forward { channel, other, by } => {
            forward_of(alloc, item, place, channel, other, by)
        }
        End::Call {
            channel,
            name,
            args,
            used,
            by,
        } => call_of(
            alloc,
            known,
            item,
            place,
            channel,
            name,
            args.as_slice(),
            used.as_slice(),
            by,
        ),
        End::Case {
            channel,
            first,
            rest,
        } => case_of(
            alloc,
            known,
            item,
            place,
            at,
            channel,
            first,
            rest.as_slice(),
        ),
        End::Impossible => Ok(alone(alloc, Node::Impossible)?),
    }
}

// The node of a case and those of its branches, the first of which has the number `at`.
#[cycle(term)]
fn case_of(
    alloc: Global,
    known: &Known,
    item: &Name,
    place: &mut Place,
    at: u32,
    channel: &Name,
    first: &Branch,
    rest: &[Branch],
) -> Result<Items<Node>, NameErr>
    ensures gives { Gives (channel_of place.old.channels channel.now then λ c. branches_of known.now.names [] (map (branch_of known.now item.now) (first.now ∷ rest.now)) place.old (at + 1) then λ r. Ok (node.Case c r.0 ∷ r.1)) result }
    ensures kept { OnOk result (place.new ≡ place.old) }
{
    let x = place.channel_number(alloc, channel)?;
    let below = after(at, 1)?;
    let (branches, more) = cases(alloc, known, item, place, below, first, rest)?;
    let mut nodes = alone(alloc, Node::Case { x, branches })?;
    nodes.append(more)?;
    Ok(nodes)
}

// A branch before others: its label's number with its first node, and its nodes.
fn before(
    alloc: Global,
    head: (u32, u32),
    nodes: Items<Node>,
    heads: Items<(u32, u32)>,
    below: Items<Node>,
) -> Result<(Items<(u32, u32)>, Items<Node>), AllocError>
    ensures { IfOk result (λ r. (r.0 ≡ head ∷ heads) × (r.1 ≡ nodes ++ below)) }
{
    let mut all_heads = Items::new(alloc);
    let mut all_nodes = nodes;
    all_heads.push(head)?;
    all_heads.append(heads)?;
    all_nodes.append(below)?;
    Ok((all_heads, all_nodes))
}

// A branch behind others: its label's number with its first node, and its nodes. The number of the next node is given.
fn put_branch(
    heads: &mut Items<(u32, u32)>,
    nodes: &mut Items<Node>,
    number: u32,
    at: u32,
    more: Items<Node>,
) -> Result<u32, AllocError>
    ensures heads { OnOk result (heads.new ≡ heads.old ++ (number, at) ∷ []) }
    ensures nodes { OnOk result (nodes.new ≡ nodes.old ++ more) }
    ensures next { IfOk result (λ next. next ≡ at + length more) }
{
    let next = after(at, more.len())?;
    heads.push((number, at))?;
    nodes.append(more)?;
    Ok(next)
}

// The branches of a case: the labels' numbers with the first nodes, and all nodes, the first of which has the number `at`.
#[cycle(term)]
fn cases(
    alloc: Global,
    known: &Known,
    item: &Name,
    place: &mut Place,
    at: u32,
    first: &Branch,
    rest: &[Branch],
) -> Result<(Items<(u32, u32)>, Items<Node>), NameErr>
    ensures gives { Gives (branches_of known.now.names [] (map (branch_of known.now item.now) (first.now ∷ rest.now)) place.old at) result }
    ensures kept { OnOk result (place.new ≡ place.old) }
{
    let number = known.number(&first.label)?;
    let nodes = nodes_of(alloc, known, item, place, at, &first.body)?;
    let here = after(at, nodes.len())?;
    let mut seen = Index::alone(alloc, &first.label)?;
    match branches(alloc, known, item, place, here, &mut seen, rest) {
        Ok((more, below)) => {
            drop(seen);
            Ok(before(alloc, (number, at), nodes, more, below)?)
        }
        Err(e) => {
            drop(seen);
            drop(nodes);
            Err(e)
        }
    }
}

// The same of further branches, with none of the labels that the case has already.
#[cycle(term)]
fn branches(
    alloc: Global,
    known: &Known,
    item: &Name,
    place: &mut Place,
    at: u32,
    seen: &mut Index,
    rest: &[Branch],
) -> Result<(Items<(u32, u32)>, Items<Node>), NameErr>
    ensures gives { Gives (branches_of known.now.names seen.old (map (branch_of known.now item.now) rest.now) place.old at) result }
    ensures kept { OnOk result (place.new ≡ place.old) }
{
    let mut heads = Items::new(alloc);
    let mut nodes = Items::new(alloc);
    let mut here = at;
    for branch in rest {
        if seen.has(&branch.label) {
            return Err(twice(alloc, &branch.label));
        }
        seen.push(alloc, &branch.label)?;
        let number = known.number(&branch.label)?;
        let more = nodes_of(alloc, known, item, place, here, &branch.body)?;
        here = put_branch(&mut heads, &mut nodes, number, here, more)?;
    }
    Ok((heads, nodes))
}
