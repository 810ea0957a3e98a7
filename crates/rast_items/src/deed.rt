// What a process does next, by its node.
ghost use Rattle.std.specs.Prelude.{◌≡◌, false, slice_index_or};
ghost use Rattle.rast_index.specs.Linear.{Linear, nought};
ghost use Rattle.rast_items.specs.Deeds.{deed};
ghost use Rattle.rast_items.specs.Slack.{HasSlack};
ghost use Rattle.rast_items.specs.Actions.{action_of};

use crate::action::Action;
use crate::callee::{make, turn};
use crate::message::Body;
use crate::process::Proc;
use crate::send::{close, delay, forward, put, put_channel, put_number, put_potential, take, work};
use rast_index::Lin;
use rast_terms::{Node, Program};

/// What a process does next. At each node `positive` says whether a forward waits for its provider,
/// and `paid` has the amount of a pay; `made` is the number that the next child would get.
/// It takes no memory.
pub fn next_action(
    program: &Program,
    positive: &[bool],
    paid: &[Lin],
    made: u32,
    proc: &Proc,
) -> Action
    requires { HasSlack 1 proc.now }
    ensures { result ≡ action_of (deed (record { program = program.now; positive = positive.now; paid = paid.now }) made proc.now) }
{
    let place = proc.node as usize;
    let Some(node) = program.nodes.get(place) else {
        return Action::Breaks;
    };
    match node {
        Node::Label { x, label, next } => put(proc, *x, Body::Label(*label), 0, *next),
        Node::Send { x, w, next, .. } => put_channel(proc, *x, *w, *next),
        Node::Index { x, value, next } => put_number(proc, *x, value, *next),
        Node::Assert { x, next } => put(proc, *x, Body::Assert, 0, *next),
        Node::Pay { x, next } => put_potential(proc, *x, &paid_at(paid, place), *next),
        Node::Close { .. } => close(proc),
        Node::Forward { y, .. } => forward(proc, *y, positive_at(positive, place)),
        Node::Case { x, .. } => take(proc, *x),
        Node::Recv { x, .. } => take(proc, *x),
        Node::Bind { x, .. } => take(proc, *x),
        Node::Assume { x, .. } => take(proc, *x),
        Node::Get { x, .. } => take(proc, *x),
        Node::Wait { x, .. } => take(proc, *x),
        Node::Spawn {
            decl,
            args,
            ys,
            next,
            ..
        } => make(
            program,
            made,
            proc,
            *decl,
            args.as_slice(),
            ys.as_slice(),
            *next,
        ),
        Node::Call { decl, args, ys, .. } => turn(
            program,
            proc,
            *decl,
            args.as_slice(),
            ys.as_slice(),
        ),
        Node::Impossible => Action::Breaks,
        Node::Work { amount, next } => work(proc, amount, *next),
        Node::Delay { ticks, next } => delay(proc, ticks, *next),
    }
}

/// The amount of a pay, which is 0 where the list ends before its node.
fn paid_at(paid: &[Lin], place: usize) -> Lin
    ensures { result ≡ slice_index_or paid.now place nought }
{
    match paid.get(place) {
        Some(amount) => *amount,
        None => Lin {
            constant: 0,
            coefficient: [0; 16],
        },
    }
}

/// Whether a forward waits for its provider; not where the list ends before its node.
fn positive_at(positive: &[bool], place: usize) -> bool
    ensures { result ≡ slice_index_or positive.now place false }
{
    match positive.get(place) {
        Some(waits) => *waits,
        None => false,
    }
}
