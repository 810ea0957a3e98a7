// A process after a take.
ghost use Rattle.std.specs.Prelude.{◌≡◌, ◌+◌, ◌<◌, ◌^◌, ◌++◌, ◌∷◌, [], length, nat_lt, if◌then◌else◌, slice_get, None, Some};
ghost use Rattle.rast_index.specs.Keys.{find_key};
ghost use Rattle.rast_items.specs.Deeds.{taken_at, with_message, with_channel, at_node, at_branch, less_channel, has_room};
ghost use Rattle.rast_items.specs.Slack.{HasSlack};

use crate::link::Link;
use crate::message::{Body, Msg};
use crate::process::Proc;
use rast_terms::{Node, Program};

/// The process after it took a message; none where its node doesn't take the message's body.
pub fn after_take(program: &Program, proc: &Proc, msg: &Msg) -> Option<Proc>
    requires slack { HasSlack 1 proc.now }
    requires potential { proc.now.potential + msg.now.potential < 2 ^ 128 }
    ensures { result ≡ taken_at (slice_get program.now.nodes proc.now.node) proc.now msg.now }
{
    let Some(node) = program.nodes.get(proc.node as usize) else {
        return None;
    };
    match node {
        Node::Case { x, branches } => match msg.body {
            Body::Label(label) => take_label(
                with_message(proc, *x, msg),
                branches.as_slice(),
                label,
            ),
            _ => None,
        },
        Node::Recv { x, next, .. } => match msg.body {
            Body::Chan(link) => take_channel(with_message(proc, *x, msg), link, *next),
            _ => None,
        },
        Node::Bind { x, next, .. } => match msg.body {
            Body::Nat(number) => take_number(with_message(proc, *x, msg), number, *next),
            _ => None,
        },
        Node::Assume { x, next } => match msg.body {
            Body::Assert => Some(go_on(with_message(proc, *x, msg), *next)),
            _ => None,
        },
        Node::Get { x, next } => match msg.body {
            Body::Pay => Some(go_on(with_message(proc, *x, msg), *next)),
            _ => None,
        },
        Node::Wait { x, next } => match msg.body {
            Body::End => Some(take_end(with_message(proc, *x, msg), *x, *next)),
            _ => None,
        },
        _ => None,
    }
}

/// The process on the message's next link, with its moment and its potential.
fn with_message(proc: &Proc, channel: u32, msg: &Msg) -> Proc
    requires { proc.now.potential + msg.now.potential < 2 ^ 128 }
    ensures { result ≡ with_message proc.now channel msg.now }
{
    let mut rest = *proc;
    rest.set_link(channel, msg.next);
    rest.moment = rest.moment.max(msg.moment);
    rest.potential += msg.potential;
    rest
}

fn go_on(proc: Proc, next: u32) -> Proc
    requires { proc.steps + 1 < 2 ^ 32 }
    ensures { result ≡ at_node proc next }
{
    let mut rest = proc;
    rest.go_to(next);
    rest
}

fn take_label(proc: Proc, branches: &[(u32, u32)], label: u32) -> Option<Proc>
    requires { proc.steps + 1 < 2 ^ 32 }
    ensures { result ≡ at_branch proc (find_key label branches.now) }
{
    match branch(branches, label) {
        Some(next) => Some(go_on(proc, next)),
        None => None,
    }
}

/// The child of a label's first branch.
fn branch(branches: &[(u32, u32)], label: u32) -> Option<u32>
    ensures { result ≡ find_key label branches.now }
{
    for (name, child) in branches {
        if *name == label {
            return Some(*child);
        }
    }
    None
}

fn take_channel(proc: Proc, link: Link, next: u32) -> Option<Proc>
    requires steps { proc.steps + 1 < 2 ^ 32 }
    requires fresh { proc.fresh + 1 < 2 ^ 32 }
    ensures { result ≡ (if has_room proc.uses then Some (at_node (with_channel proc link) next) else None) }
{
    if proc.uses().len() >= 15 {
        return None;
    }
    let mut rest = proc;
    rest.push_channel(link);
    rest.go_to(next);
    Some(rest)
}

fn take_number(proc: Proc, number: u64, next: u32) -> Option<Proc>
    requires { proc.steps + 1 < 2 ^ 32 }
    ensures { result ≡ (if nat_lt (length proc.values) 16 then Some (at_node (record proc { values = proc.values ++ number ∷ [] }) next) else None) }
{
    if proc.values().len() >= 16 {
        return None;
    }
    let mut rest = proc;
    rest.push_value(number);
    rest.go_to(next);
    Some(rest)
}

fn take_end(proc: Proc, channel: u32, next: u32) -> Proc
    requires { proc.steps + 1 < 2 ^ 32 }
    ensures { result ≡ at_node (less_channel proc channel) next }
{
    let mut rest = proc;
    let _ended = rest.take_channel(channel);
    rest.go_to(next);
    rest
}
