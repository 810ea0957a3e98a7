// Spawns and calls of one process.
ghost use Rattle.std.specs.Prelude.{◌≡◌, ◌+◌, ◌∷◌, [], ◌<◌, ◌≤◌, ◌^◌, length, slice_get, None};
ghost use Rattle.rast_index.specs.Keys.{pull};
ghost use Rattle.rast_items.specs.Deeds.{makes_at, turns_at, large_in, argument_values};
ghost use Rattle.rast_items.specs.Slack.{HasSlack};
ghost use Rattle.rast_items.specs.Actions.{action_of, IsArguments, ReadsAll, IsHandOver, spawned, replaced_by};

use crate::action::Action;
use crate::entries::NO_LINK;
use crate::link::{Link, Pid};
use crate::process::Proc;
use crate::reading::{Reading, read};
use rast_index::Lin;
use rast_terms::{Decl, Program};

impl Proc {
    /// A process at a node that has only the channel that it provides.
    pub fn bare(pid: Pid, node: u32, own: Link, moment: u128) -> Proc
        ensures { result ≡ record { pid = pid; node = node; values = []; own = own; uses = []; fresh = 1; moment = moment; potential = 0; spawned = 0; steps = 0 } }
    {
        let mut links = [NO_LINK; 16];
        links[0] = (0, own);
        Proc {
            pid,
            node,
            vars: 0,
            values: [0; 16],
            count: 1,
            links,
            fresh: 1,
            moment,
            potential: 0,
            spawned: 0,
            steps: 0,
        }
    }
}

/// Gives the named used channels of one process to another that has none; whether it had them all.
fn hand_over(from: &mut Proc, to: &mut Proc, channels: &[u32]) -> bool
    requires none { to.old.uses ≡ [] }
    requires first { to.old.fresh ≡ 1 }
    ensures { IsHandOver channels.now from.old from.new to.old to.new result }
{
    let _count = from.count;
    for channel in channels {
        match from.take_channel(*channel) {
            Some(link) => to.push_channel(link),
            None => return false,
        }
    }
    true
}

/// The first value of at least 2^64 among arguments.
fn first_large(args: &[Lin], proc: &Proc) -> Option<u128>
    ensures { result ≡ large_in (argument_values proc.now args.now) }
{
    for arg in args {
        if let Reading::Large(value) = read(arg, proc) {
            return Some(value);
        }
    }
    None
}

/// Puts the values of arguments into a process that has none; whether all are naturals.
fn push_arguments(target: &mut Proc, args: &[Lin], proc: &Proc) -> bool
    requires few { length args.now ≤ 16 }
    requires none { target.old.values ≡ [] }
    requires small { large_in (argument_values proc.now args.now) ≡ None }
    ensures all { ReadsAll proc.now args.now target.new.values result }
    ensures rest { target.new ≡ record target.old { values = target.new.values } }
{
    for arg in args {
        match read(arg, proc) {
            Reading::Natural(value) => target.push_value(value),
            _ => return false,
        }
    }
    true
}

/// Puts the values of a callee's arguments into a process that has none, and reads the callee's potential at them.
fn arguments(target: &mut Proc, args: &[Lin], proc: &Proc, callee: &Decl) -> Reading
    requires { target.old.values ≡ [] }
    ensures reading { IsArguments proc.now args.now callee.now target.new.values result }
    ensures rest { target.new ≡ record target.old { values = target.new.values } }
{
    if args.len() > 16 {
        return Reading::Unfit;
    }
    if let Some(value) = first_large(args, proc) {
        return Reading::Large(value);
    }
    if !push_arguments(target, args, proc) {
        return Reading::Unfit;
    }
    read(&callee.potential, target)
}

/// A spawn: the next child would have the number `made`.
pub(crate) fn make(
    program: &Program,
    made: u32,
    proc: &Proc,
    decl: u32,
    args: &[Lin],
    channels: &[u32],
    next: u32,
) -> Action
    requires { HasSlack 1 proc.now }
    ensures { result ≡ action_of (makes_at made proc.now args.now decl next (slice_get program.now.decls decl) (pull channels.now proc.now.uses)) }
{
    let Some(callee) = program.decls.get(decl as usize) else {
        return Action::Breaks;
    };
    let session = Pid(made);
    let mut child = Proc::bare(session, callee.body, Link::first(session), proc.moment);
    let mut rest = *proc;
    if !hand_over(&mut rest, &mut child, channels) {
        return Action::Breaks;
    }
    match arguments(&mut child, args, proc, callee) {
        Reading::Natural(potential) => spawn(child, rest, potential as u128, decl, next),
        Reading::Large(value) => Action::Halt { value },
        Reading::Unfit => Action::Breaks,
    }
}

/// The parent hands potential to its child and gets a channel to it.
fn spawn(child: Proc, rest: Proc, potential: u128, decl: u32, next: u32) -> Action
    requires { HasSlack 1 rest }
    ensures { result ≡ action_of (spawned child rest potential decl next) }
{
    if rest.potential < potential || rest.uses().len() >= 15 {
        return Action::Breaks;
    }
    let mut child = child;
    child.potential = potential;
    let mut rest = rest;
    rest.potential -= potential;
    rest.spawned += 1;
    rest.push_channel(child.own());
    rest.go_to(next);
    Action::Make { child, rest, decl }
}

/// A call.
pub(crate) fn turn(
    program: &Program,
    proc: &Proc,
    decl: u32,
    args: &[Lin],
    channels: &[u32],
) -> Action
    requires { HasSlack 1 proc.now }
    ensures { result ≡ action_of (turns_at proc.now args.now decl (slice_get program.now.decls decl) (pull channels.now proc.now.uses)) }
{
    let Some(callee) = program.decls.get(decl as usize) else {
        return Action::Breaks;
    };
    let mut next = Proc::bare(proc.pid, callee.body, proc.own(), proc.moment);
    let mut left = *proc;
    if !hand_over(&mut left, &mut next, channels) {
        return Action::Breaks;
    }
    match arguments(&mut next, args, proc, callee) {
        Reading::Natural(_) => replace(next, left, decl),
        Reading::Large(value) => Action::Halt { value },
        Reading::Unfit => Action::Breaks,
    }
}

/// The process goes on as another with what it has done and holds.
fn replace(next: Proc, left: Proc, decl: u32) -> Action
    requires { HasSlack 1 left }
    ensures { result ≡ action_of (replaced_by next left decl left.uses) }
{
    if !left.uses().is_empty() {
        return Action::Breaks;
    }
    let mut rest = next;
    rest.potential = left.potential;
    rest.spawned = left.spawned;
    rest.steps = left.steps + 1;
    Action::Turn { rest, decl }
}
