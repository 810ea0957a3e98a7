// Steps of process terms.
ghost use Rattle.std.specs.Prelude.{◌≡◌, false, Ok, IfOk, OnOk};
ghost use Rattle.rast_terms.specs.declared.node.Node.TheVariants as node;
ghost use Rattle.rast_resolve.specs.Answers.{Leaves, ◌>>=◌ as ◌then◌};
ghost use Rattle.rast_resolve.specs.Scopes.{number_in};
ghost use Rattle.rast_resolve.specs.Written.{linear_of};
ghost use Rattle.rast_resolve.specs.Bodies.{channel_of, refs_of, with_channel, with_variable, step_of};

use crate::callees::{Callee, called, references};
use crate::fault::NameErr;
use crate::known::Known;
use crate::place::Place;
use crate::written::linear;
use rast_ast::{By, Lin as Written, Name, Step};
use rast_terms::Node;
use std::alloc::{AllocError, Global};

fn label_step(
    alloc: Global,
    known: &Known,
    place: &Place,
    next: u32,
    channel: &Name,
    label: &Name,
) -> Result<Node, NameErr>
    ensures { Leaves (channel_of place.now.channels channel.now then λ c. Ok (node.Label c (number_in known.now.names label.now) next, place.now)) result place.now }
{
    let x = place.channel_number(alloc, channel)?;
    let label = known.number(label)?;
    Ok(Node::Label { x, label, next })
}

fn send_step(
    alloc: Global,
    item: &Name,
    place: &Place,
    next: u32,
    channel: &Name,
    sent: &Name,
    by: &Option<By>,
) -> Result<Node, NameErr>
    ensures { Leaves (channel_of place.now.channels channel.now then λ c. channel_of place.now.channels sent.now then λ d. refs_of item.now place.now.vars by.now then λ rs. Ok (node.Send c d rs next, place.now)) result place.now }
{
    let x = place.channel_number(alloc, channel)?;
    let w = place.channel_number(alloc, sent)?;
    let refs = references(alloc, item, &place.vars, by)?;
    Ok(Node::Send { x, w, refs, next })
}

fn index_step(
    alloc: Global,
    item: &Name,
    place: &Place,
    next: u32,
    channel: &Name,
    value: &Written,
) -> Result<Node, NameErr>
    ensures { Leaves (channel_of place.now.channels channel.now then λ c. linear_of item.now false place.now.vars value.now then λ l. Ok (node.Index c l next, place.now)) result place.now }
{
    let x = place.channel_number(alloc, channel)?;
    let value = linear(alloc, item, false, &place.vars, value)?;
    Ok(Node::Index { x, value, next })
}

fn recv_step(
    alloc: Global,
    known: &Known,
    place: &mut Place,
    next: u32,
    bound: &Name,
    channel: &Name,
) -> Result<Node, NameErr>
    ensures { Leaves (channel_of place.old.channels channel.now then λ c. Ok (node.Recv c (number_in known.now.names bound.now) next, with_channel bound.now place.old)) result place.new }
{
    let x = place.channel_number(alloc, channel)?;
    let name = known.number(bound)?;
    place.bind_channel(alloc, bound)?;
    Ok(Node::Recv { x, name, next })
}

fn bind_step(
    alloc: Global,
    known: &Known,
    place: &mut Place,
    next: u32,
    bound: &Name,
    channel: &Name,
) -> Result<Node, NameErr>
    ensures { Leaves (channel_of place.old.channels channel.now then λ c. Ok (node.Bind c (number_in known.now.names bound.now) next, with_variable bound.now place.old)) result place.new }
{
    let x = place.channel_number(alloc, channel)?;
    let name = known.number(bound)?;
    place.bind_variable(alloc, bound)?;
    Ok(Node::Bind { x, name, next })
}

// The number of a name, which is bound as a channel.
fn bound_number(
    alloc: Global,
    known: &Known,
    place: &mut Place,
    bound: &Name,
) -> Result<u32, AllocError>
    ensures number { IfOk result (λ name. name ≡ number_in known.now.names bound.now) }
    ensures bound { OnOk result (place.new ≡ with_channel bound.now place.old) }
{
    let name = known.number(bound)?;
    place.bind_channel(alloc, bound)?;
    Ok(name)
}

// The step that spawns what is called.
fn spawn_step(
    alloc: Global,
    known: &Known,
    place: &mut Place,
    next: u32,
    bound: &Name,
    callee: Callee,
) -> Result<Node, NameErr>
    ensures { Leaves (Ok (node.Spawn (number_in known.now.names bound.now) callee.decl callee.args callee.ys callee.refs next, with_channel bound.now place.old)) result place.new }
{
    match bound_number(alloc, known, place, bound) {
        Ok(name) => Ok(Node::Spawn {
            name,
            decl: callee.decl,
            args: callee.args,
            ys: callee.ys,
            refs: callee.refs,
            next,
        }),
        Err(_) => {
            drop(callee);
            Err(NameErr::Memory)
        }
    }
}

fn work_step(
    alloc: Global,
    item: &Name,
    place: &Place,
    next: u32,
    amount: &Written,
) -> Result<Node, NameErr>
    ensures { Leaves (linear_of item.now false place.now.vars amount.now then λ l. Ok (node.Work l next, place.now)) result place.now }
{
    let amount = linear(alloc, item, false, &place.vars, amount)?;
    Ok(Node::Work { amount, next })
}

fn delay_step(
    alloc: Global,
    item: &Name,
    place: &Place,
    next: u32,
    ticks: &Written,
) -> Result<Node, NameErr>
    ensures { Leaves (linear_of item.now false place.now.vars ticks.now then λ l. Ok (node.Delay l next, place.now)) result place.now }
{
    let ticks = linear(alloc, item, false, &place.vars, ticks)?;
    Ok(Node::Delay { ticks, next })
}

fn wait_step(alloc: Global, place: &Place, next: u32, channel: &Name) -> Result<Node, NameErr>
    ensures { Leaves (channel_of place.now.channels channel.now then λ c. Ok (node.Wait c next, place.now)) result place.now }
{
    let x = place.channel_number(alloc, channel)?;
    Ok(Node::Wait { x, next })
}

fn assert_step(alloc: Global, place: &Place, next: u32, channel: &Name) -> Result<Node, NameErr>
    ensures { Leaves (channel_of place.now.channels channel.now then λ c. Ok (node.Assert c next, place.now)) result place.now }
{
    let x = place.channel_number(alloc, channel)?;
    Ok(Node::Assert { x, next })
}

fn assume_step(alloc: Global, place: &Place, next: u32, channel: &Name) -> Result<Node, NameErr>
    ensures { Leaves (channel_of place.now.channels channel.now then λ c. Ok (node.Assume c next, place.now)) result place.now }
{
    let x = place.channel_number(alloc, channel)?;
    Ok(Node::Assume { x, next })
}

fn pay_step(alloc: Global, place: &Place, next: u32, channel: &Name) -> Result<Node, NameErr>
    ensures { Leaves (channel_of place.now.channels channel.now then λ c. Ok (node.Pay c next, place.now)) result place.now }
{
    let x = place.channel_number(alloc, channel)?;
    Ok(Node::Pay { x, next })
}

fn get_step(alloc: Global, place: &Place, next: u32, channel: &Name) -> Result<Node, NameErr>
    ensures { Leaves (channel_of place.now.channels channel.now then λ c. Ok (node.Get c next, place.now)) result place.now }
{
    let x = place.channel_number(alloc, channel)?;
    Ok(Node::Get { x, next })
}

// The node of a step, whose child has the number `next`. What the step binds is bound then.
pub(crate) fn step(
    alloc: Global,
    known: &Known,
    item: &Name,
    place: &mut Place,
    next: u32,
    written: &Step,
) -> Result<Node, NameErr>
    ensures { Leaves (step_of known.now item.now place.old next written.now) result place.new }
{
    match written {
        Step::Label { channel, label } => label_step(alloc, known, place, next, channel, label),
        Step::Send { channel, sent, by } => send_step(alloc, item, place, next, channel, sent, by),
        Step::Index { channel, value } => index_step(alloc, item, place, next, channel, value),
        Step::Recv { bound, channel } => recv_step(alloc, known, place, next, bound, channel),
        Step::Bind { bound, channel } => bind_step(alloc, known, place, next, bound, channel),
        Step::Wait(channel) => wait_step(alloc, place, next, channel),
        Step::Spawn {
            bound,
            name,
            args,
            used,
            by,
        } => {
            let callee = called(
                alloc,
                known,
                item,
                place,
                name,
                args.as_slice(),
                used.as_slice(),
                by,
            )?;
            spawn_step(alloc, known, place, next, bound, callee)
        }
        Step::Work(amount) => work_step(alloc, item, place, next, amount),
        Step::Delay(ticks) => delay_step(alloc, item, place, next, ticks),
        Step::Assert(channel) => assert_step(alloc, place, next, channel),
        Step::Assume(channel) => assume_step(alloc, place, next, channel),
        Step::Pay(channel) => pay_step(alloc, place, next, channel),
        Step::Get(channel) => get_step(alloc, place, next, channel),
    }
}
