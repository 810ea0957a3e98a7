// Sends, takes, forwards, work and delays of one process.
ghost use Rattle.std.specs.Prelude.{◌≡◌, ◌+◌, ◌∷◌, [], ◌<◌, ◌^◌};
ghost use Rattle.rast_index.specs.Keys.{find_key};
ghost use Rattle.rast_items.specs.Items.{Nat, Pay};
ghost use Rattle.rast_items.specs.Deeds.{puts, puts_chan, takes, closes, forwards, works, delays, with_values, at_values, first, out, inward};
ghost use Rattle.rast_items.specs.Slack.{HasSlack};
ghost use Rattle.rast_items.specs.Actions.{action_of};

use crate::action::Action;
use crate::channels::link_of;
use crate::link::Side;
use crate::message::{Body, Msg};
use crate::process::Proc;
use crate::reading::{Reading, read};
use rast_index::Lin;

/// The side to which a send on a channel goes.
fn out(channel: u32) -> Side
    ensures { result ≡ out channel }
{
    if channel == 0 {
        Side::Client
    } else {
        Side::Provider
    }
}

/// The side toward which a message goes that is taken on a channel.
fn inward(channel: u32) -> Side
    ensures { result ≡ inward channel }
{
    if channel == 0 {
        Side::Provider
    } else {
        Side::Client
    }
}

/// A send of a body with so much potential; the process goes on at a node.
pub(crate) fn put(proc: &Proc, channel: u32, body: Body, potential: u128, next: u32) -> Action
    requires { HasSlack 1 proc.now }
    ensures { result ≡ action_of (puts proc.now channel body potential next) }
{
    let Some(link) = link_of(proc, channel) else {
        return Action::Breaks;
    };
    if proc.potential < potential {
        return Action::Breaks;
    }
    let after = link.after();
    let msg = Msg {
        link,
        next: after,
        body,
        toward: out(channel),
        moment: proc.moment,
        potential,
    };
    let mut rest = *proc;
    rest.set_link(channel, after);
    rest.potential -= potential;
    rest.go_to(next);
    Action::Put {
        msg,
        rest: Some(rest),
    }
}

/// A send of a channel.
pub(crate) fn put_channel(proc: &Proc, channel: u32, sent: u32, next: u32) -> Action
    requires { HasSlack 1 proc.now }
    ensures { result ≡ action_of (puts_chan proc.now channel sent (find_key sent proc.now.uses) next) }
{
    let mut rest = *proc;
    match rest.take_channel(sent) {
        Some(link) => put(&rest, channel, Body::Chan(link), 0, next),
        None => Action::Breaks,
    }
}

/// A send of an index value.
pub(crate) fn put_number(proc: &Proc, channel: u32, value: &Lin, next: u32) -> Action
    requires { HasSlack 1 proc.now }
    ensures { result ≡ action_of (with_values (at_values proc.now value.now ∷ []) (λ ns. puts proc.now channel (Nat (first ns)) 0 next)) }
{
    match read(value, proc) {
        Reading::Natural(number) => put(proc, channel, Body::Nat(number), 0, next),
        Reading::Large(value) => Action::Halt { value },
        Reading::Unfit => Action::Breaks,
    }
}

/// A send of potential.
pub(crate) fn put_potential(proc: &Proc, channel: u32, amount: &Lin, next: u32) -> Action
    requires { HasSlack 1 proc.now }
    ensures { result ≡ action_of (with_values (at_values proc.now amount.now ∷ []) (λ ns. puts proc.now channel Pay (first ns) next)) }
{
    match read(amount, proc) {
        Reading::Natural(amount) => put(proc, channel, Body::Pay, amount as u128, next),
        Reading::Large(value) => Action::Halt { value },
        Reading::Unfit => Action::Breaks,
    }
}

/// The end of the session on the provided channel.
pub(crate) fn close(proc: &Proc) -> Action
    ensures { result ≡ action_of (closes proc.now proc.now.uses) }
{
    if !proc.uses().is_empty() {
        return Action::Breaks;
    }
    let link = proc.own();
    let msg = Msg {
        link,
        next: link,
        body: Body::End,
        toward: Side::Client,
        moment: proc.moment,
        potential: 0,
    };
    Action::Put { msg, rest: None }
}

/// A take on a channel.
pub(crate) fn take(proc: &Proc, channel: u32) -> Action
    ensures { result ≡ action_of (takes proc.now channel) }
{
    match link_of(proc, channel) {
        Some(link) => Action::Take {
            link,
            side: inward(channel),
        },
        None => Action::Breaks,
    }
}

/// A forward of a used channel; `positive` says that it waits for its provider.
pub(crate) fn forward(proc: &Proc, used: u32, positive: bool) -> Action
    ensures { result ≡ action_of (forwards proc.now used positive proc.now.uses) }
{
    let uses = proc.uses();
    if uses.len() != 1 || uses[0].0 != used {
        return Action::Breaks;
    }
    let other = uses[0].1;
    let wait = if positive { other } else { proc.own() };
    Action::Move { other, wait }
}

/// Potential is spent.
pub(crate) fn work(proc: &Proc, amount: &Lin, next: u32) -> Action
    requires { HasSlack 1 proc.now }
    ensures { result ≡ action_of (with_values (at_values proc.now amount.now ∷ []) (λ ns. works proc.now next (first ns))) }
{
    match read(amount, proc) {
        Reading::Natural(amount) => spend(proc, amount as u128, next),
        Reading::Large(value) => Action::Halt { value },
        Reading::Unfit => Action::Breaks,
    }
}

fn spend(proc: &Proc, amount: u128, next: u32) -> Action
    requires { HasSlack 1 proc.now }
    ensures { result ≡ action_of (works proc.now next amount) }
{
    if proc.potential < amount {
        return Action::Breaks;
    }
    let mut rest = *proc;
    rest.potential -= amount;
    rest.go_to(next);
    Action::Work { amount, rest }
}

/// Time passes.
pub(crate) fn delay(proc: &Proc, ticks: &Lin, next: u32) -> Action
    requires { HasSlack 1 proc.now }
    ensures { result ≡ action_of (with_values (at_values proc.now ticks.now ∷ []) (λ ns. delays proc.now next (first ns))) }
{
    match read(ticks, proc) {
        Reading::Natural(ticks) => pass(proc, ticks, next),
        Reading::Large(value) => Action::Halt { value },
        Reading::Unfit => Action::Breaks,
    }
}

fn pass(proc: &Proc, ticks: u64, next: u32) -> Action
    requires { HasSlack 1 proc.now }
    ensures { result ≡ action_of (delays proc.now next ticks) }
{
    let mut rest = *proc;
    rest.moment += ticks as u128;
    rest.go_to(next);
    Action::Delay {
        ticks: ticks as u128,
        rest,
    }
}
