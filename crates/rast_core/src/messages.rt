// Steps that need a message.
ghost use Rattle.std.specs.Prelude.{◌≡◌, ◌+◌, ◌<◌, ◌≤◌, ◌^◌, take, drop, length};
ghost use Rattle.rast_items.specs.Items.{held};
ghost use Rattle.rast_core.specs.Words.{Client, Provider};
ghost use Rattle.rast_items.specs.Step.{Stuck, is_msg, take_client, take_provider, move_client, move_provider, moved, cut};
ghost use Rattle.rast_items.specs.Process.{Process};
ghost use Rattle.rast_items.specs.Slack.{HasSlack};
ghost use Rattle.rast_rules.specs.declared.judgement.Plan.{Plan};
ghost use Rattle.rast_core.specs.Shown.{run_code};
ghost use Rattle.rast_core.specs.Edits.{Decides, HandsOn};

use crate::decision::{Decision, Edit};
use crate::find::find_message;
use rast_items::{Body, Event, Item, Link, Msg, Pid, Proc, Side, after_take};
use rast_terms::Program;

/// A take of a message that its provider sent, which stands below the process.
pub(crate) fn take_below(
    program: &Program,
    items: &[Item],
    place: usize,
    proc: &Proc,
    link: Link,
) -> Decision
    requires at { place < length items.now }
    requires slack { HasSlack 1 proc.now }
    requires own { proc.now.potential < 2 ^ 32 }
    requires potential { held items.now < 2 ^ 32 }
    requires fits { (plan : Plan) × (take_client (run_code program.now plan) (take place items.now) proc.now link (cut (is_msg link Client) (drop (place + 1) items.now)) ≡ Stuck → ⊥) }
    ensures { (plan : Plan) → Decides (take_client (run_code program.now plan) (take place items.now) proc.now link (cut (is_msg link Client) (drop (place + 1) items.now))) items.now place result }
{
    let below = rest_of(items, place + 1);
    let Some(offset) = find_message(below, link, Side::Client) else {
        return Decision::Waits(link);
    };
    let at = place + 1 + offset;
    match &below[offset] {
        Item::Proc(_) => unreachable!(),
        Item::Msg(msg) => match after_take(program, proc, msg) {
            None => unreachable!(),
            Some(rest) => Decision::Does {
                event: taken(&rest, msg),
                edit: Edit::Merge {
                    at: place,
                    item: Item::Proc(rest),
                    gone: at,
                },
                child: None,
            },
        },
    }
}

/// A take of a message that its client sent, which stands above the process; the process moves to its place.
pub(crate) fn take_above(
    program: &Program,
    items: &[Item],
    place: usize,
    proc: &Proc,
    link: Link,
) -> Decision
    requires at { place < length items.now }
    requires slack { HasSlack 1 proc.now }
    requires own { proc.now.potential < 2 ^ 32 }
    requires potential { held items.now < 2 ^ 32 }
    requires fits { (plan : Plan) × (take_provider (run_code program.now plan) proc.now link (cut (is_msg link Provider) (take place items.now)) (drop (place + 1) items.now) ≡ Stuck → ⊥) }
    ensures { (plan : Plan) → Decides (take_provider (run_code program.now plan) proc.now link (cut (is_msg link Provider) (take place items.now)) (drop (place + 1) items.now)) items.now place result }
{
    let above = front_of(items, place);
    let Some(at) = find_message(above, link, Side::Provider) else {
        return Decision::Waits(link);
    };
    match &above[at] {
        Item::Proc(_) => unreachable!(),
        Item::Msg(msg) => match after_take(program, proc, msg) {
            None => unreachable!(),
            Some(rest) => Decision::Does {
                event: taken(&rest, msg),
                edit: Edit::Merge {
                    at,
                    item: Item::Proc(rest),
                    gone: place,
                },
                child: None,
            },
        },
    }
}

/// The event of a take.
fn taken(rest: &Proc, msg: &Msg) -> Event
    ensures { result ≡ Event.Take rest.now.pid msg.now.link msg.now.body rest.now.moment }
{
    Event::Take {
        pid: rest.pid,
        link: msg.link,
        body: msg.body,
        moment: rest.moment,
    }
}

/// A forward hands a message on that its provider sent, or else one that its client sent.
pub(crate) fn forward(
    items: &[Item],
    place: usize,
    proc: &Proc,
    other: Link,
    wait: Link,
) -> Decision
    requires { place < length items.now }
    ensures { Decides (move_client (take place items.now) proc.now other wait (cut (is_msg other Client) (drop (place + 1) items.now)) (drop (place + 1) items.now)) items.now place result }
{
    let below = rest_of(items, place + 1);
    match find_message(below, other, Side::Client) {
        Some(offset) => {
            let own = proc.own();
            hand_on(&below[offset], place + 1 + offset, place, own, proc.pid)
        }
        None => forward_up(items, place, proc, other, wait),
    }
}

/// A forward hands a message on that its client sent.
fn forward_up(items: &[Item], place: usize, proc: &Proc, other: Link, wait: Link) -> Decision
    requires { place < length items.now }
    ensures { Decides (move_provider proc.now other wait (cut (is_msg proc.now.own Provider) (take place items.now)) (drop (place + 1) items.now)) items.now place result }
{
    let own = proc.own();
    let above = front_of(items, place);
    match find_message(above, own, Side::Provider) {
        Some(at) => hand_on(&above[at], at, place, other, proc.pid),
        None => Decision::Waits(wait),
    }
}

/// The message at a place goes on to a link, and the forward ends.
fn hand_on(item: &Item, at: usize, place: usize, to: Link, pid: Pid) -> Decision
    requires { (proc : Process) → item.now ≡ Item.Proc proc → ⊥ }
    ensures { HandsOn item.now at place to pid result }
{
    match item {
        Item::Proc(_) => unreachable!(),
        Item::Msg(msg) => Decision::Does {
            event: Event::Move {
                pid,
                from: msg.link,
                to,
                body: msg.body,
                moment: msg.moment,
            },
            edit: Edit::Merge {
                at,
                item: Item::Msg(moved(msg, to)),
                gone: place,
            },
            child: None,
        },
    }
}

/// The message on another link, which at the end is also its next.
fn moved(msg: &Msg, to: Link) -> Msg
    ensures { result ≡ moved msg.now to }
{
    let mut handed = *msg;
    handed.link = to;
    if let Body::End = msg.body {
        handed.next = to;
    }
    handed
}

/// The items from a place on.
fn rest_of(items: &[Item], place: usize) -> &[Item]
    requires { place ≤ length items.now }
    ensures { result.now ≡ drop place items.now }
{
    &items[place..]
}

/// The items before a place.
fn front_of(items: &[Item], place: usize) -> &[Item]
    requires { place ≤ length items.now }
    ensures { result.now ≡ take place items.now }
{
    &items[..place]
}
