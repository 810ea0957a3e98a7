// Items in a list.
ghost use Rattle.std.specs.Prelude.{◌≡◌, MatchOption, IfSome, None, true};
ghost use Rattle.rast_items.specs.Step.{cut, is_proc, is_msg};
ghost use Rattle.rast_core.specs.Edits.{IsCutAt, StandsAt};

use rast_items::{Item, Link, Pid, Side};

/// The place of a process.
pub(crate) fn find_process(items: &[Item], pid: Pid) -> Option<usize>
    ensures { MatchOption result (cut (is_proc pid) items.now ≡ None) (λ i. IsCutAt (is_proc pid) items.now i) }
{
    for i in 0..items.len() {
        if is_process(&items[i], pid) {
            return Some(i);
        }
    }
    None
}

/// A place of a process, looked for farther and farther from a place on both sides.
/// Most steps are of a process that stands near the one that did the step before.
pub(crate) fn find_near(items: &[Item], pid: Pid, place: usize) -> Option<usize>
    ensures { IfSome result (λ i. StandsAt (is_proc pid) items.now i) }
{
    for distance in 0..items.len() {
        let after = place.saturating_add(distance);
        if stands_at(items, pid, after) {
            return Some(after);
        }
        let before = place.saturating_sub(distance);
        if stands_at(items, pid, before) {
            return Some(before);
        }
    }
    None
}

/// Whether a process stands at a place.
fn stands_at(items: &[Item], pid: Pid, place: usize) -> bool
    ensures { result ≡ true → StandsAt (is_proc pid) items.now place }
{
    if place >= items.len() {
        return false;
    }
    is_process(&items[place], pid)
}

/// The place of the first message on a link toward a side.
pub(crate) fn find_message(items: &[Item], link: Link, side: Side) -> Option<usize>
    ensures { MatchOption result (cut (is_msg link side) items.now ≡ None) (λ i. IsCutAt (is_msg link side) items.now i) }
{
    for i in 0..items.len() {
        if is_message(&items[i], link, side) {
            return Some(i);
        }
    }
    None
}

fn is_process(item: &Item, pid: Pid) -> bool
    ensures { result ≡ is_proc pid item.now }
{
    match item {
        Item::Proc(proc) => proc.pid.is(pid),
        Item::Msg(_) => false,
    }
}

fn is_message(item: &Item, link: Link, side: Side) -> bool
    ensures { result ≡ is_msg link side item.now }
{
    match item {
        Item::Proc(_) => false,
        Item::Msg(msg) => msg.link.is(link) && msg.toward.is(side),
    }
}
