// What is to be done for the process at a place.
ghost use Rattle.std.specs.Prelude.{◌≡◌, ◌+◌, ◌<◌, ◌^◌, All, take, drop, slice_get, Some};
ghost use Rattle.rast_items.specs.Items.{held};
ghost use Rattle.rast_items.specs.Process.{Process};
ghost use Rattle.rast_items.specs.Deeds.{Deed, deed};
ghost use Rattle.rast_items.specs.Step.{Stuck, is_proc, does};
ghost use Rattle.rast_items.specs.Slack.{IsItemSlack};
ghost use Rattle.rast_items.specs.Actions.{action_of};
ghost use Rattle.rast_rules.specs.declared.judgement.Plan.{Plan};
ghost use Rattle.rast_core.specs.Shown.{run_code};
ghost use Rattle.rast_core.specs.Edits.{Decides, IsCutAt, KeepsPid, HasRule, IsPutEdit};

use crate::decision::{Decision, Edit};
use crate::messages::{forward, take_above, take_below};
use crate::origin::Origin;
use rast_items::{Action, Event, Item, Msg, Proc, Side, next_action};
use rast_rules::Plan;
use rast_terms::Program;

/// What the process at a place does next, where the next child would get the number `made`. It takes no memory.
pub(crate) fn decide(
    program: &Program,
    plan: &Plan,
    made: u32,
    items: &[Item],
    place: usize,
    proc: &Proc,
) -> Decision
    requires here { IsCutAt (is_proc proc.now.pid) items.now place }
    requires at { slice_get items.now place ≡ Some (Item.Proc proc.now) }
    requires slack { All (IsItemSlack 1) items.now }
    requires potential { held items.now < 2 ^ 32 }
    requires going { does (run_code program.now plan.now) (take place items.now) proc.now (drop (place + 1) items.now) (deed (run_code program.now plan.now) made proc.now) ≡ Stuck → ⊥ }
    ensures { Decides (does (run_code program.now plan.now) (take place items.now) proc.now (drop (place + 1) items.now) (deed (run_code program.now plan.now) made proc.now)) items.now place result }
{
    let positive = plan.positive.as_slice();
    let paid = plan.paid.as_slice();
    let action = next_action(program, positive, paid, made, proc);
    decide_action(program, items, place, proc, action)
}

/// What an action comes to in the list.
fn decide_action(
    program: &Program,
    items: &[Item],
    place: usize,
    proc: &Proc,
    action: Action,
) -> Decision
    requires here { IsCutAt (is_proc proc.now.pid) items.now place }
    requires at { slice_get items.now place ≡ Some (Item.Proc proc.now) }
    requires slack { All (IsItemSlack 1) items.now }
    requires potential { held items.now < 2 ^ 32 }
    requires pid { KeepsPid proc.now.pid action }
    requires rule { HasRule program.now items.now place proc.now action }
    ensures { (plan : Plan) (d : Deed) → action ≡ action_of d → Decides (does (run_code program.now plan) (take place items.now) proc.now (drop (place + 1) items.now) d) items.now place result }
{
    let pid = proc.pid;
    match action {
        Action::Put { msg, rest } => Decision::Does {
            event: Event::Send {
                pid,
                link: msg.link,
                body: msg.body,
                moment: msg.moment,
                potential: msg.potential,
            },
            edit: put(msg, rest),
            child: None,
        },
        Action::Take { link, side } => match side {
            Side::Client => take_below(program, items, place, proc, link),
            Side::Provider => take_above(program, items, place, proc, link),
        },
        Action::Move { other, wait } => forward(items, place, proc, other, wait),
        Action::Make { child, rest, decl } => Decision::Does {
            event: Event::Spawn {
                pid,
                child: child.pid,
                decl,
                moment: rest.moment,
            },
            edit: Edit::Two {
                first: Item::Proc(rest),
                second: Item::Proc(child),
            },
            child: Some(Origin {
                parent: pid,
                ordinal: rest.spawned,
            }),
        },
        Action::Turn { rest, decl } => Decision::Does {
            event: Event::Call {
                pid,
                decl,
                moment: rest.moment,
            },
            edit: Edit::Replace {
                item: Item::Proc(rest),
            },
            child: None,
        },
        Action::Work { amount, rest } => Decision::Does {
            event: Event::Work {
                pid,
                amount,
                moment: rest.moment,
            },
            edit: Edit::Replace {
                item: Item::Proc(rest),
            },
            child: None,
        },
        Action::Delay { ticks, rest } => Decision::Does {
            event: Event::Delay {
                pid,
                ticks,
                moment: rest.moment,
            },
            edit: Edit::Replace {
                item: Item::Proc(rest),
            },
            child: None,
        },
        Action::Halt { value } => Decision::Halted(value),
        Action::Breaks => unreachable!(),
    }
}

/// A message, which stands before the process where it goes to the client and after it where it goes to the provider.
fn put(msg: Msg, rest: Option<Proc>) -> Edit
    ensures { IsPutEdit msg rest result }
{
    let Some(proc) = rest else {
        return Edit::Replace {
            item: Item::Msg(msg),
        };
    };
    match msg.toward {
        Side::Client => Edit::Two {
            first: Item::Msg(msg),
            second: Item::Proc(proc),
        },
        Side::Provider => Edit::Two {
            first: Item::Proc(proc),
            second: Item::Msg(msg),
        },
    }
}
