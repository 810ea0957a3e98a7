// The premises of a node that touches a channel.
ghost use Rattle.std.specs.Prelude.{◌≡◌, ◌∷◌, [], ◌++◌, ◌&&◌, ◌==◌, not, map, is_some, OnOk, Ok, if◌then◌else◌};
ghost use Rattle.rast_index.specs.Linear.{nought};
ghost use Rattle.rast_index.specs.Truth.{is_equal, is_at_least};
ghost use Rattle.rast_equal.specs.Valid.{nonneg};
ghost use Rattle.rast_types.specs.Symbolic.{made_exposed};
ghost use Rattle.rast_terms.specs.Nodes.{refs_of};
ghost use Rattle.rast_rules.specs.Rules.{defs, deal, head_is, at_head, at_channel, touch_asked, further, used_type, type_of, choices_of, first_of_pair, formula_of, amount_of, or_one, none_left, without, label_asked, has_branch};
ghost use Rattle.rast_rules.specs.Trail.{and_then, plain};

use crate::channels::first_left;
use crate::deal::same;
use crate::formulas::{labelled, linear, nonneg, truth};
use crate::head::{
    amount_of, at_label, choices_of, first_of_pair, formula_of, has_branch, is_kind, kind_of,
};
use crate::judgement::Judgement;
use crate::making::expose_within;
use crate::premise::{Evidence, Premise};
use crate::touch::Touch;
use crate::trail::Trail;
use rast_ergo::{affords, empty};
use rast_index::Lin;
use rast_terms::{Node, Program};
use rast_time::now;
use rast_types::{Exposed, Kind, Ref, Ty};
use std::alloc::{AllocError, Global};

/// All that is asked of a node that touches a channel.
pub(crate) fn ask_touching(
    alloc: Global,
    program: &Program,
    at: &Judgement,
    node: &Node,
    touch: Touch,
    trail: &mut Trail,
) -> Result<(), AllocError>
    ensures { OnOk result (trail.new ≡ and_then trail.old (deal at.now.ctx.vars (refs_of node.now) (touch_asked program.now at.now node.now (record { x = touch.x; provided = touch.provided; used = touch.used })))) }
{
    let want = touch.wanted(at.is_provided(touch.x));
    match (want, at.type_of(touch.x)) {
        (Some(want), Some(ty)) => {
            trail.ask(1, linear(touch.x, true))?;
            ask_head(alloc, program, at, node, want, ty, trail)
        }
        _ => trail.ask(1, linear(touch.x, false)),
    }
}

fn ask_head(
    alloc: Global,
    program: &Program,
    at: &Judgement,
    node: &Node,
    want: Kind,
    ty: &Ty,
    trail: &mut Trail,
) -> Result<(), AllocError>
    ensures { OnOk result (trail.new ≡ and_then trail.old (deal at.now.ctx.vars (refs_of node.now) (at_head at.now node.now want (made_exposed (defs program.now) at.now.ctx.vars ty.now)))) }
{
    let made = expose_within(alloc, &program.types, at.ctx.vars, ty)?;
    match made {
        Ok(exposed) => {
            let asked = ask_exposed(alloc, program, at, node, want, ty, &exposed, trail);
            drop(exposed);
            asked
        }
        Err(stop) => trail.ask(2, Premise::Passed { stop }),
    }
}

// The same where the ticks and the head of the type were made.
fn ask_exposed(
    alloc: Global,
    program: &Program,
    at: &Judgement,
    node: &Node,
    want: Kind,
    ty: &Ty,
    exposed: &Exposed,
    trail: &mut Trail,
) -> Result<(), AllocError>
    ensures { made_exposed (defs program.now) at.now.ctx.vars ty.now ≡ Ok (record { ticks = exposed.now.ticks; body = exposed.now.head }) → OnOk result (trail.new ≡ and_then trail.old (deal at.now.ctx.vars (refs_of node.now) (at_head at.now node.now want (made_exposed (defs program.now) at.now.ctx.vars ty.now)))) }
{
    ask_kind(trail, want, kind_of(&exposed.head))?;
    trail.ask(3, truth(now(&program.types, ty)))?;
    ask_further(alloc, at, node, &exposed.head, trail)
}

fn ask_kind(trail: &mut Trail, want: Kind, found: Option<Kind>) -> Result<(), AllocError>
    ensures { OnOk result (trail.new ≡ and_then trail.old (plain (head_is want found))) }
{
    match found {
        Some(found) => trail.ask(
            2,
            Premise::Shape {
                ok: is_kind(want, found),
                why: Evidence::Head { found },
            },
        ),
        None => Ok(()),
    }
}

// What is asked behind the head.
fn ask_further(
    alloc: Global,
    at: &Judgement,
    node: &Node,
    head: &Ty,
    trail: &mut Trail,
) -> Result<(), AllocError>
    ensures { OnOk result (trail.new ≡ and_then trail.old (deal at.now.ctx.vars (refs_of node.now) (further at.now node.now head.now))) }
{
    match node {
        Node::Label { label, .. } => ask_label(trail, choices_of(head), *label),
        Node::Case { branches, .. } => ask_case(trail, choices_of(head), branches.as_slice()),
        Node::Send { x, w, refs, .. } => ask_send(alloc, at, *x, *w, refs.as_slice(), head, trail),
        Node::Index { value, .. } => ask_index(value, trail),
        Node::Assert { .. } => ask_formula(alloc, head, trail),
        Node::Pay { .. } => ask_pay(at, head, trail),
        Node::Close { .. } => ask_close(at, trail),
        Node::Recv { .. } | Node::Bind { .. } | Node::Assume { .. } => Ok(()),
        Node::Get { .. } | Node::Wait { .. } | Node::Forward { .. } => Ok(()),
        Node::Spawn { .. } | Node::Call { .. } | Node::Impossible => Ok(()),
        Node::Work { .. } | Node::Delay { .. } => Ok(()),
    }
}

fn ask_label(trail: &mut Trail, choices: &[(u32, Ty)], label: u32) -> Result<(), AllocError>
    ensures { OnOk result (trail.new ≡ and_then trail.old (plain (label_asked choices.now label ∷ []))) }
{
    trail.ask(4, labelled(label, at_label(choices, label).is_some()))
}

// Each branch's label is in the type, and then each label of the type has a branch.
fn ask_case(
    trail: &mut Trail,
    choices: &[(u32, Ty)],
    branches: &[(u32, u32)],
) -> Result<(), AllocError>
    ensures { OnOk result (trail.new ≡ and_then trail.old (plain (map (λ b. label_asked choices.now b.0) branches.now ++ map (λ t. has_branch branches.now t.0) choices.now))) }
{
    ask_branches(trail, choices, branches)?;
    ask_choices(trail, choices, branches)
}

fn ask_branches(
    trail: &mut Trail,
    choices: &[(u32, Ty)],
    branches: &[(u32, u32)],
) -> Result<(), AllocError>
    ensures { OnOk result (trail.new ≡ and_then trail.old (plain (map (λ b. label_asked choices.now b.0) branches.now))) }
{
    for (label, _) in branches {
        ask_label(trail, choices, *label)?;
    }
    Ok(())
}

fn ask_choices(
    trail: &mut Trail,
    choices: &[(u32, Ty)],
    branches: &[(u32, u32)],
) -> Result<(), AllocError>
    ensures { OnOk result (trail.new ≡ and_then trail.old (plain (map (λ t. has_branch branches.now t.0) choices.now))) }
{
    for (label, _) in choices {
        trail.ask(4, labelled(*label, has_branch(branches, *label)))?;
    }
    Ok(())
}

// The channel that is sent is used and another, and its type is the one that is due.
fn ask_send(
    alloc: Global,
    at: &Judgement,
    x: u32,
    w: u32,
    refs: &[Ref],
    head: &Ty,
    trail: &mut Trail,
) -> Result<(), AllocError>
    ensures { OnOk result (trail.new ≡ and_then trail.old ((4, Premise.Shape (is_some (used_type at.now w) && not (w == x)) (Evidence.Linear w)) ∷ (5, Premise.Same (or_one (used_type at.now w)) (first_of_pair head.now) refs.now) ∷ [])) }
{
    trail.ask(4, linear(w, may_send(at, x, w)))?;
    if trail.is_closed() {
        return Ok(());
    }
    trail.ask(5, same(alloc, at.used_type(w), first_of_pair(head), refs)?)
}

fn may_send(at: &Judgement, x: u32, w: u32) -> bool
    ensures { result ≡ (is_some (used_type at.now w) && not (w == x)) }
{
    match at.used_type(w) {
        Some(_) => w != x,
        None => false,
    }
}

// The term that is sent is at least 0.
fn ask_index(value: &Lin, trail: &mut Trail) -> Result<(), AllocError>
    ensures { OnOk result (trail.new ≡ and_then trail.old ((4, Premise.Truth (nonneg value.now)) ∷ [])) }
{
    trail.ask(
        4,
        Premise::Truth {
            goal: nonneg(value),
        },
    )
}

// There is enough potential for what is paid.
fn ask_pay(at: &Judgement, head: &Ty, trail: &mut Trail) -> Result<(), AllocError>
    ensures { OnOk result (trail.new ≡ and_then trail.old ((4, Premise.Truth (is_at_least at.now.potential (amount_of head.now))) ∷ [])) }
{
    trail.ask(
        4,
        Premise::Truth {
            goal: affords(&at.potential, &amount_of(head)),
        },
    )
}

fn ask_formula(alloc: Global, head: &Ty, trail: &mut Trail) -> Result<(), AllocError>
    ensures { OnOk result (trail.new ≡ and_then trail.old ((4, Premise.Truth (formula_of head.now)) ∷ [])) }
{
    let goal = formula_of(alloc, head)?;
    trail.ask(4, Premise::Truth { goal })
}

// No used channel is left, and no potential.
fn ask_close(at: &Judgement, trail: &mut Trail) -> Result<(), AllocError>
    ensures { OnOk result (trail.new ≡ and_then trail.old (plain (none_left 4 at.now.uses) ++ (5, Premise.Truth (is_equal at.now.potential nought)) ∷ [])) }
{
    ask_none_left(at, 4, &[], trail)?;
    trail.ask(
        5,
        Premise::Truth {
            goal: empty(&at.potential),
        },
    )
}

/// No used channel is left but these.
pub(crate) fn ask_none_left(
    at: &Judgement,
    number: u8,
    gone: &[u32],
    trail: &mut Trail,
) -> Result<(), AllocError>
    ensures { OnOk result (trail.new ≡ and_then trail.old (plain (none_left number (without at.now gone.now).uses))) }
{
    match first_left(at.uses.as_slice(), gone) {
        Some(channel) => trail.ask(number, linear(channel, false)),
        None => trail.ask(number, linear(0, true)),
    }
}
