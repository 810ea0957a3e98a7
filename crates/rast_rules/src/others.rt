// The premises of a forward, of an end that is impossible, of work and of a delay.
ghost use Rattle.std.specs.Prelude.{◌≡◌, ◌∷◌, [], ◌++◌, map, is_some, OnOk, ℕ};
ghost use Rattle.rast_index.specs.Truth.{is_at_least, is_equal};
ghost use Rattle.rast_index.specs.Linear.{nought};
ghost use Rattle.rast_equal.specs.Valid.{nonneg};
ghost use Rattle.rast_types.specs.Symbolic.{before_delay};
ghost use Rattle.rast_terms.specs.Nodes.{refs_of};
ghost use Rattle.rast_rules.specs.declared.premise.Evidence.TheVariants as evidence;
ghost use Rattle.rast_rules.specs.Rules.{deal, forward_asked, other_asked, is_provided, used_type, or_one};
ghost use Rattle.rast_rules.specs.Trail.{and_then, truth_premise, delay_premise};

use crate::calls::{ask_call, ask_spawn};
use crate::deal::same;
use crate::formulas::{linear, nonneg, truth};
use crate::judgement::Judgement;
use crate::premise::Premise;
use crate::touching::ask_none_left;
use crate::trail::Trail;
use rast_ergo::{affords, empty};
use rast_index::{Formula, Lin};
use rast_terms::{Node, Program};
use rast_time::lasts;
use rast_types::{Ref, Ty, TypeTable};
use std::alloc::{AllocError, Global};

/// All that is asked of a node that touches no channel.
pub(crate) fn ask_other(
    alloc: Global,
    program: &Program,
    at: &Judgement,
    node: &Node,
    trail: &mut Trail,
) -> Result<(), AllocError>
    ensures { OnOk result (trail.new ≡ and_then trail.old (deal at.now.ctx.vars (refs_of node.now) (other_asked program.now at.now node.now))) }
{
    match node {
        Node::Forward { x, y, refs } => ask_forward(alloc, at, *x, *y, refs.as_slice(), trail),
        Node::Spawn {
            decl,
            args,
            ys,
            refs,
            ..
        } => ask_spawn(
            alloc,
            program,
            at,
            *decl,
            args.as_slice(),
            ys.as_slice(),
            refs.as_slice(),
            trail,
        ),
        Node::Call {
            x,
            decl,
            args,
            ys,
            refs,
        } => ask_call(
            alloc,
            program,
            at,
            *x,
            *decl,
            args.as_slice(),
            ys.as_slice(),
            refs.as_slice(),
            trail,
        ),
        Node::Impossible => trail.ask(
            1,
            Premise::Truth {
                goal: Formula::False,
            },
        ),
        Node::Work { amount, .. } => ask_work(at, amount, trail),
        Node::Delay { ticks, .. } => ask_delay(&program.types, at, ticks, trail),
        Node::Label { .. } | Node::Case { .. } | Node::Send { .. } => Ok(()),
        Node::Recv { .. } | Node::Index { .. } | Node::Bind { .. } => Ok(()),
        Node::Assert { .. } | Node::Assume { .. } | Node::Pay { .. } => Ok(()),
        Node::Get { .. } | Node::Close { .. } | Node::Wait { .. } => Ok(()),
    }
}

// The forward's channel is provided, the other is used, nothing else is left, and their types are the same.
fn ask_forward(
    alloc: Global,
    at: &Judgement,
    x: u32,
    y: u32,
    refs: &[Ref],
    trail: &mut Trail,
) -> Result<(), AllocError>
    ensures { OnOk result (trail.new ≡ and_then trail.old (deal at.now.ctx.vars refs.now (forward_asked at.now x y))) }
{
    ask_ends(at, x, y, trail)?;
    ask_none_left(at, 2, &[y], trail)?;
    ask_empty(at, trail)?;
    ask_alike(alloc, at, y, refs, trail)
}

// The one channel is provided, and the other is used.
fn ask_ends(at: &Judgement, x: u32, y: u32, trail: &mut Trail) -> Result<(), AllocError>
    ensures { OnOk result (trail.new ≡ and_then trail.old ((1, Premise.Shape (is_provided at.now x) (evidence.Linear x)) ∷ (1, Premise.Shape (is_some (used_type at.now y)) (evidence.Linear y)) ∷ [])) }
{
    trail.ask(1, linear(x, at.is_provided(x)))?;
    trail.ask(1, linear(y, at.used_type(y).is_some()))
}

// No potential is left.
fn ask_empty(at: &Judgement, trail: &mut Trail) -> Result<(), AllocError>
    ensures { OnOk result (trail.new ≡ and_then trail.old ((3, Premise.Truth (is_equal at.now.potential nought)) ∷ [])) }
{
    trail.ask(
        3,
        Premise::Truth {
            goal: empty(&at.potential),
        },
    )
}

// The used channel's type is the one that is due.
fn ask_alike(
    alloc: Global,
    at: &Judgement,
    y: u32,
    refs: &[Ref],
    trail: &mut Trail,
) -> Result<(), AllocError>
    ensures { OnOk result (trail.new ≡ and_then trail.old ((4, Premise.Same (or_one (used_type at.now y)) at.now.gives.1 refs.now) ∷ [])) }
{
    trail.ask(4, same(alloc, at.used_type(y), Some(&at.gives.1), refs)?)
}

fn ask_work(at: &Judgement, amount: &Lin, trail: &mut Trail) -> Result<(), AllocError>
    ensures { OnOk result (trail.new ≡ and_then trail.old ((1, Premise.Truth (nonneg amount.now)) ∷ (2, Premise.Truth (is_at_least at.now.potential amount.now)) ∷ [])) }
{
    trail.ask(
        1,
        Premise::Truth {
            goal: nonneg(amount),
        },
    )?;
    trail.ask(
        2,
        Premise::Truth {
            goal: affords(&at.potential, amount),
        },
    )
}

// The ticks are at least 0, and at most those of each channel, the provided one last.
fn ask_delay(
    table: &TypeTable,
    at: &Judgement,
    ticks: &Lin,
    trail: &mut Trail,
) -> Result<(), AllocError>
    ensures { OnOk result (trail.new ≡ and_then trail.old ((1, Premise.Truth (nonneg ticks.now)) ∷ (map (delay_premise table.now.defs at.now.ctx.vars ticks.now) at.now.uses ++ delay_premise table.now.defs at.now.ctx.vars ticks.now at.now.gives ∷ []))) }
{
    trail.ask(
        1,
        Premise::Truth {
            goal: nonneg(ticks),
        },
    )?;
    ask_ticks(table, at, ticks, trail)?;
    trail.ask(2, enough(table, &at.gives.1, ticks))
}

fn ask_ticks(
    table: &TypeTable,
    at: &Judgement,
    ticks: &Lin,
    trail: &mut Trail,
) -> Result<(), AllocError>
    ensures { OnOk result (trail.new ≡ and_then trail.old (map (delay_premise table.now.defs at.now.ctx.vars ticks.now) at.now.uses)) }
{
    for (_, ty) in at.uses.as_slice() {
        trail.ask(2, enough(table, ty, ticks))?;
    }
    Ok(())
}

// A type's ticks are at least these.
fn enough(table: &TypeTable, ty: &Ty, ticks: &Lin) -> Premise
    ensures { (n : ℕ) → result ≡ truth_premise (is_at_least (before_delay table.now.defs n ty.now).ticks ticks.now) }
{
    truth(lasts(table, ty, ticks))
}
