// The premises of a spawn and of a call.
ghost use Rattle.std.specs.Prelude.{◌≡◌, ◌∷◌, [], ◌++◌, ◌≤◌, ◌<◌, ◌+◌, ◌&&◌, not, nat_eq, if◌then◌else◌, map, zip, length, drop, min, slice_get, Some, Ok, OnOk, IfOk, is_some};
ghost use Rattle.rast_index.specs.Linear.{replaced};
ghost use Rattle.rast_index.specs.Truth.{is_equal};
ghost use Rattle.rast_equal.specs.Valid.{nonneg};
ghost use Rattle.rast_equal.specs.Walk.{meets, count, top};
ghost use Rattle.rast_types.specs.Symbolic.{made_type};
ghost use Rattle.rast_types.specs.declared.ty.Ty.{Ty};
ghost use Rattle.rast_rules.specs.declared.premise.Evidence.TheVariants as evidence;
ghost use Rattle.rast_rules.specs.Rules.{Askings, Is, Alike, deal, are_used, is_new, is_provided, used_type, or_one, at_args, arg_asked, spawn_asked, call_asked, failure};
ghost use Rattle.rast_rules.specs.Trail.{and_then, plain, asks_sameness, truth_premise};

use crate::channels::is_among;
use crate::count::names_met;
use crate::deal::{copy_or_end, copy_refs};
use crate::formulas::{afforded, compared, linear, nonneg, same_term};
use crate::judgement::Judgement;
use crate::making::{put_term, put_within};
use crate::premise::Premise;
use crate::touching::ask_none_left;
use crate::trail::Trail;
use rast_index::{Lin, Rel};
use rast_terms::{Decl, Program};
use rast_types::{Ref, Ty};
use std::alloc::{AllocError, Global};

/// All that is asked of a spawn.
pub(crate) fn ask_spawn(
    alloc: Global,
    program: &Program,
    at: &Judgement,
    decl: u32,
    args: &[Lin],
    ys: &[u32],
    refs: &[Ref],
    trail: &mut Trail,
) -> Result<(), AllocError>
    ensures { OnOk result (trail.new ≡ and_then trail.old (deal at.now.ctx.vars refs.now (spawn_asked at.now args.now ys.now (slice_get program.now.decls decl)))) }
{
    match program.decls.get(decl as usize) {
        Some(callee) => ask_spawned(alloc, at, callee, args, ys, refs, trail),
        None => Ok(()),
    }
}

fn ask_spawned(
    alloc: Global,
    at: &Judgement,
    callee: &Decl,
    args: &[Lin],
    ys: &[u32],
    refs: &[Ref],
    trail: &mut Trail,
) -> Result<(), AllocError>
    ensures { OnOk result (trail.new ≡ and_then trail.old (deal at.now.ctx.vars refs.now (spawn_asked at.now args.now ys.now (Some callee.now)))) }
{
    ask_nonneg(trail, 1, args)?;
    ask_used(at, 2, ys, trail)?;
    let potential = afforded(&at.potential, put_term(&callee.potential, args));
    trail.ask(3, potential)?;
    let uses = callee.uses.as_slice();
    let _served = ask_arguments(alloc, at, 4, uses, args, ys, refs, false, trail)?;
    Ok(())
}

/// All that is asked of a call.
pub(crate) fn ask_call(
    alloc: Global,
    program: &Program,
    at: &Judgement,
    x: u32,
    decl: u32,
    args: &[Lin],
    ys: &[u32],
    refs: &[Ref],
    trail: &mut Trail,
) -> Result<(), AllocError>
    ensures { OnOk result (trail.new ≡ and_then trail.old (deal at.now.ctx.vars refs.now (call_asked at.now x args.now ys.now (slice_get program.now.decls decl)))) }
{
    match program.decls.get(decl as usize) {
        Some(callee) => ask_called(alloc, at, x, callee, args, ys, refs, trail),
        None => Ok(()),
    }
}

fn ask_called(
    alloc: Global,
    at: &Judgement,
    x: u32,
    callee: &Decl,
    args: &[Lin],
    ys: &[u32],
    refs: &[Ref],
    trail: &mut Trail,
) -> Result<(), AllocError>
    ensures { OnOk result (trail.new ≡ and_then trail.old (deal at.now.ctx.vars refs.now (call_asked at.now x args.now ys.now (Some callee.now)))) }
{
    ask_nonneg(trail, 1, args)?;
    ask_provided(at, x, trail)?;
    ask_used(at, 3, ys, trail)?;
    ask_none_left(at, 3, ys, trail)?;
    ask_equal(at, callee, args, trail)?;
    let uses = callee.uses.as_slice();
    let served = ask_arguments(alloc, at, 5, uses, args, ys, refs, true, trail)?;
    ask_result(alloc, at, &callee.gives, args, refs, served, trail)
}

// The channel is the one that is provided.
fn ask_provided(at: &Judgement, x: u32, trail: &mut Trail) -> Result<(), AllocError>
    ensures { OnOk result (trail.new ≡ and_then trail.old ((2, Premise.Shape (is_provided at.now x) (evidence.Linear x)) ∷ [])) }
{
    trail.ask(2, linear(x, at.is_provided(x)))
}

// The potential is the callee's at the arguments.
fn ask_equal(
    at: &Judgement,
    callee: &Decl,
    args: &[Lin],
    trail: &mut Trail,
) -> Result<(), AllocError>
    ensures { OnOk result (trail.new ≡ and_then trail.old ((4, truth_premise (is_equal at.now.potential (replaced args.now callee.now.potential))) ∷ [])) }
{
    let potential = compared(
        same_term(&at.potential),
        Rel::Eq,
        put_term(&callee.potential, args),
    );
    trail.ask(4, potential)
}

/// Each term is at least 0.
pub(crate) fn ask_nonneg(trail: &mut Trail, number: u8, terms: &[Lin]) -> Result<(), AllocError>
    ensures { OnOk result (trail.new ≡ and_then trail.old (plain (map (λ e. (number, Is (nonneg e))) terms.now))) }
{
    for term in terms {
        trail.ask(number, Premise::Truth { goal: nonneg(term) })?;
    }
    Ok(())
}

// The channels are used and different. It ends at the first that isn't.
fn ask_used(at: &Judgement, number: u8, ys: &[u32], trail: &mut Trail) -> Result<(), AllocError>
    ensures { OnOk result (trail.new ≡ and_then trail.old (plain (are_used at.now number [] ys.now))) }
{
    for i in 0..ys.len() {
        let ok = is_free(at, &ys[..i], ys[i]);
        trail.ask(number, linear(ys[i], ok))?;
        if trail.is_closed() {
            return Ok(());
        }
    }
    Ok(())
}

// Whether a channel is used, and not among these.
fn is_free(at: &Judgement, seen: &[u32], y: u32) -> bool
    ensures { result ≡ (is_some (used_type at.now y) && is_new seen.now y) }
{
    match at.used_type(y) {
        Some(_) => !is_among(seen, y),
        None => false,
    }
}

// The channels have the declared types at the arguments. What is asked behind it may ask for sameness. Answers how many references are taken.
fn ask_arguments(
    alloc: Global,
    at: &Judgement,
    number: u8,
    uses: &[Ty],
    args: &[Lin],
    ys: &[u32],
    refs: &[Ref],
    followed: bool,
    trail: &mut Trail,
) -> Result<usize, AllocError>
    ensures asks { IfOk result (λ served. (more : Askings) → asks_sameness more ≡ followed → and_then trail.new (deal at.now.ctx.vars (drop served refs.now) more) ≡ and_then trail.old (deal at.now.ctx.vars refs.now (map (arg_asked at.now number args.now) (zip ys.now uses.now) ++ more))) }
    ensures few { IfOk result (λ served. served ≤ length refs.now) }
{
    let mut served = 0;
    let count = ys.len().min(uses.len());
    for i in 0..count {
        if trail.is_closed() {
            return Ok(served);
        }
        let last = is_last(followed, i, count);
        let (y, ty) = (ys[i], &uses[i]);
        served = ask_argument(alloc, at, number, y, ty, args, refs, served, last, trail)?;
    }
    Ok(served)
}

// Whether no sameness is asked behind this place.
fn is_last(followed: bool, i: usize, count: usize) -> bool
    requires { i < count }
    ensures { result ≡ (not followed && nat_eq (i + 1) count) }
{
    if followed { false } else { i + 1 == count }
}

// The channel has the declared type at the arguments, served by the references from `served` on: by all of them, where it is the last that asks
// for sameness. Answers how many are taken then.
fn ask_argument(
    alloc: Global,
    at: &Judgement,
    number: u8,
    y: u32,
    ty: &Ty,
    args: &[Lin],
    refs: &[Ref],
    served: usize,
    last: bool,
    trail: &mut Trail,
) -> Result<usize, AllocError>
    requires { served ≤ length refs.now }
    ensures asks { IfOk result (λ taken. (more : Askings) → not (asks_sameness more) ≡ last → and_then trail.new (deal at.now.ctx.vars (drop taken refs.now) more) ≡ and_then trail.old (deal at.now.ctx.vars (drop served refs.now) (arg_asked at.now number args.now (y, ty.now) ∷ more))) }
    ensures few { IfOk result (λ taken. taken ≤ length refs.now) }
{
    let made = put_within(alloc, at.ctx.vars, ty, args)?;
    match made {
        Ok(wanted) => {
            let taken = ask_wanted(alloc, at, number, y, wanted, refs, served, last, trail)?;
            Ok(taken)
        }
        Err(stop) => {
            trail.ask(number, Premise::Passed { stop })?;
            Ok(served)
        }
    }
}

// The same where the declared type at the arguments was made.
fn ask_wanted(
    alloc: Global,
    at: &Judgement,
    number: u8,
    y: u32,
    wanted: Ty,
    refs: &[Ref],
    served: usize,
    last: bool,
    trail: &mut Trail,
) -> Result<usize, AllocError>
    requires { served ≤ length refs.now }
    ensures asks { IfOk result (λ taken. (more : Askings) (b : Ty) → made_type at.now.ctx.vars b ≡ Ok wanted → not (asks_sameness more) ≡ last → and_then trail.new (deal at.now.ctx.vars (drop taken refs.now) more) ≡ and_then trail.old (deal at.now.ctx.vars (drop served refs.now) ((number, Alike (or_one (used_type at.now y)) b (failure (made_type at.now.ctx.vars b))) ∷ more))) }
    ensures few { IfOk result (λ taken. taken ≤ length refs.now) }
{
    match copy_or_end(alloc, at.used_type(y)) {
        Ok(a) => {
            let share = share(&a, &wanted, at.ctx.vars, refs.len() - served, last);
            let given = &refs[served..served + share];
            ask_same(alloc, number, a, wanted, given, trail)?;
            Ok(served + share)
        }
        Err(error) => {
            drop(wanted);
            Err(error)
        }
    }
}

// Two types have to be the same by these references.
fn ask_same(
    alloc: Global,
    number: u8,
    a: Ty,
    b: Ty,
    refs: &[Ref],
    trail: &mut Trail,
) -> Result<(), AllocError>
    ensures { OnOk result (trail.new ≡ and_then trail.old ((number, Premise.Same a b refs.now) ∷ [])) }
{
    match copy_refs(alloc, refs) {
        Ok(refs) => trail.ask(number, Premise::Same { a, b, refs }),
        Err(error) => {
            drop(a);
            drop(b);
            Err(error)
        }
    }
}

// How many of so many references a sameness takes.
fn share(a: &Ty, b: &Ty, vars: u8, room: usize, last: bool) -> usize
    ensures { result ≡ (if last then room else min room (count (meets a.now b.now (top vars [])))) }
{
    if last {
        room
    } else {
        names_met(a, b, vars, room)
    }
}

// The callee's provided type at the arguments is the one that is due.
fn ask_result(
    alloc: Global,
    at: &Judgement,
    gives: &Ty,
    args: &[Lin],
    refs: &[Ref],
    served: usize,
    trail: &mut Trail,
) -> Result<(), AllocError>
    requires { served ≤ length refs.now }
    ensures { OnOk result (let b = at_args at.now args.now gives.now in trail.new ≡ and_then trail.old (deal at.now.ctx.vars (drop served refs.now) ((5, Alike b at.now.gives.1 (failure (made_type at.now.ctx.vars b))) ∷ []))) }
{
    let made = put_within(alloc, at.ctx.vars, gives, args)?;
    match made {
        Ok(given) => match at.gives.1.copy(alloc) {
            Ok(b) => ask_same(alloc, 5, given, b, &refs[served..], trail),
            Err(error) => {
                drop(given);
                Err(error)
            }
        },
        Err(stop) => trail.ask(5, Premise::Passed { stop }),
    }
}
