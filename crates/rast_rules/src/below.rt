// The judgements of a node's children.
ghost use Rattle.std.specs.Prelude.{◌≡◌, ◌∷◌, [], ◌++◌, ◌<◌, map, length, slice_get, Some, Err, false, true, Bool, MatchOption, IfOk, ℕ, List, ◌≤◌, ◌+◌, min};
ghost use Rattle.rast_types.specs.declared.stop.Stop.TheVariants as limit;
ghost use Rattle.rast_terms.specs.declared.program.Decl.{Decl};
ghost use Rattle.rast_index.specs.Keys.{find_key};
ghost use Rattle.rast_index.specs.Linear.{Linear, is_small, replaced, less, plus, variables};
ghost use Rattle.rast_types.specs.Symbolic.{made_exposed, made_type, exposed_type, put_type};
ghost use Rattle.rast_types.specs.declared.stop.Stop.{Stop};
ghost use Rattle.rast_types.specs.declared.ty.Ty.{Ty};
ghost use Rattle.rast_types.specs.declared.ty.Ty.TheVariants as type;
ghost use Rattle.rast_terms.specs.declared.node.Node.{Node};
ghost use Rattle.rast_rules.specs.declared.judgement.Judgement.{Judgement};
ghost use Rattle.rast_rules.specs.Draft.{drafted};
ghost use Rattle.rast_rules.specs.Making.{made_term};
ghost use Rattle.rast_rules.specs.Rules.{defs, type_of, or_one, head_at, child_at, children, premises, limited, with_type, without, with_channel, with_potential, with_premise, with_variable, choices_of, first_of_pair, second_of_pair, inner_of, formula_of, amount_of, spawned, delayed};
ghost use Rattle.rast_rules.specs.Trail.{any_stops};

use crate::child_types::{draft_in_scope, draft_with_type, one_more, with_use};
use crate::draft::{Draft, finish};
use crate::head::{
    amount_of, at_label, choices_of, first_of_pair, formula_of, inner_of, second_of_pair,
};
use crate::judgement::Judgement;
use crate::late::delay;
use crate::making::{copy_within, expose_within, put_term, put_within};
use crate::touch::Touch;
use rast_ergo::{gains, spends};
use rast_index::{Formula, Lin};
use rast_terms::{Decl, Node, Program};
use rast_types::{Stop, Ty, TypeTable};
use sqlite_items::Items;
use std::alloc::{AllocError, Global};

/// The judgements of a node's children, in order: each is made, or it is the first limit that it would pass, of 16 variables, of
/// 16 channels, of numbers below 2^32. `at` is the node's judgement; no premise of the node stops.
pub fn children(
    alloc: Global,
    program: &Program,
    at: &Judgement,
    node: u32,
) -> Result<Items<Result<Judgement, Stop>>, AllocError>
    requires there { node < length program.now.nodes }
    requires sound { (n : Node) → slice_get program.now.nodes node ≡ Some n → any_stops (premises program.now at.now n) ≡ false }
    ensures { (n : Node) → slice_get program.now.nodes node ≡ Some n → IfOk result (λ cs. cs ≡ children program.now at.now n) }
{
    match program.nodes.get(node as usize) {
        Some(found) => children_of(alloc, program, at, found),
        None => Err(AllocError),
    }
}

fn children_of(
    alloc: Global,
    program: &Program,
    at: &Judgement,
    node: &Node,
) -> Result<Items<Result<Judgement, Stop>>, AllocError>
    requires { any_stops (premises program.now at.now node.now) ≡ false }
    ensures { IfOk result (λ cs. cs ≡ children program.now at.now node.now) }
{
    match Touch::of(node) {
        Some(touch) => {
            let head = head_at(alloc, program, at, touch.x)?;
            let children = children_under(alloc, program, at, node, &head);
            drop(head);
            children
        }
        None => children_under(alloc, program, at, node, &Ty::One),
    }
}

/// The head of a channel's type, which can be made.
pub(crate) fn head_at(
    alloc: Global,
    program: &Program,
    at: &Judgement,
    x: u32,
) -> Result<Ty, AllocError>
    requires { (s : Stop) → made_exposed (defs program.now) at.now.ctx.vars (or_one (type_of at.now x)) ≡ Err s → ⊥ }
    ensures { IfOk result (λ h. h ≡ head_at program.now at.now x) }
{
    match at.type_of(x) {
        Some(ty) => exposed_head(alloc, &program.types, at.ctx.vars, ty),
        None => exposed_head(alloc, &program.types, at.ctx.vars, &Ty::One),
    }
}

fn exposed_head(alloc: Global, table: &TypeTable, vars: u8, ty: &Ty) -> Result<Ty, AllocError>
    requires { (s : Stop) → made_exposed table.now.defs vars ty.now ≡ Err s → ⊥ }
    ensures { IfOk result (λ h. h ≡ (exposed_type table.now.defs vars ty.now).body) }
{
    let made = expose_within(alloc, table, vars, ty)?;
    match made {
        Ok(exposed) => Ok(exposed.head),
        Err(_) => unreachable!(),
    }
}

// The children, where `head` is the head of the channel that the node touches.
fn children_under(
    alloc: Global,
    program: &Program,
    at: &Judgement,
    node: &Node,
    head: &Ty,
) -> Result<Items<Result<Judgement, Stop>>, AllocError>
    requires { any_stops (premises program.now at.now node.now) ≡ false }
    ensures { IfOk result (λ cs. cs ≡ map limited (child_at program.now at.now node.now (λ x. head.now))) }
{
    match node {
        Node::Label { x, label, .. } => below_label(alloc, at, *x, *label, choices_of(head)),
        Node::Case { x, branches } => {
            below_case(alloc, at, *x, branches.as_slice(), choices_of(head))
        }
        Node::Send { x, w, .. } => below_send(alloc, at, *x, *w, head),
        Node::Recv { x, .. } => below_recv(alloc, at, *x, head),
        Node::Index { x, value, .. } => below_index(alloc, at, *x, value, head),
        Node::Bind { x, .. } => below_bind(alloc, at, *x, head),
        Node::Assert { x, .. } => below_assert(alloc, at, *x, head),
        Node::Assume { x, .. } => below_assume(alloc, at, *x, head),
        Node::Pay { x, .. } => below_pay(alloc, at, *x, head),
        Node::Get { x, .. } => below_get(alloc, at, *x, head),
        Node::Wait { x, .. } => below_wait(alloc, at, *x),
        Node::Spawn { decl, args, ys, .. } => below_spawn(
            alloc,
            program,
            at,
            *decl,
            args.as_slice(),
            ys.as_slice(),
        ),
        Node::Work { amount, .. } => below_work(alloc, at, amount),
        Node::Delay { ticks, .. } => delay(alloc, program, at, ticks),
        Node::Close { .. } | Node::Forward { .. } => Ok(Items::new(alloc)),
        Node::Call { .. } | Node::Impossible => Ok(Items::new(alloc)),
    }
}

/// The only child.
pub(crate) fn single_child(
    alloc: Global,
    at: &Judgement,
    draft: Draft,
    more: &[Formula],
) -> Result<Items<Result<Judgement, Stop>>, AllocError>
    ensures { (j : Judgement) → draft ≡ drafted j → j.decl ≡ at.now.decl → j.ctx.premises ≡ (at.now.ctx.premises ++ more.now) → IfOk result (λ cs. cs ≡ limited j ∷ []) }
{
    let child = finish(alloc, at.decl, draft, at.ctx.premises.as_slice(), more)?;
    let mut out = Items::new(alloc);
    out.push(child)?;
    Ok(out)
}

// The type again in the scope; the end where there is none.
fn part_within(alloc: Global, vars: u8, part: Option<&Ty>) -> Result<Result<Ty, Stop>, AllocError>
    ensures { (a : Ty) → MatchOption part.entry (a ≡ type.One) (λ b. a ≡ b.now) → IfOk result (λ m. m ≡ made_type vars a) }
{
    match part {
        Some(ty) => copy_within(alloc, vars, ty),
        None => copy_within(alloc, vars, &Ty::One),
    }
}

// Some used channels go, and one channel goes on at another type.
fn with_part(
    alloc: Global,
    at: &Judgement,
    gone: &[u32],
    x: u32,
    part: Option<&Ty>,
) -> Result<Draft, AllocError>
    ensures { (a : Ty) → MatchOption part.entry (a ≡ type.One) (λ b. a ≡ b.now) → IfOk result (λ d. d ≡ drafted (with_type (without at.now gone.now) x a)) }
{
    let part = part_within(alloc, at.ctx.vars, part)?;
    draft_with_type(alloc, at, at.ctx.vars, None, gone, x, part)
}

fn below_label(
    alloc: Global,
    at: &Judgement,
    x: u32,
    label: u32,
    choices: &[(u32, Ty)],
) -> Result<Items<Result<Judgement, Stop>>, AllocError>
    ensures { IfOk result (λ cs. cs ≡ limited (with_type at.now x (or_one (find_key label choices.now))) ∷ []) }
{
    let draft = with_part(alloc, at, &[], x, at_label(choices, label))?;
    single_child(alloc, at, draft, &[])
}

// A branch's child.
fn branch(
    alloc: Global,
    at: &Judgement,
    x: u32,
    label: u32,
    choices: &[(u32, Ty)],
) -> Result<Result<Judgement, Stop>, AllocError>
    ensures { IfOk result (λ c. c ≡ limited (with_type at.now x (or_one (find_key label choices.now)))) }
{
    let draft = with_part(alloc, at, &[], x, at_label(choices, label))?;
    finish(alloc, at.decl, draft, at.ctx.premises.as_slice(), &[])
}

fn below_case(
    alloc: Global,
    at: &Judgement,
    x: u32,
    branches: &[(u32, u32)],
    choices: &[(u32, Ty)],
) -> Result<Items<Result<Judgement, Stop>>, AllocError>
    ensures { IfOk result (λ cs. cs ≡ map limited (map (λ b. with_type at.now x (or_one (find_key b.0 choices.now))) branches.now)) }
{
    let mut out = Items::new(alloc);
    for (label, _) in branches {
        out.push(branch(alloc, at, x, *label, choices)?)?;
    }
    Ok(out)
}

fn below_send(
    alloc: Global,
    at: &Judgement,
    x: u32,
    w: u32,
    head: &Ty,
) -> Result<Items<Result<Judgement, Stop>>, AllocError>
    ensures { IfOk result (λ cs. cs ≡ limited (with_type (without at.now (w ∷ [])) x (second_of_pair head.now)) ∷ []) }
{
    let draft = with_part(alloc, at, &[w], x, second_of_pair(head))?;
    single_child(alloc, at, draft, &[])
}

// One more used channel, at the next free number.
fn with_channel(
    alloc: Global,
    at: &Judgement,
    draft: Draft,
    made: Result<Ty, Stop>,
) -> Result<Draft, AllocError>
    requires { draft.fresh ≡ at.now.fresh }
    ensures { (j : Judgement) (a : Ty) → draft ≡ drafted j → made ≡ made_type j.ctx.vars a → IfOk result (λ d. d ≡ drafted (with_channel j a)) }
{
    let Draft {
        vars,
        uses,
        count,
        potential,
        provided,
        gives,
        fresh: _,
    } = draft;
    match with_use(uses, at.fresh, made) {
        Ok(uses) => Ok(Draft {
            vars,
            uses,
            count: one_more(count),
            potential,
            provided,
            gives,
            fresh: at.fresh as usize + 1,
        }),
        Err(error) => {
            drop(gives);
            Err(error)
        }
    }
}

fn below_recv(
    alloc: Global,
    at: &Judgement,
    x: u32,
    head: &Ty,
) -> Result<Items<Result<Judgement, Stop>>, AllocError>
    ensures { IfOk result (λ cs. cs ≡ limited (with_channel (with_type at.now x (second_of_pair head.now)) (first_of_pair head.now)) ∷ []) }
{
    let draft = with_part(alloc, at, &[], x, second_of_pair(head))?;
    match part_within(alloc, at.ctx.vars, first_of_pair(head)) {
        Ok(first) => {
            let wider = with_channel(alloc, at, draft, first)?;
            single_child(alloc, at, wider, &[])
        }
        Err(error) => {
            drop(draft);
            Err(error)
        }
    }
}

// The variables in scope.
fn variables(alloc: Global, count: u8) -> Result<Items<Lin>, AllocError>
    requires { count ≤ 16 }
    ensures { IfOk result (λ ls. ls ≡ variables count) }
{
    let mut out = Items::new(alloc);
    for number in 0..count {
        out.push(Lin::variable(number as usize))?;
    }
    Ok(out)
}

fn below_index(
    alloc: Global,
    at: &Judgement,
    x: u32,
    value: &Lin,
    head: &Ty,
) -> Result<Items<Result<Judgement, Stop>>, AllocError>
    ensures { IfOk result (λ cs. cs ≡ limited (with_type at.now x (put_type at.now.ctx.vars (variables at.now.ctx.vars ++ value.now ∷ []) (inner_of head.now))) ∷ []) }
{
    if at.ctx.vars > 16 {
        return too_many(alloc);
    }
    let mut terms = variables(alloc, at.ctx.vars)?;
    terms.push(value.again())?;
    let children = below_terms(alloc, at, x, inner_of(head), terms.as_slice());
    drop(terms);
    children
}

// One channel goes on at a type in which terms stand for its variables.
fn below_terms(
    alloc: Global,
    at: &Judgement,
    x: u32,
    part: Option<&Ty>,
    terms: &[Lin],
) -> Result<Items<Result<Judgement, Stop>>, AllocError>
    ensures { (a : Ty) → MatchOption part.entry (a ≡ type.One) (λ b. a ≡ b.now) → IfOk result (λ cs. cs ≡ limited (with_type at.now x (put_type at.now.ctx.vars terms.now a)) ∷ []) }
{
    let part = put_part(alloc, at.ctx.vars, part, terms)?;
    let draft = draft_with_type(alloc, at, at.ctx.vars, None, &[], x, part)?;
    single_child(alloc, at, draft, &[])
}

// A child with too many variables.
fn too_many(alloc: Global) -> Result<Items<Result<Judgement, Stop>>, AllocError>
    ensures { IfOk result (λ cs. cs ≡ Err limit.Variables ∷ []) }
{
    let mut out = Items::new(alloc);
    out.push(Err(Stop::Variables))?;
    Ok(out)
}

fn put_part(
    alloc: Global,
    vars: u8,
    part: Option<&Ty>,
    terms: &[Lin],
) -> Result<Result<Ty, Stop>, AllocError>
    ensures { (a : Ty) → MatchOption part.entry (a ≡ type.One) (λ b. a ≡ b.now) → IfOk result (λ m. m ≡ made_type vars (put_type vars terms.now a)) }
{
    match part {
        Some(ty) => put_within(alloc, vars, ty, terms),
        None => put_within(alloc, vars, &Ty::One, terms),
    }
}

// One more variable: the bound ones of all types are numbered anew.
fn below_bind(
    alloc: Global,
    at: &Judgement,
    x: u32,
    head: &Ty,
) -> Result<Items<Result<Judgement, Stop>>, AllocError>
    ensures { IfOk result (λ cs. cs ≡ limited (with_type (with_variable at.now) x (inner_of head.now)) ∷ []) }
{
    if at.ctx.vars >= 16 {
        return too_many(alloc);
    }
    let terms = variables(alloc, at.ctx.vars)?;
    let children = below_wider(alloc, at, x, inner_of(head), terms.as_slice());
    drop(terms);
    children
}

// One channel goes on at a type in a scope of one more variable, where these terms are the variables before it.
fn below_wider(
    alloc: Global,
    at: &Judgement,
    x: u32,
    part: Option<&Ty>,
    terms: &[Lin],
) -> Result<Items<Result<Judgement, Stop>>, AllocError>
    requires { at.now.ctx.vars < 16 }
    ensures { (a : Ty) → terms.now ≡ variables at.now.ctx.vars → MatchOption part.entry (a ≡ type.One) (λ b. a ≡ b.now) → IfOk result (λ cs. cs ≡ limited (with_type (with_variable at.now) x a) ∷ []) }
{
    let vars = at.ctx.vars + 1;
    let part = part_within(alloc, vars, part)?;
    let draft = draft_with_type(alloc, at, vars, Some(terms), &[], x, part)?;
    single_child(alloc, at, draft, &[])
}

fn below_assert(
    alloc: Global,
    at: &Judgement,
    x: u32,
    head: &Ty,
) -> Result<Items<Result<Judgement, Stop>>, AllocError>
    ensures { IfOk result (λ cs. cs ≡ limited (with_type at.now x (inner_of head.now)) ∷ []) }
{
    let draft = with_part(alloc, at, &[], x, inner_of(head))?;
    single_child(alloc, at, draft, &[])
}

fn below_assume(
    alloc: Global,
    at: &Judgement,
    x: u32,
    head: &Ty,
) -> Result<Items<Result<Judgement, Stop>>, AllocError>
    ensures { IfOk result (λ cs. cs ≡ limited (with_premise (with_type at.now x (inner_of head.now)) (formula_of head.now)) ∷ []) }
{
    let draft = with_part(alloc, at, &[], x, inner_of(head))?;
    match formula_of(alloc, head) {
        Ok(formula) => {
            let more = [formula];
            let children = single_child(alloc, at, draft, &more);
            drop(more);
            children
        }
        Err(error) => {
            drop(draft);
            Err(error)
        }
    }
}

// The same draft with another potential.
fn with_potential(draft: Draft, potential: Result<Lin, Stop>) -> Draft
    ensures { (j : Judgement) (q : Linear) → draft ≡ drafted j → potential ≡ made_term q → result ≡ drafted (with_potential j q) }
{
    let mut draft = draft;
    draft.potential = potential;
    draft
}

// What is left of a potential when another is spent, or the limit that it passes. That there is enough is a premise.
fn rest(have: &Lin, want: &Lin) -> Result<Lin, Stop>
    ensures { result ≡ made_term (less have.now want.now) }
{
    match spends(have, want) {
        Ok((enough, rest)) => {
            drop(enough);
            Ok(rest)
        }
        Err(_) => Err(Stop::Coefficient),
    }
}

// A potential after a gain, or the limit that it passes.
fn gained(have: &Lin, more: &Lin) -> Result<Lin, Stop>
    ensures { result ≡ made_term (plus have.now more.now) }
{
    match gains(have, more) {
        Ok(sum) => Ok(sum),
        Err(_) => Err(Stop::Coefficient),
    }
}

fn below_pay(
    alloc: Global,
    at: &Judgement,
    x: u32,
    head: &Ty,
) -> Result<Items<Result<Judgement, Stop>>, AllocError>
    ensures { IfOk result (λ cs. cs ≡ limited (with_potential (with_type at.now x (inner_of head.now)) (less at.now.potential (amount_of head.now))) ∷ []) }
{
    let draft = with_part(alloc, at, &[], x, inner_of(head))?;
    let draft = with_potential(draft, rest(&at.potential, &amount_of(head)));
    single_child(alloc, at, draft, &[])
}

fn below_get(
    alloc: Global,
    at: &Judgement,
    x: u32,
    head: &Ty,
) -> Result<Items<Result<Judgement, Stop>>, AllocError>
    ensures { IfOk result (λ cs. cs ≡ limited (with_potential (with_type at.now x (inner_of head.now)) (plus at.now.potential (amount_of head.now))) ∷ []) }
{
    let draft = with_part(alloc, at, &[], x, inner_of(head))?;
    let draft = with_potential(draft, gained(&at.potential, &amount_of(head)));
    single_child(alloc, at, draft, &[])
}

fn below_wait(
    alloc: Global,
    at: &Judgement,
    x: u32,
) -> Result<Items<Result<Judgement, Stop>>, AllocError>
    ensures { IfOk result (λ cs. cs ≡ limited (without at.now (x ∷ [])) ∷ []) }
{
    let draft = draft_in_scope(alloc, at, at.ctx.vars, None, &[x])?;
    single_child(alloc, at, draft, &[])
}

fn below_work(
    alloc: Global,
    at: &Judgement,
    amount: &Lin,
) -> Result<Items<Result<Judgement, Stop>>, AllocError>
    ensures { IfOk result (λ cs. cs ≡ limited (with_potential at.now (less at.now.potential amount.now)) ∷ []) }
{
    let draft = draft_in_scope(alloc, at, at.ctx.vars, None, &[])?;
    let draft = with_potential(draft, rest(&at.potential, amount));
    single_child(alloc, at, draft, &[])
}

fn below_spawn(
    alloc: Global,
    program: &Program,
    at: &Judgement,
    decl: u32,
    args: &[Lin],
    ys: &[u32],
) -> Result<Items<Result<Judgement, Stop>>, AllocError>
    requires { (d : Decl) → slice_get program.now.decls decl ≡ Some d → is_small (replaced args.now d.potential) ≡ true }
    ensures { IfOk result (λ cs. cs ≡ limited (spawned at.now args.now ys.now (slice_get program.now.decls decl)) ∷ []) }
{
    match program.decls.get(decl as usize) {
        Some(callee) => spawned(alloc, at, callee, args, ys),
        None => {
            let draft = draft_in_scope(alloc, at, at.ctx.vars, None, &[])?;
            single_child(alloc, at, draft, &[])
        }
    }
}

fn spawned(
    alloc: Global,
    at: &Judgement,
    callee: &Decl,
    args: &[Lin],
    ys: &[u32],
) -> Result<Items<Result<Judgement, Stop>>, AllocError>
    requires { is_small (replaced args.now callee.now.potential) ≡ true }
    ensures { IfOk result (λ cs. cs ≡ limited (spawned at.now args.now ys.now (Some callee.now)) ∷ []) }
{
    let draft = draft_in_scope(alloc, at, at.ctx.vars, None, ys)?;
    let draft = with_potential(
        draft,
        handed(&at.potential, put_term(&callee.potential, args)),
    );
    match put_within(alloc, at.ctx.vars, &callee.gives, args) {
        Ok(made) => {
            let wider = with_channel(alloc, at, draft, made)?;
            single_child(alloc, at, wider, &[])
        }
        Err(error) => {
            drop(draft);
            Err(error)
        }
    }
}

// What is left of a potential when another, which is small, is handed over.
fn handed(potential: &Lin, other: Result<Lin, Stop>) -> Result<Lin, Stop>
    ensures { (l : Linear) → other ≡ made_term l → is_small l ≡ true → result ≡ made_term (less potential.now l) }
{
    match other {
        Ok(other) => rest(potential, &other),
        Err(stop) => Err(stop),
    }
}
