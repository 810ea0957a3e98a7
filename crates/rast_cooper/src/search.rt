// The search from the first state on.
ghost use Rattle.std.specs.Prelude.{◌≡◌, ◌<◌, ◌≤◌, ◌+◌, ◌++◌, ◌∷◌, [], true, false, length, map, List, IfOk, OnOk, vec_len};
ghost use Rattle.std.specs.List.{list_all, range_with_len};
ghost use Rattle.rast_cooper.specs.declared.literal.Literal.{Literal};
ghost use Rattle.rast_cooper.specs.Claims.{Whole, node_of};
ghost use Rattle.rast_cooper.specs.Course.{continued};
ghost use Rattle.rast_cooper.specs.Frames.{Adds, IsStack, Stands, chained, member_states, waiting};
ghost use Rattle.rast_cooper.specs.Search.{all_in_bounds, step_states, apart, own, row, run, first};
ghost use Rattle.rast_cooper.specs.Stack.{claim_value, members_value, wholes};
ghost use Rattle.rast_cooper.specs.Verdicts.{is_within};

use crate::claim::{Claim, Members, Node, expand};
use crate::explore::{Course, explore};
use crate::literal::{Literal, Sort};
use crate::term::Term;
use rast_index::Formula;
use std::alloc::{AllocError, Global};

/// A claim, and the place of those that follow it: one more than the index of the next, or 0.
#[derive(Clone, Copy)]
pub struct Pending<'a> {
    /// The claim.
    pub claim: Claim<'a>,
    /// The place of those that follow it.
    pub rest: usize,
}

/// The states of the members of a disjunction that were not visited yet.
#[derive(Clone, Copy)]
pub struct Frame {
    /// The place of the members.
    pub members: usize,
    /// The place of the claims that are pending besides.
    pub pending: usize,
    /// How many of the literals these states have.
    pub literals: usize,
    /// How many claims were kept when the frame was made.
    pub claims: usize,
}

/// The states that are still to be visited.
#[derive(Drop)]
pub struct Stack<'a> {
    /// All claims that these states have.
    pub claims: Vec<Pending<'a>>,
    /// The literals of the present state, with which those of each other state begin.
    pub literals: Vec<Literal>,
    /// The frames, the newest last.
    pub frames: Vec<Frame>,
}

/// Keeps a claim, before those at a place, and gives its place.
fn add<'a>(
    claims: &mut Vec<Pending<'a>>,
    claim: Claim<'a>,
    rest: usize,
) -> Result<usize, AllocError>
    requires { rest ≤ vec_len claims.old }
    ensures { IfOk result (Adds claims.old.items claims.new.items (claim_value claim.entry ∷ []) rest) }
{
    claims.push(Pending { claim, rest })?;
    Ok(claims.len())
}

/// Keeps a claim on each of the formulas, before those at a place, and gives the place of the first.
fn add_each<'a>(
    claims: &mut Vec<Pending<'a>>,
    fs: &'a [Formula],
    wanted: bool,
    rest: usize,
) -> Result<usize, AllocError>
    requires { rest ≤ vec_len claims.old }
    ensures { IfOk result (Adds claims.old.items claims.new.items (wholes wanted fs.entry.now) rest) }
{
    let mut top = rest;
    let mut i = fs.len();
    while i > 0 {
        i -= 1;
        top = add(claims, Claim::Whole(&fs[i], wanted), top)?;
    }
    Ok(top)
}

/// Keeps claims, before those at a place, and gives the place of the first.
fn add_all<'a>(
    claims: &mut Vec<Pending<'a>>,
    members: Members<'a>,
    rest: usize,
) -> Result<usize, AllocError>
    requires { rest ≤ vec_len claims.old }
    ensures { IfOk result (Adds claims.old.items claims.new.items (members_value members.entry) rest) }
{
    match members {
        Members::Each(fs, wanted) => add_each(claims, fs, wanted, rest),
        Members::Two(first, second) => {
            let top = add(claims, second, rest)?;
            add(claims, first, top)
        }
    }
}

/// Goes on to the next state of the frames, and gives the place of its pending claims.
fn take_next<'a>(stack: &mut Stack<'a>) -> Result<Option<usize>, AllocError>
    requires { IsStack stack.old }
    ensures { IfOk result (Stands (λ rows. waiting rows stack.old) stack.new) }
{
    while let Some(frame) = stack.frames.pop() {
        stack.literals.truncate(frame.literals);
        stack.claims.truncate(frame.claims);
        if frame.members == 0 {
            continue;
        }
        let member = stack.claims[frame.members - 1];
        stack.frames.push(Frame {
            members: member.rest,
            pending: frame.pending,
            literals: frame.literals,
            claims: frame.claims,
        })?;
        let place = add(&mut stack.claims, member.claim, frame.pending)?;
        return Ok(Some(place));
    }
    Ok(None)
}

/// Adds a frame of the present state with each of the members before the claims at a place.
fn add_frame<'a>(stack: &mut Stack<'a>, members: Members<'a>, rest: usize) -> Result<(), AllocError>
    requires stack { IsStack stack.old }
    requires place { rest ≤ vec_len stack.old.claims }
    ensures stack { OnOk result (IsStack stack.new) }
    ensures states { OnOk result ((rows : List Literal) → waiting rows stack.new ≡ member_states (members_value members.entry) (chained stack.old.claims.items rest) stack.old.literals.items rows ++ waiting rows stack.old) }
{
    let top = add_all(&mut stack.claims, members, 0)?;
    stack.frames.push(Frame {
        members: top,
        pending: rest,
        literals: stack.literals.len(),
        claims: stack.claims.len(),
    })?;
    Ok(())
}

/// Takes a claim of the present state apart, and gives the place of the claims of the next state.
fn advance<'a>(
    stack: &mut Stack<'a>,
    claim: Claim<'a>,
    rest: usize,
) -> Result<Option<usize>, AllocError>
    requires stack { IsStack stack.old }
    requires place { rest ≤ vec_len stack.old.claims }
    ensures { IfOk result (Stands (λ rows. step_states (apart (node_of (claim_value claim.entry)) (chained stack.old.claims.items rest) stack.old.literals.items rows) ++ waiting rows stack.old) stack.new) }
{
    match expand(claim) {
        Node::Always => Ok(Some(rest)),
        Node::Never => take_next(stack),
        Node::Atom(lit) => {
            stack.literals.push(lit)?;
            Ok(Some(rest))
        }
        Node::Every(members) => {
            let place = add_all(&mut stack.claims, members, rest)?;
            Ok(Some(place))
        }
        Node::SomeOf(members) => {
            add_frame(stack, members, rest)?;
            take_next(stack)
        }
    }
}

/// The demands that the first variables are at least 0.
fn own(alloc: Global, vars: u8) -> Result<Vec<Literal>, AllocError>
    requires { vars ≤ 16 }
    ensures made { IfOk result (λ v. v.items ≡ map own (range_with_len 0 vars)) }
    ensures bounded { IfOk result (λ v. all_in_bounds v.items ≡ true) }
{
    let mut out = Vec::new(alloc);
    for x in 0..vars as usize {
        out.push(Literal::at_least(Term::variable(x)))?;
    }
    Ok(out)
}

/// The first variables' rows: each variable over 1.
fn rows(alloc: Global, vars: u8) -> Result<Vec<Literal>, AllocError>
    requires { vars ≤ 16 }
    ensures made { IfOk result (λ v. v.items ≡ map row (range_with_len 0 vars)) }
    ensures bounded { IfOk result (λ v. all_in_bounds v.items ≡ true) }
{
    let mut out = Vec::new(alloc);
    for x in 0..vars as usize {
        out.push(Literal {
            sort: Sort::Multiple,
            divisor: 1,
            term: Term::variable(x),
        })?;
    }
    Ok(out)
}

/// The claims that the premises are true and the goal is false.
fn begin<'a>(
    claims: &mut Vec<Pending<'a>>,
    premises: &'a [Formula],
    goal: &'a Formula,
) -> Result<usize, AllocError>
    ensures { IfOk result (Adds claims.old.items claims.new.items (wholes true premises.entry.now ++ Whole goal.entry.now false ∷ []) 0) }
{
    let last = add(claims, Claim::Whole(goal, false), 0)?;
    add_each(claims, premises, true, last)
}

/// Searches for naturals at which the premises are true and the goal is false, in at most `most` states.
pub fn search(
    alloc: Global,
    vars: u8,
    premises: &[Formula],
    goal: &Formula,
    most: u32,
) -> Result<Course, AllocError>
    requires few { vars ≤ 16 }
    requires premises { list_all (is_within vars) premises.now ≡ true }
    requires goal { is_within vars goal.now ≡ true }
    ensures { IfOk result (λ c. run most (first vars premises.now goal.now ∷ []) ≡ continued c []) }
{
    let rows = rows(alloc, vars)?;
    let mut stack = Stack {
        claims: Vec::new(alloc),
        literals: own(alloc, vars)?,
        frames: Vec::new(alloc),
    };
    let mut place = Some(begin(&mut stack.claims, premises, goal)?);
    let mut left = most;
    while let Some(at) = place {
        if at == 0 {
            match explore(alloc, &stack.literals, &rows, left)? {
                Course::Done(rest) => left = rest,
                end => return Ok(end),
            }
            place = take_next(&mut stack)?;
        } else {
            if left == 0 {
                return Ok(Course::TooMany);
            }
            left -= 1;
            let present = stack.claims[at - 1];
            place = advance(&mut stack, present.claim, present.rest)?;
        }
    }
    Ok(Course::Done(left))
}
