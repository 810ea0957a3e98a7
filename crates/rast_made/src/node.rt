// Nodes that are well made in the scope in which they stand.
ghost use Rattle.std.specs.Prelude.{◌≡◌, ◌&&◌, IfOk, length, map, slice_get};
ghost use Rattle.std.specs.List.{list_all};
ghost use Rattle.rast_index.specs.Linear.{is_closed};
ghost use Rattle.rast_equal.specs.WellMadeTypes.{are_labels};
ghost use Rattle.rast_made.specs.Made as made;

use crate::labels::are_labels;
use crate::scope::Scope;
use crate::tables::is_name;
use rast_index::Lin;
use rast_terms::{Decl, Node, Program};
use std::alloc::{AllocError, Global};

/// Whether a node's numbers are in range, and only variables and channels in scope occur in it.
pub(crate) fn is_made_node(
    alloc: Global,
    program: &Program,
    scope: Scope,
    node: &Node,
) -> Result<bool, AllocError>
    ensures { IfOk result (λ t. t ≡ made.is_made_node program.now scope node.now) }
{
    match node {
        Node::Label { x, label, .. } => Ok(is_channel(scope, *x) && is_name(program, *label)),
        Node::Case { x, branches } => is_case(alloc, program, scope, *x, branches.as_slice()),
        Node::Send { x, w, .. } => Ok(is_channel(scope, *x) && is_channel(scope, *w)),
        Node::Recv { x, name, .. } => Ok(is_channel(scope, *x) && is_name(program, *name)),
        Node::Index { x, value, .. } => Ok(is_channel(scope, *x) && is_term(scope, value)),
        Node::Bind { x, name, .. } => Ok(is_channel(scope, *x) && is_name(program, *name)),
        Node::Assert { x, .. } => Ok(is_channel(scope, *x)),
        Node::Assume { x, .. } => Ok(is_channel(scope, *x)),
        Node::Pay { x, .. } => Ok(is_channel(scope, *x)),
        Node::Get { x, .. } => Ok(is_channel(scope, *x)),
        Node::Close { x } => Ok(is_channel(scope, *x)),
        Node::Wait { x, .. } => Ok(is_channel(scope, *x)),
        Node::Forward { x, y, .. } => Ok(is_channel(scope, *x) && is_channel(scope, *y)),
        Node::Spawn {
            name,
            decl,
            args,
            ys,
            ..
        } => Ok(
            is_name(program, *name)
                && is_made_call(program, scope, *decl, args.as_slice(), ys.as_slice()),
        ),
        Node::Call {
            x,
            decl,
            args,
            ys,
            ..
        } => Ok(
            is_channel(scope, *x)
                && is_made_call(program, scope, *decl, args.as_slice(), ys.as_slice()),
        ),
        Node::Impossible => Ok(true),
        Node::Work { amount, .. } => Ok(is_term(scope, amount)),
        Node::Delay { ticks, .. } => Ok(is_term(scope, ticks)),
    }
}

fn is_case(
    alloc: Global,
    program: &Program,
    scope: Scope,
    x: u32,
    branches: &[(u32, u32)],
) -> Result<bool, AllocError>
    ensures { IfOk result (λ t. t ≡ (made.is_channel scope x && are_labels (length program.now.names) (map (λ b. b.0) branches.now))) }
{
    if !is_channel(scope, x) {
        return Ok(false);
    }
    are_labels(alloc, program.names.len(), branches)
}

// A declaration's number, with as many terms and channels in scope as it has parameters and used channels.
fn is_made_call(program: &Program, scope: Scope, decl: u32, args: &[Lin], ys: &[u32]) -> bool
    ensures { result ≡ made.is_made_call (slice_get program.now.decls decl) scope args.now ys.now }
{
    match program.decls.get(decl as usize) {
        Some(decl) => {
            are_as_many(decl, args, ys) && are_terms(scope, args) && are_channels(scope, ys)
        }
        None => false,
    }
}

fn are_as_many(decl: &Decl, args: &[Lin], ys: &[u32]) -> bool
    ensures { result ≡ made.are_as_many decl.now args.now ys.now }
{
    if args.len() != decl.params as usize {
        return false;
    }
    ys.len() == decl.uses.len()
}

fn are_terms(scope: Scope, args: &[Lin]) -> bool
    ensures { result ≡ list_all (is_closed scope.vars) args.now }
{
    for term in args {
        if !is_term(scope, term) {
            return false;
        }
    }
    true
}

fn are_channels(scope: Scope, ys: &[u32]) -> bool
    ensures { result ≡ list_all (made.is_channel scope) ys.now }
{
    for y in ys {
        if !is_channel(scope, *y) {
            return false;
        }
    }
    true
}

fn is_channel(scope: Scope, x: u32) -> bool
    ensures { result ≡ made.is_channel scope x }
{
    (x as u128) < scope.channels
}

// Whether only variables in scope occur in the term, which has none from the number 16 on.
fn is_term(scope: Scope, term: &Lin) -> bool
    ensures { result ≡ is_closed scope.vars term.now }
{
    if scope.vars < 16 {
        rast_equal::is_closed(term, scope.vars as u8)
    } else {
        rast_equal::is_closed(term, 16)
    }
}
