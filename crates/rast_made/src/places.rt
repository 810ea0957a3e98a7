// The place of each node, and the scope in which it stands there.
ghost use Rattle.std.specs.Prelude.{◌≡◌, ◌<◌, ◌≤◌, ◌+◌, ◌^◌, slice_get, Some, IfOk, IsTrue};
ghost use Rattle.rast_terms.specs.Nodes as nodes;
ghost use Rattle.rast_made.specs.Made as made;
ghost use Rattle.rast_made.specs.WellMade.{bound_channels, bound_variables};

use crate::node::is_made_node;
use crate::scope::Scope;
use rast_terms::{Decl, Node, Program};
use sqlite_items::Items;
use std::alloc::{AllocError, Global};

/// Whether each node has one place, as the body of a declaration or as a child of a node before it, and is well made
/// in the scope of this place.
pub(crate) fn are_made_nodes(alloc: Global, program: &Program) -> Result<bool, AllocError>
    ensures { IfOk result (λ t. t ≡ made.are_made_nodes program.now) }
{
    let mut places = no_places(alloc, program.nodes.as_slice())?;
    if !place_bodies(program.decls.as_slice(), &mut places) {
        return Ok(false);
    }
    visit_all(alloc, program, program.nodes.as_slice(), &mut places)
}

fn no_places(alloc: Global, nodes: &[Node]) -> Result<Items<Option<Scope>>, AllocError>
    ensures { IfOk result (λ s. s ≡ made.no_places nodes.now) }
{
    let mut places = Items::new(alloc);
    for _node in nodes {
        places.push(None)?;
    }
    Ok(places)
}

fn place_bodies(decls: &[Decl], places: &mut Items<Option<Scope>>) -> bool
    requires { made.AreFew 0 places.old }
    ensures few { IsTrue result → made.AreFew 0 places.new }
    ensures puts { made.Puts result places.new (made.all_placed (λ d. d.body) made.scope_of places.old decls.now) }
{
    for decl in decls {
        if !place(decl.body, scope_of(decl), places) {
            return false;
        }
    }
    true
}

fn scope_of(decl: &Decl) -> Scope
    ensures is { result ≡ made.scope_of decl.now }
    ensures vars { result.vars ≤ 2 ^ 8 }
    ensures channels { result.channels ≤ 2 ^ 64 }
{
    Scope {
        vars: decl.params as u128,
        channels: decl.uses.len() as u128 + 1,
    }
}

// Visits all nodes, from the first on.
fn visit_all(
    alloc: Global,
    program: &Program,
    nodes: &[Node],
    places: &mut Items<Option<Scope>>,
) -> Result<bool, AllocError>
    requires { made.AreFew 0 places.old }
    ensures { IfOk result (λ t. made.Puts t places.new (made.all_visited program.now places.old 0 nodes.now)) }
{
    for i in 0..nodes.len() {
        let node = &nodes[i];
        match place_of(i, places) {
            None => return Ok(false),
            Some(scope) => {
                if !visit(alloc, program, scope, node, places)? {
                    return Ok(false);
                }
            }
        }
    }
    Ok(true)
}

// Where a node was met.
fn place_of(node: usize, places: &Items<Option<Scope>>) -> Option<Scope>
    ensures { result ≡ made.found (slice_get places.now node) }
{
    match places.get(node) {
        Some(place) => *place,
        None => None,
    }
}

// Tests a node in the scope of its place, and places its children.
fn visit(
    alloc: Global,
    program: &Program,
    scope: Scope,
    node: &Node,
    places: &mut Items<Option<Scope>>,
) -> Result<bool, AllocError>
    requires vars { scope.vars < 2 ^ 127 }
    requires channels { scope.channels < 2 ^ 127 }
    ensures { IfOk result (λ t. made.Puts t places.new (made.visited program.now places.old (Some scope) node.now)) }
{
    if !is_made_node(alloc, program, scope, node)? {
        return Ok(false);
    }
    Ok(place_kids(node, below(scope, node), places))
}

// The scope of a node's children.
fn below(scope: Scope, node: &Node) -> Scope
    requires vars { scope.vars < 2 ^ 127 }
    requires channels { scope.channels < 2 ^ 127 }
    ensures { result ≡ made.below scope node.now }
{
    Scope {
        vars: scope.vars + bound_variables(node),
        channels: scope.channels + bound_channels(node),
    }
}

fn bound_variables(node: &Node) -> u128
    ensures is { result ≡ bound_variables node.now }
    ensures few { result < 2 }
{
    match node {
        Node::Bind { .. } => 1,
        _ => 0,
    }
}

fn bound_channels(node: &Node) -> u128
    ensures is { result ≡ bound_channels node.now }
    ensures few { result < 2 }
{
    match node {
        Node::Recv { .. } => 1,
        Node::Spawn { .. } => 1,
        _ => 0,
    }
}

fn place_kids(node: &Node, scope: Scope, places: &mut Items<Option<Scope>>) -> bool
    ensures { made.Puts result places.new (made.all_placed (λ m. m) (λ m. scope) places.old (nodes.kids node.now)) }
{
    for index in 0..node.kid_count() {
        if !place(node.kid(index), scope, places) {
            return false;
        }
    }
    true
}

// Gives a node that has no place this scope.
fn place(node: u32, scope: Scope, places: &mut Items<Option<Scope>>) -> bool
    ensures { made.Puts result places.new (made.placed places.old scope node) }
{
    if !is_open(node, places) {
        return false;
    }
    places.set(node as usize, Some(scope));
    true
}

fn is_open(node: u32, places: &Items<Option<Scope>>) -> bool
    ensures { result ≡ made.is_open (slice_get places.now node) }
{
    match places.get(node as usize) {
        Some(place) => place.is_none(),
        None => false,
    }
}
