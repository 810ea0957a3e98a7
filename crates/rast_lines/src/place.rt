// Where a node stands.
ghost use Rattle.std.specs.Prelude.{◌≡◌, ℕ, IfOk, List, reverse, slice_get};
ghost use Rattle.rast_lines.specs.Places as places;
ghost use Rattle.rast_rules.specs.Plan.{IsForest, IsBody};

use rast_terms::{Decl, Node, Program};
use sqlite_items::Items;
use std::alloc::{AllocError, Global};

/// The nodes above a node, from the body of its declaration on, where children have greater numbers than their parent.
pub(crate) fn nodes_above(
    alloc: Global,
    program: &Program,
    node: u32,
) -> Result<Items<u32>, AllocError>
    ensures { IfOk result (λ ns. ns ≡ places.nodes_above program.now node) }
{
    let mut above = Items::new(alloc);
    let mut child = node;
    let mut number = node;
    while number > 0 {
        number -= 1;
        if is_below(program, child, number) {
            above.push(number)?;
            child = number;
        }
    }
    reversed(alloc, above)
}

fn reversed(alloc: Global, numbers: Items<u32>) -> Result<Items<u32>, AllocError>
    ensures { IfOk result (λ ns. ns ≡ reverse numbers) }
{
    let mut numbers = numbers;
    let mut turned = Items::new(alloc);
    while let Some(number) = numbers.pop() {
        turned.push(number)?;
    }
    Ok(turned)
}

/// The number of the declaration in which a node stands; `above` has the nodes above it.
///
/// Where each node has one place, it is the declaration from whose body a way leads down to the node, and the nodes above
/// are those on that way.
pub(crate) fn decl_of(program: &Program, node: u32, above: &[u32]) -> usize
    requires { above.now ≡ places.nodes_above program.now node }
    ensures value { result ≡ places.decl_of program.now node }
    ensures placed { (k m : ℕ) (path : List ℕ) → IsForest program.now → IsBody program.now k m → places.IsPath program.now m path node → (result ≡ k) × (above.now ≡ path) }
{
    let body = match above.first() {
        Some(body) => *body,
        None => node,
    };
    first_with(program.decls.as_slice(), body)
}

// The number of the first declaration that has this body.
fn first_with(decls: &[Decl], body: u32) -> usize
    ensures { result ≡ places.decl_from 0 decls.now body }
{
    for (number, decl) in decls.iter().enumerate() {
        if decl.body == body {
            return number;
        }
    }
    0
}

// Whether a node is a child of the one with this number.
fn is_below(program: &Program, node: u32, number: u32) -> bool
    ensures { result ≡ places.is_below node (slice_get program.now.nodes number) }
{
    match program.nodes.get(number as usize) {
        Some(parent) => is_child(node, parent),
        None => false,
    }
}

fn is_child(node: u32, parent: &Node) -> bool
    ensures { result ≡ places.is_child node parent.now }
{
    for index in 0..parent.kid_count() {
        if parent.kid(index) == node {
            return true;
        }
    }
    false
}
