// The nodes below a declaration, checked.
ghost use Rattle.std.specs.Prelude.{◌≡◌, ◌<◌, ◌++◌, Ok, Some, All, OnOk, length, slice_get, reverse, map, zip};
ghost use Rattle.rast_equal.specs.Fit.{IsFitEquation};
ghost use Rattle.rast_terms.specs.Nodes as nodes;
ghost use Rattle.rast_terms.specs.declared.node.Node.{Node};
ghost use Rattle.rast_check.specs.Questions.{IsForward};
ghost use Rattle.rast_check.specs.Refusals.{Asked};
ghost use Rattle.rast_check.specs.Walk.{IsPlaced, Visits, waiting_questions, waits};

use crate::answer::CheckErr;
use crate::node::check_premises;
use rast_memo::Memo;
use rast_rules::{Judgement, children, premises};
use rast_terms::{Node, Program};
use rast_types::Stop;
use sqlite_items::Items;
use std::alloc::{AllocError, Global};

/// A node that is still to be checked.
#[derive(Drop)]
pub(crate) struct Waiting {
    /// The node, by its number.
    pub node: u32,
    /// How many nodes stand above it.
    pub depth: usize,
    /// Its judgement, or the limit that it would pass.
    pub judgement: Result<Judgement, Stop>,
}

/// Checks a node of a declaration and then those below it, in preorder.
pub(crate) fn check_below(
    alloc: Global,
    memo: &mut Memo,
    program: &Program,
    first: Waiting,
) -> Result<(), CheckErr>
    requires equations { All IsFitEquation program.now.equations }
    requires forward { IsForward program.now }
    requires placed { IsPlaced program.now first }
    ensures { Asked program.now (waiting_questions program.now first) result }
{
    let mut stack = Items::new(alloc);
    stack.push(first)?;
    while let Some(waiting) = stack.pop() {
        visit(alloc, memo, program, waiting, &mut stack)?;
    }
    Ok(())
}

fn visit(
    alloc: Global,
    memo: &mut Memo,
    program: &Program,
    waiting: Waiting,
    stack: &mut Items<Waiting>,
) -> Result<(), CheckErr>
    requires equations { All IsFitEquation program.now.equations }
    requires forward { IsForward program.now }
    requires placed { IsPlaced program.now waiting }
    requires others { All (IsPlaced program.now) stack.old }
    ensures { Visits program.now waiting stack.old stack.new result }
{
    let Waiting {
        node,
        depth,
        judgement,
    } = waiting;
    match judgement {
        Ok(at) => visit_node(alloc, memo, program, node, depth, &at, stack),
        Err(stop) => Err(CheckErr::Limit { node, stop }),
    }
}

fn visit_node(
    alloc: Global,
    memo: &mut Memo,
    program: &Program,
    node: u32,
    depth: usize,
    at: &Judgement,
    stack: &mut Items<Waiting>,
) -> Result<(), CheckErr>
    requires equations { All IsFitEquation program.now.equations }
    requires forward { IsForward program.now }
    requires placed { IsPlaced program.now (waits depth (node, Ok at.now)) }
    requires others { All (IsPlaced program.now) stack.old }
    ensures { Visits program.now (waits depth (node, Ok at.now)) stack.old stack.new result }
{
    let found = premises(alloc, program, at, node)?;
    check_premises(alloc, memo, program, node, at, found.as_slice())?;
    let below = children(alloc, program, at, node)?;
    push_below(program, node, below, depth + 1, stack)?;
    Ok(())
}

// The children of a node with their judgements.
fn push_below(
    program: &Program,
    node: u32,
    below: Items<Result<Judgement, Stop>>,
    depth: usize,
    stack: &mut Items<Waiting>,
) -> Result<(), AllocError>
    requires there { node < length program.now.nodes }
    requires same { (n : Node) → slice_get program.now.nodes node ≡ Some n → length (nodes.kids n) ≡ length below }
    ensures { (n : Node) → slice_get program.now.nodes node ≡ Some n → OnOk result (stack.new ≡ stack.old ++ reverse (map (waits depth) (zip (nodes.kids n) below))) }
{
    match program.nodes.get(node as usize) {
        Some(parent) => push_all(parent, below, depth, stack),
        None => {
            drop(below);
            Err(AllocError)
        }
    }
}

// The children of a node with their judgements, of which the first is to come first.
fn push_all(
    parent: &Node,
    below: Items<Result<Judgement, Stop>>,
    depth: usize,
    stack: &mut Items<Waiting>,
) -> Result<(), AllocError>
    requires { length (nodes.kids parent.now) ≡ length below }
    ensures { OnOk result (stack.new ≡ stack.old ++ reverse (map (waits depth) (zip (nodes.kids parent.now) below))) }
{
    let mut below = below;
    while let Some(judgement) = below.pop() {
        stack.push(Waiting {
            node: parent.kid(below.len()),
            depth,
            judgement,
        })?;
    }
    Ok(())
}
