// The premises of a node.
ghost use Rattle.std.specs.Prelude.{◌≡◌, ◌<◌, length, slice_get, Some, OnOk, IfOk};
ghost use Rattle.rast_terms.specs.Nodes.{refs_of};
ghost use Rattle.rast_terms.specs.declared.node.Node.{Node};
ghost use Rattle.rast_rules.specs.Rules.{asked, deal, premises};
ghost use Rattle.rast_rules.specs.Trail.{and_then};

use crate::judgement::Judgement;
use crate::others::ask_other;
use crate::premise::Premise;
use crate::touch::Touch;
use crate::touching::ask_touching;
use crate::trail::Trail;
use rast_terms::{Node, Program};
use sqlite_items::Items;
use std::alloc::{AllocError, Global};

/// The premises of a node under its judgement, each with its number, in order, up to and with the first test of shape that
/// fails or the first part that can't be made within the limits. `at` is the node's judgement.
pub fn premises(
    alloc: Global,
    program: &Program,
    at: &Judgement,
    node: u32,
) -> Result<Items<(u8, Premise)>, AllocError>
    requires { node < length program.now.nodes }
    ensures { (n : Node) → slice_get program.now.nodes node ≡ Some n → IfOk result (λ ps. ps ≡ premises program.now at.now n) }
{
    let Some(found) = program.nodes.get(node as usize) else {
        return Err(AllocError);
    };
    let mut trail = Trail::new(alloc);
    ask(alloc, program, at, found, &mut trail)?;
    Ok(trail.into_found())
}

// All that is asked of a node.
fn ask(
    alloc: Global,
    program: &Program,
    at: &Judgement,
    node: &Node,
    trail: &mut Trail,
) -> Result<(), AllocError>
    ensures { OnOk result (trail.new ≡ and_then trail.old (deal at.now.ctx.vars (refs_of node.now) (asked program.now at.now node.now))) }
{
    match Touch::of(node) {
        Some(touch) => ask_touching(alloc, program, at, node, touch, trail),
        None => ask_other(alloc, program, at, node, trail),
    }
}
