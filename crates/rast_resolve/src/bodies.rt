// The nodes of bodies, in the order of their declarations.
ghost use Rattle.std.specs.Prelude.{◌≡◌, [], replicate, flat_map, IfOk};
ghost use Rattle.rast_resolve.specs.Names.{put_at};

use rast_terms::Node;
use sqlite_items::Items;
use std::alloc::{AllocError, Global};
use std::marker::Model;

/// For each declaration the nodes of its body.
#[derive(Drop)]
pub(crate) struct Bodies {
    bodies: Vec<Items<Node>>,
}

impl Model for Bodies {
    ghost use Rattle.std.specs.Prelude.{List};
    ghost use Rattle.rast_terms.specs.declared.node.Node.{Node};

    ghost Value = { List (List Node) };

    ghost view = { λ b. b.bodies.items };
}

impl Bodies {
    // So many bodies without nodes.
    pub fn empty(alloc: Global, count: usize) -> Result<Bodies, AllocError>
        ensures { IfOk result (λ bodies. bodies ≡ replicate count []) }
    {
        let mut bodies = Vec::new(alloc);
        for _turn in 0..count {
            bodies.push(Items::new(alloc))?;
        }
        Ok(Bodies { bodies })
    }

    // Puts a body at its place, if there is such a place.
    pub fn put(&mut self, place: Option<usize>, nodes: Items<Node>)
        ensures { self.new ≡ put_at self.old place nodes }
    {
        let Some(place) = place else {
            return;
        };
        if place < self.bodies.len() {
            self.bodies[place] = nodes;
        }
    }

    // The nodes of all bodies, one after another.
    pub fn into_nodes(self, alloc: Global) -> Result<Items<Node>, AllocError>
        ensures { IfOk result (λ nodes. nodes ≡ flat_map (λ b. b) self) }
    {
        let Bodies { bodies } = self;
        let mut nodes = Items::new(alloc);
        for body in bodies {
            nodes.append(body)?;
        }
        Ok(nodes)
    }
}
