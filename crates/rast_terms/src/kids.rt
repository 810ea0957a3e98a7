// The children of a node.
ghost use Rattle.std.specs.Prelude.{◌≡◌, ◌<◌, Some, length, slice_get};
ghost use Rattle.rast_terms.specs.Nodes as nodes;

use crate::node::Node;

// The children where they stand in their node.
#[derive(Clone, Copy)]
enum Kids<'a> {
    Nothing,
    One(u32),
    Branches(&'a [(u32, u32)]),
}

impl Node {
    /// How many children the node has.
    pub fn kid_count(&self) -> usize
        ensures { result ≡ length (nodes.kids self.now) }
    {
        match self.found() {
            Kids::Nothing => 0,
            Kids::One(_) => 1,
            Kids::Branches(branches) => branches.len(),
        }
    }

    /// The node that is the child with this index; the first has index 0.
    pub fn kid(&self, index: usize) -> u32
        requires { index < length (nodes.kids self.now) }
        ensures { slice_get (nodes.kids self.now) index ≡ Some result }
    {
        match self.found() {
            Kids::Nothing => unreachable!(),
            Kids::One(kid) => kid,
            Kids::Branches(branches) => branches[index].1,
        }
    }

    fn found(&self) -> Kids<'_>
        ensures { nodes.listed result ≡ nodes.kids self.now }
    {
        match self {
            Node::Case { branches, .. } => Kids::Branches(branches.as_slice()),
            Node::Label { next, .. } | Node::Send { next, .. } => Kids::One(*next),
            Node::Recv { next, .. } | Node::Index { next, .. } => Kids::One(*next),
            Node::Bind { next, .. } | Node::Assert { next, .. } => Kids::One(*next),
            Node::Assume { next, .. } | Node::Pay { next, .. } => Kids::One(*next),
            Node::Get { next, .. } | Node::Wait { next, .. } => Kids::One(*next),
            Node::Spawn { next, .. } | Node::Work { next, .. } => Kids::One(*next),
            Node::Delay { next, .. } => Kids::One(*next),
            Node::Close { .. } | Node::Forward { .. } => Kids::Nothing,
            Node::Call { .. } | Node::Impossible => Kids::Nothing,
        }
    }
}
