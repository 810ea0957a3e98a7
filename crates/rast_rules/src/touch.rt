// Which channel a node touches.
ghost use Rattle.std.specs.Prelude.{◌≡◌, MatchOption, None, Some, if◌then◌else◌};
ghost use Rattle.rast_terms.specs.Nodes.{touches};

use rast_terms::Node;
use rast_types::Kind;

/// The channel that a node touches, and the head that it needs where the channel is provided and where it is used.
#[derive(Clone, Copy)]
pub(crate) struct Touch {
    pub(crate) x: u32,
    pub(crate) provided: Option<Kind>,
    pub(crate) used: Option<Kind>,
}

impl Touch {
    fn both(x: u32, provided: Kind, used: Kind) -> Option<Touch>
        ensures { result ≡ Some (record { x = x; provided = Some provided; used = Some used }) }
    {
        Some(Touch {
            x,
            provided: Some(provided),
            used: Some(used),
        })
    }

    /// The head that it needs, where its channel is provided and where it is used.
    pub(crate) fn wanted(&self, provided: bool) -> Option<Kind>
        ensures { result ≡ (if provided then self.now.provided else self.now.used) }
    {
        if provided { self.provided } else { self.used }
    }

    /// What the node touches; nothing where it is a forward, a spawn, a call, an end that is impossible, work or a delay.
    pub(crate) fn of(node: &Node) -> Option<Touch>
        ensures { MatchOption result (touches node.now ≡ None) (λ t. touches node.now ≡ Some (record { x = t.x; provided = t.provided; used = t.used })) }
    {
        match node {
            Node::Label { x, .. } => Touch::both(*x, Kind::Plus, Kind::With),
            Node::Case { x, .. } => Touch::both(*x, Kind::With, Kind::Plus),
            Node::Send { x, .. } => Touch::both(*x, Kind::Tensor, Kind::Lolli),
            Node::Recv { x, .. } => Touch::both(*x, Kind::Lolli, Kind::Tensor),
            Node::Index { x, .. } => Touch::both(*x, Kind::Ex, Kind::All),
            Node::Bind { x, .. } => Touch::both(*x, Kind::All, Kind::Ex),
            Node::Assert { x, .. } => Touch::both(*x, Kind::Assert, Kind::Assume),
            Node::Assume { x, .. } => Touch::both(*x, Kind::Assume, Kind::Assert),
            Node::Pay { x, .. } => Touch::both(*x, Kind::Pays, Kind::Gets),
            Node::Get { x, .. } => Touch::both(*x, Kind::Gets, Kind::Pays),
            Node::Close { x } => Some(Touch {
                x: *x,
                provided: Some(Kind::One),
                used: None,
            }),
            Node::Wait { x, .. } => Some(Touch {
                x: *x,
                provided: None,
                used: Some(Kind::One),
            }),
            Node::Forward { .. } | Node::Spawn { .. } | Node::Call { .. } => None,
            Node::Impossible | Node::Work { .. } | Node::Delay { .. } => None,
        }
    }
}
