// Premises of nodes, and evidence against them.
use rast_equal::SameErr;
use rast_index::Formula;
use rast_types::{Kind, Ref, Stop, Ty};
use sqlite_items::Items;

/// What shows that a premise is false.
#[derive(Drop)]
pub enum Evidence {
    /// It is false at these values of so many variables.
    Fails { vars: u8, values: [u128; 16] },
    /// Another head was found.
    Head { found: Kind },
    /// This channel stands where it can't, or not where it must.
    Linear { channel: u32 },
    /// This label is missing.
    Label { label: u32 },
    /// The types aren't found the same.
    Types { why: SameErr },
}

/// One premise of a node, under the node's judgement.
#[derive(Drop)]
pub enum Premise {
    /// The formula follows from the judgement's premises.
    Truth { goal: Formula },
    /// A test of shape, with what shows that it fails where it does.
    Shape { ok: bool, why: Evidence },
    /// Two types are the same by these references.
    Same { a: Ty, b: Ty, refs: Items<Ref> },
    /// A part can't be made within the limits.
    Passed { stop: Stop },
}

impl Premise {
    ghost use Rattle.std.specs.Prelude.{◌≡◌};
    ghost use Rattle.rast_rules.specs.Rules.{stops};

    /// Whether no premise is looked at behind it: a test of shape that fails, or a part that can't be made.
    pub(crate) fn stops(&self) -> bool
        ensures { result ≡ stops self.now }
    {
        match self {
            Premise::Truth { .. } | Premise::Same { .. } => false,
            Premise::Shape { ok, .. } => !*ok,
            Premise::Passed { .. } => true,
        }
    }
}
