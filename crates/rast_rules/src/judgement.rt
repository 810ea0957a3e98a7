// What is known where a node stands, and what a run reads of it.
use rast_index::Lin;
use rast_types::{Ctx, Ty};
use sqlite_items::Items;

/// What is known where a node stands.
#[derive(Drop)]
pub struct Judgement {
    /// The declaration in whose body it stands.
    pub decl: u32,
    /// Index variables and premises.
    pub ctx: Ctx,
    /// The used channels with their types, in the order of their numbers.
    pub uses: Items<(u32, Ty)>,
    /// The potential.
    pub potential: Lin,
    /// The provided channel with its type.
    pub gives: (u32, Ty),
    /// The number that the next bound channel gets.
    pub fresh: u32,
}

/// What a run reads of the judgements: one entry for each node.
#[derive(Drop)]
pub struct Plan {
    /// At a forward, whether the head of its used channel is one at which the provider sends.
    pub positive: Items<bool>,
    /// At a pay, the potential that is paid; the constant 0 elsewhere.
    pub paid: Items<Lin>,
}
