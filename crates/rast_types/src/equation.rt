// Equations between types, and references to them.
use crate::ty::Ty;
use rast_index::{Formula, Lin};
use sqlite_items::Items;

/// Why two types of which one is a name are the same.
#[derive(Drop)]
pub enum Ref {
    /// Both are the same name with equal arguments.
    Refl,
    /// They are an instance of this equation, numbered from 1, at these arguments.
    Eq(u32, Items<Lin>),
}

/// An equation: under its variables and its premise both sides are equal.
#[derive(Drop)]
pub struct Equation {
    /// How many variables it has.
    pub vars: u8,
    /// What it presumes of them.
    pub premise: Formula,
    /// The left side.
    pub left: Ty,
    /// The right side.
    pub right: Ty,
    /// References for its parts, in the order in which they are met.
    pub refs: Items<Ref>,
}
