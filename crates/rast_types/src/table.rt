// Definitions of types, and the scope in which a type stands.
use crate::ty::Ty;
use rast_index::Formula;
use sqlite_items::Items;

/// A definition of a type.
#[derive(Drop)]
pub struct TypeDef {
    /// The number of its name.
    pub name: u32,
    /// How many index parameters it has; they are the variables 0, 1, .. of its body.
    pub params: u8,
    /// What the name stands for.
    pub body: Ty,
}

/// The definitions of a program, numbered from 0.
#[derive(Drop)]
pub struct TypeTable {
    /// The definitions.
    pub defs: Items<TypeDef>,
}

/// Index variables, and what is known of them.
#[derive(Drop)]
pub struct Ctx {
    /// How many variables are in scope.
    pub vars: u8,
    /// Formulas that are taken as true.
    pub premises: Items<Formula>,
}
