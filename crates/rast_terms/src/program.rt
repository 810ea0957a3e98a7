// A program.
use crate::node::Node;
use rast_ast::Name;
use rast_index::Lin;
use rast_types::{Equation, Ty, TypeTable};
use sqlite_items::Items;

/// A declaration with its body.
#[derive(Drop)]
pub struct Decl {
    /// The number of its name.
    pub name: u32,
    /// How many index parameters it has.
    pub params: u8,
    /// The types of the used channels, numbered from 1.
    pub uses: Items<Ty>,
    /// The potential that its caller hands over.
    pub potential: Lin,
    /// The type of the provided channel, which is channel 0.
    pub gives: Ty,
    /// The node of its body.
    pub body: u32,
}

/// Names that serve printing alone, as numbers of the program's names.
#[derive(Drop)]
pub struct Said {
    /// For each type definition the names of its parameters, and then of its body's quantifiers in preorder.
    pub types: Items<Items<u32>>,
    /// For each declaration the names of its parameters, and then of the quantifiers of its types, the used types first.
    pub decls: Items<Items<u32>>,
    /// For each declaration the names of its channels from 0 on.
    pub channels: Items<Items<u32>>,
}

/// A program. Nodes are numbered from 0 in preorder, declaration by declaration.
#[derive(Drop)]
pub struct Program {
    /// The names, each once.
    pub names: Items<Name>,
    /// The type definitions.
    pub types: TypeTable,
    /// The declarations.
    pub decls: Items<Decl>,
    /// The equations, numbered from 1.
    pub equations: Items<Equation>,
    /// The nodes of all bodies.
    pub nodes: Items<Node>,
    /// The declaration that is run.
    pub main: Option<u32>,
    /// Names for printing.
    pub said: Said,
}
