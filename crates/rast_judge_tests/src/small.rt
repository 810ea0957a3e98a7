// A program of one declaration, which is main: `decl x : . |- (x : 1)`, with one node.
use rast_ast::Name;
use rast_index::Lin;
use rast_terms::{Decl, Node, Program, Said};
use rast_types::{Equation, Ty, TypeTable};
use sqlite_items::Items;
use std::alloc::{AllocError, Global};

// It provides an end.
fn decl(alloc: Global) -> Decl {
    Decl {
        name: 0,
        params: 0,
        uses: Items::new(alloc),
        potential: Lin::nought(),
        gives: Ty::One,
        body: 0,
    }
}

fn names(alloc: Global) -> Result<Items<Name>, AllocError> {
    let mut names = Items::new(alloc);
    names.push(Name::new(alloc, b"x")?)?;
    Ok(names)
}

// The declaration's one channel has the one name.
fn said(alloc: Global) -> Result<Said, AllocError> {
    let mut channel = Items::new(alloc);
    channel.push(0)?;
    let mut channels = Items::new(alloc);
    channels.push(channel)?;
    let mut decls = Items::new(alloc);
    decls.push(Items::new(alloc))?;
    Ok(Said {
        types: Items::new(alloc),
        decls,
        channels,
    })
}

// One declaration with this body, and equations.
pub(crate) fn program(
    alloc: Global,
    body: Node,
    equations: Items<Equation>,
) -> Result<Program, AllocError> {
    let mut decls = Items::new(alloc);
    decls.push(decl(alloc))?;
    let mut nodes = Items::new(alloc);
    nodes.push(body)?;
    Ok(Program {
        names: names(alloc)?,
        types: TypeTable {
            defs: Items::new(alloc),
        },
        decls,
        equations,
        nodes,
        main: Some(0),
        said: said(alloc)?,
    })
}
