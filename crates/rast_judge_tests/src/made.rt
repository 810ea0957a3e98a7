// A tiny program that is well made, and one that isn't.
use crate::small::program;
use rast_made::well_made;
use rast_terms::Node;
use sqlite_items::Items;
use std::test::Fail;

#[test]
fn knows_a_well_made_program(rt: HostRuntime) -> Result<(), Fail> {
    let alloc = rt.alloc();
    let program = program(alloc, Node::Close { x: 0 }, Items::new(alloc))?;
    assert!(rt; well_made(alloc, &program)?);
    Ok(())
}

#[test]
fn knows_a_channel_out_of_scope(rt: HostRuntime) -> Result<(), Fail> {
    let alloc = rt.alloc();
    let program = program(alloc, Node::Close { x: 1 }, Items::new(alloc))?;
    assert!(rt; !well_made(alloc, &program)?);
    Ok(())
}
