// The names and the line of a refusal, worked out by hand.
use crate::small::program;
use rast_check::CheckErr;
use rast_lines::{line, names_at};
use rast_rules::Evidence;
use rast_terms::{Node, put_decl, put_def, put_name};
use sqlite_items::Items;
use std::test::Fail;

#[test]
fn a_refusal_has_its_line(rt: HostRuntime) -> Result<(), Fail> {
    let alloc = rt.alloc();
    let program = program(alloc, Node::Close { x: 0 }, Items::new(alloc))?;
    let refusal = CheckErr::Refused {
        node: 0,
        premise: 4,
        evidence: Evidence::Linear { channel: 0 },
    };
    let text = line(alloc, &program, &refusal)?;
    assert_eq!(rt;
        text.as_slice(),
        b"refused: x node 0 close premise 4: linear x\n".as_slice()
    );
    Ok(())
}

#[test]
fn a_channel_has_its_name(rt: HostRuntime) -> Result<(), Fail> {
    let alloc = rt.alloc();
    let program = program(alloc, Node::Close { x: 0 }, Items::new(alloc))?;
    let names = names_at(alloc, &program, 0)?;
    assert_eq!(rt; names.channels.len(), 1);
    assert!(rt; names.vars.is_empty());
    for name in names.channels.as_slice() {
        assert_eq!(rt; name.as_bytes(), b"x".as_slice());
    }
    Ok(())
}

#[test]
fn numbers_stand_for_names(rt: HostRuntime) -> Result<(), Fail> {
    let alloc = rt.alloc();
    let program = program(alloc, Node::Close { x: 0 }, Items::new(alloc))?;
    let mut text = Vec::new(alloc);
    put_name(&mut text, &program, 0)?;
    put_name(&mut text, &program, 1)?;
    put_decl(&mut text, &program, 0)?;
    put_def(&mut text, &program, 0)?;
    assert_eq!(rt; text.as_slice(), b"xx".as_slice());
    Ok(())
}
