// Whole checks of small programs, with answers worked out by hand.
use crate::small::program;
use rast_check::{CheckErr, check, is_formed};
use rast_index::Formula;
use rast_terms::{Node, Program};
use rast_types::{Equation, Ty};
use sqlite_items::Items;
use std::alloc::{AllocError, Global};
use std::test::Fail;

// An end equals this type.
fn equations(alloc: Global, right: Ty) -> Result<Items<Equation>, AllocError> {
    let mut equations = Items::new(alloc);
    equations.push(Equation {
        vars: 0,
        premise: Formula::True,
        left: Ty::One,
        right,
        refs: Items::new(alloc),
    })?;
    Ok(equations)
}

// Whether a program is formed and accepted.
fn accepts(alloc: Global, program: Program) -> Result<bool, AllocError> {
    if !is_formed(alloc, &program)? {
        drop(program);
        return Ok(false);
    }
    Ok(check(alloc, program).is_ok())
}

// The node or equation of a formed program that is refused, with the premise.
fn refused(alloc: Global, program: Program) -> Result<Option<(u32, u8)>, AllocError> {
    if !is_formed(alloc, &program)? {
        drop(program);
        return Ok(None);
    }
    match check(alloc, program) {
        Ok(_) => Ok(None),
        Err((_program, why)) => Ok(place(&why)),
    }
}

fn place(why: &CheckErr) -> Option<(u32, u8)> {
    match why {
        CheckErr::Refused { node, premise, .. } => Some((*node, *premise)),
        CheckErr::BadEquation { why } => Some((why.number, why.premise)),
        _ => None,
    }
}

#[test]
fn accepts_an_end_and_an_equation(rt: HostRuntime) -> Result<(), Fail> {
    let alloc = rt.alloc();
    let program = program(alloc, Node::Close { x: 0 }, equations(alloc, Ty::One)?)?;
    assert!(rt; accepts(alloc, program)?);
    Ok(())
}

#[test]
fn names_the_false_premise(rt: HostRuntime) -> Result<(), Fail> {
    let alloc = rt.alloc();
    let program = program(alloc, Node::Impossible, Items::new(alloc))?;
    assert_eq!(rt; refused(alloc, program)?, Some((0, 1)));
    Ok(())
}

#[test]
fn names_the_false_equation(rt: HostRuntime) -> Result<(), Fail> {
    let alloc = rt.alloc();
    let wrong = equations(alloc, Ty::Plus(Items::new(alloc)))?;
    let program = program(alloc, Node::Close { x: 0 }, wrong)?;
    assert_eq!(rt; refused(alloc, program)?, Some((1, 4)));
    Ok(())
}
