// Each public call on one small program, with answers worked out by hand.
ghost use Rattle.std.specs.Prelude.{◌≡◌, ◌<◌, length, IfOk, not};
ghost use Rattle.rast_rules.specs.Rules.{stops};
ghost use Rattle.rast_rules.specs.Trail.{any_stops};

use rast_index::Lin;
use rast_rules::{Judgement, Premise, children, premises, start};
use rast_terms::{Decl, Node, Program, Said};
use rast_types::{Ty, TypeTable};
use sqlite_items::{Boxed, Items};
use std::alloc::{AllocError, Global};
use std::test::Fail;

fn constant(number: u16) -> Lin {
    Lin {
        constant: number as i64,
        coefficient: [0; 16],
    }
}

// It has the potential 3, and pays 2 before it ends.
fn decl(alloc: Global) -> Result<Decl, AllocError> {
    Ok(Decl {
        name: 0,
        params: 0,
        uses: Items::new(alloc),
        potential: constant(3),
        gives: Ty::Pays(constant(2), Boxed::new(alloc, Ty::One)?),
        body: 0,
    })
}

// `pay x ; close x`
fn nodes(alloc: Global) -> Result<Items<Node>, AllocError>
    ensures { IfOk result (λ ns. length ns ≡ 2) }
{
    let mut nodes = Items::new(alloc);
    nodes.push(Node::Pay { x: 0, next: 1 })?;
    nodes.push(Node::Close { x: 0 })?;
    Ok(nodes)
}

fn program(alloc: Global) -> Result<Program, AllocError>
    ensures decls { IfOk result (λ g. length g.decls ≡ 1) }
    ensures nodes { IfOk result (λ g. length g.nodes ≡ 2) }
{
    let mut decls = Items::new(alloc);
    decls.push(decl(alloc)?)?;
    Ok(Program {
        names: Items::new(alloc),
        types: TypeTable {
            defs: Items::new(alloc),
        },
        decls,
        equations: Items::new(alloc),
        nodes: nodes(alloc)?,
        main: Some(0),
        said: Said {
            types: Items::new(alloc),
            decls: Items::new(alloc),
            channels: Items::new(alloc),
        },
    })
}

fn begin(alloc: Global, program: &Program) -> Result<Judgement, AllocError>
    requires { 0 < length program.now.decls }
{
    match start(alloc, program, 0) {
        Ok(judgement) => Ok(judgement),
        Err(_) => Err(AllocError),
    }
}

#[test]
fn starts(rt: HostRuntime) -> Result<(), Fail> {
    let program = program(rt.alloc())?;
    let at = begin(rt.alloc(), &program)?;
    assert_eq!(rt; at.potential, constant(3));
    Ok(())
}

// The body isn't at its end: there the head is another.
#[test]
fn asks(rt: HostRuntime) -> Result<(), Fail> {
    let program = program(rt.alloc())?;
    let at = begin(rt.alloc(), &program)?;
    assert_eq!(rt; premises(rt.alloc(), &program, &at, 0)?.len(), 4);
    assert_eq!(rt; premises(rt.alloc(), &program, &at, 1)?.len(), 2);
    Ok(())
}

// Whether no premise is asked behind this one.
fn is_last(premise: &Premise) -> bool
    ensures { result ≡ stops premise.now }
{
    match premise {
        Premise::Truth { .. } | Premise::Same { .. } => false,
        Premise::Shape { ok, .. } => !*ok,
        Premise::Passed { .. } => true,
    }
}

fn is_stopped(found: &[(u8, Premise)]) -> bool
    ensures { result ≡ any_stops found.now }
{
    for (_, premise) in found {
        if is_last(premise) {
            return true;
        }
    }
    false
}

// The potential below the first node.
fn potential_below(
    alloc: Global,
    program: &Program,
    at: &Judgement,
) -> Result<Option<Lin>, AllocError>
    requires { 0 < length program.now.nodes }
{
    let found = premises(alloc, program, at, 0)?;
    if is_stopped(found.as_slice()) {
        return Ok(None);
    }
    match children(alloc, program, at, 0)?.get(0) {
        Some(Ok(child)) => Ok(Some(child.potential)),
        _ => Ok(None),
    }
}

#[test]
fn goes_on(rt: HostRuntime) -> Result<(), Fail> {
    let program = program(rt.alloc())?;
    let at = begin(rt.alloc(), &program)?;
    assert_eq!(rt;
        potential_below(rt.alloc(), &program, &at)?,
        Some(constant(1))
    );
    Ok(())
}
