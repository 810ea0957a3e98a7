// The beginning of a run. Runs are tested where texts are accepted first: by `rast_run_tests`, and by
// the case files of `rast_rows`.
ghost use Rattle.std.specs.Prelude.{◌≡◌, IfOk, pos};
ghost use Rattle.rast_core.specs.Promises.{CanStart};

use rast_core::Config;
use rast_index::Lin;
use rast_items::Pid;
use rast_rules::Plan;
use rast_terms::{Decl, Node, Program, Said};
use rast_types::{Ty, TypeTable};
use sqlite_items::Items;
use std::alloc::{AllocError, Global};
use std::test::Fail;

fn constant(number: u16) -> Lin
    ensures { result.constant ≡ pos number }
{
    Lin {
        constant: number as i64,
        coefficient: [0; 16],
    }
}

// A declaration; its types aren't read by a run.
fn decl(alloc: Global, potential: u16) -> Decl
    ensures { result.potential.constant ≡ pos potential }
{
    Decl {
        name: 0,
        params: 0,
        uses: Items::new(alloc),
        potential: constant(potential),
        gives: Ty::One,
        body: 0,
    }
}

// The program of one declaration, which is main, with one node.
fn program(alloc: Global, potential: u16) -> Result<Program, AllocError>
    ensures { IfOk result (λ g. CanStart g) }
{
    let mut nodes = Items::new(alloc);
    nodes.push(Node::Close { x: 0 })?;
    let mut decls = Items::new(alloc);
    decls.push(decl(alloc, potential))?;
    Ok(Program {
        names: Items::new(alloc),
        types: TypeTable {
            defs: Items::new(alloc),
        },
        decls,
        equations: Items::new(alloc),
        nodes,
        main: Some(0),
        said: Said {
            types: Items::new(alloc),
            decls: Items::new(alloc),
            channels: Items::new(alloc),
        },
    })
}

#[test]
fn a_run_begins_with_main(rt: HostRuntime) -> Result<(), Fail> {
    let alloc = rt.alloc();
    let program = program(alloc, 3)?;
    let plan = Plan {
        positive: Items::new(alloc),
        paid: Items::new(alloc),
    };
    let config = Config::start(alloc, &program, plan, 5)?;
    assert_eq!(rt; config.spare(), 5);
    assert_eq!(rt; config.items().count(), 1);
    assert!(rt; config.process(Pid(0)).is_some());
    assert!(rt; config.process(Pid(1)).is_none());
    assert_eq!(rt; config.process_count(), 1);
    assert_eq!(rt; config.held(), 3);
    Ok(())
}

#[test]
fn the_path_of_main_is_empty(rt: HostRuntime) -> Result<(), Fail> {
    let alloc = rt.alloc();
    let program = program(alloc, 0)?;
    let plan = Plan {
        positive: Items::new(alloc),
        paid: Items::new(alloc),
    };
    let config = Config::start(alloc, &program, plan, 0)?;
    if config.process_count() > 0 {
        let path = config.path(alloc, Pid(0))?;
        assert!(rt; path.is_empty());
    }
    Ok(())
}
