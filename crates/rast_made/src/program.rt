// Whether a program is well made.
ghost use Rattle.std.specs.Prelude.{◌≡◌, IfOk, IsTrue, Some};
ghost use Rattle.rast_made.specs.Made as made;
ghost use Rattle.rast_made.specs.WellMade.{IsWellMade};

use crate::places::are_made_nodes;
use crate::said::are_all_said;
use crate::tables::are_made_tables;
use rast_terms::{Decl, Program};
use std::alloc::{AllocError, Global};

/// Whether a program is well made: all numbers outside references are in range, only variables and channels in scope occur,
/// each name, spawn and call has as many arguments as there are parameters and used channels, no choice or case has a
/// label twice, main takes nothing, each node has one place after its parent, and the names for printing are
/// as many as there are things to name.
pub fn well_made(alloc: Global, program: &Program) -> Result<bool, AllocError>
    ensures is { IfOk result (λ t. t ≡ made.is_well_made program.now) }
    ensures made { IfOk result (λ t. IsTrue t → IsWellMade program.now) }
    ensures only { IfOk result (λ t. IsWellMade program.now → IsTrue t) }
{
    is_well_made(alloc, program)
}

fn is_well_made(alloc: Global, program: &Program) -> Result<bool, AllocError>
    ensures { IfOk result (λ t. t ≡ made.is_well_made program.now) }
{
    if !are_made_tables(alloc, program)? {
        return Ok(false);
    }
    if !is_made_main(program) {
        return Ok(false);
    }
    if !are_made_nodes(alloc, program)? {
        return Ok(false);
    }
    Ok(are_all_said(program))
}

// Whether the declaration that is run takes nothing.
fn is_made_main(program: &Program) -> bool
    ensures { result ≡ made.is_made_main program.now program.now.main }
{
    match program.main {
        Some(main) => match program.decls.get(main as usize) {
            Some(decl) => takes_nothing(decl),
            None => false,
        },
        None => true,
    }
}

fn takes_nothing(decl: &Decl) -> bool
    ensures { result ≡ made.takes_nothing (Some decl.now) }
{
    if decl.params != 0 {
        return false;
    }
    decl.uses.len() == 0
}
