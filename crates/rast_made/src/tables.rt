// Types, definitions, declarations and equations that are well made.
ghost use Rattle.std.specs.Prelude.{◌≡◌, IfOk};
ghost use Rattle.std.specs.List.{list_all};
ghost use Rattle.rast_made.specs.Made as made;

use crate::labels::is_labelled;
use crate::names::is_named;
use rast_equal::{is_closed, is_formula_fit, is_type_fit};
use rast_terms::{Decl, Program};
use rast_types::{Equation, Ty, TypeDef};
use std::alloc::{AllocError, Global};

/// Whether the definitions, declarations and equations of a program are well made, apart from bodies.
pub(crate) fn are_made_tables(alloc: Global, program: &Program) -> Result<bool, AllocError>
    ensures { IfOk result (λ t. t ≡ made.are_made_tables program.now) }
{
    if !are_made_defs(alloc, program, program.types.defs.as_slice())? {
        return Ok(false);
    }
    if !are_made_decls(alloc, program, program.decls.as_slice())? {
        return Ok(false);
    }
    are_made_equations(alloc, program, program.equations.as_slice())
}

fn are_made_defs(alloc: Global, program: &Program, defs: &[TypeDef]) -> Result<bool, AllocError>
    ensures { IfOk result (λ t. t ≡ list_all (made.is_made_def program.now) defs.now) }
{
    for def in defs {
        if !is_made_def(alloc, program, def)? {
            return Ok(false);
        }
    }
    Ok(true)
}

fn is_made_def(alloc: Global, program: &Program, def: &TypeDef) -> Result<bool, AllocError>
    ensures { IfOk result (λ t. t ≡ made.is_made_def program.now def.now) }
{
    if !is_name(program, def.name) {
        return Ok(false);
    }
    is_made_type(alloc, program, def.params, &def.body)
}

fn are_made_decls(alloc: Global, program: &Program, decls: &[Decl]) -> Result<bool, AllocError>
    ensures { IfOk result (λ t. t ≡ list_all (made.is_made_decl program.now) decls.now) }
{
    for decl in decls {
        if !is_made_decl(alloc, program, decl)? {
            return Ok(false);
        }
    }
    Ok(true)
}

fn is_made_decl(alloc: Global, program: &Program, decl: &Decl) -> Result<bool, AllocError>
    ensures { IfOk result (λ t. t ≡ made.is_made_decl program.now decl.now) }
{
    if !is_name(program, decl.name) {
        return Ok(false);
    }
    if !are_made_types(alloc, program, decl.params, decl.uses.as_slice())? {
        return Ok(false);
    }
    if !is_closed(&decl.potential, decl.params) {
        return Ok(false);
    }
    is_made_type(alloc, program, decl.params, &decl.gives)
}

fn are_made_equations(
    alloc: Global,
    program: &Program,
    equations: &[Equation],
) -> Result<bool, AllocError>
    ensures { IfOk result (λ t. t ≡ list_all (made.is_made_equation program.now) equations.now) }
{
    for equation in equations {
        if !is_made_equation(alloc, program, equation)? {
            return Ok(false);
        }
    }
    Ok(true)
}

fn is_made_equation(
    alloc: Global,
    program: &Program,
    equation: &Equation,
) -> Result<bool, AllocError>
    ensures { IfOk result (λ t. t ≡ made.is_made_equation program.now equation.now) }
{
    if !is_formula_fit(&equation.premise, equation.vars) {
        return Ok(false);
    }
    if !is_made_type(alloc, program, equation.vars, &equation.left)? {
        return Ok(false);
    }
    is_made_type(alloc, program, equation.vars, &equation.right)
}

fn are_made_types(
    alloc: Global,
    program: &Program,
    vars: u8,
    types: &[Ty],
) -> Result<bool, AllocError>
    ensures { IfOk result (λ t. t ≡ list_all (made.is_made_type program.now vars) types.now) }
{
    for a in types {
        if !is_made_type(alloc, program, vars, a)? {
            return Ok(false);
        }
    }
    Ok(true)
}

fn is_made_type(alloc: Global, program: &Program, vars: u8, a: &Ty) -> Result<bool, AllocError>
    ensures { IfOk result (λ t. t ≡ made.is_made_type program.now vars a.now) }
{
    if !is_type_fit(a, vars) {
        return Ok(false);
    }
    if !is_named(program.types.defs.as_slice(), a) {
        return Ok(false);
    }
    is_labelled(alloc, program.names.len(), a)
}

/// Whether this is the number of a name.
pub(crate) fn is_name(program: &Program, name: u32) -> bool
    ensures { result ≡ made.is_name program.now name }
{
    (name as usize) < program.names.len()
}
