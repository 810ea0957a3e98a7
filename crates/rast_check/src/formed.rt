// Whether a program is well made, its numbers are counted, and at most 16 variables are in scope.
ghost use Rattle.std.specs.Prelude.{◌≡◌, All, IfOk, IsTrue};
ghost use Rattle.std.specs.List.{list_all};
ghost use Rattle.rast_equal.specs.Fit as fit;
ghost use Rattle.rast_check.specs.Formed as formed;

use rast_equal::{is_closed, is_formula_fit, is_type_fit};
use rast_made::well_made;
use rast_terms::{Decl, Program};
use rast_types::{Equation, Ty, TypeDef};
use std::alloc::{AllocError, Global};

/// Whether a program may be checked: its numbers are counted in 32 bits, at most 16 variables are in scope in its definitions,
/// declarations and equations, of which no others occur, and the program is well made. Each program that a text says is formed.
pub fn is_formed(alloc: Global, program: &Program) -> Result<bool, AllocError>
    ensures is { IfOk result (λ t. t ≡ formed.is_formed program.now) }
    ensures more { IfOk result (λ t. IsTrue t → formed.IsFormed program.now) }
{
    if !is_counted(program) {
        return Ok(false);
    }
    if !is_scoped(program) {
        return Ok(false);
    }
    well_made(alloc, program)
}

fn is_counted(program: &Program) -> bool
    ensures { result ≡ formed.is_counted program.now }
{
    const LIMIT: usize = 1 << 32;
    if program.types.defs.len() >= LIMIT {
        return false;
    }
    if program.decls.len() >= LIMIT {
        return false;
    }
    program.equations.len() < LIMIT - 1
}

/// Whether at most 16 variables are in scope in the definitions, declarations and equations, of which no others occur.
pub(crate) fn is_scoped(program: &Program) -> bool
    ensures is { result ≡ formed.is_scoped program.now }
    ensures more { IsTrue result → formed.IsScoped program.now }
{
    if !are_defs_fit(program.types.defs.as_slice()) {
        return false;
    }
    if !are_decls_fit(program.decls.as_slice()) {
        return false;
    }
    are_equations_fit(program.equations.as_slice())
}

fn are_defs_fit(defs: &[TypeDef]) -> bool
    ensures is { result ≡ list_all formed.is_fit_def defs.now }
    ensures more { IsTrue result → All fit.IsFitTypeDef defs.now }
{
    for def in defs {
        if !is_fit_def(def) {
            return false;
        }
    }
    true
}

fn is_fit_def(def: &TypeDef) -> bool
    ensures is { result ≡ formed.is_fit_def def.now }
    ensures more { IsTrue result → fit.IsFitTypeDef def.now }
{
    if def.params > 16 {
        return false;
    }
    is_type_fit(&def.body, def.params)
}

fn are_decls_fit(decls: &[Decl]) -> bool
    ensures is { result ≡ list_all formed.is_fit_decl decls.now }
    ensures more { IsTrue result → All formed.IsFitDecl decls.now }
{
    for decl in decls {
        if !is_fit_decl(decl) {
            return false;
        }
    }
    true
}

fn is_fit_decl(decl: &Decl) -> bool
    ensures is { result ≡ formed.is_fit_decl decl.now }
    ensures more { IsTrue result → formed.IsFitDecl decl.now }
{
    if decl.params > 16 {
        return false;
    }
    if !are_types_within(decl.params, decl.uses.as_slice()) {
        return false;
    }
    if !is_type_fit(&decl.gives, decl.params) {
        return false;
    }
    is_closed(&decl.potential, decl.params)
}

fn are_types_within(vars: u8, types: &[Ty]) -> bool
    ensures is { result ≡ list_all (fit.is_within_type vars) types.now }
    ensures more { IsTrue result → All (fit.IsWithinType vars) types.now }
{
    for a in types {
        if !is_type_fit(a, vars) {
            return false;
        }
    }
    true
}

fn are_equations_fit(equations: &[Equation]) -> bool
    ensures is { result ≡ list_all formed.is_fit_equation equations.now }
    ensures more { IsTrue result → All fit.IsFitEquation equations.now }
{
    for equation in equations {
        if !is_fit_equation(equation) {
            return false;
        }
    }
    true
}

fn is_fit_equation(equation: &Equation) -> bool
    ensures is { result ≡ formed.is_fit_equation equation.now }
    ensures more { IsTrue result → fit.IsFitEquation equation.now }
{
    if equation.vars > 16 {
        return false;
    }
    if !is_formula_fit(&equation.premise, equation.vars) {
        return false;
    }
    if !is_type_fit(&equation.left, equation.vars) {
        return false;
    }
    is_type_fit(&equation.right, equation.vars)
}
