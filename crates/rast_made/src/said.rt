// Whether the names for printing are as many as there are things to name.
ghost use Rattle.std.specs.Prelude.{◌≡◌, ◌==◌, ◌<◌, ◌+◌, MatchOption, sum_by};
ghost use Rattle.std.specs.List.{list_all};
ghost use Rattle.rast_equal.specs.WellMadeTypes.{quantifiers};
ghost use Rattle.rast_made.specs.Made as made;
ghost use Rattle.rast_made.specs.WellMade.{names_of_channels, names_of_decl, names_of_def};

use crate::quantifiers::left;
use crate::tables::is_name;
use rast_terms::{Decl, Program};
use rast_types::{Ty, TypeDef};
use sqlite_items::Items;

/// Whether a program says a name for each parameter and quantifier of its types and declarations, and for each channel.
pub(crate) fn are_all_said(program: &Program) -> bool
    ensures { result ≡ made.are_all_said program.now }
{
    let defs = program.types.defs.as_slice();
    let decls = program.decls.as_slice();
    if !are_defs_said(program, defs, program.said.types.as_slice()) {
        return false;
    }
    if !are_decls_said(program, decls, program.said.decls.as_slice()) {
        return false;
    }
    are_channels_said(program, decls, program.said.channels.as_slice())
}

fn are_defs_said(program: &Program, defs: &[TypeDef], said: &[Items<u32>]) -> bool
    ensures { result ≡ made.are_said program.now names_of_def defs.now said.now }
{
    if defs.len() != said.len() {
        return false;
    }
    for i in 0..defs.len() {
        if !is_def_said(program, &defs[i], said[i].as_slice()) {
            return false;
        }
    }
    true
}

fn is_def_said(program: &Program, def: &TypeDef, said: &[u32]) -> bool
    ensures { result ≡ made.is_said program.now (names_of_def def.now) said.now }
{
    if !is_def_count(def, said.len()) {
        return false;
    }
    are_names(program, said)
}

fn is_def_count(def: &TypeDef, have: usize) -> bool
    ensures { result ≡ (have == names_of_def def.now) }
{
    let params = def.params as usize;
    if have < params {
        return false;
    }
    match left(have - params, &def.body) {
        Some(rest) => rest == 0,
        None => false,
    }
}

fn are_decls_said(program: &Program, decls: &[Decl], said: &[Items<u32>]) -> bool
    ensures { result ≡ made.are_said program.now names_of_decl decls.now said.now }
{
    if decls.len() != said.len() {
        return false;
    }
    for i in 0..decls.len() {
        if !is_decl_said(program, &decls[i], said[i].as_slice()) {
            return false;
        }
    }
    true
}

fn is_decl_said(program: &Program, decl: &Decl, said: &[u32]) -> bool
    ensures { result ≡ made.is_said program.now (names_of_decl decl.now) said.now }
{
    if !is_decl_count(decl, said.len()) {
        return false;
    }
    are_names(program, said)
}

fn is_decl_count(decl: &Decl, have: usize) -> bool
    ensures { result ≡ (have == names_of_decl decl.now) }
{
    let params = decl.params as usize;
    if have < params {
        return false;
    }
    match left_of_types(have - params, decl.uses.as_slice()) {
        Some(rest) => match left(rest, &decl.gives) {
            Some(rest) => rest == 0,
            None => false,
        },
        None => false,
    }
}

// How many are left after the quantifiers of these types.
fn left_of_types(have: usize, types: &[Ty]) -> Option<usize>
    ensures { MatchOption result (have < sum_by quantifiers types.now) (λ rest. rest + sum_by quantifiers types.now ≡ have) }
{
    let mut rest = have;
    for a in types {
        match left(rest, a) {
            Some(less) => rest = less,
            None => return None,
        }
    }
    Some(rest)
}

fn are_channels_said(program: &Program, decls: &[Decl], said: &[Items<u32>]) -> bool
    ensures { result ≡ made.are_said program.now names_of_channels decls.now said.now }
{
    if decls.len() != said.len() {
        return false;
    }
    for i in 0..decls.len() {
        if !are_named(program, &decls[i], said[i].as_slice()) {
            return false;
        }
    }
    true
}

// The channels of one declaration, of which the provided one is the first.
fn are_named(program: &Program, decl: &Decl, said: &[u32]) -> bool
    ensures { result ≡ made.is_said program.now (names_of_channels decl.now) said.now }
{
    if said.len() as u128 != decl.uses.len() as u128 + 1 {
        return false;
    }
    are_names(program, said)
}

fn are_names(program: &Program, said: &[u32]) -> bool
    ensures { result ≡ list_all (made.is_name program.now) said.now }
{
    for name in said {
        if !is_name(program, *name) {
            return false;
        }
    }
    true
}
