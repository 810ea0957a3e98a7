// The names that a program's numbers stand for, put behind what is written.
ghost use Rattle.std.specs.Prelude.{◌≡◌, ◌++◌, OnOk};
ghost use Rattle.rast_terms.specs.Texts.{name_text, decl_text, def_text};

use crate::program::Program;
use std::alloc::AllocError;

/// Puts a name behind a text.
///
/// `name` is its number among the program's names; of a number that is none of them, nothing is put.
///
/// # Errors
///
/// `AllocError` where there is no memory for the longer text.
pub fn put_name(text: &mut Vec<u8>, program: &Program, name: u32) -> Result<(), AllocError>
    ensures { OnOk result (text.new.items ≡ text.old.items ++ name_text program.now name) }
{
    match program.names.get(name as usize) {
        Some(name) => text.extend_from_slice(name.as_bytes()),
        None => Ok(()),
    }
}

/// Puts the name of a declaration behind a text.
///
/// `decl` is its number among the program's declarations; of a number that is none of them, nothing is put.
///
/// # Errors
///
/// `AllocError` where there is no memory for the longer text.
pub fn put_decl(text: &mut Vec<u8>, program: &Program, decl: usize) -> Result<(), AllocError>
    ensures { OnOk result (text.new.items ≡ text.old.items ++ decl_text program.now decl) }
{
    match program.decls.get(decl) {
        Some(decl) => put_name(text, program, decl.name),
        None => Ok(()),
    }
}

/// Puts the name of a type definition behind a text.
///
/// `def` is its number among the program's type definitions; of a number that is none of them, nothing is put.
///
/// # Errors
///
/// `AllocError` where there is no memory for the longer text.
pub fn put_def(text: &mut Vec<u8>, program: &Program, def: u32) -> Result<(), AllocError>
    ensures { OnOk result (text.new.items ≡ text.old.items ++ def_text program.now def) }
{
    match program.types.defs.get(def as usize) {
        Some(def) => put_name(text, program, def.name),
        None => Ok(()),
    }
}
