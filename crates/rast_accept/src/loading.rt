// The accepted program of a text.
ghost use Rattle.std.specs.Prelude.{◌≡◌, ◌≤◌, ℕ, List, true, length, IfOk, IfErr};
ghost use Rattle.rast_terms.specs.declared.program.Program.{Program};
ghost use Rattle.rast_made.specs.WellMade.{IsWellMade};
ghost use Rattle.rast_check.specs.Formed.{is_formed};
ghost use Rattle.rast_accept.specs.Loading.{Says, Loads, IsOfCheck, IsUnloaded, of_form, of_names};
ghost use Rattle.rast_accept.specs.declared.refusal.LoadErr.TheVariants.{Refused};
ghost use Rattle.rast_accept.specs.declared.refusal.Refusal.TheVariants.{Names};

use crate::fault::{NameFault, RuleFault, is_rule_fault};
use crate::refusal::{LoadErr, Refusal};
use rast_check::{CheckErr, Checked, check};
use rast_io::LIMIT;
use rast_load::{FormErr, read_built};
use rast_meant::{limits_law, meant_law};
use rast_resolve::{NameErr, resolve};
use rast_terms::Program;
use std::alloc::Global;

fn of_form(why: FormErr) -> LoadErr
    ensures { result ≡ of_form why }
{
    match why {
        FormErr::NoFile(fault) => LoadErr::Refused {
            why: Refusal::NoFile { fault },
        },
        FormErr::NotYet { at } => LoadErr::Refused {
            why: Refusal::NotYet { at },
        },
        FormErr::Memory => LoadErr::Memory,
    }
}

fn names(fault: NameFault) -> LoadErr
    ensures { result ≡ Refused (Names fault) }
{
    LoadErr::Refused {
        why: Refusal::Names { fault },
    }
}

fn of_names(why: NameErr) -> LoadErr
    ensures { result ≡ of_names why }
{
    match why {
        NameErr::Unknown { name } => names(NameFault::Unknown { name }),
        NameErr::Twice { name } => names(NameFault::Twice { name }),
        NameErr::Arity { name } => names(NameFault::Arity { name }),
        NameErr::BadMain { name } => names(NameFault::BadMain { name }),
        NameErr::Limit { name } => names(NameFault::Limit { name }),
        NameErr::Memory => LoadErr::Memory,
    }
}

fn of_check(program: Program, why: CheckErr) -> LoadErr
    ensures { IsOfCheck program why result }
{
    if !is_rule_fault(&why) {
        drop(program);
        drop(why);
        return LoadErr::Memory;
    }
    LoadErr::Refused {
        why: Refusal::Rules {
            program,
            fault: RuleFault { why },
        },
    }
}

// Each program that a text says is well made and formed.
fn formed_law()
    ensures made { (text : List ℕ) (program : Program) → Says text program → IsWellMade program }
    ensures formed { (text : List ℕ) (program : Program) → length text ≤ LIMIT → Says text program → is_formed program ≡ true }
{
    meant_law();
    limits_law();
}

/// The accepted program that a text of at most 1,048,576 bytes says; the text is let go as soon as it is read. Each program that a text says is well made and formed.
///
/// # Errors
/// The first reason why it says none: a fault of its text, a token of a form that isn't built, a fault in its names, or a place
/// of the program that is false, undecided or over a limit, in this order; or want of memory.
pub fn load(alloc: Global, text: Vec<u8>) -> Result<Checked, LoadErr>
    requires { length text.items ≤ LIMIT }
    ensures loaded { IfOk result (λ checked. Loads text.items checked.program) }
    ensures unloaded { IfErr result (IsUnloaded text.items) }
    ensures made { (program : Program) → Says text.items program → IsWellMade program }
    ensures formed { (program : Program) → Says text.items program → is_formed program ≡ true }
{
    formed_law();
    match said(alloc, text) {
        Ok(program) => match check(alloc, program) {
            Ok(checked) => Ok(checked),
            Err((program, why)) => Err(of_check(program, why)),
        },
        Err(why) => Err(why),
    }
}

// The program that a text says. The text is gone before its names are looked up, and its tree before the program is checked.
fn said(alloc: Global, text: Vec<u8>) -> Result<Program, LoadErr>
    requires { length text.items ≤ LIMIT }
    ensures says { IfOk result (Says text.items) }
    ensures only { IfOk result (λ program. (other : Program) → Says text.items other → other ≡ program) }
    ensures unloaded { IfErr result (IsUnloaded text.items) }
{
    let read = read_built(alloc, &text);
    drop(text);
    let file = match read {
        Ok(file) => file,
        Err(why) => return Err(of_form(why)),
    };
    let resolved = resolve(alloc, &file);
    drop(file);
    match resolved {
        Ok(resolved) => Ok(resolved.program),
        Err(why) => Err(of_names(why)),
    }
}
