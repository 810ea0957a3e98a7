// Why a text says no accepted program, with the exit status and the line of each reason.
ghost use Rattle.std.specs.Prelude.{◌≡◌, ◌++◌, IfOk, codes, true};
ghost use Rattle.rast_accept.specs.Faults.{is_type_fault, is_same_fault, is_rule_fault};
ghost use Rattle.rast_accept.specs.Lines.{named_line, name_line, name_status, same_status, type_status, check_status, refusal_line, refusal_status};

use crate::fault::{NameFault, RuleFault};
use rast_ast::Name;
use rast_check::CheckErr;
use rast_equal::{SameErr, TypeErr};
use rast_load::TextFault;
use rast_terms::Program;
use std::alloc::{AllocError, Global};

/// Why a text says no accepted program: the first reason, of those of its text, of forms that aren't built, of names and of rules.
#[derive(Drop)]
pub enum Refusal {
    /// It is no file, and has this first fault.
    NoFile {
        /// The fault.
        fault: TextFault,
    },
    /// It is a file with a form that isn't built.
    NotYet {
        /// The place of the first token that isn't built, counted in bytes from 0.
        at: u32,
    },
    /// Its names are faulty.
    Names {
        /// The first fault.
        fault: NameFault,
    },
    /// It says a program that isn't accepted.
    Rules {
        /// The program.
        program: Program,
        /// The first place that is false, undecided or over a limit.
        fault: RuleFault,
    },
}

/// Why a text isn't loaded.
#[derive(Drop)]
pub enum LoadErr {
    /// It says no accepted program.
    Refused {
        /// The first reason.
        why: Refusal,
    },
    /// Want of memory.
    Memory,
}

fn name_status(fault: &NameFault) -> u8
    ensures { result ≡ name_status fault.now }
{
    match fault {
        NameFault::Limit { .. } => 5,
        NameFault::Unknown { .. } => 1,
        NameFault::Twice { .. } => 1,
        NameFault::Arity { .. } => 1,
        NameFault::BadMain { .. } => 1,
    }
}

fn same_status(why: &SameErr) -> u8
    requires { is_same_fault why.now ≡ true }
    ensures { result ≡ same_status why.now }
{
    match why {
        SameErr::Bound { .. } => 5,
        SameErr::Fails { .. } => 1,
        SameErr::Wanted { .. } => 1,
        SameErr::Left => 1,
        SameErr::Memory => unreachable!(),
    }
}

fn type_status(why: &TypeErr) -> u8
    requires { is_type_fault why.now ≡ true }
    ensures { result ≡ type_status why.now }
{
    match why {
        TypeErr::Bound { .. } => 5,
        TypeErr::Invalid { .. } => 1,
        TypeErr::Memory => unreachable!(),
    }
}

fn check_status(why: &CheckErr) -> u8
    requires { is_rule_fault why.now ≡ true }
    ensures { result ≡ check_status why.now }
{
    match why {
        CheckErr::BadType { why } => type_status(why),
        CheckErr::BadDecl { why, .. } => type_status(why),
        CheckErr::BadEquation { why } => same_status(&why.why),
        CheckErr::Refused { .. } => 1,
        CheckErr::Bound { .. } => 5,
        CheckErr::Limit { .. } => 5,
        CheckErr::Memory => unreachable!(),
    }
}

/// The exit status: 5 at a bound, and else 1.
pub fn status(refusal: &Refusal) -> u8
    ensures { result ≡ refusal_status refusal.now }
{
    match refusal {
        Refusal::NoFile { fault } => rast_load::status(*fault),
        Refusal::NotYet { .. } => 1,
        Refusal::Names { fault } => name_status(fault),
        Refusal::Rules { fault, .. } => check_status(&fault.why),
    }
}

// A line that ends with a name.
fn named(alloc: Global, words: &[u8], name: &Name) -> Result<Vec<u8>, AllocError>
    ensures { IfOk result (λ line. line.items ≡ named_line words.now name.now) }
{
    let mut line = words.to_vec(alloc)?;
    line.extend_from_slice(name.as_bytes())?;
    line.extend_from_slice(b"\n")?;
    Ok(line)
}

fn name_line(alloc: Global, fault: &NameFault) -> Result<Vec<u8>, AllocError>
    ensures { IfOk result (λ line. line.items ≡ name_line fault.now) }
{
    match fault {
        NameFault::Unknown { name } => named(alloc, b"refused: unknown ", name),
        NameFault::Twice { name } => named(alloc, b"refused: twice ", name),
        NameFault::Arity { name } => named(alloc, b"refused: arity ", name),
        NameFault::BadMain { name } => named(alloc, b"refused: main ", name),
        NameFault::Limit { name } => named(alloc, b"bound: limit in ", name),
    }
}

// The line of a form that isn't built.
fn not_yet(alloc: Global, at: u32) -> Result<Vec<u8>, AllocError>
    ensures { IfOk result (λ line. (r : Refusal) → r ≡ Refusal.NotYet at → line.items ≡ refusal_line r) }
{
    let line = format!(in alloc; "refused: not yet at byte {at}\n")?;
    line.as_bytes().to_vec(alloc)
}

/// The line of a refusal, with its end.
pub fn line(alloc: Global, refusal: &Refusal) -> Result<Vec<u8>, AllocError>
    ensures { IfOk result (λ line. line.items ≡ refusal_line refusal.now) }
{
    match refusal {
        Refusal::NoFile { fault } => rast_load::line(alloc, *fault),
        Refusal::NotYet { at } => not_yet(alloc, *at),
        Refusal::Names { fault } => name_line(alloc, fault),
        Refusal::Rules { program, fault } => rast_lines::line(alloc, program, &fault.why),
    }
}
