// The accepted program of a file.
ghost use Rattle.std.specs.Prelude.{◌≡◌, ◌≤◌, IfOk, [], length};
ghost use Rattle.rast_io.specs.Causes.{Rose};
ghost use Rattle.rast_accept.specs.Lines.{refusal_line, refusal_status};
ghost use Rattle.rast_cli.specs.declared.answer.Answer.TheVariants.{Refused};
ghost use Rattle.rast_cli.specs.Found.{IsFound, IsFoundIn, SaysUnloaded};

use crate::answer::Answer;
use crate::said::{Said, say_line};
use rast_accept::{LoadErr, Refusal, load};
use rast_check::Checked;
use rast_io::{Files, LIMIT, ReadErr, read_all};
use std::alloc::{AllocError, Global};

/// The accepted program of a file, or what is said where there is none.
#[derive(Drop)]
pub(crate) enum Found {
    Program(Checked),
    None(Said),
}

// A refused program has the status and the line of its reason.
fn refused(alloc: Global, why: &Refusal) -> Result<Said, AllocError>
    ensures answer { IfOk result (λ said. said.answer ≡ Refused (refusal_status why.now)) }
    ensures text { IfOk result (λ said. said.text.items ≡ refusal_line why.now) }
    ensures history { IfOk result (λ said. said.history.items ≡ []) }
{
    Ok(Said {
        answer: Answer::Refused {
            status: rast_accept::status(why),
        },
        text: rast_accept::line(alloc, why)?,
        history: Vec::new(alloc),
    })
}

// A text that isn't loaded is refused for the reason that is given, or memory is wanting.
fn unloaded(alloc: Global, why: &LoadErr) -> Result<Said, AllocError>
    ensures { IfOk result (SaysUnloaded why.now) }
{
    match why {
        LoadErr::Refused { why } => refused(alloc, why),
        LoadErr::Memory => Err(AllocError),
    }
}

// The accepted program that a text says.
fn program_in(alloc: Global, text: Vec<u8>) -> Result<Found, AllocError>
    requires { length text.items ≤ LIMIT }
    ensures { IfOk result (IsFoundIn text.items) }
{
    match load(alloc, text) {
        Ok(checked) => Ok(Found::Program(checked)),
        Err(why) => Ok(Found::None(unloaded(alloc, &why)?)),
    }
}

// The accepted program of the file `name`.
pub(crate) fn find<F: Files>(alloc: Global, name: &str, files: &mut F) -> Result<Found, AllocError>
    ensures { IfOk result (IsFound LIMIT (F.held files.old) (Rose (F.faults files.old) (F.faults files.new)) (F.faults files.new ≡ F.faults files.old) name.now) }
{
    let bytes = match read_all(alloc, files, name) {
        Ok(bytes) => bytes,
        Err(ReadErr::Fault) => return Ok(Found::None(say_line(alloc, Answer::ReadFault)?)),
        Err(ReadErr::TooLong) => return Ok(Found::None(say_line(alloc, Answer::TooLong)?)),
        Err(ReadErr::Memory) => return Err(AllocError),
    };
    program_in(alloc, bytes)
}
