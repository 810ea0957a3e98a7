// `rast show`.
ghost use Rattle.std.specs.Prelude.{◌≡◌, IfOk};
ghost use Rattle.rast_io.specs.Causes.{Rose};
ghost use Rattle.rast_cli.specs.Answered.{ShowComes};

use crate::answer::Answer;
use crate::said::{Said, say_line};
use rast_io::{Files, LIMIT, ReadErr, read_all};
use rast_load::{TextErr, read};
use rast_print::print;
use std::alloc::{AllocError, Global};

// What the canonical text of the file `name` calls for.
pub(crate) fn say_text<F: Files>(
    alloc: Global,
    name: &str,
    files: &mut F,
) -> Result<Said, AllocError>
    ensures { IfOk result (λ said. ShowComes LIMIT (F.held files.old) (Rose (F.faults files.old) (F.faults files.new)) (F.faults files.new ≡ F.faults files.old) name.now said.answer said.text.items said.history.items) }
{
    let bytes = match read_all(alloc, files, name) {
        Ok(bytes) => bytes,
        Err(ReadErr::Fault) => return say_line(alloc, Answer::ReadFault),
        Err(ReadErr::TooLong) => return say_line(alloc, Answer::TooLong),
        Err(ReadErr::Memory) => return Err(AllocError),
    };
    let file = match read(alloc, &bytes) {
        Ok(file) => file,
        Err(TextErr::NoFile(fault)) => return say_line(alloc, Answer::NoFile(fault)),
        Err(TextErr::Memory) => return Err(AllocError),
    };
    Ok(Said {
        answer: Answer::Shown,
        text: print(alloc, &file)?,
        history: Vec::new(alloc),
    })
}
