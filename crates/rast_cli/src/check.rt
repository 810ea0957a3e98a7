// `rast check`.
ghost use Rattle.std.specs.Prelude.{◌≡◌, IfOk};
ghost use Rattle.rast_io.specs.Causes.{Rose};
ghost use Rattle.rast_cli.specs.Answered.{CheckComes};

use crate::answer::Answer;
use crate::found::{Found, find};
use crate::said::{Said, say_line};
use rast_io::{Files, LIMIT};
use std::alloc::{AllocError, Global};

// What a check of the file `name` calls for.
pub(crate) fn say_check<F: Files>(
    alloc: Global,
    name: &str,
    files: &mut F,
) -> Result<Said, AllocError>
    ensures { IfOk result (λ said. CheckComes LIMIT (F.held files.old) (Rose (F.faults files.old) (F.faults files.new)) (F.faults files.new ≡ F.faults files.old) name.now said.answer said.text.items said.history.items) }
{
    match find(alloc, name, files)? {
        Found::Program(_) => say_line(alloc, Answer::Accepted),
        Found::None(said) => Ok(said),
    }
}
