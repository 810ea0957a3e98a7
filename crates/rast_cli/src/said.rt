// What is to be written, and why.
ghost use Rattle.std.specs.Prelude.{◌≡◌, IfOk};
ghost use Rattle.rast_cli.specs.Answered.{HasLine};

use crate::answer::{Answer, line};
use rast_items::Event;
use std::alloc::{AllocError, Global};

/// What is to be written, why, and the run that is reported.
#[derive(Drop)]
pub(crate) struct Said {
    pub(crate) answer: Answer,
    pub(crate) text: Vec<u8>,
    pub(crate) history: Vec<Event>,
}

// An answer with its line, and no run.
pub(crate) fn say_line(alloc: Global, answer: Answer) -> Result<Said, AllocError>
    ensures answer { IfOk result (λ said. said.answer ≡ answer) }
    ensures line { IfOk result (λ said. HasLine answer said.text.items said.history.items) }
{
    Ok(Said {
        answer,
        text: line(alloc, answer)?,
        history: Vec::new(alloc),
    })
}
