// `rast decide`.
ghost use Rattle.std.specs.Prelude.{◌≡◌, IfOk};
ghost use Rattle.rast_cli.specs.Answered.{DecideComes};

use crate::answer::Answer;
use crate::said::Said;
use rast_decide::decide_text;
use rast_io::LIMIT;
use std::alloc::{AllocError, Global};

// What comes of a formula.
pub(crate) fn say_decision(alloc: Global, formula: &str) -> Result<Said, AllocError>
    ensures { IfOk result (λ said. DecideComes LIMIT formula.now said.answer said.text.items said.history.items) }
{
    let decided = decide_text(alloc, formula.as_bytes())?;
    Ok(Said {
        answer: Answer::Decided(decided.decision),
        text: decided.line,
        history: Vec::new(alloc),
    })
}
