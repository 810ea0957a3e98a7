// `rast run`.
ghost use Rattle.std.specs.Prelude.{◌≡◌, IfOk};
ghost use Rattle.rast_io.specs.Causes.{Rose};
ghost use Rattle.rast_rules.specs.Plan.{IsForest};
ghost use Rattle.rast_rules.specs.Rules.{IsAccepted};
ghost use Rattle.rast_cli.specs.Reported.{IsReport, IsRunnable};
ghost use Rattle.rast_cli.specs.Answered.{RunComes};

use crate::answer::Answer;
use crate::found::{Found, find};
use crate::said::{Said, say_line};
use rast_core::{FullRun, Outcome};
use rast_io::{Files, LIMIT};
use rast_items::Event;
use rast_report::report_text;
use rast_rules::plan;
use rast_terms::Program;
use std::alloc::{AllocError, Global};

// A run with its report.
#[derive(Drop)]
struct Made {
    outcome: Outcome,
    text: Vec<u8>,
    history: Vec<Event>,
}

// Runs a program and reports it.
fn report(alloc: Global, program: &Program, budget: u32, trace: bool) -> Result<Made, AllocError>
    requires runnable { IsRunnable program.now }
    requires accepted { IsAccepted program.now }
    requires forest { IsForest program.now }
    ensures { IfOk result (λ r. IsReport budget trace program.now r.outcome r.text.items r.history.items) }
{
    let plan = plan(alloc, program)?;
    let FullRun {
        config,
        history,
        outcome,
    } = rast_core::run(alloc, program, plan, budget)?;
    let text = report_text(alloc, program, outcome, &config, &history, trace, true)?;
    Ok(Made {
        outcome,
        text,
        history,
    })
}

// What a run of the file `name` calls for.
pub(crate) fn say_run<F: Files>(
    alloc: Global,
    name: &str,
    budget: u32,
    trace: bool,
    files: &mut F,
) -> Result<Said, AllocError>
    ensures { IfOk result (λ said. RunComes LIMIT (F.held files.old) (Rose (F.faults files.old) (F.faults files.new)) (F.faults files.new ≡ F.faults files.old) name.now budget trace said.answer said.text.items said.history.items) }
{
    let checked = match find(alloc, name, files)? {
        Found::Program(checked) => checked,
        Found::None(said) => return Ok(said),
    };
    if checked.program().main.is_none() {
        return say_line(alloc, Answer::NoExec);
    }
    let Made {
        outcome,
        text,
        history,
    } = report(alloc, checked.program(), budget, trace)?;
    Ok(Said {
        answer: Answer::Ran(outcome),
        text,
        history,
    })
}
