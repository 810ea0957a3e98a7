// Whole runs.
ghost use Rattle.std.specs.Prelude.{◌≡◌, ◌≤◌, true, IfOk};
ghost use Rattle.rast_laws.specs.Sound.{IsReady};
ghost use Rattle.rast_core.specs.Shown.{run_code, next_of, is_ready};
ghost use Rattle.rast_core.specs.Promises.{IsFullRun, IsGoing, IsTurn, CameTo};

use crate::answer::{Ahead, Next, Outcome};
use crate::config::Config;
use crate::schedule::Schedule;
use rast_items::{Event, Pid};
use rast_rules::Plan;
use rast_terms::Program;
use std::alloc::{AllocError, Global};

/// A run to its end, or to its budget.
#[derive(Drop)]
pub struct FullRun {
    /// What it came to, with room for the rest of the budget.
    pub config: Config,
    /// Its events.
    pub history: Vec<Event>,
    /// How far it came; never `Running`.
    pub outcome: Outcome,
}

/// Runs a program from its main on one thread, until no process has an event or so many events
/// are done.
pub fn run(alloc: Global, program: &Program, plan: Plan, budget: u32) -> Result<FullRun, AllocError>
    requires { IsReady (run_code program.now plan) }
    ensures run { IfOk result (λ r. IsFullRun program.now plan budget r.config r.history.items) }
    ensures outcome { IfOk result (λ r. CameTo program.now budget r.config r.history.items r.outcome) }
{
    let mut config = Config::start(alloc, program, plan, budget)?;
    let mut history = Vec::new(alloc);
    let mut schedule = Schedule::new(alloc)?;
    for _done in 0..budget {
        match take_turn(program, &mut config, &mut schedule)? {
            Turn::Did(event) => history.push(event)?,
            Turn::Over(outcome) => {
                return Ok(FullRun {
                    config,
                    history,
                    outcome,
                });
            }
        }
    }
    let outcome = config.outcome(program, budget, budget);
    Ok(FullRun {
        config,
        history,
        outcome,
    })
}

/// What a turn comes to.
#[derive(Clone, Copy)]
pub(crate) enum Turn {
    /// This event was done.
    Did(Event),
    /// No process has an event, and the run ends so.
    Over(Outcome),
}

/// The next event of some process; over exactly where no process has one.
fn take_turn(
    program: &Program,
    config: &mut Config,
    schedule: &mut Schedule,
) -> Result<Turn, AllocError>
    requires going { IsGoing program.now config.old }
    requires spare { 1 ≤ config.old.spare }
    ensures { IfOk result (λ turn. IsTurn program.now config.old turn config.new) }
{
    while let Some(pid) = schedule.next() {
        match config.step(program, pid) {
            Next::Ready(event) => {
                schedule.done(&event)?;
                return Ok(Turn::Did(event));
            }
            Next::Waits(link) => schedule.wait(pid, link)?,
            _ => {}
        }
    }
    match config.ahead(program) {
        Ahead::Event(pid) => do_first(program, config, schedule, pid),
        Ahead::Limit { pid, value } => Ok(Turn::Over(Outcome::IndexLimit { pid, value })),
        Ahead::Nothing => Ok(Turn::Over(Outcome::Finished)),
    }
}

/// The event of a process that has one.
fn do_first(
    program: &Program,
    config: &mut Config,
    schedule: &mut Schedule,
    pid: Pid,
) -> Result<Turn, AllocError>
    requires going { IsGoing program.now config.old }
    requires spare { 1 ≤ config.old.spare }
    requires ready { is_ready (next_of program.now config.old pid) ≡ true }
    ensures { IfOk result (λ turn. IsTurn program.now config.old turn config.new) }
{
    match config.step(program, pid) {
        Next::Ready(event) => {
            schedule.done(&event)?;
            Ok(Turn::Did(event))
        }
        _ => unreachable!(),
    }
}
