// Runs of lists of picks.
ghost use Rattle.std.specs.Prelude.{◌≡◌, ◌<◌, ◌^◌, IfOk, IfErr, length};
ghost use Rattle.rast_laws.specs.Sound.{IsReady};
ghost use Rattle.rast_core.specs.Shown.{run_code};
ghost use Rattle.rast_core.specs.Promises.{Replayed, IsRefusedAt};

use crate::answer::{Next, ReplayErr};
use crate::config::Config;
use rast_items::{Event, Pid};
use rast_rules::Plan;
use rast_terms::Program;
use std::alloc::Global;

/// Runs a program from its main, each pick doing its process's next event: the configuration then, and the events.
///
/// Each process of a run has at most one next event, so the picks determine the run.
/// The configuration keeps `plan`, and has room for no event more.
///
/// # Errors
///
/// `At` names the first of the `picks`, counted from 0, whose process has no event when its turn comes.
pub fn replay(
    alloc: Global,
    program: &Program,
    plan: Plan,
    picks: &[Pid],
) -> Result<(Config, Vec<Event>), ReplayErr>
    requires ready { IsReady (run_code program.now plan) }
    requires few { length picks.now < 2 ^ 32 }
    ensures run { IfOk result (λ r. Replayed program.now plan picks.now r.0 r.1.items) }
    ensures refused { IfErr result (λ e. IsRefusedAt program.now plan picks.now e) }
{
    let mut config = Config::start(alloc, program, plan, picks.len() as u32)?;
    let mut history = Vec::new(alloc);
    for place in 0..picks.len() {
        match config.step(program, picks[place]) {
            Next::Ready(event) => history.push(event)?,
            _ => return Err(refused(place)),
        }
    }
    Ok((config, history))
}

/// The pick at a place is refused.
fn refused(place: usize) -> ReplayErr
    requires { place < 2 ^ 32 }
    ensures { result ≡ ReplayErr.At place }
{
    ReplayErr::At {
        place: place as u32,
    }
}
