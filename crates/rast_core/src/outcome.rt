// How far a run has come.
ghost use Rattle.std.specs.Prelude.{◌≡◌, slice_get};
ghost use Rattle.rast_core.specs.Shown.{outcome};
ghost use Rattle.rast_core.specs.Handles.{Lies, rest};
ghost use Rattle.rast_core.specs.Looks.{ahead_item, earlier};
ghost use Rattle.rast_core.specs.Promises.{IsAhead, IsGoing, Finishes};

use crate::answer::{Ahead, Next, Outcome};
use crate::config::Config;
use crate::handle::Handle;
use rast_terms::Program;

impl Config {
    /// How far a run of so many events has come that led here, under a budget of events.
    /// It takes no memory.
    pub fn outcome(&self, program: &Program, events: u32, budget: u32) -> Outcome
        requires { IsGoing program.now self.now }
        ensures value { result ≡ outcome program.now self.now events budget }
        ensures finished { Finishes program.now self.now result }
    {
        self.how_far(program, events, budget)
    }

    // How far a run of so many events has come.
    fn how_far(&self, program: &Program, events: u32, budget: u32) -> Outcome
        requires { IsGoing program.now self.now }
        ensures { result ≡ outcome program.now self.now events budget }
    {
        match self.ahead(program) {
            Ahead::Event(_) => {
                if events == budget {
                    Outcome::OutOfBudget
                } else {
                    Outcome::Running
                }
            }
            Ahead::Limit { pid, value } => Outcome::IndexLimit { pid, value },
            Ahead::Nothing => Outcome::Finished,
        }
    }

    /// What lies ahead: one look at each process, up to the first that has an event.
    /// It takes no memory.
    pub fn ahead(&self, program: &Program) -> Ahead
        requires { IsGoing program.now self.now }
        ensures { IsAhead program.now self.now result }
    {
        let mut ahead = Ahead::Nothing;
        let mut at = self.first();
        while let Some(handle) = at {
            ahead = earlier(ahead, self.ahead_at(program, handle));
            if let Ahead::Event(_) = ahead {
                return ahead;
            }
            at = self.after(handle);
        }
        ahead
    }

    // What lies ahead of the item that lies there.
    fn ahead_at(&self, program: &Program, handle: Handle) -> Ahead
        requires going { IsGoing program.now self.now }
        requires lies { Lies self.now handle }
        ensures { result ≡ ahead_item program.now self.now (slice_get (rest self.now handle) 0) }
    {
        match self.next_at(program, handle) {
            Some((pid, next)) => match next {
                Next::Ready(_) => Ahead::Event(pid),
                Next::Halted(value) => Ahead::Limit { pid, value },
                _ => Ahead::Nothing,
            },
            None => Ahead::Nothing,
        }
    }
}

/// What lies ahead of some items and then others: an event of any of them before all else.
fn earlier(ahead: Ahead, later: Ahead) -> Ahead
    ensures { result ≡ earlier ahead later }
{
    match (ahead, later) {
        (Ahead::Limit { .. }, Ahead::Event(_)) => later,
        (Ahead::Nothing, _) => later,
        _ => ahead,
    }
}
