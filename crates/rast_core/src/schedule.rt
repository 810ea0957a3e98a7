// The order in which one thread steps processes.
ghost use Rattle.std.specs.Prelude.{◌≡◌, ◌+◌, MatchOption, OnOk, vec_len};

use rast_items::{Event, Link, Pid};
use std::alloc::{AllocError, Global};
use std::collections::BTreeMap;

/// How many events a process does before one that it woke or made has its turn.
const STREAK: u32 = 32;

/// Processes that may have an event, the next one last, and those that were found waiting, by their links.
/// It only says where to look: whether a process has an event is asked of the configuration.
#[derive(Drop)]
pub(crate) struct Schedule {
    ready: Vec<Pid>,
    waiting: BTreeMap<u64, Pid>,
    /// The process that did the event before, how many it did one after another,
    /// and whether one that it woke or made meanwhile comes after it.
    last: Pid,
    streak: u32,
    followed: bool,
}

impl Schedule {
    /// Main is looked at first.
    pub(crate) fn new(alloc: Global) -> Result<Schedule, AllocError> {
        let mut ready = Vec::new(alloc);
        ready.push(Pid(0))?;
        Ok(Schedule {
            ready,
            waiting: BTreeMap::new(alloc),
            last: Pid(0),
            streak: 0,
            followed: false,
        })
    }

    /// The process to look at next.
    pub(crate) fn next(&mut self) -> Option<Pid>
        ensures { MatchOption result (vec_len self.old.ready ≡ 0) (λ _. vec_len self.new.ready + 1 ≡ vec_len self.old.ready) }
    {
        self.ready.pop()
    }

    /// A process waits on a link.
    pub(crate) fn wait(&mut self, pid: Pid, link: Link) -> Result<(), AllocError>
        ensures { OnOk result (vec_len self.new.ready ≡ vec_len self.old.ready) }
    {
        let _before = self.waiting.insert(key(link), pid)?;
        Ok(())
    }

    /// A process has done an event. It goes on, and after it comes its child or the process that waited for its message.
    pub(crate) fn done(&mut self, event: &Event) -> Result<(), AllocError> {
        match event {
            Event::Send { pid, link, .. } => {
                self.count(*pid);
                self.wake(*link)?;
                self.go_on(*pid)
            }
            Event::Move { to, .. } => self.wake(*to),
            Event::Spawn { pid, child, .. } => {
                self.count(*pid);
                self.follow(*child)?;
                self.go_on(*pid)
            }
            Event::Take { pid, .. }
            | Event::Call { pid, .. }
            | Event::Work { pid, .. }
            | Event::Delay { pid, .. } => {
                self.count(*pid);
                self.go_on(*pid)
            }
        }
    }

    /// One more event of a process.
    fn count(&mut self, pid: Pid) {
        if pid.is(self.last) {
            self.streak = self.streak.saturating_add(1);
        } else {
            self.last = pid;
            self.streak = 1;
            self.followed = false;
        }
    }

    /// A process goes on. After a streak one that it woke or made comes first, so that few messages wait.
    fn go_on(&mut self, pid: Pid) -> Result<(), AllocError> {
        if self.streak < STREAK || !self.followed {
            self.ready.push(pid)?;
            return Ok(());
        }
        self.streak = 0;
        self.followed = false;
        let after = self.ready.pop();
        self.ready.push(pid)?;
        if let Some(other) = after {
            self.ready.push(other)?;
        }
        Ok(())
    }

    /// A process comes after the one that does an event.
    fn follow(&mut self, pid: Pid) -> Result<(), AllocError> {
        self.ready.push(pid)?;
        self.followed = true;
        Ok(())
    }

    fn wake(&mut self, link: Link) -> Result<(), AllocError> {
        match self.waiting.remove(&key(link)) {
            Some(pid) => self.follow(pid),
            None => Ok(()),
        }
    }
}

fn key(link: Link) -> u64 {
    ((link.session.0 as u64) << 32) | link.index as u64
}
