// The way from main to a process.
ghost use Rattle.std.specs.Prelude.{◌<◌, IfOk, length};
ghost use Rattle.rast_core.specs.Paths.{IsPath};

use crate::config::Config;
use rast_items::Pid;
use std::alloc::{AllocError, Global};

impl Config {
    /// The spawn path of a process, oldest first. Main's is empty. A child's is its parent's path, and then
    /// its ordinal, counted from 1, among the children that its parent has spawned.
    /// So the path names a process in every run in the same way, and its number doesn't.
    ///
    /// `pid` is the number of a process that was made (`process_count` tells how many were), which may have ended since.
    pub fn path(&self, alloc: Global, pid: Pid) -> Result<Vec<u32>, AllocError>
        requires { pid.0 < length self.now.origins }
        ensures { IfOk result (λ path. IsPath self.now pid path.items) }
    {
        let origins = self.origins();
        let mut path = Vec::new(alloc);
        let mut at = pid;
        while at.0 != 0 {
            let origin = origins[at.0 as usize];
            path.push(origin.ordinal)?;
            at = origin.parent;
        }
        path.reverse();
        Ok(path)
    }
}
