// The calls that are made on an object in memory, and which of them are to fail.
ghost use Rattle.std.specs.Prelude.{◌≡◌, ◌≤◌, ◌+◌, ◌↔◌, ◌^◌, ◌-◌, ◌++◌, ◌∷◌, [], IsTrue, Contains, min, OnOk, OnErr};
ghost use Rattle.rast_io.specs.Causes.{Rose};

use std::alloc::{AllocError, Global};

// Which calls are to fail, how many were made, and how many have failed.
#[derive(Drop)]
pub(crate) struct Calls {
    pub(crate) listed: Vec<u64>,
    pub(crate) done: u64,
    pub(crate) faults: u64,
}

impl Calls {
    pub(crate) fn new(alloc: Global) -> Self
        ensures listed { result.listed.items ≡ [] }
        ensures done { result.done ≡ 0 }
        ensures faults { result.faults ≡ 0 }
    {
        Calls {
            listed: Vec::new(alloc),
            done: 0,
            faults: 0,
        }
    }

    // Lists a call by its number, counted from 1.
    pub(crate) fn list(&mut self, call: u32) -> Result<(), AllocError>
        ensures listed { OnOk result (self.new.listed.items ≡ self.old.listed.items ++ call ∷ []) }
        ensures same { OnErr result (self.new.listed.items ≡ self.old.listed.items) }
        ensures done { self.new.done ≡ self.old.done }
        ensures faults { self.new.faults ≡ self.old.faults }
    {
        self.listed.push(u64::from(call))?;
        Ok(())
    }

    // Counts a call, and says whether it is to fail.
    pub(crate) fn begin(&mut self) -> bool
        ensures fails { IsTrue result ↔ Contains self.old.listed.items (min (self.old.done + 1) (2 ^ 64 - 1)) }
        ensures done { self.new.done ≡ min (self.old.done + 1) (2 ^ 64 - 1) }
        ensures listed { self.new.listed.items ≡ self.old.listed.items }
        ensures faults { self.new.faults ≡ self.old.faults }
    {
        self.done = self.done.saturating_add(1);
        self.listed.contains(&self.done)
    }

    // Counts a fault.
    pub(crate) fn fail(&mut self)
        ensures counted { self.new.faults ≡ min (self.old.faults + 1) (2 ^ 64 - 1) }
        ensures rose { Rose self.old.faults self.new.faults }
        ensures later { self.old.faults ≤ self.new.faults }
        ensures done { self.new.done ≡ self.old.done }
        ensures listed { self.new.listed.items ≡ self.old.listed.items }
    {
        self.faults = self.faults.saturating_add(1);
    }
}
