// What is said of the commands that were tried.
ghost use Rattle.std.specs.Prelude.{◌≡◌, ◌+◌, ◌-◌, ◌^◌, min};

use std::alloc::{AllocError, Global};

/// How many commands did what is written, how many didn't, and what is to be printed of these.
#[derive(Drop)]
pub(crate) struct Report {
    text: String,
    passed: u32,
    failed: u32,
}

impl Report {
    /// No command was tried.
    pub(crate) fn new(alloc: Global) -> Self
        ensures passed { result.passed ≡ 0 }
        ensures failed { result.failed ≡ 0 }
    {
        Report {
            text: String::new(alloc),
            passed: 0,
            failed: 0,
        }
    }

    /// What is to be printed.
    pub(crate) fn text(&self) -> &str {
        self.text.as_str()
    }

    /// How many commands did what is written.
    pub(crate) fn passed(&self) -> u32
        ensures { result ≡ self.now.passed }
    {
        self.passed
    }

    /// How many did not, with the faults of the case files.
    pub(crate) fn failed(&self) -> u32
        ensures { result ≡ self.now.failed }
    {
        self.failed
    }

    /// What was to be printed was printed.
    pub(crate) fn clear(&mut self)
        ensures passed { self.new.passed ≡ self.old.passed }
        ensures failed { self.new.failed ≡ self.old.failed }
    {
        self.text.clear();
    }

    /// A command did what is written.
    pub(crate) fn pass(&mut self)
        ensures passed { self.new.passed ≡ min (self.old.passed + 1) (2 ^ 32 - 1) }
        ensures failed { self.new.failed ≡ self.old.failed }
    {
        self.passed = self.passed.saturating_add(1);
    }

    /// A command did not, or a line isn't one of a case file.
    pub(crate) fn fail(&mut self, text: &str) -> Result<(), AllocError>
        ensures passed { self.new.passed ≡ self.old.passed }
        ensures failed { self.new.failed ≡ min (self.old.failed + 1) (2 ^ 32 - 1) }
    {
        self.failed = self.failed.saturating_add(1);
        self.text.push_str(text)
    }
}
