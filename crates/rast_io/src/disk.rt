// Real files and the real standard output, which tell no content.
use crate::{Failed, Files, Sink};
use std::io::{self, Read, Write};
use std::{fs, rt};

/// Files of the file system, reached through the runtime `rt`.
#[derive(Drop)]
pub struct DiskFiles<'a, R: rt::Files> {
    rt: &'a R,
    open: Option<R::File>,
    faults: u64,
}

impl<'a, R: rt::Files> DiskFiles<'a, R> {
    ghost use Rattle.std.specs.Prelude.{◌≡◌};

    /// No file is open, and no call has failed.
    pub fn new(rt: &'a R) -> Self
        ensures { result.faults ≡ 0 }
    {
        DiskFiles {
            rt,
            open: None,
            faults: 0,
        }
    }
}

impl<'a, R: rt::Files> Files for DiskFiles<'a, R> {
    ghost use Rattle.std.specs.Prelude.{None};

    ghost held = { λ _. None };

    ghost left = { λ _. None };

    ghost faults = { λ s. s.faults };

    fn open(&mut self, name: &str) -> Result<(), Failed> {
        match fs::open(self.rt, name) {
            Ok(file) => {
                self.open = Some(file);
                Ok(())
            }
            Err(_) => {
                self.open = None;
                self.faults = self.faults.saturating_add(1);
                Err(Failed)
            }
        }
    }

    fn read(&mut self, buf: &mut [u8]) -> Result<usize, Failed> {
        if let Some(file) = &mut self.open
            && let Ok(count) = file.read(buf)
        {
            return Ok(count);
        }
        self.faults = self.faults.saturating_add(1);
        Err(Failed)
    }
}

/// Standard output, reached through the runtime `rt`.
#[derive(Drop)]
pub struct StdSink<'a, P: Print> {
    rt: &'a P,
    faults: u64,
}

impl<'a, P: Print> StdSink<'a, P> {
    ghost use Rattle.std.specs.Prelude.{◌≡◌};

    /// No call has failed.
    pub fn new(rt: &'a P) -> Self
        ensures { result.faults ≡ 0 }
    {
        StdSink { rt, faults: 0 }
    }
}

impl<'a, P: Print> Sink for StdSink<'a, P> {
    ghost use Rattle.std.specs.Prelude.{None};

    ghost told = { λ _. None };

    ghost faults = { λ s. s.faults };

    fn write(&mut self, piece: &[u8]) -> Result<usize, Failed> {
        match io::writer(self.rt).write(piece) {
            Ok(count) if count > 0 || piece.is_empty() => Ok(count),
            _ => {
                self.faults = self.faults.saturating_add(1);
                Err(Failed)
            }
        }
    }
}
