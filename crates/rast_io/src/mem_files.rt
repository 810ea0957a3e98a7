// Files in memory, which tell their content and fail at the calls that are listed.
ghost use Rattle.std.specs.Prelude.{◌≡◌, ◌<◌, ◌+◌, ◌⊎◌, ◌↔◌, ◌^◌, ◌-◌, ◌++◌, ◌∷◌, [], Contains, List, ℕ, length, take, drop, min, OnOk, OnErr, IsErr, Some, None, MatchOption, IfSome, string_bytes};
ghost use Rattle.std.specs.Option.{ForSome};
ghost use Rattle.std.specs.Io.{ReadsAtMost};
ghost use Rattle.rast_io.specs.Causes.{HasCause};
ghost use Rattle.rast_io.specs.Bytes.{Opens, ReadTakes};
ghost use Rattle.rast_io.specs.Held.{newest_of, bytes_at, left_of, IsPlaced};

use crate::calls::Calls;
use crate::{Failed, Files};
use std::alloc::{AllocError, Global};

// A file, or what stood under its name before.
#[derive(Drop)]
struct File {
    name: String,
    bytes: Vec<u8>,
}

// A file that is read: its place, and how many of its bytes were read.
#[derive(Clone, Copy)]
struct Open {
    place: usize,
    read: usize,
}

/// Files in memory, by name.
#[derive(Drop)]
pub struct MemFiles {
    calls: Calls,
    files: Vec<File>,
    current: Option<Open>,
    ghost placed: { ForSome current (IsPlaced files.items) },
}

// The newest file of this name.
fn newest(files: &[File], name: &str) -> Option<usize>
    ensures found { MatchOption result (newest_of files.now name.now ≡ None) (λ i. newest_of files.now name.now ≡ Some (bytes_at files.now i)) }
    ensures within { IfSome result (λ i. i < length files.now) }
{
    let mut found = None;
    for (i, file) in files.iter().enumerate() {
        if file.name.as_str() == name {
            found = Some(i);
        }
    }
    found
}

// What is left of an open file.
#[tactic(auto, using(crate::proofs::Stored::bytes_at_is))]
fn rest_of(files: &[File], file: Open) -> &[u8]
    requires { IsPlaced files.now file }
    ensures rest { result.now ≡ drop file.read (bytes_at files.now file.place) }
    ensures fits { file.read + length result.now < 2 ^ 64 }
{
    let bytes = &files[file.place].bytes;
    &bytes[file.read..]
}

// Copies the first bytes.
fn give(rest: &[u8], buf: &mut [u8]) -> usize
    ensures count { result ≡ min (length rest.now) (length buf.new) }
    ensures given { take result buf.new ≡ take result rest.now }
{
    let count = rest.len().min(buf.len());
    buf[..count].copy_from_slice(&rest[..count]);
    count
}

impl MemFiles {
    ghost use Rattle.rast_io.specs.FilesInMemory.{files_held, files_left, files_calls, files_listed, files_faults, with_file};

    /// No files.
    pub fn new(alloc: Global) -> Self
        ensures held { files_held result ≡ (λ _. None) }
        ensures left { files_left result ≡ None }
        ensures calls { files_calls result ≡ 0 }
        ensures listed { files_listed result ≡ [] }
        ensures faults { files_faults result ≡ 0 }
    {
        MemFiles {
            calls: Calls::new(alloc),
            files: Vec::new(alloc),
            current: None,
        }
    }

    /// Puts a file in the place of an older one of its name. A file that is open is read on as it was.
    /// After an error the files are as they were.
    pub fn put(&mut self, name: String, bytes: Vec<u8>) -> Result<(), AllocError>
        ensures held { OnOk result ((n : List ℕ) → files_held self.new n ≡ with_file (files_held self.old) (string_bytes name) bytes.items n) }
        ensures err { OnErr result (files_held self.new ≡ files_held self.old) }
        ensures left { files_left self.new ≡ files_left self.old }
        ensures calls { files_calls self.new ≡ files_calls self.old }
        ensures listed { files_listed self.new ≡ files_listed self.old }
        ensures faults { files_faults self.new ≡ files_faults self.old }
    {
        match self.files.push(File { name, bytes }) {
            Ok(()) => Ok(()),
            Err(_) => Err(AllocError),
        }
    }

    /// Lets the call with the number `call`, counted from 1 over `open` and `read`, fail.
    /// After an error the files are as they were.
    pub fn fail_at(&mut self, call: u32) -> Result<(), AllocError>
        ensures listed { OnOk result (files_listed self.new ≡ files_listed self.old ++ call ∷ []) }
        ensures err { OnErr result (files_listed self.new ≡ files_listed self.old) }
        ensures held { files_held self.new ≡ files_held self.old }
        ensures left { files_left self.new ≡ files_left self.old }
        ensures calls { files_calls self.new ≡ files_calls self.old }
        ensures faults { files_faults self.new ≡ files_faults self.old }
    {
        self.calls.list(call)
    }
}

impl Files for MemFiles {
    ghost use Rattle.rast_io.specs.FilesInMemory.{files_held, files_left, files_calls, files_listed, files_faults};

    ghost held = { λ s. Some (newest_of s.files.items) };

    ghost left = { λ s. left_of s.files.items s.current };

    ghost faults = { λ s. s.calls.faults };

    fn open(&mut self, name: &str) -> Result<(), Failed>
        ensures opened { OnOk result (Opens (Some (files_held self.old)) name.now (files_left self.new)) }
        ensures held { Some (files_held self.new) ≡ Some (files_held self.old) }
        ensures cause { HasCause (files_faults self.old) (files_faults self.new) result }

        // A call fails exactly where it is listed, or where no file of this name is held; then no file is open.
        ensures fails { IsErr result ↔ (Contains (files_listed self.old) (files_calls self.new) ⊎ (files_held self.old name.now ≡ None)) }
        ensures closed { OnErr result (files_left self.new ≡ None) }

        ensures calls { files_calls self.new ≡ min (files_calls self.old + 1) (2 ^ 64 - 1) }
        ensures listed { files_listed self.new ≡ files_listed self.old }
    {
        let listed = self.calls.begin();
        self.current = None;
        match newest(&self.files, name) {
            Some(place) if !listed => {
                self.current = Some(Open { place, read: 0 });
                Ok(())
            }
            _ => {
                self.calls.fail();
                Err(Failed)
            }
        }
    }

    fn read(&mut self, buf: &mut [u8]) -> Result<usize, Failed>
        ensures bound { ReadsAtMost result buf.new }
        ensures bytes { ReadTakes (files_left self.old) (files_left self.new) result buf.new }
        ensures held { Some (files_held self.new) ≡ Some (files_held self.old) }
        ensures cause { HasCause (files_faults self.old) (files_faults self.new) result }

        // A call fails exactly where it is listed, or where no file is open.
        ensures fails { IsErr result ↔ (Contains (files_listed self.old) (files_calls self.new) ⊎ (files_left self.old ≡ None)) }
        ensures left { OnErr result (files_left self.new ≡ files_left self.old) }

        ensures calls { files_calls self.new ≡ min (files_calls self.old + 1) (2 ^ 64 - 1) }
        ensures listed { files_listed self.new ≡ files_listed self.old }
    {
        let listed = self.calls.begin();
        if !listed && let Some(open) = self.current {
            let rest = rest_of(&self.files, open);
            let count = give(rest, buf);
            self.current = Some(Open {
                place: open.place,
                read: open.read + count,
            });
            return Ok(count);
        }
        self.calls.fail();
        Err(Failed)
    }
}
