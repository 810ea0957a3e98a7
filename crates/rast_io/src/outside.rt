// What the program asks of the outside, and what it may rely on.
ghost use Rattle.std.specs.Prelude.{◌≡◌, ◌<◌, ◌≤◌, List, ℕ, length, take, IfOk, OnOk};
ghost use Rattle.std.specs.declared.option.Option.{Option};
ghost use Rattle.std.specs.Io.{ReadsAtMost};
ghost use Rattle.std.specs.Io.KnownBytes.{WriteAppends};
ghost use Rattle.rast_io.specs.Causes.{HasCause};
ghost use Rattle.rast_io.specs.Bytes.{Named, Opens, ReadTakes};

/// A call failed, and its object has counted a fault.
#[derive(Clone, Copy, Debug, PartialEq, Eq)]
pub struct Failed;

/// Files that are opened by name and read from their beginning, one at a time.
pub trait Files {
    /// The files by name, where they are told.
    ghost held: { Self → Option Named };

    /// The bytes of the open file that weren't read yet, where they are told.
    ghost left: { Self → Option (List ℕ) };

    /// How often a call has failed. It never falls.
    ghost faults: { Self → ℕ };

    /// Opens the file `name` in place of the one that was open. A missing name is a fault.
    fn open(&mut self, name: &str) -> Result<(), Failed>
        ensures opened { OnOk result (Opens (held self.old) name.now (left self.new)) }
        ensures held { held self.new ≡ held self.old }
        ensures cause { HasCause (faults self.old) (faults self.new) result };

    /// Reads the next bytes of the open file into the beginning of `buf`, and answers how many:
    /// none only at the end, or where `buf` is empty.
    fn read(&mut self, buf: &mut [u8]) -> Result<usize, Failed>
        ensures bound { ReadsAtMost result buf.new }
        ensures bytes { ReadTakes (left self.old) (left self.new) result buf.new }
        ensures held { held self.new ≡ held self.old }
        ensures cause { HasCause (faults self.old) (faults self.new) result };
}

/// Where a text is written.
pub trait Sink {
    /// All bytes that were taken, where they are told.
    ghost told: { Self → Option (List ℕ) };

    /// How often a call has failed. It never falls.
    ghost faults: { Self → ℕ };

    /// Takes the first bytes of `piece`, and answers how many: at least one of a piece that isn't empty.
    /// A call that fails takes none.
    fn write(&mut self, piece: &[u8]) -> Result<usize, Failed>
        ensures bound { IfOk result (λ n. n ≤ length piece.now) }
        ensures some { IfOk result (λ n. 0 < length piece.now → 0 < n) }
        ensures bytes { WriteAppends (told self.old) (told self.new) result piece.now }
        ensures cause { HasCause (faults self.old) (faults self.new) result };
}
