// A whole file read, and a whole text written.
ghost use Rattle.std.specs.Prelude.{◌≡◌, ◌<◌, ◌≤◌, List, ℕ, length, take, IfOk, IfErr, OnOk, OnErr, IsErrOf};
ghost use Rattle.std.specs.Io.KnownBytes.{Appends, IsAtEnd};
ghost use Rattle.rast_io.specs.Causes.{Rose};
ghost use Rattle.rast_io.specs.Bytes.{Holds};

use crate::{Failed, Files, Sink};
use std::alloc::{AllocError, Global};

/// The most bytes that a file may have.
pub const LIMIT: usize = 1_048_576;

const PIECE: usize = 4096;

/// Why a file wasn't read.
#[derive(Clone, Copy, Debug, PartialEq, Eq)]
pub enum ReadErr {
    /// A call on the files failed.
    Fault,
    /// The file gives more than `LIMIT` bytes.
    TooLong,
    /// Memory is wanting.
    Memory,
}

/// A write failed.
#[derive(Clone, Copy, Debug, PartialEq, Eq)]
pub struct WriteFault {
    /// How many bytes of the text were taken before, from its beginning on.
    pub written: usize,
}

/// Opens the file `name` and reads it to its end.
///
/// `Fault` comes only where the count of faults rose in this call, and `TooLong` exactly where no fault came first
/// and the file gives more than `LIMIT` bytes. After any answer the files are held as before.
pub fn read_all<F: Files>(alloc: Global, files: &mut F, name: &str) -> Result<Vec<u8>, ReadErr>
    ensures bytes { IfOk result (λ bytes. Holds (F.held files.old) name.now bytes.items × (length bytes.items ≤ LIMIT)) }
    ensures too_long { IsErrOf result ReadErr.TooLong → (bytes : List ℕ) × Holds (F.held files.old) name.now bytes × (LIMIT < length bytes) }
    ensures fault { IsErrOf result ReadErr.Fault → Rose (F.faults files.old) (F.faults files.new) }
    ensures later { F.faults files.old ≤ F.faults files.new }
    ensures no_fault_first { (IsErrOf result ReadErr.Fault → ⊥) → F.faults files.new ≡ F.faults files.old }
    ensures held { F.held files.new ≡ F.held files.old }
    ensures at_end { OnOk result (IsAtEnd (F.left files.new)) }
{
    if let Err(Failed) = files.open(name) {
        return Err(ReadErr::Fault);
    }
    let mut bytes = Vec::new(alloc);
    let mut piece = [0; PIECE];
    loop {
        let Ok(count) = files.read(&mut piece) else {
            return Err(ReadErr::Fault);
        };
        if count == 0 {
            return Ok(bytes);
        }
        if count > LIMIT - bytes.len() {
            return Err(ReadErr::TooLong);
        }
        let Ok(()) = bytes.extend_from_slice(&piece[..count]) else {
            return Err(ReadErr::Memory);
        };
    }
}

/// Writes the whole `text`, piece by piece. It takes no memory.
///
/// A fault comes only where the count of faults rose in this call; then a beginning of the text was taken.
pub fn write_all<O: Sink>(sink: &mut O, text: &[u8]) -> Result<(), WriteFault>
    ensures whole { OnOk result (Appends (O.told sink.old) (O.told sink.new) text.now) }
    ensures part { IfErr result (λ e. Appends (O.told sink.old) (O.told sink.new) (take e.written text.now)) }
    ensures written { IfErr result (λ e. e.written < length text.now) }
    ensures fault { OnErr result (Rose (O.faults sink.old) (O.faults sink.new)) }
    ensures later { O.faults sink.old ≤ O.faults sink.new }
    ensures kept { OnOk result (O.faults sink.new ≡ O.faults sink.old) }
{
    let mut written = 0;
    while written < text.len() {
        match sink.write(&text[written..]) {
            Ok(count) => written += count,
            Err(Failed) => return Err(WriteFault { written }),
        }
    }
    Ok(())
}
