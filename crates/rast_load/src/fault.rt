// Why a text is no file, with the exit status and the line of each reason.
ghost use Rattle.std.specs.Prelude.{◌≡◌, ◌++◌, IfOk, codes};
ghost use Rattle.std.specs.Fmt.{decimal};
ghost use Rattle.rast_load.specs.Lines.{fault_line, fault_status};

use std::alloc::{AllocError, Global};

/// Why a text is no file: its first fault. `at` is the place of a byte, counted from 0.
#[derive(Clone, Copy, Debug, PartialEq, Eq)]
pub enum TextFault {
    /// A byte that begins no token, or a byte above 127 in a comment.
    BadByte { at: u32 },
    /// Digits with a leading zero, or of a value of 2^32 or more.
    BadNumber { at: u32 },
    /// A name of more than 64 bytes.
    LongName { at: u32 },
    /// The token with which the text begins no file; the text's length where it ends too early.
    Syntax { at: u32 },
    /// The token at which a 65th nonterminal is open.
    TooDeep { at: u32 },
}

/// The exit status: 5 where the text is nested too deep, which is a bound, and else 1.
pub fn status(fault: TextFault) -> u8
    ensures { result ≡ fault_status fault }
{
    match fault {
        TextFault::BadByte { .. }
        | TextFault::BadNumber { .. }
        | TextFault::LongName { .. }
        | TextFault::Syntax { .. } => 1,
        TextFault::TooDeep { .. } => 5,
    }
}

// A line that ends with a place.
fn placed(alloc: Global, words: &[u8], at: u32) -> Result<Vec<u8>, AllocError>
    ensures { IfOk result (λ line. line.items ≡ words.now ++ decimal at ++ codes "\n") }
{
    let mut line = words.to_vec(alloc)?;
    let place = format!(in alloc; "{at}\n")?;
    line.extend_from_slice(place.as_bytes())?;
    Ok(line)
}

/// The line of a fault, with its end.
pub fn line(alloc: Global, fault: TextFault) -> Result<Vec<u8>, AllocError>
    ensures { IfOk result (λ line. line.items ≡ fault_line fault) }
{
    match fault {
        TextFault::BadByte { at } => placed(alloc, b"refused: bad byte at byte ", at),
        TextFault::BadNumber { at } => placed(alloc, b"refused: number at byte ", at),
        TextFault::LongName { at } => placed(alloc, b"refused: name at byte ", at),
        TextFault::Syntax { at } => placed(alloc, b"refused: syntax at byte ", at),
        TextFault::TooDeep { at } => placed(alloc, b"bound: nesting at byte ", at),
    }
}
