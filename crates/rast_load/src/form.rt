// The file of built forms that a text is.
ghost use Rattle.std.specs.Prelude.{◌≡◌, ◌≤◌, length, IfOk, IfErr};
ghost use Rattle.rast_ast.specs.declared.file.File.{File};
ghost use Rattle.rast_load.specs.Reading.{IsFile};
ghost use Rattle.rast_load.specs.Forms.{IsBuiltFile, IsUnread, of_text};

use crate::built::unbuilt;
use crate::fault::TextFault;
use crate::text_file::{ReadText, TextErr, read_tokens};
use rast_ast::File;
use rast_io::LIMIT;
use std::alloc::Global;

/// Why a text isn't read as a file of built forms. `at` is the place of a byte, counted from 0.
#[derive(Clone, Copy, Debug, PartialEq, Eq)]
pub enum FormErr {
    /// The text is no file.
    NoFile(TextFault),
    /// The text is a file, and this is the first token of a form that isn't built.
    NotYet { at: u32 },
    /// Want of memory.
    Memory,
}

fn of_text(why: TextErr) -> FormErr
    ensures { result ≡ of_text why }
{
    match why {
        TextErr::NoFile(fault) => FormErr::NoFile(fault),
        TextErr::Memory => FormErr::Memory,
    }
}

/// The file that a text of at most 1,048,576 bytes is, where each of its forms is built.
///
/// # Errors
/// The first fault, exactly where the text is no file; or else its first token that isn't built; or want of memory.
pub fn read_built(alloc: Global, text: &[u8]) -> Result<File, FormErr>
    requires { length text.now ≤ LIMIT }
    ensures file { IfOk result (IsBuiltFile text.now) }
    ensures only { IfOk result (λ file. (other : File) → IsFile text.now other → file ≡ other) }
    ensures unread { IfErr result (IsUnread text.now) }
{
    let ReadText { tokens, file } = match read_tokens(alloc, text) {
        Ok(read) => read,
        Err(why) => return Err(of_text(why)),
    };
    match unbuilt(&tokens) {
        Some(at) => Err(FormErr::NotYet { at }),
        None => Ok(file),
    }
}
