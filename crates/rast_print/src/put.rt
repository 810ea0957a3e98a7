// What every part of a text is written by.
ghost use Rattle.std.specs.Prelude.{◌≡◌, ◌++◌, OnOk};
ghost use Rattle.std.specs.Fmt.{decimal};
ghost use Rattle.rast_print.specs.Joined.{braced};

use rast_ast::Name;
use std::alloc::{AllocError, Global};

/// Appends these bytes.
pub fn put(out: &mut Vec<u8>, text: &[u8]) -> Result<(), AllocError>
    ensures { OnOk result (out.new.items ≡ out.old.items ++ text.now) }
{
    out.extend_from_slice(text)
}

/// Appends a name in braces.
pub fn put_braced_name(out: &mut Vec<u8>, name: &Name) -> Result<(), AllocError>
    ensures { OnOk result (out.new.items ≡ out.old.items ++ braced name.now) }
{
    put(out, b"{")?;
    put(out, name.as_bytes())?;
    put(out, b"}")
}

/// Appends the digits of a number.
pub fn put_number(alloc: Global, out: &mut Vec<u8>, number: u32) -> Result<(), AllocError>
    ensures { OnOk result (out.new.items ≡ out.old.items ++ decimal number) }
{
    put(out, number.to_string(alloc)?.as_bytes())
}

/// Appends a word, and then a name.
pub fn put_word(out: &mut Vec<u8>, word: &[u8], name: &Name) -> Result<(), AllocError>
    ensures { OnOk result (out.new.items ≡ out.old.items ++ (word.now ++ name.now)) }
{
    put(out, word)?;
    put(out, name.as_bytes())
}
