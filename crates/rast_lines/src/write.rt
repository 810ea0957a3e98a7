// Texts put behind what is written.
ghost use Rattle.std.specs.Prelude.{◌≡◌, ◌++◌, OnOk};
ghost use Rattle.std.specs.Fmt.{decimal};

use std::alloc::{AllocError, Global};

// Puts a text behind what is written.
pub(crate) fn put(text: &mut Vec<u8>, more: &[u8]) -> Result<(), AllocError>
    ensures { OnOk result (text.new.items ≡ text.old.items ++ more.now) }
{
    text.extend_from_slice(more)
}

pub(crate) fn put_number(alloc: Global, text: &mut Vec<u8>, number: u128) -> Result<(), AllocError>
    ensures { OnOk result (text.new.items ≡ text.old.items ++ decimal number) }
{
    let digits = format!(in alloc; "{number}")?;
    text.extend_from_slice(digits.as_bytes())
}
