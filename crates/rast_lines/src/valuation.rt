// The values of variables at which something is false.
ghost use Rattle.std.specs.Prelude.{◌≡◌, ◌++◌, OnOk, OnSome, take, IfSome};
ghost use Rattle.rast_lines.specs.Lines.{variable_text, separator, with_values};

use crate::shown::Printed;
use crate::write::{put, put_number};
use std::alloc::{AllocError, Global};

fn put_variable(
    alloc: Global,
    text: &mut Vec<u8>,
    names: &[Printed],
    number: usize,
) -> Result<(), AllocError>
    ensures { OnOk result (text.new.items ≡ text.old.items ++ variable_text names.now number) }
{
    match names.get(number) {
        Some(name) => put(text, name.as_bytes()),
        None => {
            put(text, b"q")?;
            put_number(alloc, text, number as u128)
        }
    }
}

fn put_separator(text: &mut Vec<u8>, number: usize) -> Result<(), AllocError>
    ensures { OnOk result (text.new.items ≡ text.old.items ++ separator number) }
{
    if number == 0 {
        put(text, b" with ")
    } else {
        put(text, b", ")
    }
}

/// Puts ` with ` and the values of so many variables; nothing where there is none.
pub(crate) fn put_values(
    alloc: Global,
    text: &mut Vec<u8>,
    names: &[Printed],
    vars: u8,
    values: &[u128; 16],
) -> Result<(), AllocError>
    ensures { OnOk result (text.new.items ≡ text.old.items ++ with_values names.now vars values.now) }
{
    let shown = &values[..(vars as usize).min(16)];
    for number in 0..shown.len() {
        put_separator(text, number)?;
        put_variable(alloc, text, names, number)?;
        put(text, b" = ")?;
        put_number(alloc, text, shown[number])?;
    }
    Ok(())
}
