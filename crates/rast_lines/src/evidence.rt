// What shows that a premise is false.
ghost use Rattle.std.specs.Prelude.{◌≡◌, ◌++◌, OnOk};
ghost use Rattle.rast_lines.specs.Lines.{kind_text, part_text, parts_text, path_text, fails_text, same_text, channel_text, evidence_text};

use crate::names::Names;
use crate::shown::Printed;
use crate::valuation::put_values;
use crate::write::put;
use rast_equal::{Part, SameErr};
use rast_rules::Evidence;
use rast_terms::{Program, put_name};
use rast_types::Kind;
use std::alloc::{AllocError, Global};

fn put_kind(text: &mut Vec<u8>, kind: Kind) -> Result<(), AllocError>
    ensures { OnOk result (text.new.items ≡ text.old.items ++ kind_text kind) }
{
    match kind {
        Kind::Plus => put(text, b"plus"),
        Kind::With => put(text, b"with"),
        Kind::Tensor => put(text, b"tensor"),
        Kind::Lolli => put(text, b"lolli"),
        Kind::One => put(text, b"one"),
        Kind::Ex => put(text, b"ex"),
        Kind::All => put(text, b"all"),
        Kind::Assert => put(text, b"assert"),
        Kind::Assume => put(text, b"assume"),
        Kind::Pays => put(text, b"pays"),
        Kind::Gets => put(text, b"gets"),
    }
}

fn put_part(text: &mut Vec<u8>, program: &Program, part: Part) -> Result<(), AllocError>
    ensures { OnOk result (text.new.items ≡ text.old.items ++ part_text program.now part) }
{
    match part {
        Part::Label(label) => {
            put(text, b".")?;
            put_name(text, program, label)
        }
        Part::First => put(text, b".1"),
        Part::Second => put(text, b".2"),
        Part::Inner => put(text, b".0"),
    }
}

fn put_path(text: &mut Vec<u8>, program: &Program, path: &[Part]) -> Result<(), AllocError>
    ensures { OnOk result (text.new.items ≡ text.old.items ++ path_text program.now path.now) }
{
    put(text, b"top")?;
    put_parts(text, program, path)
}

fn put_parts(text: &mut Vec<u8>, program: &Program, path: &[Part]) -> Result<(), AllocError>
    ensures { OnOk result (text.new.items ≡ text.old.items ++ parts_text program.now path.now) }
{
    for part in path {
        put_part(text, program, *part)?;
    }
    Ok(())
}

fn put_fails(
    alloc: Global,
    text: &mut Vec<u8>,
    program: &Program,
    names: &[Printed],
    path: &[Part],
    vars: u8,
    values: &[u128; 16],
) -> Result<(), AllocError>
    ensures { OnOk result (text.new.items ≡ text.old.items ++ fails_text program.now names.now path.now vars values.now) }
{
    put(text, b"fails at ")?;
    put_path(text, program, path)?;
    put_values(alloc, text, names, vars, values)
}

/// Puts why two types aren't found the same; nothing for a bound and for want of memory, which have lines of their own.
pub(crate) fn put_same(
    alloc: Global,
    text: &mut Vec<u8>,
    program: &Program,
    names: &[Printed],
    why: &SameErr,
) -> Result<(), AllocError>
    ensures { OnOk result (text.new.items ≡ text.old.items ++ same_text program.now names.now why.now) }
{
    match why {
        SameErr::Fails { path, vars, values } => {
            put_fails(alloc, text, program, names, path.as_slice(), *vars, values)
        }
        SameErr::Wanted { path } => {
            put(text, b"equation wanted at ")?;
            put_path(text, program, path.as_slice())
        }
        SameErr::Left => put(text, b"reference left"),
        SameErr::Bound { .. } | SameErr::Memory => Ok(()),
    }
}

fn put_channel(text: &mut Vec<u8>, names: &Names, channel: u32) -> Result<(), AllocError>
    ensures { OnOk result (text.new.items ≡ text.old.items ++ channel_text names.now channel) }
{
    match names.channels.get(channel as usize) {
        Some(name) => put(text, name.as_bytes()),
        None => Ok(()),
    }
}

/// Puts what shows that a premise is false, by the names at its node.
pub(crate) fn put_evidence(
    alloc: Global,
    text: &mut Vec<u8>,
    program: &Program,
    names: &Names,
    evidence: &Evidence,
) -> Result<(), AllocError>
    ensures { OnOk result (text.new.items ≡ text.old.items ++ evidence_text program.now names.now evidence.now) }
{
    match evidence {
        Evidence::Fails { vars, values } => {
            put(text, b"fails")?;
            put_values(alloc, text, names.vars.as_slice(), *vars, values)
        }
        Evidence::Head { found } => {
            put(text, b"head ")?;
            put_kind(text, *found)
        }
        Evidence::Linear { channel } => {
            put(text, b"linear ")?;
            put_channel(text, names, *channel)
        }
        Evidence::Label { label } => {
            put(text, b"label ")?;
            put_name(text, program, *label)
        }
        Evidence::Types { why } => put_same(alloc, text, program, names.vars.as_slice(), why),
    }
}
