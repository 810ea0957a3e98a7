// The lines that are printed.
ghost use Rattle.std.specs.Prelude.{◌≡◌, ◌++◌, ◌≤◌, length, codes, OnOk, IfOk};
ghost use Rattle.std.specs.Fmt.{decimal};
ghost use Rattle.rast_decide.specs.Lines.{refusal_line, verdict_line, value_text, values_from, lead};

use crate::decision::Decision;
use rast_cooper::Verdict;
use rast_formula::Bound;
use std::alloc::{AllocError, Global};

// The line of a text that isn't decided.
pub(crate) fn refusal(alloc: Global, decision: Decision) -> Result<Vec<u8>, AllocError>
    ensures { IfOk result (λ line. line.items ≡ refusal_line decision) }
{
    match decision {
        Decision::TooLong => b"too long\n".to_vec(alloc),
        Decision::BadByte { at } => placed(alloc, b"refused: bad byte at byte ", at),
        Decision::BadNumber { at } => placed(alloc, b"refused: number at byte ", at),
        Decision::LongName { at } => placed(alloc, b"refused: name at byte ", at),
        Decision::Syntax { at } => placed(alloc, b"refused: syntax at byte ", at),
        Decision::TooDeep { at } => placed(alloc, b"bound: nesting at byte ", at),
        Decision::Limit => b"bound: limit\n".to_vec(alloc),
        Decision::Judged(_) => Ok(Vec::new(alloc)),
    }
}

// A line that ends with a place.
fn placed(alloc: Global, words: &[u8], at: u32) -> Result<Vec<u8>, AllocError>
    ensures { IfOk result (λ line. line.items ≡ words.now ++ decimal at ++ codes "\n") }
{
    let mut line = words.to_vec(alloc)?;
    put_number(alloc, &mut line, at as u128)?;
    line.extend_from_slice(b"\n")?;
    Ok(line)
}

// Puts a number behind what is written.
fn put_number(alloc: Global, line: &mut Vec<u8>, number: u128) -> Result<(), AllocError>
    ensures { OnOk result (line.new.items ≡ line.old.items ++ decimal number) }
{
    let digits = format!(in alloc; "{number}")?;
    line.extend_from_slice(digits.as_bytes())
}

// Puts a variable's name and value behind what is written, and what stands before them.
fn put_value(
    alloc: Global,
    line: &mut Vec<u8>,
    i: usize,
    bound: &Bound,
    value: u128,
) -> Result<(), AllocError>
    ensures { OnOk result (line.new.items ≡ line.old.items ++ (lead i ++ value_text bound.now value)) }
{
    if i == 0 {
        line.extend_from_slice(b" with ")?;
    } else {
        line.extend_from_slice(b", ")?;
    }
    line.extend_from_slice(bound.name.as_bytes())?;
    line.extend_from_slice(b" = ")?;
    put_number(alloc, line, value)?;
    Ok(())
}

// Puts the values of the variables behind what is written.
fn put_values(
    alloc: Global,
    line: &mut Vec<u8>,
    variables: &[Bound],
    values: &[u128; 16],
) -> Result<(), AllocError>
    requires { length variables.now ≤ 16 }
    ensures { OnOk result (line.new.items ≡ line.old.items ++ values_from 0 variables.now values.now) }
{
    for i in 0..variables.len() {
        put_value(alloc, line, i, &variables[i], values[i])?;
    }
    Ok(())
}

// The line of a verdict on a formula with these variables.
pub(crate) fn judgement(
    alloc: Global,
    variables: &[Bound],
    verdict: Verdict,
) -> Result<Vec<u8>, AllocError>
    requires { length variables.now ≤ 16 }
    ensures { IfOk result (λ line. line.items ≡ verdict_line variables.now verdict) }
{
    match verdict {
        Verdict::Holds => b"holds\n".to_vec(alloc),
        Verdict::Fails { values } => {
            let mut line = b"fails".to_vec(alloc)?;
            put_values(alloc, &mut line, variables, &values)?;
            line.extend_from_slice(b"\n")?;
            Ok(line)
        }
        Verdict::NodeLimit | Verdict::NumberLimit => b"bound: search\n".to_vec(alloc),
    }
}
