// The code of an obligation: numbers that tell it from any other.
ghost use Rattle.std.specs.Prelude.{◌≡◌, ◌++◌, ℤ, pos, map, IfOk, OnOk};
ghost use Rattle.rast_memo.specs.Codes.{code, linear_code, obligation_code, relation_number, row};
ghost use Rattle.rast_memo.specs.Obligations.{asked};

use rast_index::{Formula, Lin, Rel};
use std::alloc::{AllocError, Global};

/// The code of the obligation of these parts.
pub(crate) fn code_of(
    alloc: Global,
    vars: u8,
    premises: &[Formula],
    goal: &Formula,
) -> Result<Vec<i64>, AllocError>
    ensures { IfOk result (λ c. c.items ≡ obligation_code (asked vars premises.now goal.now)) }
{
    let mut code = Vec::new(alloc);
    code.push(vars as i64)?;
    write_all(premises, &mut code)?;
    write(goal, &mut code)?;
    Ok(code)
}

/// Writes the code of a formula behind what is written.
#[cycle(write)]
#[tactic(auto, using(crate::proofs::Layers::layers))]
fn write(formula: &Formula, out: &mut Vec<i64>) -> Result<(), AllocError>
    ensures { OnOk result (out.new.items ≡ out.old.items ++ code formula.now) }
{
    match formula {
        Formula::True => Ok(out.push(0)?),
        Formula::False => Ok(out.push(1)?),
        Formula::Rel(a, rel, b) => {
            out.push(2)?;
            out.push(number_of(*rel))?;
            write_linear(a, out)?;
            write_linear(b, out)
        }
        Formula::Div(divisor, term) => {
            out.push(3)?;
            out.push(*divisor as i64)?;
            write_linear(term, out)
        }
        Formula::Not(negated) => {
            out.push(4)?;
            write(negated.get(), out)
        }
        Formula::And(members) => {
            out.push(5)?;
            write_all(members.as_slice(), out)
        }
        Formula::Or(members) => {
            out.push(6)?;
            write_all(members.as_slice(), out)
        }
        Formula::Imp(premise, goal) => {
            out.push(7)?;
            write(premise.get(), out)?;
            write(goal.get(), out)
        }
    }
}

/// Writes formulas, each behind a 1, and then a 0.
#[cycle(write)]
fn write_all(formulas: &[Formula], out: &mut Vec<i64>) -> Result<(), AllocError>
    ensures { OnOk result (out.new.items ≡ out.old.items ++ row (map code formulas.now)) }
{
    for formula in formulas {
        out.push(1)?;
        write(formula, out)?;
    }
    out.push(0)?;
    Ok(())
}

fn write_linear(term: &Lin, out: &mut Vec<i64>) -> Result<(), AllocError>
    ensures { OnOk result (out.new.items ≡ out.old.items ++ linear_code term.now) }
{
    out.push(term.constant)?;
    out.push(term.coefficient.len() as i64)?;
    out.extend_from_slice(&term.coefficient)?;
    Ok(())
}

fn number_of(rel: Rel) -> i64
    ensures { result ≡ pos (relation_number rel) }
{
    match rel {
        Rel::Eq => 0,
        Rel::Ne => 1,
        Rel::Lt => 2,
        Rel::Le => 3,
        Rel::Gt => 4,
        Rel::Ge => 5,
    }
}
