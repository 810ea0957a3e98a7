// Formulas.
ghost use Rattle.std.specs.Prelude.{◌≡◌, ◌++◌, OnOk};
ghost use Rattle.std.specs.List.{flat_map};
ghost use Rattle.rast_print.specs.Joined.{braced};
ghost use Rattle.rast_print.specs.FormulaText.{rel_text, form_text, disjunction_text, conjunction_text, literal_text, or_text, and_text};

use crate::linear::put_lin;
use crate::put::{put, put_number};
use rast_ast::{Conjunction, Disjunction, Form, Literal, Rel};
use std::alloc::{AllocError, Global};

/// A formula in braces.
pub fn put_braced_form(alloc: Global, out: &mut Vec<u8>, form: &Form) -> Result<(), AllocError>
    ensures { OnOk result (out.new.items ≡ out.old.items ++ braced (form_text form.now)) }
{
    put(out, b"{")?;
    put_form(alloc, out, form)?;
    put(out, b"}")
}

#[cycle(form)]
pub fn put_form(alloc: Global, out: &mut Vec<u8>, form: &Form) -> Result<(), AllocError>
    ensures { OnOk result (out.new.items ≡ out.old.items ++ form_text form.now) }
{
    match form {
        Form::Plain(disjunction) => put_disjunction(alloc, out, disjunction),
        Form::Implies(disjunction, form) => {
            put_disjunction(alloc, out, disjunction)?;
            put(out, b" => ")?;
            put_form(alloc, out, form.get())
        }
    }
}

#[cycle(form)]
fn put_disjunction(
    alloc: Global,
    out: &mut Vec<u8>,
    disjunction: &Disjunction,
) -> Result<(), AllocError>
    ensures { OnOk result (out.new.items ≡ out.old.items ++ disjunction_text disjunction.now) }
{
    put_conjunction(alloc, out, &disjunction.first)?;
    put_conjunctions(alloc, out, disjunction.rest.as_slice())?;
    Ok(())
}

#[cycle(form)]
fn put_conjunctions(
    alloc: Global,
    out: &mut Vec<u8>,
    conjunctions: &[Conjunction],
) -> Result<(), AllocError>
    ensures { OnOk result (out.new.items ≡ out.old.items ++ flat_map or_text conjunctions.now) }
{
    for conjunction in conjunctions {
        put_or(alloc, out, conjunction)?;
    }
    Ok(())
}

#[cycle(form)]
fn put_or(alloc: Global, out: &mut Vec<u8>, conjunction: &Conjunction) -> Result<(), AllocError>
    ensures { OnOk result (out.new.items ≡ out.old.items ++ or_text conjunction.now) }
{
    put(out, b" \\/ ")?;
    put_conjunction(alloc, out, conjunction)
}

#[cycle(form)]
fn put_conjunction(
    alloc: Global,
    out: &mut Vec<u8>,
    conjunction: &Conjunction,
) -> Result<(), AllocError>
    ensures { OnOk result (out.new.items ≡ out.old.items ++ conjunction_text conjunction.now) }
{
    put_literal(alloc, out, conjunction.first.get())?;
    put_literals(alloc, out, conjunction.rest.as_slice())?;
    Ok(())
}

#[cycle(form)]
fn put_literals(alloc: Global, out: &mut Vec<u8>, literals: &[Literal]) -> Result<(), AllocError>
    ensures { OnOk result (out.new.items ≡ out.old.items ++ flat_map and_text literals.now) }
{
    for literal in literals {
        put_and(alloc, out, literal)?;
    }
    Ok(())
}

#[cycle(form)]
fn put_and(alloc: Global, out: &mut Vec<u8>, literal: &Literal) -> Result<(), AllocError>
    ensures { OnOk result (out.new.items ≡ out.old.items ++ and_text literal.now) }
{
    put(out, b" /\\ ")?;
    put_literal(alloc, out, literal)
}

#[cycle(form)]
fn put_literal(alloc: Global, out: &mut Vec<u8>, literal: &Literal) -> Result<(), AllocError>
    ensures { OnOk result (out.new.items ≡ out.old.items ++ literal_text literal.now) }
{
    match literal {
        Literal::Not(literal) => {
            put(out, b"~ ")?;
            put_literal(alloc, out, literal.get())
        }
        Literal::Group(form) => {
            put(out, b"[")?;
            put_form(alloc, out, form.get())?;
            put(out, b"]")
        }
        Literal::True => put(out, b"true"),
        Literal::False => put(out, b"false"),
        Literal::Divides(number, lin) => {
            put_number(alloc, out, *number)?;
            put(out, b" | ")?;
            put_lin(alloc, out, lin)
        }
        Literal::Related(left, rel, right) => {
            put_lin(alloc, out, left)?;
            put_rel(out, *rel)?;
            put_lin(alloc, out, right)
        }
    }
}

fn put_rel(out: &mut Vec<u8>, rel: Rel) -> Result<(), AllocError>
    ensures { OnOk result (out.new.items ≡ out.old.items ++ rel_text rel) }
{
    match rel {
        Rel::Eq => put(out, b" = "),
        Rel::Ne => put(out, b" <> "),
        Rel::Lt => put(out, b" < "),
        Rel::Le => put(out, b" <= "),
        Rel::Gt => put(out, b" > "),
        Rel::Ge => put(out, b" >= "),
    }
}
