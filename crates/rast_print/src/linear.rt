// Linear terms.
ghost use Rattle.std.specs.Prelude.{◌≡◌, ◌++◌, OnOk};
ghost use Rattle.std.specs.List.{flat_map};
ghost use Rattle.rast_print.specs.LinearText.{sign_text, signed_text, term_text, lin_text, braced_text};

use crate::put::{put, put_number};
use rast_ast::{Lin, Sign, Term};
use std::alloc::{AllocError, Global};

#[cycle(lin)]
#[tactic(auto, using(crate::proofs::Layers::lin_at))]
pub fn put_lin(alloc: Global, out: &mut Vec<u8>, lin: &Lin) -> Result<(), AllocError>
    ensures { OnOk result (out.new.items ≡ out.old.items ++ lin_text lin.now) }
{
    put_term(alloc, out, lin.first.get())?;
    put_terms(alloc, out, lin.rest.as_slice())?;
    Ok(())
}

// Further terms, each behind its sign.
#[cycle(lin)]
fn put_terms(alloc: Global, out: &mut Vec<u8>, terms: &[(Sign, Term)]) -> Result<(), AllocError>
    ensures { OnOk result (out.new.items ≡ out.old.items ++ flat_map signed_text terms.now) }
{
    for (sign, term) in terms {
        put_signed(alloc, out, *sign, term)?;
    }
    Ok(())
}

#[cycle(lin)]
fn put_signed(alloc: Global, out: &mut Vec<u8>, sign: Sign, term: &Term) -> Result<(), AllocError>
    ensures { OnOk result (out.new.items ≡ out.old.items ++ signed_text (sign, term.now)) }
{
    put_sign(out, sign)?;
    put_term(alloc, out, term)
}

#[cycle(lin)]
fn put_term(alloc: Global, out: &mut Vec<u8>, term: &Term) -> Result<(), AllocError>
    ensures { OnOk result (out.new.items ≡ out.old.items ++ term_text term.now) }
{
    match term {
        Term::Times(number, term) => {
            put_number(alloc, out, *number)?;
            put(out, b" * ")?;
            put_term(alloc, out, term.get())
        }
        Term::Number(number) => put_number(alloc, out, *number),
        Term::Variable(name) => put(out, name.as_bytes()),
        Term::Group(lin) => {
            put(out, b"(")?;
            put_lin(alloc, out, lin.get())?;
            put(out, b")")
        }
    }
}

fn put_sign(out: &mut Vec<u8>, sign: Sign) -> Result<(), AllocError>
    ensures { OnOk result (out.new.items ≡ out.old.items ++ sign_text sign) }
{
    match sign {
        Sign::Plus => put(out, b" + "),
        Sign::Minus => put(out, b" - "),
    }
}

/// A linear term in braces.
pub fn put_braced(alloc: Global, out: &mut Vec<u8>, lin: &Lin) -> Result<(), AllocError>
    ensures { OnOk result (out.new.items ≡ out.old.items ++ braced_text lin.now) }
{
    put(out, b"{")?;
    put_lin(alloc, out, lin)?;
    put(out, b"}")
}

/// Linear terms, each in braces.
pub fn put_args(alloc: Global, out: &mut Vec<u8>, args: &[Lin]) -> Result<(), AllocError>
    ensures { OnOk result (out.new.items ≡ out.old.items ++ flat_map braced_text args.now) }
{
    for lin in args {
        put_braced(alloc, out, lin)?;
    }
    Ok(())
}
