// Texts of numbers, processes, links and bodies, put behind what is written.
ghost use Rattle.std.specs.Prelude.{◌≡◌, ◌++◌, OnOk};
ghost use Rattle.std.specs.Fmt.{decimal};
ghost use Rattle.rast_report.specs.Texts.{pid_text, link_text, body_text, sent_text, braced};

use rast_items::{Body, Link, Pid};
use rast_terms::{Program, put_name};
use std::alloc::{AllocError, Global};

// Puts a text behind what is written.
pub(crate) fn put(text: &mut Vec<u8>, more: &[u8]) -> Result<(), AllocError>
    ensures { OnOk result (text.new.items ≡ text.old.items ++ more.now) }
{
    text.extend_from_slice(more)
}

pub(crate) fn put_number(alloc: Global, text: &mut Vec<u8>, number: u128) -> Result<(), AllocError>
    ensures { OnOk result (text.new.items ≡ text.old.items ++ decimal number) }
{
    let digits = format!(in alloc; "{number}")?;
    text.extend_from_slice(digits.as_bytes())
}

pub(crate) fn put_pid(alloc: Global, text: &mut Vec<u8>, pid: Pid) -> Result<(), AllocError>
    ensures { OnOk result (text.new.items ≡ text.old.items ++ pid_text pid) }
{
    put(text, b"p")?;
    put_number(alloc, text, pid.0 as u128)
}

pub(crate) fn put_link(alloc: Global, text: &mut Vec<u8>, link: Link) -> Result<(), AllocError>
    ensures { OnOk result (text.new.items ≡ text.old.items ++ link_text link) }
{
    put_pid(alloc, text, link.session)?;
    put(text, b":")?;
    put_number(alloc, text, link.index as u128)
}

// A body, with the amount that a payment holds.
pub(crate) fn put_body(
    alloc: Global,
    text: &mut Vec<u8>,
    program: &Program,
    body: Body,
    amount: u128,
) -> Result<(), AllocError>
    ensures { OnOk result (text.new.items ≡ text.old.items ++ body_text program.now body amount) }
{
    match body {
        Body::Label(label) => put_name(text, program, label),
        Body::End => put(text, b"end"),
        Body::Chan(link) => put_sent(alloc, text, link),
        Body::Nat(number) => put_braced(alloc, text, b"{", number as u128),
        Body::Assert => put(text, b"?"),
        Body::Pay => put_braced(alloc, text, b"|{", amount),
    }
}

fn put_sent(alloc: Global, text: &mut Vec<u8>, link: Link) -> Result<(), AllocError>
    ensures { OnOk result (text.new.items ≡ text.old.items ++ sent_text link) }
{
    put(text, b"(")?;
    put_link(alloc, text, link)?;
    put(text, b")")
}

fn put_braced(
    alloc: Global,
    text: &mut Vec<u8>,
    opening: &[u8],
    number: u128,
) -> Result<(), AllocError>
    ensures { OnOk result (text.new.items ≡ text.old.items ++ braced opening.now number) }
{
    put(text, opening)?;
    put_number(alloc, text, number)?;
    put(text, b"}")
}
