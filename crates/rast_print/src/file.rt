// Files and their items.
ghost use Rattle.std.specs.Prelude.{◌≡◌, ◌++◌, IfOk, OnOk, [], List, ℕ};
ghost use Rattle.std.specs.List.{flat_map};
ghost use Rattle.rast_print.specs.FileText.{params_text, channel_text, spaced_channel, used_text, potential_text, premise_text, item_text, item_line, explicit_text, canonical, head_text, offer_text};

use crate::formula::put_form;
use crate::linear::put_braced;
use crate::process::{put_names, put_optional_by, put_proc};
use crate::put::{put, put_braced_name, put_word};
use crate::type_expr::put_type;
use rast_ast::{Channel, File, Form, Item, Lin, Name};
use std::alloc::{AllocError, Global};

/// The canonical text of a file: its tokens in the layout of this project's own, where each item begins a line and each
/// step of a process term stands on one, two blanks deeper in each branch. `file` may be any file, also one that no text is.
/// The text is put into memory of `alloc`; the only error is want of it.
pub fn print(alloc: Global, file: &File) -> Result<Vec<u8>, AllocError>
    ensures { IfOk result (λ text. text.items ≡ canonical file.now) }
{
    let mut out = Vec::new(alloc);
    put_explicit(&mut out, file.explicit)?;
    put_items(alloc, &mut out, file.items.as_slice())?;
    Ok(out)
}

fn put_explicit(out: &mut Vec<u8>, explicit: bool) -> Result<(), AllocError>
    ensures { OnOk result (out.new.items ≡ out.old.items ++ explicit_text explicit) }
{
    if explicit {
        put(out, b"explicit\n")
    } else {
        Ok(())
    }
}

fn put_items(alloc: Global, out: &mut Vec<u8>, items: &[Item]) -> Result<(), AllocError>
    ensures { OnOk result (out.new.items ≡ out.old.items ++ flat_map item_line items.now) }
{
    for item in items {
        put_item_line(alloc, out, item)?;
    }
    Ok(())
}

fn put_item_line(alloc: Global, out: &mut Vec<u8>, item: &Item) -> Result<(), AllocError>
    ensures { OnOk result (out.new.items ≡ out.old.items ++ item_line item.now) }
{
    put_item(alloc, out, item)?;
    put(out, b"\n")
}

fn put_item(alloc: Global, out: &mut Vec<u8>, item: &Item) -> Result<(), AllocError>
    ensures { OnOk result (out.new.items ≡ out.old.items ++ item_text item.now) }
{
    match item {
        Item::Def { name, params, body } => {
            put_head(out, b"type ", name, params.as_slice())?;
            put(out, b" = ")?;
            put_type(alloc, out, body)
        }
        Item::Decl {
            name,
            params,
            used,
            potential,
            provided,
        } => {
            put_head(out, b"decl ", name, params.as_slice())?;
            put(out, b" : ")?;
            put_used(alloc, out, used.as_slice())?;
            put_offer(alloc, out, potential, provided)
        }
        Item::Proc {
            channel,
            name,
            params,
            used,
            body,
        } => {
            put_word(out, b"proc ", channel)?;
            put_head(out, b" <- ", name, params.as_slice())?;
            put_names(out, used.as_slice())?;
            put(out, b" =\n")?;
            put_proc(alloc, out, b"  ", body)
        }
        Item::Eq {
            params,
            premise,
            left,
            right,
            by,
        } => {
            put(out, b"eq")?;
            put_params(out, params.as_slice())?;
            put_premise(alloc, out, premise)?;
            put(out, b" : ")?;
            put_type(alloc, out, left)?;
            put(out, b" = ")?;
            put_type(alloc, out, right)?;
            put_optional_by(alloc, out, by)
        }
        Item::Exec { name } => {
            put(out, b"exec ")?;
            put(out, name.as_bytes())
        }
    }
}

// A name with its parameters, behind a word.
fn put_head(out: &mut Vec<u8>, word: &[u8], name: &Name, params: &[Name]) -> Result<(), AllocError>
    ensures { OnOk result (out.new.items ≡ out.old.items ++ head_text word.now name.now params.now) }
{
    put_word(out, word, name)?;
    put_params(out, params)
}

fn put_params(out: &mut Vec<u8>, params: &[Name]) -> Result<(), AllocError>
    ensures { OnOk result (out.new.items ≡ out.old.items ++ params_text params.now) }
{
    for name in params {
        put_braced_name(out, name)?;
    }
    Ok(())
}

fn put_channel(alloc: Global, out: &mut Vec<u8>, channel: &Channel) -> Result<(), AllocError>
    ensures { OnOk result (out.new.items ≡ out.old.items ++ channel_text channel.now) }
{
    put(out, b"(")?;
    put(out, channel.name.as_bytes())?;
    put(out, b" : ")?;
    put_type(alloc, out, &channel.body)?;
    put(out, b")")
}

// The used channels of a declaration, or a dot.
fn put_used(alloc: Global, out: &mut Vec<u8>, used: &[Channel]) -> Result<(), AllocError>
    ensures { OnOk result (out.new.items ≡ out.old.items ++ used_text used.now) }
{
    match used {
        [] => put(out, b". "),
        [_, ..] => put_channels(alloc, out, used),
    }
}

fn put_channels(alloc: Global, out: &mut Vec<u8>, channels: &[Channel]) -> Result<(), AllocError>
    ensures { OnOk result (out.new.items ≡ out.old.items ++ flat_map spaced_channel channels.now) }
{
    for channel in channels {
        put_spaced_channel(alloc, out, channel)?;
    }
    Ok(())
}

fn put_spaced_channel(alloc: Global, out: &mut Vec<u8>, channel: &Channel) -> Result<(), AllocError>
    ensures { OnOk result (out.new.items ≡ out.old.items ++ spaced_channel channel.now) }
{
    put_channel(alloc, out, channel)?;
    put(out, b" ")
}

// The potential of a declaration, and the channel that it provides.
fn put_offer(
    alloc: Global,
    out: &mut Vec<u8>,
    potential: &Option<Lin>,
    provided: &Channel,
) -> Result<(), AllocError>
    ensures { OnOk result (out.new.items ≡ out.old.items ++ offer_text potential.now provided.now) }
{
    put(out, b"|")?;
    put_potential(alloc, out, potential)?;
    put(out, b"- ")?;
    put_channel(alloc, out, provided)
}

fn put_potential(
    alloc: Global,
    out: &mut Vec<u8>,
    potential: &Option<Lin>,
) -> Result<(), AllocError>
    ensures { OnOk result (out.new.items ≡ out.old.items ++ potential_text potential.now) }
{
    match potential {
        Some(lin) => put_braced(alloc, out, lin),
        None => Ok(()),
    }
}

fn put_premise(alloc: Global, out: &mut Vec<u8>, premise: &Option<Form>) -> Result<(), AllocError>
    ensures { OnOk result (out.new.items ≡ out.old.items ++ premise_text premise.now) }
{
    match premise {
        Some(form) => {
            put(out, b" if ")?;
            put_form(alloc, out, form)
        }
        None => Ok(()),
    }
}
