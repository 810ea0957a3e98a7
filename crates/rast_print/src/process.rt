// Process terms.
ghost use Rattle.std.specs.Prelude.{◌≡◌, ◌++◌, IfOk, OnOk, codes};
ghost use Rattle.std.specs.List.{flat_map};
ghost use Rattle.rast_print.specs.ProcessText.{spaced_name, names_text, ref_text, next_ref_text, by_text, optional_by_text, use_text, step_text, step_line, deeper, proc_text, end_text, branch_text, branch_line, case_text, close_text};

use crate::linear::{put_args, put_braced};
use crate::put::{put, put_braced_name, put_number, put_word};
use rast_ast::{Branch, By, End, Lin, Name, Proc, Ref, Step};
use std::alloc::{AllocError, Global};

/// Names, each behind a space.
pub fn put_names(out: &mut Vec<u8>, names: &[Name]) -> Result<(), AllocError>
    ensures { OnOk result (out.new.items ≡ out.old.items ++ names_text names.now) }
{
    for name in names {
        put_spaced(out, name)?;
    }
    Ok(())
}

fn put_spaced(out: &mut Vec<u8>, name: &Name) -> Result<(), AllocError>
    ensures { OnOk result (out.new.items ≡ out.old.items ++ spaced_name name.now) }
{
    put(out, b" ")?;
    put(out, name.as_bytes())
}

/// A list of references behind a space, where there is one.
pub fn put_optional_by(alloc: Global, out: &mut Vec<u8>, by: &Option<By>) -> Result<(), AllocError>
    ensures { OnOk result (out.new.items ≡ out.old.items ++ optional_by_text by.now) }
{
    match by {
        Some(by) => {
            put(out, b" ")?;
            put_by(alloc, out, by)
        }
        None => Ok(()),
    }
}

fn put_by(alloc: Global, out: &mut Vec<u8>, by: &By) -> Result<(), AllocError>
    ensures { OnOk result (out.new.items ≡ out.old.items ++ by_text by.now) }
{
    put(out, b"by ")?;
    put_ref(alloc, out, &by.first)?;
    put_refs(alloc, out, by.rest.as_slice())
}

// Further references, each behind a comma.
fn put_refs(alloc: Global, out: &mut Vec<u8>, refs: &[Ref]) -> Result<(), AllocError>
    ensures { OnOk result (out.new.items ≡ out.old.items ++ flat_map next_ref_text refs.now) }
{
    for reference in refs {
        put_next_ref(alloc, out, reference)?;
    }
    Ok(())
}

fn put_next_ref(alloc: Global, out: &mut Vec<u8>, reference: &Ref) -> Result<(), AllocError>
    ensures { OnOk result (out.new.items ≡ out.old.items ++ next_ref_text reference.now) }
{
    put(out, b", ")?;
    put_ref(alloc, out, reference)
}

fn put_ref(alloc: Global, out: &mut Vec<u8>, reference: &Ref) -> Result<(), AllocError>
    ensures { OnOk result (out.new.items ≡ out.old.items ++ ref_text reference.now) }
{
    match reference {
        Ref::Refl => put(out, b"refl"),
        Ref::Equation(number, args) => {
            put_number(alloc, out, *number)?;
            put_args(alloc, out, args.as_slice())
        }
    }
}

// The use of a declaration: its name, its arguments, the channels and the references.
fn put_use(
    alloc: Global,
    out: &mut Vec<u8>,
    name: &Name,
    args: &[Lin],
    used: &[Name],
    by: &Option<By>,
) -> Result<(), AllocError>
    ensures { OnOk result (out.new.items ≡ out.old.items ++ use_text name.now args.now used.now by.now) }
{
    put(out, name.as_bytes())?;
    put_args(alloc, out, args)?;
    put_names(out, used)?;
    put_optional_by(alloc, out, by)
}

fn put_step(alloc: Global, out: &mut Vec<u8>, step: &Step) -> Result<(), AllocError>
    ensures { OnOk result (out.new.items ≡ out.old.items ++ step_text step.now) }
{
    match step {
        Step::Label { channel, label } => {
            put(out, channel.as_bytes())?;
            put_word(out, b".", label)
        }
        Step::Send { channel, sent, by } => {
            put_word(out, b"send ", channel)?;
            put_word(out, b" ", sent)?;
            put_optional_by(alloc, out, by)
        }
        Step::Index { channel, value } => {
            put_word(out, b"send ", channel)?;
            put(out, b" ")?;
            put_braced(alloc, out, value)
        }
        Step::Recv { bound, channel } => {
            put(out, bound.as_bytes())?;
            put_word(out, b" <- recv ", channel)
        }
        Step::Bind { bound, channel } => {
            put_braced_name(out, bound)?;
            put_word(out, b" <- recv ", channel)
        }
        Step::Wait(channel) => put_word(out, b"wait ", channel),
        Step::Spawn {
            bound,
            name,
            args,
            used,
            by,
        } => {
            put(out, bound.as_bytes())?;
            put(out, b" <- ")?;
            put_use(alloc, out, name, args.as_slice(), used.as_slice(), by)
        }
        Step::Work(amount) => {
            put(out, b"work ")?;
            put_braced(alloc, out, amount)
        }
        Step::Delay(ticks) => {
            put(out, b"delay ")?;
            put_braced(alloc, out, ticks)
        }
        Step::Assert(channel) => put_word(out, b"assert ", channel),
        Step::Assume(channel) => put_word(out, b"assume ", channel),
        Step::Pay(channel) => put_word(out, b"pay ", channel),
        Step::Get(channel) => put_word(out, b"get ", channel),
    }
}

// A step on a line of its own.
fn put_step_line(
    alloc: Global,
    out: &mut Vec<u8>,
    indent: &[u8],
    step: &Step,
) -> Result<(), AllocError>
    ensures { OnOk result (out.new.items ≡ out.old.items ++ step_line indent.now step.now) }
{
    put(out, indent)?;
    put_step(alloc, out, step)?;
    put(out, b" ;\n")
}

fn put_steps(
    alloc: Global,
    out: &mut Vec<u8>,
    indent: &[u8],
    steps: &[Step],
) -> Result<(), AllocError>
    ensures { OnOk result (out.new.items ≡ out.old.items ++ flat_map (step_line indent.now) steps.now) }
{
    for step in steps {
        put_step_line(alloc, out, indent, step)?;
    }
    Ok(())
}

// Blanks one level deeper.
fn deeper(alloc: Global, indent: &[u8]) -> Result<Vec<u8>, AllocError>
    ensures { IfOk result (λ blanks. blanks.items ≡ deeper indent.now) }
{
    let mut blanks = Vec::from_slice(alloc, indent)?;
    blanks.extend_from_slice(b"  ")?;
    Ok(blanks)
}

// The line that begins a case on this channel.
fn put_case(out: &mut Vec<u8>, channel: &Name) -> Result<(), AllocError>
    ensures { OnOk result (out.new.items ≡ out.old.items ++ case_text channel.now) }
{
    put_word(out, b"case ", channel)?;
    put(out, b" (\n")
}

// The bracket that ends a case.
fn put_close(out: &mut Vec<u8>, indent: &[u8]) -> Result<(), AllocError>
    ensures { OnOk result (out.new.items ≡ out.old.items ++ close_text indent.now) }
{
    put(out, indent)?;
    put(out, b")")
}

/// A term, its lines behind these blanks.
#[cycle(process)]
pub fn put_proc(
    alloc: Global,
    out: &mut Vec<u8>,
    indent: &[u8],
    body: &Proc,
) -> Result<(), AllocError>
    ensures { OnOk result (out.new.items ≡ out.old.items ++ proc_text body.now indent.now) }
{
    put_steps(alloc, out, indent, body.steps.as_slice())?;
    put_last(alloc, out, indent, body.end.get())?;
    Ok(())
}

// An end behind the blanks before it.
#[cycle(process)]
fn put_last(alloc: Global, out: &mut Vec<u8>, indent: &[u8], end: &End) -> Result<(), AllocError>
    ensures { OnOk result (out.new.items ≡ out.old.items ++ (indent.now ++ end_text end.now indent.now)) }
{
    put(out, indent)?;
    put_end(alloc, out, indent, end)
}

#[cycle(process)]
fn put_end(alloc: Global, out: &mut Vec<u8>, indent: &[u8], end: &End) -> Result<(), AllocError>
    ensures { OnOk result (out.new.items ≡ out.old.items ++ end_text end.now indent.now) }
{
    match end {
        End::Close(channel) => put_word(out, b"close ", channel),
        End::Forward { channel, other, by } => {
            put(out, channel.as_bytes())?;
            put_word(out, b" <-> ", other)?;
            put_optional_by(alloc, out, by)
        }
        End::Call {
            channel,
            name,
            args,
            used,
            by,
        } => {
            put(out, channel.as_bytes())?;
            put(out, b" <- ")?;
            put_use(alloc, out, name, args.as_slice(), used.as_slice(), by)
        }
        End::Case {
            channel,
            first,
            rest,
        } => {
            let deeper = deeper(alloc, indent)?;
            put_case(out, channel)?;
            put_first(alloc, out, deeper.as_slice(), first)?;
            put_branches(alloc, out, deeper.as_slice(), rest.as_slice())?;
            put_close(out, indent)?;
            Ok(())
        }
        End::Impossible => put(out, b"impossible"),
    }
}

// The first branch, behind the blanks before it.
#[cycle(process)]
fn put_first(
    alloc: Global,
    out: &mut Vec<u8>,
    indent: &[u8],
    branch: &Branch,
) -> Result<(), AllocError>
    ensures { OnOk result (out.new.items ≡ out.old.items ++ (indent.now ++ branch_text branch.now indent.now)) }
{
    put(out, indent)?;
    put_branch(alloc, out, indent, branch)
}

#[cycle(process)]
fn put_branches(
    alloc: Global,
    out: &mut Vec<u8>,
    indent: &[u8],
    branches: &[Branch],
) -> Result<(), AllocError>
    ensures { OnOk result (out.new.items ≡ out.old.items ++ flat_map (branch_line indent.now) branches.now) }
{
    for branch in branches {
        put_branch_line(alloc, out, indent, branch)?;
    }
    Ok(())
}

// A further branch on a line of its own.
#[cycle(process)]
fn put_branch_line(
    alloc: Global,
    out: &mut Vec<u8>,
    indent: &[u8],
    branch: &Branch,
) -> Result<(), AllocError>
    ensures { OnOk result (out.new.items ≡ out.old.items ++ branch_line indent.now branch.now) }
{
    put(out, indent)?;
    put(out, b"| ")?;
    put_branch(alloc, out, indent, branch)
}

#[cycle(process)]
fn put_branch(
    alloc: Global,
    out: &mut Vec<u8>,
    indent: &[u8],
    branch: &Branch,
) -> Result<(), AllocError>
    ensures { OnOk result (out.new.items ≡ out.old.items ++ branch_text branch.now indent.now) }
{
    let deeper = deeper(alloc, indent)?;
    put(out, branch.label.as_bytes())?;
    put(out, b" =>\n")?;
    put_proc(alloc, out, deeper.as_slice(), &branch.body)?;
    put(out, b"\n")
}
