// The printed value.
ghost use Rattle.std.specs.Prelude.{◌≡◌, IfOk};
ghost use Rattle.rast_items.specs.Links.{same_link};
ghost use Rattle.rast_core.specs.Promises.{IsGoing};
ghost use Rattle.rast_report.specs.Values.{process_text, value_text};
ghost use Rattle.rast_report.specs.Providers.{FindsAll};
ghost use Rattle.rast_report.specs.Printed.{Goes, TurnsAt, GoesBack, Advances};

use crate::providers::Providers;
use crate::text::{put, put_body};
use rast_core::{Config, Next};
use rast_items::{Body, Item, Link, Msg, Pid, Proc};
use rast_terms::Program;
use std::alloc::{AllocError, Global};

// Whether two links are the same.
fn is_same(a: Link, b: Link) -> bool
    ensures { result ≡ same_link a b }
{
    a.session.0 == b.session.0 && a.index == b.index
}

// What a process shows that provides the link of the value.
fn process_shows(program: &Program, config: &Config, proc: &Proc) -> &'static [u8]
    requires { IsGoing program.now config.now }
    ensures { result.now ≡ process_text program.now config.now proc.now }
{
    match config.enabled(program, proc.pid) {
        Next::Waits(link) => {
            if is_same(link, proc.own()) {
                b"wait"
            } else {
                b"..."
            }
        }
        _ => b"...",
    }
}

// How the value at a link goes on.
#[derive(Clone, Copy, Debug)]
pub(crate) enum Turn {
    // It ends here.
    Ends,
    // It goes on at this link.
    Next(Link),
    // A sent channel's value comes first, and then it goes on.
    Sent(Link, Link),
}

// Puts the body of a message that provides the link of the value, and says how the value goes on.
fn put_message(
    alloc: Global,
    text: &mut Vec<u8>,
    program: &Program,
    msg: &Msg,
) -> Result<Turn, AllocError>
    ensures { IfOk result (λ turn. Goes program.now msg.now text.old.items text.new.items turn) }
{
    match msg.body {
        Body::End => {
            put(text, b"end")?;
            Ok(Turn::Ends)
        }
        Body::Chan(link) => {
            put(text, b"(")?;
            Ok(Turn::Sent(link, msg.next))
        }
        body => {
            put_body(alloc, text, program, body, msg.potential)?;
            put(text, b" . ")?;
            Ok(Turn::Next(msg.next))
        }
    }
}

// Puts what stands at a link, and says how the value goes on.
fn put_standing(
    alloc: Global,
    text: &mut Vec<u8>,
    program: &Program,
    config: &Config,
    table: &Providers,
    link: Link,
) -> Result<Turn, AllocError>
    requires going { IsGoing program.now config.now }
    requires finds { FindsAll table.now config.now }
    ensures { IfOk result (λ turn. TurnsAt program.now config.now text.old.items text.new.items link turn) }
{
    let Some(handle) = table.on(link) else {
        put(text, b"...")?;
        return Ok(Turn::Ends);
    };
    match config.get(handle) {
        Item::Proc(proc) => {
            put(text, process_shows(program, config, proc))?;
            Ok(Turn::Ends)
        }
        Item::Msg(msg) => {
            let turn = put_message(alloc, text, program, msg)?;
            Ok(turn)
        }
    }
}

// The link of the value that goes on next, of those that wait.
fn next_waiting(text: &mut Vec<u8>, waiting: &mut Vec<Link>) -> Result<Option<Link>, AllocError>
    ensures { IfOk result (λ next. GoesBack text.old.items text.new.items waiting.old.items waiting.new.items next) }
{
    match waiting.pop() {
        Some(next) => {
            put(text, b") . ")?;
            Ok(Some(next))
        }
        None => Ok(None),
    }
}

// One turn of printing a value: what stands at its link, and then the link that comes next.
fn advance(
    alloc: Global,
    text: &mut Vec<u8>,
    program: &Program,
    config: &Config,
    table: &Providers,
    waiting: &mut Vec<Link>,
    at: Link,
) -> Result<Option<Link>, AllocError>
    requires going { IsGoing program.now config.now }
    requires finds { FindsAll table.now config.now }
    ensures { IfOk result (λ next. Advances program.now config.now text.old.items text.new.items waiting.old.items waiting.new.items at next) }
{
    match put_standing(alloc, text, program, config, table, at)? {
        Turn::Ends => {
            let next = next_waiting(text, waiting)?;
            Ok(next)
        }
        Turn::Next(next) => Ok(Some(next)),
        Turn::Sent(sent, next) => {
            waiting.push(next)?;
            Ok(Some(sent))
        }
    }
}

// The value, by a table of where the value at each link stands.
fn value_by(
    alloc: Global,
    program: &Program,
    config: &Config,
    table: &Providers,
) -> Result<Vec<u8>, AllocError>
    requires going { IsGoing program.now config.now }
    requires finds { FindsAll table.now config.now }
    ensures { IfOk result (λ text. text.items ≡ value_text program.now config.now) }
{
    let mut text = Vec::new(alloc);
    let mut waiting: Vec<Link> = Vec::new(alloc);
    let mut at = Link::first(Pid(0));
    while let Some(next) = advance(alloc, &mut text, program, config, table, &mut waiting, at)? {
        at = next;
    }
    Ok(text)
}

/// What main's channel holds for a client: the value of a configuration that a run of an accepted program came to.
pub fn value(alloc: Global, program: &Program, config: &Config) -> Result<Vec<u8>, AllocError>
    requires { IsGoing program.now config.now }
    ensures { IfOk result (λ text. text.items ≡ value_text program.now config.now) }
{
    let table = Providers::of(alloc, config)?;
    let text = value_by(alloc, program, config, &table);
    drop(table);
    text
}
