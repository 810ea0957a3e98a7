// The lines of a trace.
ghost use Rattle.std.specs.Prelude.{◌≡◌, ◌++◌, OnOk, []};
ghost use Rattle.rast_items.specs.Run.{pid_of};
ghost use Rattle.rast_report.specs.Reports.{at_moment, event_text, message_line, object_text, trace_from, trace_text, verb};
ghost use Rattle.rast_report.specs.Amounts.{kept_on};

use crate::amounts::Amounts;
use crate::sums::moment_of;
use crate::text::{put, put_body, put_link, put_number, put_pid};
use rast_items::{Body, Event, Link, Pid};
use rast_terms::{Program, put_decl};
use std::alloc::{AllocError, Global};

/// Puts a line for each event, numbered from 1, where a trace is asked for.
pub(crate) fn put_trace(
    alloc: Global,
    text: &mut Vec<u8>,
    program: &Program,
    history: &[Event],
    asked: bool,
) -> Result<(), AllocError>
    ensures { OnOk result (text.new.items ≡ text.old.items ++ trace_text program.now history.now asked) }
{
    if asked {
        put_lines(alloc, text, program, history)
    } else {
        Ok(())
    }
}

// Puts a line for each event, numbered from 1.
fn put_lines(
    alloc: Global,
    text: &mut Vec<u8>,
    program: &Program,
    history: &[Event],
) -> Result<(), AllocError>
    ensures { OnOk result (text.new.items ≡ text.old.items ++ trace_from program.now 1 [] history.now) }
{
    let mut amounts = Amounts::new(alloc);
    for place in 0..history.len() {
        let event = &history[place];
        put_number(alloc, text, place as u128 + 1)?;
        put(text, b" ")?;
        put_event(alloc, text, program, &amounts, event)?;
        put(text, b"\n")?;
        amounts.see(event)?;
    }
    Ok(())
}

// Puts an event, where messages hold these amounts.
fn put_event(
    alloc: Global,
    text: &mut Vec<u8>,
    program: &Program,
    amounts: &Amounts,
    event: &Event,
) -> Result<(), AllocError>
    ensures { OnOk result (text.new.items ≡ text.old.items ++ event_text program.now (kept_on amounts.now) event.now) }
{
    put_pid(alloc, text, pid_of(event))?;
    put(text, verb(event))?;
    put_object(alloc, text, program, amounts, event)?;
    put_moment(alloc, text, moment_of(event))
}

fn pid_of(event: &Event) -> Pid
    ensures { result ≡ pid_of event.now }
{
    match event {
        Event::Send { pid, .. } => *pid,
        Event::Take { pid, .. } => *pid,
        Event::Move { pid, .. } => *pid,
        Event::Spawn { pid, .. } => *pid,
        Event::Call { pid, .. } => *pid,
        Event::Work { pid, .. } => *pid,
        Event::Delay { pid, .. } => *pid,
    }
}

fn verb(event: &Event) -> &'static [u8]
    ensures { result.now ≡ verb event.now }
{
    match event {
        Event::Send { .. } => b" send ",
        Event::Take { .. } => b" take ",
        Event::Move { .. } => b" move ",
        Event::Spawn { .. } => b" spawn ",
        Event::Call { .. } => b" call ",
        Event::Work { .. } => b" work ",
        Event::Delay { .. } => b" delay ",
    }
}

// Puts what an event names.
fn put_object(
    alloc: Global,
    text: &mut Vec<u8>,
    program: &Program,
    amounts: &Amounts,
    event: &Event,
) -> Result<(), AllocError>
    ensures { OnOk result (text.new.items ≡ text.old.items ++ object_text program.now (kept_on amounts.now) event.now) }
{
    match *event {
        Event::Send {
            link,
            body,
            potential,
            ..
        } => put_message(alloc, text, program, link, body, potential),
        Event::Take { link, body, .. } => {
            let amount = amounts.on(link);
            put_message(alloc, text, program, link, body, amount)
        }
        Event::Move { from, to, body, .. } => {
            put_link(alloc, text, from)?;
            put(text, b" ")?;
            let amount = amounts.on(from);
            put_message(alloc, text, program, to, body, amount)
        }
        Event::Spawn { child, decl, .. } => {
            put_pid(alloc, text, child)?;
            put(text, b" ")?;
            put_decl(text, program, decl as usize)
        }
        Event::Call { decl, .. } => put_decl(text, program, decl as usize),
        Event::Work { amount, .. } => put_number(alloc, text, amount),
        Event::Delay { ticks, .. } => put_number(alloc, text, ticks),
    }
}

fn put_message(
    alloc: Global,
    text: &mut Vec<u8>,
    program: &Program,
    link: Link,
    body: Body,
    amount: u128,
) -> Result<(), AllocError>
    ensures { OnOk result (text.new.items ≡ text.old.items ++ message_line program.now link body amount) }
{
    put_link(alloc, text, link)?;
    put(text, b" ")?;
    put_body(alloc, text, program, body, amount)
}

fn put_moment(alloc: Global, text: &mut Vec<u8>, moment: u128) -> Result<(), AllocError>
    ensures { OnOk result (text.new.items ≡ text.old.items ++ at_moment moment) }
{
    put(text, b" @")?;
    put_number(alloc, text, moment)
}
