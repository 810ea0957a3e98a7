// The report of a run.
ghost use Rattle.std.specs.Prelude.{◌≡◌, ◌++◌, ◌<◌, ◌^◌, IfOk, OnOk};
ghost use Rattle.rast_items.specs.Run.{work};
ghost use Rattle.rast_core.specs.Promises.{IsGoing};
ghost use Rattle.rast_report.specs.Reports.{outcome_text, limit_text, count_line, counts_text, shown_result, report};

use crate::printing::value;
use crate::sums::{time, work};
use crate::text::{put, put_number, put_pid};
use crate::trace::put_trace;
use rast_core::{Config, Outcome};
use rast_items::{Event, Pid};
use rast_terms::Program;
use std::alloc::{AllocError, Global};

fn put_index_limit(
    alloc: Global,
    text: &mut Vec<u8>,
    pid: Pid,
    value: u128,
) -> Result<(), AllocError>
    ensures { OnOk result (text.new.items ≡ text.old.items ++ outcome_text (Outcome.IndexLimit pid value)) }
{
    put(text, b"index limit at ")?;
    put_pid(alloc, text, pid)?;
    put_limit(alloc, text, value)
}

fn put_limit(alloc: Global, text: &mut Vec<u8>, value: u128) -> Result<(), AllocError>
    ensures { OnOk result (text.new.items ≡ text.old.items ++ limit_text value) }
{
    put(text, b" value ")?;
    put_number(alloc, text, value)
}

fn put_outcome(alloc: Global, text: &mut Vec<u8>, outcome: Outcome) -> Result<(), AllocError>
    ensures { OnOk result (text.new.items ≡ text.old.items ++ outcome_text outcome) }
{
    match outcome {
        Outcome::Running => Ok(()),
        Outcome::Finished => put(text, b"finished"),
        Outcome::OutOfBudget => put(text, b"out of budget"),
        Outcome::IndexLimit { pid, value } => put_index_limit(alloc, text, pid, value),
    }
}

fn put_count(alloc: Global, text: &mut Vec<u8>, word: &[u8], number: u128) -> Result<(), AllocError>
    ensures { OnOk result (text.new.items ≡ text.old.items ++ count_line word.now number) }
{
    put(text, word)?;
    put(text, b" ")?;
    put_number(alloc, text, number)?;
    put(text, b"\n")
}

fn put_counts(
    alloc: Global,
    text: &mut Vec<u8>,
    config: &Config,
    history: &[Event],
) -> Result<(), AllocError>
    requires { work history.now < 2 ^ 128 }
    ensures { OnOk result (text.new.items ≡ text.old.items ++ counts_text history.now config.now) }
{
    put_count(alloc, text, b"steps", history.len() as u128)?;
    put_count(alloc, text, b"work", work(history))?;
    put_count(alloc, text, b"held", config.held())?;
    put_count(alloc, text, b"time", time(history))
}

fn put_result(
    alloc: Global,
    text: &mut Vec<u8>,
    program: &Program,
    config: &Config,
    asked: bool,
) -> Result<(), AllocError>
    requires { IsGoing program.now config.now }
    ensures { OnOk result (text.new.items ≡ text.old.items ++ shown_result program.now config.now asked) }
{
    if !asked {
        return Ok(());
    }
    put(text, b"result ")?;
    let value = value(alloc, program, config)?;
    put(text, value.as_slice())?;
    put(text, b"\n")
}

/// The report of a run: the outcome, the numbers of events, work, held potential and time.
///
/// `config` is the configuration that a run of an accepted program came to by the events of `history`, and `outcome` how far it has come.
/// With `traced` a line for each event comes first; with `valued` the value of the configuration comes last.
pub fn report_text(
    alloc: Global,
    program: &Program,
    outcome: Outcome,
    config: &Config,
    history: &[Event],
    traced: bool,
    valued: bool,
) -> Result<Vec<u8>, AllocError>
    requires going { IsGoing program.now config.now }
    requires work { work history.now < 2 ^ 128 }
    ensures { IfOk result (λ text. text.items ≡ report program.now outcome history.now config.now traced valued) }
{
    let mut text = Vec::new(alloc);
    put_trace(alloc, &mut text, program, history, traced)?;
    put_outcome(alloc, &mut text, outcome)?;
    put(&mut text, b"\n")?;
    put_counts(alloc, &mut text, config, history)?;
    put_result(alloc, &mut text, program, config, valued)?;
    Ok(text)
}
