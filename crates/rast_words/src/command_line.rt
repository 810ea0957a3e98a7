// The command line, and what its words ask for.
ghost use Rattle.std.specs.Prelude.{◌≡◌, codes, false, map, string_bytes, IfOk, IfErr, IfSome, IsNone};
ghost use Rattle.clap.specs.Words.{app_of, found_of, kind_of, rows_of, shape_of, takes};
ghost use Rattle.rast_words.specs.CommandLine.{of_one, rast, run_app};
ghost use Rattle.rast_words.specs.Asks.{Asks, IsSubcommand, Means};

use crate::asked::{BUDGET, Command};
use crate::matched::{is_set, number, text};
use clap::error::ErrorKind;
use clap::{Arg, ArgAction, ArgMatches, value_parser};
use std::alloc::{AllocError, Global};

/// Why words ask for nothing.
#[derive(Clone, Copy, Debug, PartialEq, Eq)]
pub enum WordsErr {
    /// The words don't fit the command line.
    Usage,
    /// Want of memory.
    Memory,
}

// `run FILE`, with `--budget` and `--trace`.
fn run_command<'a>(alloc: Global) -> Result<clap::Command<'a>, AllocError>
    ensures { IfOk result (λ c. shape_of c ≡ run_app.top) }
{
    let file = Arg::new(alloc, "file").required(true);
    let budget = Arg::new(alloc, "budget")
        .long("budget")
        .value_parser(value_parser!(u32).range(1..=1_000_000));
    let trace = Arg::new(alloc, "trace")
        .long("trace")
        .action(ArgAction::SetTrue);
    let run = clap::Command::new(alloc, "run")
        .arg(file)?
        .arg(budget)?
        .arg(trace)?;
    Ok(run)
}

// A command of one argument.
fn command_of_one<'a>(
    alloc: Global,
    name: &'a str,
    id: &'a str,
) -> Result<clap::Command<'a>, AllocError>
    ensures { IfOk result (λ c. shape_of c ≡ (of_one name.now id.now).top) }
{
    let argument = Arg::new(alloc, id).required(true);
    let command = clap::Command::new(alloc, name).arg(argument)?;
    Ok(command)
}

// The command line.
fn rast_command<'a>(alloc: Global) -> Result<clap::Command<'a>, AllocError>
    ensures { IfOk result (λ c. app_of c ≡ rast) }
{
    let run = run_command(alloc)?;
    let check = command_of_one(alloc, "check", "file")?;
    let show = command_of_one(alloc, "show", "file")?;
    let decide = command_of_one(alloc, "decide", "formula")?;
    let command = clap::Command::new(alloc, "rast")
        .disable_help_subcommand(true)
        .subcommand_required(true)
        .subcommand(run)?
        .subcommand(check)?
        .subcommand(show)?
        .subcommand(decide)?;
    Ok(command)
}

// Why clap doesn't take the words.
fn refusal(error: &clap::Error) -> WordsErr
    ensures { result ≡ WordsErr.Usage → kind_of error.now ≡ ErrorKind.OutOfMemory → ⊥ }
{
    match error.kind() {
        ErrorKind::OutOfMemory => WordsErr::Memory,
        _ => WordsErr::Usage,
    }
}

// What `run` with these matches asks for.
fn run<'a>(matches: &ArgMatches<'a>) -> Command<'a>
    ensures { Means (codes "run") (rows_of (found_of matches.now)) result }
{
    Command::Run {
        file: text(matches, "file"),
        budget: number(matches, "budget", BUDGET),
        trace: is_set(matches, "trace"),
    }
}

// What a subcommand asks for.
fn of_subcommand<'a>(name: &str, matches: &ArgMatches<'a>) -> Option<Command<'a>>
    ensures some { IfSome result (Means name.now (rows_of (found_of matches.now))) }
    ensures none { IsNone result → IsSubcommand name.now → ⊥ }
{
    if name == "run" {
        return Some(run(matches));
    }
    if name == "check" {
        let file = text(matches, "file");
        return Some(Command::Check { file });
    }
    if name == "show" {
        let file = text(matches, "file");
        return Some(Command::Show { file });
    }
    if name == "decide" {
        let formula = text(matches, "formula");
        return Some(Command::Decide { formula });
    }
    None
}

/// What the words ask for, of which the first is the program's name.
///
/// The only refusal besides want of memory is `Usage`, exactly where `clap` doesn't take the words; a call for help or a
/// version is one too.
pub fn command<'a>(alloc: Global, words: &'a [String]) -> Result<Command<'a>, WordsErr>
    ensures asks { IfOk result (Asks (map string_bytes words.now)) }
    ensures usage { IfErr result (λ e. e ≡ WordsErr.Usage → takes rast (map string_bytes words.now) ≡ false) }
{
    let Ok(line) = rast_command(alloc) else {
        return Err(WordsErr::Memory);
    };
    let matches = match line.try_get_matches_from(words) {
        Ok(matches) => matches,
        Err(error) => return Err(refusal(&error)),
    };
    let Some((name, found)) = matches.subcommand() else {
        return Err(WordsErr::Usage);
    };
    let Some(command) = of_subcommand(name, found) else {
        return Err(WordsErr::Usage);
    };
    Ok(command)
}
