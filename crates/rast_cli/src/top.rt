// The top call.
ghost use Rattle.std.specs.Prelude.{◌≡◌, ◌⊎◌, Bool, List, ℕ, map, string_bytes, codes, [], IfOk};
ghost use Rattle.rast_io.specs.Causes.{Rose};
ghost use Rattle.rast_words.specs.Asks.{AsksRun, AsksCheck, AsksShow, AsksWhether};
ghost use Rattle.rast_cli.specs.declared.answer.Answer.{Answer};
ghost use Rattle.rast_cli.specs.Lines.{code_of};
ghost use Rattle.rast_cli.specs.Answered.{Comes, Ends, IsUsage, IsWritten};
ghost use Rattle.rast_cli.specs.Headline.{IsNoneOrSound};
ghost use Rattle.rast_cli.specs.Rows.{RunEnds, CheckEnds, ShowEnds, DecideEnds, IsRunStatus};
ghost use Rattle.rast_cli.specs.Held.{AsksForProgram, AsksForCheck, AsksForFile};

use crate::answer::{Answer, code};
use crate::check::say_check;
use crate::decide::say_decision;
use crate::run::say_run;
use crate::said::{Said, say_line};
use crate::show::say_text;
use rast_io::{Files, LIMIT, Sink, write_all};
use rast_items::Event;
use rast_words::{Command, WordsErr, command};
use std::alloc::{AllocError, Global};

/// How the program ended, and the run that was reported or was to be reported.
#[derive(Drop)]
pub struct Exit {
    /// The exit status.
    pub status: u8,
    /// The events of the run; none where no run was made.
    pub history: Vec<Event>,
}

// Writes a text, and says with which status the program ends.
pub(crate) fn print<O: Sink>(out: &mut O, answer: Answer, text: &[u8]) -> u8
    ensures { Ends (O.told out.old) (O.told out.new) (O.faults out.old) (O.faults out.new) text.now (code_of answer) result }
{
    match write_all(out, text) {
        Ok(()) => code(answer),
        Err(_) => 4,
    }
}

// Says that memory is wanting, as far as the sink takes it.
pub(crate) fn want<O: Sink>(out: &mut O)
    ensures { IsWritten (O.told out.old) (O.told out.new) (O.faults out.old) (O.faults out.new) (codes "want of memory\n") }
{
    let _written = write_all(out, b"want of memory\n");
}

// What words and files call for.
fn say<F: Files>(alloc: Global, words: &[String], files: &mut F) -> Result<Said, AllocError>
    ensures { IfOk result (λ said. Comes LIMIT (map string_bytes words.now) (F.held files.old) (Rose (F.faults files.old) (F.faults files.new)) (F.faults files.new ≡ F.faults files.old) said.answer said.text.items said.history.items) }
{
    match command(alloc, words) {
        Ok(
            Command::Run {
                file,
                budget,
                trace,
            },
        ) => say_run(alloc, file, budget, trace, files),
        Ok(Command::Check { file }) => say_check(alloc, file, files),
        Ok(Command::Show { file }) => say_text(alloc, file, files),
        Ok(Command::Decide { formula }) => say_decision(alloc, formula),
        Err(WordsErr::Usage) => say_line(alloc, Answer::Usage),
        Err(WordsErr::Memory) => Err(AllocError),
    }
}

/// All that the program does: what the words ask for, with the text that comes of it on `out`.
///
/// `run FILE` reads the file, checks its program, runs it and writes the report; `--budget N` lets it do at most so many events, and
/// `--trace` writes the events too. `check FILE` writes whether the program is accepted, or why not. `show FILE` writes the file's canonical text. `decide FORMULA` writes whether the
/// formula holds.
///
/// `words` begins with the program's name. Statuses: 0 finished, accepted, shown or true, 1 refused or false, 2 usage, 3 a read
/// fault, 4 a write fault, 5 a bound, 6 out of budget, 7 an index of 2^64 or more, 8 want of memory, 9 too long.
pub fn rast<F: Files, O: Sink>(alloc: Global, words: &[String], files: &mut F, out: &mut O) -> Exit
    ensures answered { (result.status ≡ 8) ⊎ ((answer : Answer) × (text : List ℕ)
        × Comes LIMIT (map string_bytes words.now) (F.held files.old) (Rose (F.faults files.old) (F.faults files.new)) (F.faults files.new ≡ F.faults files.old) answer text result.history.items
        × Ends (O.told out.old) (O.told out.new) (O.faults out.old) (O.faults out.new) text (code_of answer) result.status) }

    // The headline: of the words that ask for a run, whatever the status, there was no run, or the file says an accepted program and the
    // history is a sound run of it, which the text reports.
    ensures headline { (name : List ℕ) (budget : ℕ) (trace : Bool) → AsksRun (map string_bytes words.now) name budget trace
        → IsNoneOrSound LIMIT (F.held files.old) name budget trace result.history.items }

    // What the status says, for each command.
    ensures run { (name : List ℕ) (budget : ℕ) (trace : Bool) → AsksRun (map string_bytes words.now) name budget trace
        → RunEnds LIMIT (F.held files.old) (O.told out.old) (O.told out.new) name budget trace result.history.items result.status }
    ensures check { (name : List ℕ) → AsksCheck (map string_bytes words.now) name
        → CheckEnds LIMIT (F.held files.old) (O.told out.old) (O.told out.new) name result.status }
    ensures show { (name : List ℕ) → AsksShow (map string_bytes words.now) name
        → ShowEnds LIMIT (F.held files.old) (O.told out.old) (O.told out.new) name result.status }
    ensures decide { (formula : List ℕ) → AsksWhether (map string_bytes words.now) formula
        → DecideEnds LIMIT (O.told out.old) (O.told out.new) formula result.status }

    // Usage, faults and want of memory, with their causes.
    ensures usage { result.status ≡ 2 → IsUsage (map string_bytes words.now) }
    ensures read_fault { result.status ≡ 3 → Rose (F.faults files.old) (F.faults files.new) }
    ensures write_fault { result.status ≡ 4 → Rose (O.faults out.old) (O.faults out.new) }
    ensures wanting { result.status ≡ 8 → (result.history.items ≡ []) × IsWritten (O.told out.old) (O.told out.new) (O.faults out.old) (O.faults out.new) (codes "want of memory\n") }

    // Where no fault comes and memory suffices, a program that is told, and of which nothing is false, undecided or over a limit, is
    // accepted and run, and a file that is told is shown.
    ensures runs { AsksForProgram LIMIT (map string_bytes words.now) (F.held files.old) → (Rose (F.faults files.old) (F.faults files.new) → ⊥) → (Rose (O.faults out.old) (O.faults out.new) → ⊥)
        → (result.status ≡ 8) ⊎ IsRunStatus result.status }
    ensures checks { AsksForCheck LIMIT (map string_bytes words.now) (F.held files.old) → (Rose (F.faults files.old) (F.faults files.new) → ⊥) → (Rose (O.faults out.old) (O.faults out.new) → ⊥)
        → (result.status ≡ 8) ⊎ (result.status ≡ 0) }
    ensures shows { AsksForFile LIMIT (map string_bytes words.now) (F.held files.old) → (Rose (F.faults files.old) (F.faults files.new) → ⊥) → (Rose (O.faults out.old) (O.faults out.new) → ⊥)
        → (result.status ≡ 8) ⊎ (result.status ≡ 0) }
{
    let Ok(said) = say(alloc, words, files) else {
        want(out);
        return Exit {
            status: 8,
            history: Vec::new(alloc),
        };
    };
    let status = print(out, said.answer, &said.text);
    Exit {
        status,
        history: said.history,
    }
}
