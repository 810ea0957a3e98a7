// The commands that run nothing.
ghost use Rattle.std.specs.Prelude.{◌≡◌, ◌⊎◌, Bool, List, ℕ, map, string_bytes, codes, [], IfOk};
ghost use Rattle.rast_io.specs.Causes.{Rose};
ghost use Rattle.rast_words.specs.Asks.{AsksRun, AsksCheck, AsksShow, AsksWhether};
ghost use Rattle.rast_cli.specs.declared.answer.Answer.{Answer};
ghost use Rattle.rast_cli.specs.declared.answer.Answer.TheVariants.{Usage};
ghost use Rattle.rast_cli.specs.Lines.{code_of, line_of};
ghost use Rattle.rast_cli.specs.Answered.{Ends, IsWritten};
ghost use Rattle.rast_cli.specs.WithoutRuns.{ComesWithoutRun, IsUsageOrRun};
ghost use Rattle.rast_cli.specs.Rows.{CheckEnds, ShowEnds, DecideEnds};
ghost use Rattle.rast_cli.specs.Held.{AsksForCheck, AsksForFile};

use crate::answer::Answer;
use crate::check::say_check;
use crate::decide::say_decision;
use crate::said::{Said, say_line};
use crate::show::say_text;
use crate::top::{Exit, print, want};
use rast_io::{Files, LIMIT, Sink};
use rast_words::{Command, WordsErr, command};
use std::alloc::{AllocError, Global};

// What words and files call for, where a run is answered by the usage line.
fn say_without_run<F: Files>(
    alloc: Global,
    words: &[String],
    files: &mut F,
) -> Result<Said, AllocError>
    ensures { IfOk result (λ said. ComesWithoutRun LIMIT (map string_bytes words.now) (F.held files.old) (Rose (F.faults files.old) (F.faults files.new)) (F.faults files.new ≡ F.faults files.old) said.answer said.text.items said.history.items) }
{
    match command(alloc, words) {
        Ok(Command::Run { .. }) => say_line(alloc, Answer::Usage),
        Ok(Command::Check { file }) => say_check(alloc, file, files),
        Ok(Command::Show { file }) => say_text(alloc, file, files),
        Ok(Command::Decide { formula }) => say_decision(alloc, formula),
        Err(WordsErr::Usage) => say_line(alloc, Answer::Usage),
        Err(WordsErr::Memory) => Err(AllocError),
    }
}

/// What `rast` does for `check`, `show` and `decide`. It runs no program; words that ask for a run are answered by the usage
/// line.
///
/// `words` begins with the program's name. Statuses: 0 accepted, shown or true, 1 refused or false, 2 usage or a run, 3 a read
/// fault, 4 a write fault, 5 a bound, 8 want of memory, 9 too long. The history is empty.
pub fn rast_static<F: Files, O: Sink>(
    alloc: Global,
    words: &[String],
    files: &mut F,
    out: &mut O,
) -> Exit
    ensures answered { (result.status ≡ 8) ⊎ ((answer : Answer) × (text : List ℕ)
        × ComesWithoutRun LIMIT (map string_bytes words.now) (F.held files.old) (Rose (F.faults files.old) (F.faults files.new)) (F.faults files.new ≡ F.faults files.old) answer text result.history.items
        × Ends (O.told out.old) (O.told out.new) (O.faults out.old) (O.faults out.new) text (code_of answer) result.status) }
    ensures history { result.history.items ≡ [] }

    // What the status says, for each command.
    ensures run { (name : List ℕ) (budget : ℕ) (trace : Bool) → AsksRun (map string_bytes words.now) name budget trace
        → (result.status ≡ 8) ⊎ Ends (O.told out.old) (O.told out.new) (O.faults out.old) (O.faults out.new) (line_of Usage) 2 result.status }
    ensures check { (name : List ℕ) → AsksCheck (map string_bytes words.now) name
        → CheckEnds LIMIT (F.held files.old) (O.told out.old) (O.told out.new) name result.status }
    ensures show { (name : List ℕ) → AsksShow (map string_bytes words.now) name
        → ShowEnds LIMIT (F.held files.old) (O.told out.old) (O.told out.new) name result.status }
    ensures decide { (formula : List ℕ) → AsksWhether (map string_bytes words.now) formula
        → DecideEnds LIMIT (O.told out.old) (O.told out.new) formula result.status }

    // Usage, faults and want of memory, with their causes.
    ensures usage { result.status ≡ 2 → IsUsageOrRun (map string_bytes words.now) }
    ensures read_fault { result.status ≡ 3 → Rose (F.faults files.old) (F.faults files.new) }
    ensures write_fault { result.status ≡ 4 → Rose (O.faults out.old) (O.faults out.new) }
    ensures wanting { result.status ≡ 8 → IsWritten (O.told out.old) (O.told out.new) (O.faults out.old) (O.faults out.new) (codes "want of memory\n") }

    // Where no fault comes and memory suffices, a program that is told, and of which nothing is false, undecided or over a limit, is
    // accepted, and a file that is told is shown.
    ensures checks { AsksForCheck LIMIT (map string_bytes words.now) (F.held files.old) → (Rose (F.faults files.old) (F.faults files.new) → ⊥) → (Rose (O.faults out.old) (O.faults out.new) → ⊥)
        → (result.status ≡ 8) ⊎ (result.status ≡ 0) }
    ensures shows { AsksForFile LIMIT (map string_bytes words.now) (F.held files.old) → (Rose (F.faults files.old) (F.faults files.new) → ⊥) → (Rose (O.faults out.old) (O.faults out.new) → ⊥)
        → (result.status ≡ 8) ⊎ (result.status ≡ 0) }
{
    let Ok(said) = say_without_run(alloc, words, files) else {
        want(out);
        return Exit {
            status: 8,
            history: Vec::new(alloc),
        };
    };
    let status = print(out, said.answer, &said.text);
    Exit {
        status,
        history: said.history,
    }
}
