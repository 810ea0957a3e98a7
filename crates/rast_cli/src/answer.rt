// What the program answers, with its status and the line that it prints for a refusal.
ghost use Rattle.std.specs.Prelude.{◌≡◌, IfOk};
ghost use Rattle.rast_cli.specs.Lines.{code_of, line_of};

use rast_core::Outcome;
use rast_decide::Decision;
use rast_load::TextFault;
use std::alloc::{AllocError, Global};

/// What the words and the files call for.
#[derive(Clone, Copy, Debug, PartialEq, Eq)]
pub enum Answer {
    /// The words don't fit.
    Usage,
    /// A call on the files failed.
    ReadFault,
    /// The file has too many bytes.
    TooLong,
    /// The bytes are no file, and have this first fault.
    NoFile(TextFault),
    /// The file says no accepted program, for a reason of this exit status.
    Refused { status: u8 },
    /// The accepted program executes nothing.
    NoExec,
    /// The program was run, and came to this outcome.
    Ran(Outcome),
    /// The program is accepted.
    Accepted,
    /// The canonical text of the file was made.
    Shown,
    /// The formula was decided, or its text refused.
    Decided(Decision),
}

/// The exit status.
pub fn code(answer: Answer) -> u8
    ensures { result ≡ code_of answer }
{
    match answer {
        Answer::Shown | Answer::Accepted | Answer::Ran(Outcome::Finished) => 0,
        Answer::NoExec => 1,
        Answer::Usage => 2,
        Answer::ReadFault => 3,
        Answer::Ran(Outcome::OutOfBudget | Outcome::Running) => 6,
        Answer::Ran(Outcome::IndexLimit { .. }) => 7,
        Answer::TooLong => 9,
        Answer::NoFile(fault) => rast_load::status(fault),
        Answer::Refused { status } => status,
        Answer::Decided(decision) => rast_decide::status(decision),
    }
}

/// The line of an answer. A run has its report, a file its canonical text, a refused program the line of its reason, and what
/// is decided its own line.
pub fn line(alloc: Global, answer: Answer) -> Result<Vec<u8>, AllocError>
    ensures { IfOk result (λ line. line.items ≡ line_of answer) }
{
    match answer {
        Answer::Usage => b"usage: rast run|check|explicit|show|decide|trial\n".to_vec(alloc),
        Answer::ReadFault => b"read fault\n".to_vec(alloc),
        Answer::TooLong => b"too long\n".to_vec(alloc),
        Answer::NoFile(fault) => rast_load::line(alloc, fault),
        Answer::NoExec => b"refused: no exec\n".to_vec(alloc),
        Answer::Accepted => b"accepted\n".to_vec(alloc),
        Answer::Refused { .. } | Answer::Ran(_) | Answer::Shown | Answer::Decided(_) => {
            Ok(Vec::new(alloc))
        }
    }
}
