// What comes of a text that is to be decided.
ghost use Rattle.std.specs.Prelude.{◌≡◌};
ghost use Rattle.rast_decide.specs.Lines.{status_of};

use rast_cooper::Verdict;

/// What comes of a text that is to be decided. `at` is the place of a byte, counted from 0.
#[derive(Clone, Copy, Debug, PartialEq, Eq)]
pub enum Decision {
    /// The text has more than 1,048,576 bytes.
    TooLong,
    /// A byte begins no token, or a byte above 127 stands in a comment.
    BadByte { at: u32 },
    /// Digits have a leading zero, or a value of 2^32 or more.
    BadNumber { at: u32 },
    /// A name has more than 64 bytes.
    LongName { at: u32 },
    /// The tokens before the one at `at` begin a formula, and those with it begin none.
    Syntax { at: u32 },
    /// At the token at `at` the 65th nonterminal is open, of those that may stand in themselves.
    TooDeep { at: u32 },
    /// The formula has more than 16 variables, or a number of magnitude 2^32 or more on the way to a linear term.
    Limit,
    /// The verdict on the formula.
    Judged(Verdict),
}

/// The exit status: 0 where the formula holds, 1 where it fails or isn't one, 5 at a limit, 9 where the text is too long.
pub fn status(decision: Decision) -> u8
    ensures { result ≡ status_of decision }
{
    match decision {
        Decision::Judged(Verdict::Holds) => 0,
        Decision::BadByte { .. }
        | Decision::BadNumber { .. }
        | Decision::LongName { .. }
        | Decision::Syntax { .. }
        | Decision::Judged(Verdict::Fails { .. }) => 1,
        Decision::TooDeep { .. }
        | Decision::Limit
        | Decision::Judged(Verdict::NodeLimit | Verdict::NumberLimit) => 5,
        Decision::TooLong => 9,
    }
}
