// What words may ask for.

/// The most events of a run whose words name no budget.
pub const BUDGET: u32 = 100_000;

/// What the words ask for.
#[derive(Clone, Copy, Debug, PartialEq, Eq)]
pub enum Command<'a> {
    /// Checks and runs the program of a file, and prints a report.
    Run {
        /// The file's name.
        file: &'a str,
        /// The most events of the run.
        budget: u32,
        /// Whether the events are printed before the report.
        trace: bool,
    },
    /// Checks the program of a file.
    Check {
        /// The file's name.
        file: &'a str,
    },
    /// Prints the canonical text of a file.
    Show {
        /// The file's name.
        file: &'a str,
    },
    /// Says whether a formula holds.
    Decide {
        /// The formula's text.
        formula: &'a str,
    },
}
