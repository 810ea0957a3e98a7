// The decision of an obligation.
ghost use Rattle.std.specs.Prelude.{◌≡◌, ◌≤◌, true, length, IfOk};
ghost use Rattle.std.specs.List.{list_all};
ghost use Rattle.rast_cooper.specs.Eliminate.{AllAbove};
ghost use Rattle.rast_cooper.specs.Rows.{numbers};
ghost use Rattle.rast_cooper.specs.Verdicts.{most_states, is_within, verdict, Tells};

use crate::explore::Course;
use crate::literal::Literal;
use crate::search::search;
use crate::verdict::Verdict;
use rast_index::Formula;
use std::alloc::{AllocError, Global};

/// How many states may be visited.
const MOST_STATES: u32 = 1048576;

/// The numbers that rows without variables give, and 0 from their count on.
fn numbers(rows: &[Literal]) -> [u128; 16]
    requires few { length rows.now ≤ 16 }
    requires above { AllAbove rows.now }
    ensures { result ≡ numbers rows.now }
{
    let mut values = [0u128; 16];
    for i in 0..rows.len() {
        values[i] = rows[i].number();
    }
    values
}

/// The verdict where at most `most` states are visited.
fn decide_within(
    alloc: Global,
    vars: u8,
    premises: &[Formula],
    goal: &Formula,
    most: u32,
) -> Result<Verdict, AllocError>
    requires few { vars ≤ 16 }
    requires premises { list_all (is_within vars) premises.now ≡ true }
    requires goal { is_within vars goal.now ≡ true }
    ensures exact { IfOk result (λ v. v ≡ verdict most vars premises.now goal.now) }
    ensures tells { IfOk result (Tells vars premises.now goal.now) }
{
    match search(alloc, vars, premises, goal, most)? {
        Course::Done(_) => Ok(Verdict::Holds),
        Course::Found(rows) => Ok(Verdict::Fails {
            values: numbers(rows.as_slice()),
        }),
        Course::TooMany => Ok(Verdict::NodeLimit),
        Course::TooGreat => Ok(Verdict::NumberLimit),
    }
}

/// Decides whether the goal is true at all naturals at which the premises are.
///
/// `vars` is the number of variables, and no other variable may occur. `Fails` comes with the first
/// counterexample of the search, `NodeLimit` where a state after the 1,048,576th would be visited, and
/// `NumberLimit` where a number beyond 2^120 in magnitude is met first. The only error is want of memory.
pub fn decide(
    alloc: Global,
    vars: u8,
    premises: &[Formula],
    goal: &Formula,
) -> Result<Verdict, AllocError>
    requires few { vars ≤ 16 }
    requires premises { list_all (is_within vars) premises.now ≡ true }
    requires goal { is_within vars goal.now ≡ true }
    ensures exact { IfOk result (λ v. v ≡ verdict most_states vars premises.now goal.now) }
    ensures tells { IfOk result (Tells vars premises.now goal.now) }
{
    decide_within(alloc, vars, premises, goal, MOST_STATES)
}
