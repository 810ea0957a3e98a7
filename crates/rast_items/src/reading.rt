// Index values of a process.
ghost use Rattle.std.specs.Prelude.{◌≡◌};
ghost use Rattle.rast_items.specs.Deeds.{at_values};
ghost use Rattle.rast_items.specs.Actions.{IsReading};

use crate::process::Proc;
use rast_index::{Lin, eval};

/// The value of a term, where a natural below 2^64 is wanted.
#[derive(Clone, Copy)]
pub enum Reading {
    /// Such a natural.
    Natural(u64),
    /// A value of 2^64 or more.
    Large(u128),
    /// No natural.
    Unfit,
}

/// The value of a term at the index values of a process.
pub(crate) fn read(term: &Lin, proc: &Proc) -> Reading
    ensures { IsReading (at_values proc.now term.now) result }
{
    reading_of(eval(term, &proc.values))
}

fn reading_of(value: i128) -> Reading
    ensures { IsReading value result }
{
    if value < 0 {
        Reading::Unfit
    } else if value < 1 << 64 {
        Reading::Natural(value as u64)
    } else {
        Reading::Large(value as u128)
    }
}
