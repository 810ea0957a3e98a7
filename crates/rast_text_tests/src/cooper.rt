// Searches under premises. How long a search may be stands in the case files of `rast_rows`.
ghost use Rattle.std.specs.Prelude.{◌≡◌, true};
ghost use Rattle.rast_index.specs.Linear.{is_closed};

use rast_cooper::{Verdict, decide};
use rast_index::{Formula, Lin};
use std::test::Fail;

/// `constant + coefficient * n`.
fn line(constant: u8, coefficient: u8) -> Lin
    ensures { is_closed 1 result ≡ true }
{
    Lin {
        constant: constant as i64,
        coefficient: [
            coefficient as i64,
            0,
            0,
            0,
            0,
            0,
            0,
            0,
            0,
            0,
            0,
            0,
            0,
            0,
            0,
            0,
        ],
    }
}

fn first(verdict: Verdict) -> Option<u128> {
    match verdict {
        Verdict::Fails { values } => Some(values[0]),
        _ => None,
    }
}

// No number and the next one are both even.
#[test]
fn premises_are_used(rt: HostRuntime) -> Result<(), Fail> {
    let premises = [Formula::Div(2, line(0, 1)), Formula::Div(2, line(1, 1))];
    assert_eq!(rt;
        decide(rt.alloc(), 1, &premises, &Formula::False)?,
        Verdict::Holds
    );
    Ok(())
}

// 2 is the first number of which the next one is a multiple of 3.
#[test]
fn the_first_number_is_named(rt: HostRuntime) -> Result<(), Fail> {
    let premises = [Formula::Div(3, line(1, 1))];
    let verdict = decide(rt.alloc(), 1, &premises, &Formula::False)?;
    assert_eq!(rt; first(verdict), Some(2));
    Ok(())
}
