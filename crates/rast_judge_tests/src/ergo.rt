// Each public call of potential once, with answers worked out by hand.
use rast_ergo::{affords, empty, gains, spends};
use rast_index::{Coefficient, Formula, Lin, Rel};

// The term `constant + factor * n`, where n is the variable 0.
fn term(constant: u32, factor: u16) -> Lin {
    let mut coefficient = [0; 16];
    coefficient[0] = factor as i64;
    Lin {
        constant: constant as i64,
        coefficient,
    }
}

// Whether the obligation is `a rel b`.
fn says(goal: &Formula, a: Lin, rel: Rel, b: Lin) -> bool {
    goal.is_same(&Formula::Rel(a, rel, b))
}

fn left(have: &Lin, want: &Lin) -> Option<Lin> {
    match spends(have, want) {
        Ok((_goal, rest)) => Some(rest),
        Err(_) => None,
    }
}

// `5 + 2 n` less `3 + n`; then 2^32 less than nothing, in two steps.
#[test]
fn spends_within_the_limit(rt: HostRuntime) {
    assert_eq!(rt; left(&term(5, 2), &term(3, 1)), Some(term(2, 1)));
    match left(&term(0, 0), &term(4294967295, 0)) {
        Some(debt) => assert!(rt; left(&debt, &term(1, 0)).is_none()),
        None => assert!(rt; false),
    }
}

#[test]
fn gains_within_the_limit(rt: HostRuntime) {
    assert_eq!(rt; gains(&term(5, 2), &term(7, 1)), Ok(term(12, 3)));
    assert_eq!(rt; gains(&term(4294967295, 0), &term(1, 0)), Err(Coefficient));
}

#[test]
fn asks_for_potential(rt: HostRuntime) {
    let (have, want) = (term(5, 2), term(7, 1));
    assert!(rt; says(&affords(&have, &want), have, Rel::Ge, want));
    assert!(rt; says(&empty(&have), have, Rel::Eq, term(0, 0)));
}
