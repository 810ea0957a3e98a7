// Each public call of linear terms and formulas once, with answers worked out by hand.
use rast_index::{
    Coefficient, Formula, Lin, Rel, add, eval, holds, scale, sub, subst, subst_formula,
};
use sqlite_items::{Boxed, Items};
use std::alloc::{AllocError, Global};
use std::test::Fail;

// The term `constant + first * n + second * m`, where n is the variable 0 and m the variable 1.
fn term(constant: u16, first: u16, second: u16) -> Lin {
    let mut coefficient = [0; 16];
    coefficient[0] = first as i64;
    coefficient[1] = second as i64;
    Lin {
        constant: constant as i64,
        coefficient,
    }
}

fn values(first: u64, second: u64) -> [u64; 16] {
    let mut values = [0; 16];
    values[0] = first;
    values[1] = second;
    values
}

// `3 | n /\ n <> m`
fn multiple_apart(alloc: Global) -> Result<Formula, AllocError> {
    let mut members = Items::new(alloc);
    members.push(Formula::Div(3, term(0, 1, 0)))?;
    members.push(Formula::Rel(term(0, 1, 0), Rel::Ne, term(0, 0, 1)))?;
    Ok(Formula::And(members))
}

#[test]
fn makes_terms(rt: HostRuntime) {
    assert_eq!(rt; Lin::nought(), term(0, 0, 0));
    assert_eq!(rt; Lin::variable(1), term(0, 0, 1));
    assert_eq!(rt; term(5, 3, 2).again(), term(5, 3, 2));
}

#[test]
fn evaluates(rt: HostRuntime) {
    assert_eq!(rt; eval(&term(5, 3, 2), &values(4, 7)), 31);
}

#[test]
fn says_what_holds(rt: HostRuntime) -> Result<(), Fail> {
    let formula = multiple_apart(rt.alloc())?;
    for (n, m, want) in [(6, 5, true), (6, 6, false), (7, 5, false)] {
        assert_eq!(rt; holds(&formula, &values(n, m)), want, "at {n}, {m}");
    }
    Ok(())
}

// `3 | n /\ n <> m => n > 5`
fn implication(alloc: Global) -> Result<Formula, AllocError> {
    let greater = Formula::Rel(term(0, 1, 0), Rel::Gt, term(5, 0, 0));
    let left = Boxed::new(alloc, multiple_apart(alloc)?)?;
    let right = Boxed::new(alloc, greater)?;
    Ok(Formula::Imp(left, right))
}

#[test]
fn says_what_is_implied(rt: HostRuntime) -> Result<(), Fail> {
    let implied = implication(rt.alloc())?;
    assert!(rt; holds(&implied, &values(6, 5)));
    assert!(rt; !holds(&implied, &values(3, 5)));
    Ok(())
}

#[test]
fn adds_and_scales(rt: HostRuntime) {
    assert_eq!(rt; add(&term(5, 3, 2), &term(1, 0, 4)), Ok(term(6, 3, 6)));
    assert_eq!(rt; sub(&term(5, 3, 2), &term(1, 3, 2)), Ok(term(4, 0, 0)));
    assert_eq!(rt; scale(3, &term(5, 3, 2)), Ok(term(15, 9, 6)));
    assert!(rt;
        scale(65537, &term(65535, 0, 0)).is_ok(),
        "2^32 - 1 is the greatest number"
    );
    assert_eq!(rt; scale(65538, &term(0, 65535, 0)), Err(Coefficient));
}

#[test]
fn replaces_variables(rt: HostRuntime) {
    let args = [term(4, 0, 1), term(0, 5, 0)];
    assert_eq!(rt; subst(&term(1, 2, 3), &args), Ok(term(9, 15, 2)));
}

// `3 | m + 4 /\ m + 4 <> 5 * n`
fn replaced(alloc: Global) -> Result<Formula, AllocError> {
    let mut members = Items::new(alloc);
    members.push(Formula::Div(3, term(4, 0, 1)))?;
    members.push(Formula::Rel(term(4, 0, 1), Rel::Ne, term(0, 5, 0)))?;
    Ok(Formula::And(members))
}

#[test]
fn replaces_variables_of_a_formula(rt: HostRuntime) -> Result<(), Fail> {
    let args = [term(4, 0, 1), term(0, 5, 0)];
    let formula = multiple_apart(rt.alloc())?;
    let wanted = replaced(rt.alloc())?;
    assert!(rt; subst_formula(rt.alloc(), &formula, &args)?.is_same(&wanted));
    assert!(rt; !formula.is_same(&wanted));
    Ok(())
}

#[test]
fn copies_a_formula(rt: HostRuntime) -> Result<(), Fail> {
    let formula = multiple_apart(rt.alloc())?;
    assert!(rt; formula.copy(rt.alloc())?.is_same(&formula));
    Ok(())
}
