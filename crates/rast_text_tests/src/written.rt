// Words, names, and what written terms and formulas stand for, with answers worked out by hand.
use rast_ast::{Conjunction, Disjunction, Form, Kind, Lin as Written, Literal, Name, Term};
use rast_formula::{Bound, formula_of, linear_of};
use rast_index::{Formula, Lin};
use sqlite_items::{Boxed, Items};
use std::alloc::{AllocError, Global};
use std::test::Fail;

// `n` is the variable 3.
fn scope(alloc: Global) -> Result<Items<Bound>, AllocError> {
    let mut scope = Items::new(alloc);
    scope.push(Bound {
        name: Name::new(alloc, b"n")?,
        number: 3,
    })?;
    Ok(scope)
}

// `2 * n`
fn twice_n(alloc: Global) -> Result<Written, AllocError> {
    let n = Term::Variable(Name::new(alloc, b"n")?);
    let twice = Term::Times(2, Boxed::new(alloc, n)?);
    Ok(Written {
        first: Boxed::new(alloc, twice)?,
        rest: Items::new(alloc),
    })
}

// `true`
fn truth(alloc: Global) -> Result<Form, AllocError> {
    let first = Conjunction {
        first: Boxed::new(alloc, Literal::True)?,
        rest: Items::new(alloc),
    };
    Ok(Form::Plain(Disjunction {
        first,
        rest: Items::new(alloc),
    }))
}

#[test]
fn words_have_their_bytes(rt: HostRuntime) -> Result<(), Fail> {
    assert_eq!(rt; Kind::Lolli.text(), b"-o".as_slice());
    assert_eq!(rt; Kind::Name.text(), b"".as_slice());
    let name = Name::new(rt.alloc(), b"main")?;
    assert_eq!(rt; name.as_bytes(), b"main".as_slice());
    Ok(())
}

#[test]
fn a_term_stands_for_its_variables(rt: HostRuntime) -> Result<(), Fail> {
    let alloc = rt.alloc();
    let mut coefficient = [0; 16];
    coefficient[3] = 2;
    let want = Lin {
        constant: 0,
        coefficient,
    };
    match linear_of(alloc, &scope(alloc)?, &twice_n(alloc)?) {
        Ok(found) => assert_eq!(rt; found, want),
        Err(_) => assert!(rt; false),
    }
    let none: Items<Bound> = Items::new(alloc);
    assert!(rt; linear_of(alloc, &none, &twice_n(alloc)?).is_err());
    Ok(())
}

#[test]
fn a_formula_stands_for_itself(rt: HostRuntime) -> Result<(), Fail> {
    let alloc = rt.alloc();
    match formula_of(alloc, &scope(alloc)?, &truth(alloc)?) {
        Ok(Formula::True) => Ok(()),
        _ => {
            assert!(rt; false);
            Ok(())
        }
    }
}
