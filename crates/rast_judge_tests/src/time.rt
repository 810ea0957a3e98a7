// Each public call of ticks on small types, with answers worked out by hand.
use rast_index::{Coefficient, Formula, Lin, Rel};
use rast_time::{lasts, now, shift};
use rast_types::{Ty, TypeDef, TypeTable};
use sqlite_items::{Boxed, Items};
use std::alloc::{AllocError, Global};
use std::test::Fail;

// The term `constant + factor * n`, where n is the variable 0.
fn term(constant: u32, factor: u16) -> Lin {
    let mut coefficient = [0; 16];
    coefficient[0] = factor as i64;
    Lin {
        constant: constant as i64,
        coefficient,
    }
}

fn named(alloc: Global, def: u32, arg: Lin) -> Result<Ty, AllocError> {
    let mut args = Items::new(alloc);
    args.push(arg)?;
    Ok(Ty::Named(def, args))
}

fn next(alloc: Global, ticks: Lin) -> Result<Ty, AllocError> {
    Ok(Ty::Next(ticks, Boxed::new(alloc, Ty::One)?))
}

// slow{n} = next {n + 1} 1
fn table(alloc: Global) -> Result<TypeTable, AllocError> {
    let mut defs = Items::new(alloc);
    defs.push(TypeDef {
        name: 0,
        params: 1,
        body: next(alloc, term(1, 1))?,
    })?;
    Ok(TypeTable { defs })
}

// The ticks of a next before the end.
fn ticks_of(ty: &Ty) -> Option<Lin> {
    match ty {
        Ty::Next(ticks, body) => match body.get() {
            Ty::One => Some(*ticks),
            _ => None,
        },
        _ => None,
    }
}

// Where so many ticks are taken off a type that has these: whether it is asked that there are so
// many, and the type that is left.
fn shifted(
    alloc: Global,
    vars: u8,
    ty: &Ty,
    have: Lin,
    by: Lin,
) -> Result<Option<(bool, Ty)>, AllocError> {
    let table = table(alloc)?;
    let answer = match shift(alloc, &table, vars, ty, &by) {
        Ok((goal, later)) => {
            let asked = goal.is_same(&Formula::Rel(have, Rel::Ge, by));
            drop(goal);
            Some((asked, later))
        }
        Err(_) => None,
    };
    drop(table);
    Ok(answer)
}

// slow{n + 3} has n + 4 ticks, and n + 2 are left after 2 of them.
#[test]
fn shifts_a_name(rt: HostRuntime) -> Result<(), Fail> {
    let slow = named(rt.alloc(), 0, term(3, 1))?;
    match shifted(rt.alloc(), 1, &slow, term(4, 1), term(2, 0))? {
        Some((asked, later)) => {
            assert!(rt; asked);
            assert_eq!(rt; ticks_of(&later), Some(term(2, 1)));
        }
        None => assert!(rt; false),
    }
    Ok(())
}

// All ticks are taken off, and then no next is left.
#[test]
fn shifts_to_the_end(rt: HostRuntime) -> Result<(), Fail> {
    let late = next(rt.alloc(), term(5, 0))?;
    match shifted(rt.alloc(), 0, &late, term(5, 0), term(5, 0))? {
        Some((_asked, ended)) => assert!(rt; matches!(ended, Ty::One)),
        None => assert!(rt; false),
    }
    Ok(())
}

// Whether an obligation was made, and is `a rel b`.
fn says(made: Result<Formula, Coefficient>, a: Lin, rel: Rel, b: Lin) -> bool {
    match made {
        Ok(goal) => goal.is_same(&Formula::Rel(a, rel, b)),
        Err(_) => false,
    }
}

#[test]
fn asks_for_ticks(rt: HostRuntime) -> Result<(), Fail> {
    let table = table(rt.alloc())?;
    let slow = named(rt.alloc(), 0, term(3, 1))?;
    assert!(rt; says(now(&table, &slow), term(4, 1), Rel::Eq, term(0, 0)));
    let two = term(2, 0);
    assert!(rt; says(lasts(&table, &Ty::One, &two), term(0, 0), Rel::Ge, two));
    Ok(())
}
