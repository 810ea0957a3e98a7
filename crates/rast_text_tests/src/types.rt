// Each public call on small types, with answers worked out by hand.
ghost use Rattle.std.specs.Prelude.{◌<◌};

use rast_index::{IndexErr, Lin};
use rast_types::{Ty, TypeDef, TypeTable, arrival, copy_terms, expose, unfold};
use sqlite_items::{Boxed, Items};
use std::alloc::{AllocError, Global};
use std::test::Fail;

// The term `constant + factor * n`, where n is the variable 0.
fn term(constant: u32, factor: u16) -> Lin {
    let mut coefficient = [0; 16];
    coefficient[0] = factor as i64;
    Lin {
        constant: constant as i64,
        coefficient,
    }
}

// The same, and another variable.
fn with_other(constant: u32, factor: u16, other: usize) -> Lin
    requires { other < 16 }
{
    let mut coefficient = [0; 16];
    coefficient[0] = factor as i64;
    coefficient[other] = 1;
    Lin {
        constant: constant as i64,
        coefficient,
    }
}

fn named(alloc: Global, def: u32, arg: Lin) -> Result<Ty, AllocError> {
    let mut args = Items::new(alloc);
    args.push(arg)?;
    Ok(Ty::Named(def, args))
}

// `potential` paid, and then the end.
fn paid(alloc: Global, potential: Lin) -> Result<Ty, AllocError> {
    Ok(Ty::Pays(potential, Boxed::new(alloc, Ty::One)?))
}

fn delayed(alloc: Global, ticks: Lin, body: Ty) -> Result<Ty, AllocError> {
    Ok(Ty::Next(ticks, Boxed::new(alloc, body)?))
}

fn definition(name: u32, body: Ty) -> TypeDef {
    TypeDef {
        name,
        params: 1,
        body,
    }
}

// slow{n} = next {n + 1} of fast{2 * n}
fn slow(alloc: Global) -> Result<Ty, AllocError> {
    let fast = named(alloc, 1, term(0, 2))?;
    delayed(alloc, term(1, 1), fast)
}

// asks{n} = a natural k, and pays {2 * n + k}, 1
fn asks(alloc: Global) -> Result<Ty, AllocError> {
    let body = paid(alloc, with_other(0, 2, 1))?;
    Ok(Ty::Ex(Boxed::new(alloc, body)?))
}

// A table with one definition more.
fn with(table: TypeTable, name: u32, body: Ty) -> Result<TypeTable, AllocError> {
    let mut defs = table.defs;
    defs.push(definition(name, body))?;
    Ok(TypeTable { defs })
}

// slow, fast{n} = pays {n}, 1, and asks
fn table(alloc: Global) -> Result<TypeTable, AllocError> {
    let none = TypeTable {
        defs: Items::new(alloc),
    };
    let first = with(none, 0, slow(alloc)?)?;
    let second = with(first, 1, paid(alloc, term(0, 1))?)?;
    with(second, 2, asks(alloc)?)
}

// What is paid first, also where a natural is sent before.
fn potential_of(a: &Ty) -> Option<Lin> {
    match a {
        Ty::Pays(potential, _) => Some(*potential),
        Ty::Ex(body) => match body.get() {
            Ty::Pays(potential, _) => Some(*potential),
            _ => None,
        },
        _ => None,
    }
}

#[test]
fn exposes(rt: HostRuntime) -> Result<(), Fail> {
    let table = table(rt.alloc())?;
    let slow = named(rt.alloc(), 0, term(3, 1))?;
    let exposed = expose(rt.alloc(), &table, 1, &slow)?;
    assert_eq!(rt; exposed.ticks, term(4, 1));
    assert_eq!(rt; potential_of(&exposed.head), Some(term(6, 2)));
    Ok(())
}

// The bound variable takes the number of the variables in scope.
#[test]
fn unfolds(rt: HostRuntime) -> Result<(), Fail> {
    let table = table(rt.alloc())?;
    let asks = named(rt.alloc(), 2, term(3, 1))?;
    let unfolded = unfold(rt.alloc(), &table, 5, &asks)?;
    assert_eq!(rt; potential_of(&unfolded), Some(with_other(6, 2, 5)));
    Ok(())
}

// What unfolding a definition at a constant answers in a scope of so many variables.
fn unfolding(
    alloc: Global,
    table: &TypeTable,
    vars: u8,
    constant: u32,
) -> Result<Option<IndexErr>, AllocError> {
    let asks = named(alloc, 2, term(constant, 0))?;
    Ok(unfold(alloc, table, vars, &asks).err())
}

#[test]
fn keeps_the_limits(rt: HostRuntime) -> Result<(), Fail> {
    let table = table(rt.alloc())?;
    let half = 2147483648;
    assert_eq!(rt; unfolding(rt.alloc(), &table, 15, half - 1)?, None);
    assert_eq!(rt;
        unfolding(rt.alloc(), &table, 15, half)?,
        Some(IndexErr::Coefficient)
    );
    assert_eq!(rt;
        unfolding(rt.alloc(), &table, 16, half)?,
        Some(IndexErr::Variables)
    );
    Ok(())
}

#[test]
fn copies(rt: HostRuntime) -> Result<(), Fail> {
    let a = paid(rt.alloc(), term(7, 2))?;
    assert_eq!(rt; potential_of(&a.copy(rt.alloc())?), Some(term(7, 2)));
    let terms = copy_terms(rt.alloc(), &[term(1, 2), term(3, 4)])?;
    assert_eq!(rt; terms.len(), 2);
    assert_eq!(rt; terms.as_slice()[1], term(3, 4));
    Ok(())
}

#[test]
fn tells_the_arrival(rt: HostRuntime) -> Result<(), Fail> {
    let table = TypeTable {
        defs: Items::new(rt.alloc()),
    };
    let mut values = [0; 16];
    values[0] = 7;
    assert_eq!(rt; arrival(&table, &Ty::One, &values), 0);
    let mut coefficient = [0; 16];
    coefficient[0] = 3;
    let ticks = Lin {
        constant: 5,
        coefficient,
    };
    let late = Ty::Next(ticks, Boxed::new(rt.alloc(), Ty::One)?);
    assert_eq!(rt; arrival(&table, &late, &values), 26);
    Ok(())
}
