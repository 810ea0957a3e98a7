// Two definitions that say the same, and the equation that says so; answers worked out by hand.
ghost use Rattle.std.specs.Prelude.{All, IfOk};
ghost use Rattle.rast_equal.specs.Fit.{IsFitEquation, IsFitTypeDef};

use rast_equal::{check_equations, equality_law, is_equation_fit, is_type_fit, same};
use rast_index::Formula;
use rast_types::{Ctx, Equation, Ref, Ty, TypeDef, TypeTable};
use sqlite_items::Items;
use std::alloc::{AllocError, Global};
use std::test::Fail;

fn named(alloc: Global, def: u32) -> Ty {
    Ty::Named(def, Items::new(alloc))
}

// One label, and then the same again.
fn repeating(alloc: Global, def: u32) -> Result<TypeDef, AllocError>
    ensures { IfOk result (λ d. IsFitTypeDef d) }
{
    let mut entries = Items::new(alloc);
    entries.push((0, named(alloc, def)))?;
    let body = Ty::Plus(entries);
    if is_type_fit(&body, 0) {
        Ok(TypeDef {
            name: def,
            params: 0,
            body,
        })
    } else {
        Err(AllocError)
    }
}

fn table(alloc: Global) -> Result<TypeTable, AllocError>
    ensures { IfOk result (λ t. All IsFitTypeDef t.defs) }
{
    let mut defs = Items::new(alloc);
    defs.push(repeating(alloc, 0)?)?;
    defs.push(repeating(alloc, 1)?)?;
    Ok(TypeTable { defs })
}

// The first definition is the second one; by this equation itself, once the label was met.
fn equation(alloc: Global) -> Result<Equation, AllocError>
    ensures { IfOk result (λ e. IsFitEquation e) }
{
    let mut refs = Items::new(alloc);
    refs.push(Ref::Eq(1, Items::new(alloc)))?;
    let equation = Equation {
        vars: 0,
        premise: Formula::True,
        left: named(alloc, 0),
        right: named(alloc, 1),
        refs,
    };
    if is_equation_fit(&equation) {
        Ok(equation)
    } else {
        Err(AllocError)
    }
}

// Whether the equation is good.
fn is_good(alloc: Global, table: &TypeTable, equation: Equation) -> bool
    requires defs { All IsFitTypeDef table.now.defs }
    requires fit { IsFitEquation equation }
{
    check_equations(alloc, table, &[equation]).is_ok()
}

// Whether both types are the same by the references to the equation.
fn are_same(alloc: Global, equation: Equation, a: &Ty, b: &Ty, refs: &[Ref]) -> bool
    requires fit { IsFitEquation equation }
{
    let ctx = Ctx {
        vars: 0,
        premises: Items::new(alloc),
    };
    if is_type_fit(a, 0) {
        if is_type_fit(b, 0) {
            return same(alloc, &[equation], &ctx, a, b, refs).is_ok();
        }
    }
    false
}

#[test]
fn an_equation_proves_itself_below_a_head(rt: HostRuntime) -> Result<(), Fail> {
    let defs = table(rt.alloc())?;
    assert_eq!(rt; is_good(rt.alloc(), &defs, equation(rt.alloc())?), true);
    Ok(())
}

#[test]
fn two_names_are_the_same_by_an_equation(rt: HostRuntime) -> Result<(), Fail> {
    let by = [Ref::Eq(1, Items::new(rt.alloc()))];
    let (left, right) = (named(rt.alloc(), 0), named(rt.alloc(), 1));
    assert_eq!(rt;
        are_same(rt.alloc(), equation(rt.alloc())?, &left, &right, &by),
        true
    );
    Ok(())
}

#[test]
fn the_law_is_called() {
    equality_law();
}
