// Linear terms and formulas of an item.
ghost use Rattle.std.specs.Prelude.{◌≡◌};
ghost use Rattle.rast_resolve.specs.Answers.{FailsWith, Gives};
ghost use Rattle.rast_resolve.specs.Written.{fault_in, linear_of, linears_of, formula_of};

use crate::bindings::Bindings;
use crate::fault::{NameErr, limit};
use crate::variables::Variables;
use rast_ast::{Form, Lin as Written, Name};
use rast_formula::{ScopeErr, formula_of, linear_of};
use rast_index::{Formula, Lin};
use sqlite_items::Items;
use std::alloc::Global;

// What the fault of a written term or formula is in the item of this name.
fn fault_in(alloc: Global, item: &Name, fault: ScopeErr) -> NameErr
    ensures { FailsWith (fault_in item.now fault) result }
{
    match fault {
        ScopeErr::Unknown { name } => NameErr::Unknown { name },
        ScopeErr::Limit => limit(alloc, item),
        ScopeErr::Memory => NameErr::Memory,
    }
}

// The linear term that a written one stands for, in the item of this name, among these variables.
// Where `walked`, the variables that a walk adds have names too.
pub(crate) fn linear(
    alloc: Global,
    item: &Name,
    walked: bool,
    vars: &Bindings,
    written: &Written,
) -> Result<Lin, NameErr>
    ensures { Gives (linear_of item.now walked vars.now written.now) result }
{
    match linear_of(alloc, &Variables { walked, vars }, written) {
        Ok(l) => Ok(l),
        Err(fault) => Err(fault_in(alloc, item, fault)),
    }
}

// The linear terms that written ones stand for.
pub(crate) fn linears(
    alloc: Global,
    item: &Name,
    walked: bool,
    vars: &Bindings,
    written: &[Written],
) -> Result<Items<Lin>, NameErr>
    ensures { Gives (linears_of item.now walked vars.now written.now) result }
{
    let mut out = Items::new(alloc);
    for l in written {
        out.push(linear(alloc, item, walked, vars, l)?)?;
    }
    Ok(out)
}

// The formula that a written one stands for, in the item of this name, among these variables.
pub(crate) fn formula(
    alloc: Global,
    item: &Name,
    vars: &Bindings,
    written: &Form,
) -> Result<Formula, NameErr>
    ensures { Gives (formula_of item.now vars.now written.now) result }
{
    let walked = false;
    match formula_of(alloc, &Variables { walked, vars }, written) {
        Ok(f) => Ok(f),
        Err(fault) => Err(fault_in(alloc, item, fault)),
    }
}
