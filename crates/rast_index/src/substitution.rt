// Formulas with their variables replaced by terms.
ghost use Rattle.std.specs.Prelude.{◌≡◌, ◌≤◌, List, ℤ, map, length, IfOk};
ghost use Rattle.std.specs.List.{list_all};
ghost use Rattle.rast_index.specs.Linear.{value};
ghost use Rattle.rast_index.specs.Truth.{truth, put, all_small};
ghost use Rattle.rast_index.specs.Answer.{Gives};

use crate::arithmetic::subst;
use crate::formula::Formula;
use crate::refusal::IndexErr;
use crate::term::Lin;
use sqlite_items::{Boxed, Items};
use std::alloc::Global;

/// The formula with each variable replaced by the argument at its place. A variable without one counts as 0.
/// It never answers `Variables`.
pub fn subst_formula(alloc: Global, a: &Formula, args: &[Lin]) -> Result<Formula, IndexErr>
    requires { length args.now ≤ 16 }
    ensures replaced { Gives all_small (put args.now a.now) result }
    ensures truth { IfOk result (λ f. (vs : List ℤ) → length vs ≤ 16 → truth f vs ≡ truth a.now (map (λ x. value x vs) args.now)) }
{
    replaced(alloc, a, args)
}

#[cycle(replaced)]
fn replaced(alloc: Global, a: &Formula, args: &[Lin]) -> Result<Formula, IndexErr>
    requires { length args.now ≤ 16 }
    ensures { Gives all_small (put args.now a.now) result }
{
    match a {
        Formula::True => Ok(Formula::True),
        Formula::False => Ok(Formula::False),
        Formula::Rel(l, rel, m) => match (subst(l, args), subst(m, args)) {
            (Ok(left), Ok(right)) => Ok(Formula::Rel(left, *rel, right)),
            _ => Err(IndexErr::Coefficient),
        },
        Formula::Div(d, l) => Ok(Formula::Div(*d, subst(l, args)?)),
        Formula::Not(f) => Ok(Formula::Not(Boxed::new(alloc, replaced(alloc, f.get(), args)?)?)),
        Formula::And(fs) => match each_replaced(alloc, fs.as_slice(), args) {
            Ok(out) => Ok(Formula::And(out)),
            Err(e) => Err(e),
        },
        Formula::Or(fs) => match each_replaced(alloc, fs.as_slice(), args) {
            Ok(out) => Ok(Formula::Or(out)),
            Err(e) => Err(e),
        },
        Formula::Imp(f, g) => Ok(Formula::Imp(
            Boxed::new(alloc, replaced(alloc, f.get(), args)?)?,
            Boxed::new(alloc, replaced(alloc, g.get(), args)?)?,
        )),
    }
}

#[cycle(replaced)]
fn each_replaced(alloc: Global, fs: &[Formula], args: &[Lin]) -> Result<Items<Formula>, IndexErr>
    requires { length args.now ≤ 16 }
    ensures { Gives (list_all all_small) (map (put args.now) fs.now) result }
{
    let mut out = Items::new(alloc);
    for f in fs {
        out.push(replaced(alloc, f, args)?)?;
    }
    Ok(out)
}
