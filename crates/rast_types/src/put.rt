// Formulas and types with their variables replaced by terms.
ghost use Rattle.std.specs.Prelude.{◌≡◌, ◌+◌, ◌≤◌, map};
ghost use Rattle.std.specs.List.{list_all};
ghost use Rattle.rast_index.specs.Linear.{is_small, replaced};
ghost use Rattle.rast_index.specs.Truth.{put, all_small};
ghost use Rattle.rast_index.specs.Answer.{Gives};
ghost use Rattle.rast_types.specs.Symbolic.{put_type, is_small_type, binders, most};

use crate::ty::Ty;
use crate::wide::{Wide, narrowed, with_variable};
use rast_index::{Formula, IndexErr, Lin};
use sqlite_items::{Boxed, Items};
use std::alloc::Global;

/// The formula with each variable replaced by the argument at its place.
#[cycle(put_formula)]
pub(crate) fn put_formula(alloc: Global, f: &Formula, args: &[Wide]) -> Result<Formula, IndexErr>
    ensures { Gives all_small (put args.now f.now) result }
{
    match f {
        Formula::True => Ok(Formula::True),
        Formula::False => Ok(Formula::False),
        Formula::Rel(l, rel, m) => Ok(Formula::Rel(narrowed(l, args)?, *rel, narrowed(m, args)?)),
        Formula::Div(d, l) => Ok(Formula::Div(*d, narrowed(l, args)?)),
        Formula::Not(g) => Ok(Formula::Not(Boxed::new(alloc, put_formula(alloc, g.get(), args)?)?)),
        Formula::And(fs) => match put_formulas(alloc, fs.as_slice(), args) {
            Ok(out) => Ok(Formula::And(out)),
            Err(e) => Err(e),
        },
        Formula::Or(fs) => match put_formulas(alloc, fs.as_slice(), args) {
            Ok(out) => Ok(Formula::Or(out)),
            Err(e) => Err(e),
        },
        Formula::Imp(g, h) => Ok(Formula::Imp(
            Boxed::new(alloc, put_formula(alloc, g.get(), args)?)?,
            Boxed::new(alloc, put_formula(alloc, h.get(), args)?)?,
        )),
    }
}

#[cycle(put_formula)]
fn put_formulas(alloc: Global, fs: &[Formula], args: &[Wide]) -> Result<Items<Formula>, IndexErr>
    ensures { Gives (list_all all_small) (map (put args.now) fs.now) result }
{
    let mut out = Items::new(alloc);
    for f in fs {
        out.push(put_formula(alloc, f, args)?)?;
    }
    Ok(out)
}

/// The type with each variable replaced by the argument at its place, in a scope of so many variables.
#[cycle(put_type)]
pub(crate) fn put_type(alloc: Global, a: &Ty, vars: u8, args: &[Wide]) -> Result<Ty, IndexErr>
    requires { vars + binders a.now ≤ 16 }
    ensures { Gives is_small_type (put_type vars args.now a.now) result }
{
    match a {
        Ty::One => Ok(Ty::One),
        Ty::Plus(ts) => match put_choices(alloc, ts.as_slice(), vars, args) {
            Ok(out) => Ok(Ty::Plus(out)),
            Err(e) => Err(e),
        },
        Ty::With(ts) => match put_choices(alloc, ts.as_slice(), vars, args) {
            Ok(out) => Ok(Ty::With(out)),
            Err(e) => Err(e),
        },
        Ty::Tensor(b, c) => Ok(Ty::Tensor(
            put_part(alloc, b.get(), vars, args)?,
            put_part(alloc, c.get(), vars, args)?,
        )),
        Ty::Lolli(b, c) => Ok(Ty::Lolli(
            put_part(alloc, b.get(), vars, args)?,
            put_part(alloc, c.get(), vars, args)?,
        )),
        Ty::Named(def, terms) => match put_terms(alloc, terms.as_slice(), args) {
            Ok(out) => Ok(Ty::Named(*def, out)),
            Err(e) => Err(e),
        },
        Ty::Ex(b) => {
            let more = with_variable(alloc, args, vars as usize)?;
            Ok(Ty::Ex(put_part(alloc, b.get(), vars + 1, &more)?))
        }
        Ty::All(b) => {
            let more = with_variable(alloc, args, vars as usize)?;
            Ok(Ty::All(put_part(alloc, b.get(), vars + 1, &more)?))
        }
        Ty::Assert(f, b) => Ok(Ty::Assert(
            put_formula(alloc, f, args)?,
            put_part(alloc, b.get(), vars, args)?,
        )),
        Ty::Assume(f, b) => Ok(Ty::Assume(
            put_formula(alloc, f, args)?,
            put_part(alloc, b.get(), vars, args)?,
        )),
        Ty::Pays(p, b) => Ok(Ty::Pays(narrowed(p, args)?, put_part(alloc, b.get(), vars, args)?)),
        Ty::Gets(p, b) => Ok(Ty::Gets(narrowed(p, args)?, put_part(alloc, b.get(), vars, args)?)),
        Ty::Next(t, b) => Ok(Ty::Next(narrowed(t, args)?, put_part(alloc, b.get(), vars, args)?)),
    }
}

#[cycle(put_type)]
fn put_part(alloc: Global, a: &Ty, vars: u8, args: &[Wide]) -> Result<Boxed<Ty>, IndexErr>
    requires { vars + binders a.now ≤ 16 }
    ensures { Gives is_small_type (put_type vars args.now a.now) result }
{
    Ok(Boxed::new(alloc, put_type(alloc, a, vars, args)?)?)
}

#[cycle(put_type)]
fn put_choices(
    alloc: Global,
    ts: &[(u32, Ty)],
    vars: u8,
    args: &[Wide],
) -> Result<Items<(u32, Ty)>, IndexErr>
    requires { vars + most (map (λ e. binders e.1) ts.now) ≤ 16 }
    ensures { Gives (list_all (λ e. is_small_type e.1)) (map (λ e. (e.0, put_type vars args.now e.1)) ts.now) result }
{
    let mut out = Items::new(alloc);
    for (label, a) in ts {
        out.push((*label, put_type(alloc, a, vars, args)?))?;
    }
    Ok(out)
}

fn put_terms(alloc: Global, terms: &[Lin], args: &[Wide]) -> Result<Items<Lin>, IndexErr>
    ensures { Gives (list_all is_small) (map (replaced args.now) terms.now) result }
{
    let mut out = Items::new(alloc);
    for l in terms {
        out.push(narrowed(l, args)?)?;
    }
    Ok(out)
}
