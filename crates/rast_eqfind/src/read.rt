// The terms of a side of an equation, each with the term at its place in a type.
ghost use Rattle.std.specs.Prelude.{◌≡◌, ◌≤◌, ◌++◌, IfOk, true, zip};
ghost use Rattle.rast_types.specs.declared.ty.Ty.{out-Ty};
ghost use Rattle.rast_equal.specs.Shown.{is_wrapped};
ghost use Rattle.rast_eqfind.specs.Answer.{Reads};
ghost use Rattle.rast_eqfind.specs.Read.{choices_read, heads_read, names_read, readers, readers_each, reading};

use rast_equal::{are_in_order, is_name, timed};
use rast_index::Lin;
use rast_types::Ty;
use sqlite_items::Items;
use std::alloc::AllocError;

/// Reads the terms of a side beside a type, up to the first difference, and says whether there was none.
#[cycle(read)]
pub(crate) fn read(
    terms: &mut Items<(Lin, Lin)>,
    vars: u8,
    side: &Ty,
    a: &Ty,
) -> Result<bool, AllocError>
    requires { vars ≤ 17 }
    ensures { IfOk result (Reads terms.old (reading side.now a.now vars) terms.new) }
{
    if vars > 16 {
        return Ok(false);
    }
    match side {
        Ty::Named(def, args) => read_named(terms, *def, args.as_slice(), a),
        Ty::Next(ticks, body) => {
            if is_name(a) {
                return Ok(false);
            }
            let (other, rest) = timed(a);
            terms.push((ticks.again(), other))?;
            read(terms, vars, body.get(), rest)
        }
        _ => read_heads(terms, vars, side, timed(a).1),
    }
}

// A side that is neither a name nor a next, beside what the type has after its ticks.
#[cycle(read)]
fn read_heads(
    terms: &mut Items<(Lin, Lin)>,
    vars: u8,
    side: &Ty,
    a: &Ty,
) -> Result<bool, AllocError>
    requires { vars ≤ 16 }
    ensures { IfOk result (Reads terms.old (heads_read (readers side.now) (out-Ty a.now) vars) terms.new) }
{
    match side {
        Ty::One => Ok(matches!(a, Ty::One)),
        Ty::Plus(ts) => match a {
            Ty::Plus(us) => read_choices(terms, vars, ts.as_slice(), us.as_slice()),
            _ => Ok(false),
        },
        Ty::With(ts) => match a {
            Ty::With(us) => read_choices(terms, vars, ts.as_slice(), us.as_slice()),
            _ => Ok(false),
        },
        Ty::Tensor(b, c) => match a {
            Ty::Tensor(d, e) => {
                if !read(terms, vars, b.get(), d.get())? {
                    return Ok(false);
                }
                read(terms, vars, c.get(), e.get())
            }
            _ => Ok(false),
        },
        Ty::Lolli(b, c) => match a {
            Ty::Lolli(d, e) => {
                if !read(terms, vars, b.get(), d.get())? {
                    return Ok(false);
                }
                read(terms, vars, c.get(), e.get())
            }
            _ => Ok(false),
        },
        _ => read_wrapped(terms, vars, side, a),
    }
}

// The same of a side with one part inside.
#[cycle(read)]
fn read_wrapped(
    terms: &mut Items<(Lin, Lin)>,
    vars: u8,
    side: &Ty,
    a: &Ty,
) -> Result<bool, AllocError>
    requires few { vars ≤ 16 }
    requires wrapped { is_wrapped side.now ≡ true }
    ensures { IfOk result (Reads terms.old (heads_read (readers side.now) (out-Ty a.now) vars) terms.new) }
{
    match side {
        Ty::Ex(b) => match a {
            Ty::Ex(c) => read(terms, vars + 1, b.get(), c.get()),
            _ => Ok(false),
        },
        Ty::All(b) => match a {
            Ty::All(c) => read(terms, vars + 1, b.get(), c.get()),
            _ => Ok(false),
        },
        Ty::Assert(_, b) => match a {
            Ty::Assert(_, c) => read(terms, vars, b.get(), c.get()),
            _ => Ok(false),
        },
        Ty::Assume(_, b) => match a {
            Ty::Assume(_, c) => read(terms, vars, b.get(), c.get()),
            _ => Ok(false),
        },
        Ty::Pays(p, b) => match a {
            Ty::Pays(q, c) => {
                terms.push((p.again(), q.again()))?;
                read(terms, vars, b.get(), c.get())
            }
            _ => Ok(false),
        },
        Ty::Gets(p, b) => match a {
            Ty::Gets(q, c) => {
                terms.push((p.again(), q.again()))?;
                read(terms, vars, b.get(), c.get())
            }
            _ => Ok(false),
        },
        _ => Ok(false),
    }
}

// Two choices: the labels have to stand in the same order.
#[cycle(read)]
fn read_choices(
    terms: &mut Items<(Lin, Lin)>,
    vars: u8,
    ts: &[(u32, Ty)],
    us: &[(u32, Ty)],
) -> Result<bool, AllocError>
    requires { vars ≤ 16 }
    ensures { IfOk result (Reads terms.old (choices_read (readers_each ts.now) us.now vars) terms.new) }
{
    if !are_in_order(ts, us) {
        return Ok(false);
    }
    for i in 0..ts.len().min(us.len()) {
        if !read(terms, vars, &ts[i].1, &us[i].1)? {
            return Ok(false);
        }
    }
    Ok(true)
}

// The arguments of a name, in pairs.
fn read_named(
    terms: &mut Items<(Lin, Lin)>,
    def: u32,
    args: &[Lin],
    a: &Ty,
) -> Result<bool, AllocError>
    ensures { IfOk result (Reads terms.old (names_read def args.now (out-Ty a.now)) terms.new) }
{
    let Ty::Named(other, others) = a else {
        return Ok(false);
    };
    if def != *other {
        return Ok(false);
    }
    read_args(terms, args, others.as_slice())?;
    Ok(true)
}

fn read_args(terms: &mut Items<(Lin, Lin)>, xs: &[Lin], ys: &[Lin]) -> Result<(), AllocError>
    ensures { IfOk result (λ done. terms.new ≡ terms.old ++ zip xs.now ys.now) }
{
    for i in 0..xs.len().min(ys.len()) {
        terms.push((xs[i].again(), ys[i].again()))?;
    }
    Ok(())
}
