// How many references the sameness of two types takes.
ghost use Rattle.std.specs.Prelude.{◌≡◌, ◌≤◌, ◌&&◌, [], map, min, Option, None, Some, MatchOption};
ghost use Rattle.std.specs.List.{list_all};
ghost use Rattle.rast_types.specs.Symbolic.{is_name, timed};
ghost use Rattle.rast_types.specs.declared.ty.Ty.{Ty, out-Ty};
ghost use Rattle.rast_types.specs.declared.ty.Ty.TheFolds.{map-Ty};
ghost use Rattle.rast_equal.specs.declared.place.Place.{Place};
ghost use Rattle.rast_equal.specs.Walk.{Walker, walker, meets, count, top, peeled, at_rest, heads, all_of, choices, is_among, at_label};
ghost use Rattle.rast_rules.specs.Count.{taken, after};

use crate::head::at_label;
use rast_types::Ty;

/// How many references are left, and whether there were more than 16 variables, behind which none is counted.
#[derive(Clone, Copy)]
pub(crate) struct Left {
    pub(crate) room: usize,
    pub(crate) over: bool,
}

impl Left {
    // One reference less.
    fn take(self) -> Left
        ensures { result ≡ taken self }
    {
        if self.over {
            return self;
        }
        Left {
            room: self.room.saturating_sub(1),
            over: false,
        }
    }
}

/// How many of so many references are taken where two types are walked together: one at each pair with a name.
pub(crate) fn names_met(a: &Ty, b: &Ty, vars: u8, room: usize) -> usize
    ensures { result ≡ min room (count (meets a.now b.now (top vars []))) }
{
    let left = walk(a, b, vars, Left { room, over: false });
    room.saturating_sub(left.room)
}

#[cycle(walk)]
fn walk(a: &Ty, b: &Ty, vars: u8, left: Left) -> Left
    ensures { (p : Place) → p.vars ≡ vars → result ≡ after left (meets a.now b.now p) }
{
    if vars > 16 {
        return Left {
            room: left.room,
            over: true,
        };
    }
    if is_name(a) {
        return left.take();
    }
    if is_name(b) {
        return left.take();
    }
    match a {
        Ty::Next(_, body) => walk(body.get(), below_ticks(b), vars, left),
        _ => walk_head(a, peel(b), vars, left),
    }
}

// The first type is a head; the second is a head or a name.
#[cycle(walk)]
fn walk_head(a: &Ty, b: &Ty, vars: u8, left: Left) -> Left
    requires { vars ≤ 16 }
    ensures { (p : Place) → p.vars ≡ vars → result ≡ after left (at_rest (map-Ty Ty Walker walker (out-Ty a.now)) a.now p b.now) }
{
    if is_name(b) {
        left.take()
    } else {
        walk_parts(a, b, vars, left)
    }
}

// Heads of one kind are walked part by part.
#[cycle(walk)]
fn walk_parts(a: &Ty, b: &Ty, vars: u8, left: Left) -> Left
    requires { vars ≤ 16 }
    ensures { (p : Place) → p.vars ≡ vars → result ≡ after left (all_of (heads (map-Ty Ty Walker walker (out-Ty a.now)) (out-Ty b.now) p)) }
{
    match (a, b) {
        (Ty::Plus(ts), Ty::Plus(us)) => walk_choices(ts.as_slice(), us.as_slice(), vars, left),
        (Ty::With(ts), Ty::With(us)) => walk_choices(ts.as_slice(), us.as_slice(), vars, left),
        (Ty::Tensor(c, d), Ty::Tensor(e, f)) => {
            walk(d.get(), f.get(), vars, walk(c.get(), e.get(), vars, left))
        }
        (Ty::Lolli(c, d), Ty::Lolli(e, f)) => {
            walk(d.get(), f.get(), vars, walk(c.get(), e.get(), vars, left))
        }
        (Ty::Ex(c), Ty::Ex(d)) => walk(c.get(), d.get(), vars + 1, left),
        (Ty::All(c), Ty::All(d)) => walk(c.get(), d.get(), vars + 1, left),
        (Ty::Assert(_, c), Ty::Assert(_, d)) => walk(c.get(), d.get(), vars, left),
        (Ty::Assume(_, c), Ty::Assume(_, d)) => walk(c.get(), d.get(), vars, left),
        (Ty::Pays(_, c), Ty::Pays(_, d)) => walk(c.get(), d.get(), vars, left),
        (Ty::Gets(_, c), Ty::Gets(_, d)) => walk(c.get(), d.get(), vars, left),
        _ => left,
    }
}

#[cycle(walk)]
fn walk_choices(ts: &[(u32, Ty)], us: &[(u32, Ty)], vars: u8, left: Left) -> Left
    ensures { (p : Place) → p.vars ≡ vars → result ≡ after left (all_of (choices (map (λ e. (e.0, walker e.1)) ts.now) us.now p)) }
{
    if !are_among(ts, us) {
        return left;
    }
    if !are_among(us, ts) {
        return left;
    }
    let mut left = left;
    for (label, ty) in ts {
        left = walk_label(*label, ty, at_label(us, *label), vars, left);
    }
    left
}

// A label of both.
#[cycle(walk)]
fn walk_label(label: u32, a: &Ty, b: Option<&Ty>, vars: u8, left: Left) -> Left
    ensures { (p : Place) (o : Option Ty) → p.vars ≡ vars → MatchOption b.entry (o ≡ None) (λ x. o ≡ Some x.now) → result ≡ after left (at_label p (label, walker a.now) o) }
{
    match b {
        Some(b) => walk(a, b, vars, left),
        None => left,
    }
}

// Whether each label of the first stands in the second.
fn are_among(ts: &[(u32, Ty)], us: &[(u32, Ty)]) -> bool
    ensures { result ≡ list_all (is_among us.now) ts.now }
{
    for (label, _) in ts {
        if at_label(us, *label).is_none() {
            return false;
        }
    }
    true
}

fn is_name(a: &Ty) -> bool
    ensures { result ≡ is_name a.now }
{
    matches!(a, Ty::Named(_, _))
}

// The body of a next, and else the type.
fn below_ticks(a: &Ty) -> &Ty
    ensures { result.now ≡ (timed a.now).body }
{
    match a {
        Ty::Next(_, body) => body.get(),
        _ => a,
    }
}

// What stands below all ticks.
fn peel(a: &Ty) -> &Ty
    ensures { result.now ≡ (peeled a.now).rest }
{
    match a {
        Ty::Next(_, body) => peel(body.get()),
        _ => a,
    }
}
