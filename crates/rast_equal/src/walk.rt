// Two types walked together, a pair of types at a time.
ghost use Rattle.std.specs.Prelude.{◌≡◌, ◌<◌, ◌∷◌, [], true, if◌then◌else◌, All, IfOk};
ghost use Rattle.std.specs.List.{list_all};
ghost use Rattle.std.specs.Option.{option_copied};
ghost use Rattle.rast_index.specs.Keys.{find_key};
ghost use Rattle.rast_index.specs.Linear.{nought};
ghost use Rattle.rast_index.specs.Truth.{is_equal};
ghost use Rattle.rast_types.specs.Symbolic.{is_name, is_next, timed};
ghost use Rattle.rast_equal.specs.Fit.{IsFit, AreFit, IsScope, AreWithinTypes};
ghost use Rattle.rast_equal.specs.Shown.{Shows, ShowsHeads, BringsNext, is_wrapped};
ghost use Rattle.rast_equal.specs.Walk.{heads_of, choices_of, at_labels, both, is_among, same_list, labels, pair, down, bind, under, left};
ghost use Rattle.rast_equal.specs.declared.answer.Part.TheVariants.{First, Second, Inner};
ghost use Rattle.rast_equal.specs.declared.met.Met.TheVariants.{Wants, Names, Differs, Shuffled};

use crate::answer::Part;
use crate::met::Met;
use crate::place::{Pair, Place};
use rast_index::{Formula, Lin, Rel};
use rast_types::Ty;
use sqlite_items::Items;
use std::alloc::{AllocError, Global};

/// What two types show at their outside.
#[derive(Drop)]
pub struct Shown {
    /// What is met there.
    pub own: Items<Met>,
    /// The parts below, the first last.
    pub parts: Items<Pair>,
}

/// Takes the next pair off a walk, puts its parts in its place, and gives what is met at the pair itself.
pub fn next(alloc: Global, pairs: &mut Items<Pair>) -> Result<Option<Items<Met>>, AllocError>
    requires { All IsFit pairs.old }
    ensures { IfOk result (BringsNext pairs.old pairs.new) }
{
    match pairs.pop() {
        Some(pair) => {
            let shown = shown_of(alloc, pair)?;
            pairs.append(shown.parts)?;
            Ok(Some(shown.own))
        }
        None => Ok(None),
    }
}

fn shown_of(alloc: Global, pair: Pair) -> Result<Shown, AllocError>
    requires { IsFit pair }
    ensures { IfOk result (Shows pair) }
{
    let shown = show(alloc, &pair);
    drop(pair);
    shown
}

fn show(alloc: Global, pair: &Pair) -> Result<Shown, AllocError>
    requires { IsFit pair.now }
    ensures { IfOk result (Shows pair.now) }
{
    let Pair { place, left, right } = pair;
    if place.vars > 16 {
        return only(alloc, Met::Over);
    }
    if is_name(left) {
        return show_names(alloc, place, left, right);
    }
    if is_name(right) {
        return show_names(alloc, place, left, right);
    }
    if is_next(left) {
        return show_ticks(alloc, place, left, right);
    }
    if is_next(right) {
        return show_ticks(alloc, place, left, right);
    }
    let heads = show_heads(alloc, place, left, right)?;
    after_ticks(alloc, place, heads)
}

// What is met at two heads, after the demand that no ticks are equal to none.
fn after_ticks(alloc: Global, place: &Place, heads: Shown) -> Result<Shown, AllocError>
    ensures { IfOk result (λ s. (s.own ≡ Wants place.now (is_equal nought nought) ∷ heads.own) × (s.parts ≡ heads.parts)) }
{
    let Shown { own: more, parts } = heads;
    let mut own = only_equal(alloc, place, &Lin::nought(), &Lin::nought())?;
    own.append(more)?;
    Ok(Shown { own, parts })
}

// One thing met, and nothing below.
fn only(alloc: Global, met: Met) -> Result<Shown, AllocError>
    ensures { IfOk result (λ s. (s.own ≡ met ∷ []) × (s.parts ≡ [])) }
{
    let mut own = Items::new(alloc);
    own.push(met)?;
    Ok(Shown {
        own,
        parts: Items::new(alloc),
    })
}

/// Whether the type is a name.
pub fn is_name(a: &Ty) -> bool
    ensures { result ≡ is_name a.now }
{
    matches!(a, Ty::Named(_, _))
}

fn is_next(a: &Ty) -> bool
    ensures { result ≡ is_next a.now }
{
    matches!(a, Ty::Next(_, _))
}

/// Both types at the place.
pub fn pair(alloc: Global, place: Place, left: &Ty, right: &Ty) -> Result<Pair, AllocError>
    ensures { IfOk result (λ x. x ≡ pair place left.now right.now) }
{
    match copy_both(alloc, left, right) {
        Ok((left, right)) => Ok(Pair { place, left, right }),
        Err(error) => {
            drop(place);
            Err(error)
        }
    }
}

/// The same types again.
pub fn copy_both(alloc: Global, left: &Ty, right: &Ty) -> Result<(Ty, Ty), AllocError>
    ensures { IfOk result (λ both. (both.0 ≡ left.now) × (both.1 ≡ right.now)) }
{
    let left = left.copy(alloc)?;
    match right.copy(alloc) {
        Ok(right) => Ok((left, right)),
        Err(error) => {
            drop(left);
            Err(error)
        }
    }
}

fn show_names(alloc: Global, place: &Place, left: &Ty, right: &Ty) -> Result<Shown, AllocError>
    ensures { IfOk result (λ s. (s.own ≡ Names place.now left.now right.now ∷ []) × (s.parts ≡ [])) }
{
    let place = place.copy(alloc)?;
    match copy_both(alloc, left, right) {
        Ok((left, right)) => only(alloc, Met::Names(place, left, right)),
        Err(error) => {
            drop(place);
            Err(error)
        }
    }
}

// The demand that two terms are equal.
fn wants_equal(alloc: Global, place: &Place, a: &Lin, b: &Lin) -> Result<Met, AllocError>
    ensures { IfOk result (λ m. m ≡ Wants place.now (is_equal a.now b.now)) }
{
    Ok(Met::Wants(
        place.copy(alloc)?,
        Formula::Rel(a.again(), Rel::Eq, b.again()),
    ))
}

// That demand alone.
fn only_equal(alloc: Global, place: &Place, a: &Lin, b: &Lin) -> Result<Items<Met>, AllocError>
    ensures { IfOk result (λ own. own ≡ Wants place.now (is_equal a.now b.now) ∷ []) }
{
    let mut own = Items::new(alloc);
    own.push(wants_equal(alloc, place, a, b)?)?;
    Ok(own)
}

/// The ticks of a type, and its body; no ticks, and the type itself, where it is no next.
pub fn timed(a: &Ty) -> (Lin, &Ty)
    ensures { timed a.now ≡ record { ticks = result.0; body = result.1.now } }
{
    match a {
        Ty::Next(ticks, body) => (ticks.again(), body.get()),
        _ => (Lin::nought(), a),
    }
}

// Two types of which one is a next, and none is a name: their ticks, and then their bodies.
fn show_ticks(alloc: Global, place: &Place, left: &Ty, right: &Ty) -> Result<Shown, AllocError>
    ensures { IfOk result (λ s. (s.own ≡ Wants place.now (is_equal (timed left.now).ticks (timed right.now).ticks) ∷ []) × (s.parts ≡ pair place.now (timed left.now).body (timed right.now).body ∷ [])) }
{
    let (ticks, body) = timed(left);
    let (other_ticks, other_body) = timed(right);
    let own = only_equal(alloc, place, &ticks, &other_ticks)?;
    let place = place.copy(alloc)?;
    show_below(alloc, own, place, body, other_body)
}

/// What is met at two heads, and the pairs of their parts.
pub fn show_heads(alloc: Global, place: &Place, left: &Ty, right: &Ty) -> Result<Shown, AllocError>
    requires { AreFit place.now left.now right.now }
    ensures { IfOk result (ShowsHeads (heads_of left.now right.now place.now)) }
{
    match left {
        Ty::One => match right {
            Ty::One => none(alloc),
            _ => differs(alloc, place),
        },
        Ty::Plus(ts) => match right {
            Ty::Plus(us) => show_choices(alloc, place, ts.as_slice(), us.as_slice()),
            _ => differs(alloc, place),
        },
        Ty::With(ts) => match right {
            Ty::With(us) => show_choices(alloc, place, ts.as_slice(), us.as_slice()),
            _ => differs(alloc, place),
        },
        Ty::Tensor(a, b) => match right {
            Ty::Tensor(c, d) => show_two(alloc, place, (a.get(), c.get()), (b.get(), d.get())),
            _ => differs(alloc, place),
        },
        Ty::Lolli(a, b) => match right {
            Ty::Lolli(c, d) => show_two(alloc, place, (a.get(), c.get()), (b.get(), d.get())),
            _ => differs(alloc, place),
        },
        _ => show_wrapped(alloc, place, left, right),
    }
}

// The same of heads with one part inside.
fn show_wrapped(alloc: Global, place: &Place, left: &Ty, right: &Ty) -> Result<Shown, AllocError>
    requires fit { AreFit place.now left.now right.now }
    requires wrapped { is_wrapped left.now ≡ true }
    ensures { IfOk result (ShowsHeads (heads_of left.now right.now place.now)) }
{
    match left {
        Ty::Ex(a) => match right {
            Ty::Ex(b) => show_body(alloc, place, a.get(), b.get()),
            _ => differs(alloc, place),
        },
        Ty::All(a) => match right {
            Ty::All(b) => show_body(alloc, place, a.get(), b.get()),
            _ => differs(alloc, place),
        },
        Ty::Assert(f, a) => match right {
            Ty::Assert(g, b) => show_formulas(alloc, place, (f, g), (a.get(), b.get())),
            _ => differs(alloc, place),
        },
        Ty::Assume(f, a) => match right {
            Ty::Assume(g, b) => show_formulas(alloc, place, (f, g), (a.get(), b.get())),
            _ => differs(alloc, place),
        },
        Ty::Pays(p, a) => match right {
            Ty::Pays(q, b) => show_potentials(alloc, place, (p, q), (a.get(), b.get())),
            _ => differs(alloc, place),
        },
        Ty::Gets(p, a) => match right {
            Ty::Gets(q, b) => show_potentials(alloc, place, (p, q), (a.get(), b.get())),
            _ => differs(alloc, place),
        },
        _ => differs(alloc, place),
    }
}

fn none(alloc: Global) -> Result<Shown, AllocError>
    ensures { IfOk result (λ s. (s.own ≡ []) × (s.parts ≡ [])) }
{
    Ok(Shown {
        own: Items::new(alloc),
        parts: Items::new(alloc),
    })
}

fn differs(alloc: Global, place: &Place) -> Result<Shown, AllocError>
    ensures { IfOk result (λ s. (s.own ≡ Differs place.now ∷ []) × (s.parts ≡ [])) }
{
    only(alloc, Met::Differs(place.copy(alloc)?))
}

// The part inside at this place, after what was met at the heads.
fn show_inner(
    alloc: Global,
    own: Items<Met>,
    place: Place,
    a: &Ty,
    b: &Ty,
) -> Result<Shown, AllocError>
    ensures { IfOk result (λ s. (s.own ≡ own) × (s.parts ≡ pair (down Inner place) a.now b.now ∷ [])) }
{
    let place = place.down(Part::Inner)?;
    show_below(alloc, own, place, a, b)
}

// Two types at this place, after what was met at the heads.
fn show_below(
    alloc: Global,
    own: Items<Met>,
    place: Place,
    a: &Ty,
    b: &Ty,
) -> Result<Shown, AllocError>
    ensures { IfOk result (λ s. (s.own ≡ own) × (s.parts ≡ pair place a.now b.now ∷ [])) }
{
    let mut parts = Items::new(alloc);
    parts.push(pair(alloc, place, a, b)?)?;
    Ok(Shown { own, parts })
}

// Two quantifiers.
fn show_body(alloc: Global, place: &Place, a: &Ty, b: &Ty) -> Result<Shown, AllocError>
    requires { place.now.vars < 17 }
    ensures { IfOk result (λ s. (s.own ≡ []) × (s.parts ≡ pair (down Inner (bind place.now)) a.now b.now ∷ [])) }
{
    show_inner(alloc, Items::new(alloc), place.copy(alloc)?.bind(), a, b)
}

// Two pairs of types that stand in one another's place.
fn show_two(
    alloc: Global,
    place: &Place,
    firsts: (&Ty, &Ty),
    seconds: (&Ty, &Ty),
) -> Result<Shown, AllocError>
    ensures { IfOk result (λ s. (s.own ≡ []) × (s.parts ≡ pair (down Second place.now) seconds.entry.0.now seconds.entry.1.now ∷ pair (down First place.now) firsts.entry.0.now firsts.entry.1.now ∷ [])) }
{
    let mut parts = Items::new(alloc);
    parts.push(part_at(alloc, place, Part::Second, seconds.0, seconds.1)?)?;
    parts.push(part_at(alloc, place, Part::First, firsts.0, firsts.1)?)?;
    Ok(Shown {
        own: Items::new(alloc),
        parts,
    })
}

// Two constraints: each formula has to follow from the other; inside the first is presumed.
fn show_formulas(
    alloc: Global,
    place: &Place,
    formulas: (&Formula, &Formula),
    bodies: (&Ty, &Ty),
) -> Result<Shown, AllocError>
    ensures { IfOk result (λ s. (s.own ≡ both formulas.entry.0.now formulas.entry.1.now place.now) × (s.parts ≡ pair (down Inner (under formulas.entry.0.now place.now)) bodies.entry.0.now bodies.entry.1.now ∷ [])) }
{
    let (f, g) = formulas;
    let own = wants_both(alloc, place, f, g)?;
    let inner = presuming(alloc, place, f)?;
    show_inner(alloc, own, inner, bodies.0, bodies.1)
}

// Each of two formulas has to follow from the other.
fn wants_both(
    alloc: Global,
    place: &Place,
    f: &Formula,
    g: &Formula,
) -> Result<Items<Met>, AllocError>
    ensures { IfOk result (λ own. own ≡ both f.now g.now place.now) }
{
    let mut own = Items::new(alloc);
    own.push(wants_under(alloc, place, f, g)?)?;
    own.push(wants_under(alloc, place, g, f)?)?;
    Ok(own)
}

// The place where this formula is presumed too.
fn presuming(alloc: Global, place: &Place, premise: &Formula) -> Result<Place, AllocError>
    ensures { IfOk result (λ p. p ≡ under premise.now place.now) }
{
    let place = place.copy(alloc)?;
    match premise.copy(alloc) {
        Ok(premise) => place.under(premise),
        Err(error) => {
            drop(place);
            Err(error)
        }
    }
}

// The demand that a formula follows where another is presumed too.
fn wants_under(
    alloc: Global,
    place: &Place,
    premise: &Formula,
    goal: &Formula,
) -> Result<Met, AllocError>
    ensures { IfOk result (λ m. m ≡ Wants (under premise.now place.now) goal.now) }
{
    let inner = presuming(alloc, place, premise)?;
    match goal.copy(alloc) {
        Ok(goal) => Ok(Met::Wants(inner, goal)),
        Err(error) => {
            drop(inner);
            Err(error)
        }
    }
}

fn show_potentials(
    alloc: Global,
    place: &Place,
    potentials: (&Lin, &Lin),
    bodies: (&Ty, &Ty),
) -> Result<Shown, AllocError>
    ensures { IfOk result (λ s. (s.own ≡ Wants place.now (is_equal potentials.entry.0.now potentials.entry.1.now) ∷ []) × (s.parts ≡ pair (down Inner place.now) bodies.entry.0.now bodies.entry.1.now ∷ [])) }
{
    let own = only_equal(alloc, place, potentials.0, potentials.1)?;
    show_inner(alloc, own, place.copy(alloc)?, bodies.0, bodies.1)
}

// What stands at a label.
fn find(ts: &[(u32, Ty)], label: u32) -> Option<&Ty>
    ensures { option_copied result ≡ find_key label ts.now }
{
    for (other, a) in ts {
        if *other == label {
            return Some(a);
        }
    }
    None
}

// Whether each label of the second is one of the first.
fn are_among(ts: &[(u32, Ty)], us: &[(u32, Ty)]) -> bool
    ensures { result ≡ list_all (is_among ts.now) us.now }
{
    for (label, _) in us {
        if find(ts, *label).is_none() {
            return false;
        }
    }
    true
}

/// Whether two choices have the same labels in the same order.
pub fn are_in_order(ts: &[(u32, Ty)], us: &[(u32, Ty)]) -> bool
    ensures { result ≡ same_list (labels ts.now) (labels us.now) }
{
    if ts.len() != us.len() {
        return false;
    }
    for i in 0..ts.len() {
        if ts[i].0 != us[i].0 {
            return false;
        }
    }
    true
}

// Two choices: the same labels, and then the parts at each.
fn show_choices(
    alloc: Global,
    place: &Place,
    ts: &[(u32, Ty)],
    us: &[(u32, Ty)],
) -> Result<Shown, AllocError>
    requires scope { IsScope place.now }
    requires left { AreWithinTypes place.now.vars ts.now }
    requires right { AreWithinTypes place.now.vars us.now }
    ensures { IfOk result (ShowsHeads (choices_of ts.now us.now place.now)) }
{
    if !are_among(us, ts) {
        return differs(alloc, place);
    }
    if !are_among(ts, us) {
        return differs(alloc, place);
    }
    Ok(Shown {
        own: show_order(alloc, place, ts, us)?,
        parts: show_labels(alloc, place, ts, us)?,
    })
}

// What is met where the labels don't stand in the same order.
fn show_order(
    alloc: Global,
    place: &Place,
    ts: &[(u32, Ty)],
    us: &[(u32, Ty)],
) -> Result<Items<Met>, AllocError>
    ensures { IfOk result (λ own. own ≡ (if same_list (labels ts.now) (labels us.now) then [] else Shuffled place.now ∷ [])) }
{
    let mut own = Items::new(alloc);
    if are_in_order(ts, us) {
        return Ok(own);
    }
    own.push(Met::Shuffled(place.copy(alloc)?))?;
    Ok(own)
}

// Two parts, at the place below.
fn part_at(alloc: Global, place: &Place, part: Part, a: &Ty, b: &Ty) -> Result<Pair, AllocError>
    ensures { IfOk result (λ x. x ≡ pair (down part place.now) a.now b.now) }
{
    let below = place.copy(alloc)?.down(part)?;
    pair(alloc, below, a, b)
}

// The parts at each label of the first, the first last.
fn show_labels(
    alloc: Global,
    place: &Place,
    ts: &[(u32, Ty)],
    us: &[(u32, Ty)],
) -> Result<Items<Pair>, AllocError>
    requires scope { IsScope place.now }
    requires left { AreWithinTypes place.now.vars ts.now }
    requires right { AreWithinTypes place.now.vars us.now }
    ensures met { IfOk result (λ parts. at_labels ts.now us.now place.now ≡ left parts) }
    ensures fit { IfOk result (All IsFit) }
{
    let mut parts = Items::new(alloc);
    let mut i = ts.len();
    while i > 0 {
        i -= 1;
        let (label, a) = &ts[i];
        if let Some(b) = find(us, *label) {
            parts.push(part_at(alloc, place, Part::Label(*label), a, b)?)?;
        }
    }
    Ok(parts)
}
