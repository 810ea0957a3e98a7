// The names of the variables in scope at a refused rule of types.
ghost use Rattle.std.specs.Prelude.{◌≡◌, ◌≤◌, ◌+◌, ◌++◌, ◌∷◌, [], IfOk, List, ℕ, drop, take, flat_map, map, sum_by};
ghost use Rattle.rast_check.specs.Questions.{is_asked};
ghost use Rattle.rast_equal.specs.Invalid.{choice_claims, natural_claims};
ghost use Rattle.rast_equal.specs.Valid.{Asks, claims_of, nonneg};
ghost use Rattle.rast_equal.specs.WellMadeTypes.{quantifiers};
ghost use Rattle.rast_types.specs.Closed.{Table};
ghost use Rattle.rast_lines.specs.Scopes.{is_refuted, refused_names, refuted_scope, scoped, scopes_of, scopes_of_each};

use rast_cooper::{Verdict, decide};
use rast_equal::is_formula_fit;
use rast_index::{Formula, Lin, Rel};
use rast_types::Ty;
use sqlite_items::Items;
use std::alloc::{AllocError, Global};

/// The refused rule that is sought.
#[derive(Drop)]
pub(crate) struct Sought {
    /// Its number.
    pub rule: u8,
    /// How many variables are in scope there.
    pub vars: u8,
}

// A place in a type.
#[derive(Drop)]
struct Place {
    // How many variables are in scope.
    vars: u8,
    // What is presumed of them.
    premises: Items<Formula>,
    // The names of the first ones, of those that have one.
    names: Items<u32>,
}

impl Place {
    // The place below a quantifier, which takes the first of the names that are left.
    fn bind(&self, alloc: Global, left: &[u32]) -> Result<Place, AllocError>
        requires { self.now.vars ≤ 16 }
        ensures { IfOk result (λ p. p ≡ record { vars = self.now.vars + 1; premises = self.now.premises; names = self.now.names ++ take 1 left.now }) }
    {
        let mut names = Items::from_slice(alloc, self.names.as_slice())?;
        if let Some(name) = left.first() {
            names.push(*name)?;
        }
        Ok(Place {
            vars: self.vars + 1,
            premises: copy_formulas(alloc, self.premises.as_slice())?,
            names,
        })
    }

    // The place below a formula, which is presumed there.
    fn presume(&self, alloc: Global, premise: &Formula) -> Result<Place, AllocError>
        ensures { IfOk result (λ p. p ≡ record { vars = self.now.vars; premises = self.now.premises ++ premise.now ∷ []; names = self.now.names }) }
    {
        let mut premises = copy_formulas(alloc, self.premises.as_slice())?;
        premises.push(premise.copy(alloc)?)?;
        Ok(Place {
            vars: self.vars,
            premises,
            names: Items::from_slice(alloc, self.names.as_slice())?,
        })
    }
}

/// The names of the variables in scope at the refused rule of types with so many parameters, of which these are said: the
/// parameters' names, and then those of the types' quantifiers.
pub(crate) fn refused_names(
    alloc: Global,
    said: &[u32],
    params: u8,
    before: &[Ty],
    last: &Ty,
    sought: &Sought,
) -> Result<Items<u32>, AllocError>
    ensures { IfOk result (λ names. (t : Table) → names ≡ refused_names t params said.now (before.now ++ last.now ∷ []) sought.now.rule sought.now.vars) }
{
    let (own, left) = said.split_at(said.len().min(params as usize));
    let place = Place {
        vars: params,
        premises: Items::new(alloc),
        names: Items::from_slice(alloc, own)?,
    };
    match find_types(alloc, sought, &place, left, before, last)? {
        Some(names) => Ok(names),
        None => Items::from_slice(alloc, own),
    }
}

// The same in types at one place, from the names that are left for their quantifiers.
fn find_types(
    alloc: Global,
    sought: &Sought,
    place: &Place,
    left: &[u32],
    before: &[Ty],
    last: &Ty,
) -> Result<Option<Items<u32>>, AllocError>
    ensures { IfOk result (λ found. (t : Table) → found ≡ refuted_scope sought.now.rule sought.now.vars (flat_map (claims_of t place.now.vars place.now.premises) (before.now ++ last.now ∷ [])) (scopes_of_each (map scoped (before.now ++ last.now ∷ [])) place.now.vars left.now place.now.names)) }
{
    let mut left = left;
    for ty in before {
        match find(alloc, sought, place, left, ty)? {
            Some(names) => return Ok(Some(names)),
            None => left = past(left, ty),
        }
    }
    find(alloc, sought, place, left, last)
}

// The names in scope at the refused rule of a type at a place, where it is there.
#[cycle(find)]
fn find(
    alloc: Global,
    sought: &Sought,
    place: &Place,
    left: &[u32],
    a: &Ty,
) -> Result<Option<Items<u32>>, AllocError>
    ensures { IfOk result (λ found. (t : Table) → found ≡ refuted_scope sought.now.rule sought.now.vars (claims_of t place.now.vars place.now.premises a.now) (scopes_of place.now.vars left.now place.now.names a.now)) }
{
    if place.vars > 16 {
        return Ok(None);
    }
    match a {
        Ty::One => Ok(None),
        Ty::Plus(ts) => find_choices(alloc, sought, place, left, ts.as_slice()),
        Ty::With(ts) => find_choices(alloc, sought, place, left, ts.as_slice()),
        Ty::Tensor(b, c) => match find(alloc, sought, place, left, b.get())? {
            Some(names) => Ok(Some(names)),
            None => find(alloc, sought, place, past(left, b.get()), c.get()),
        },
        Ty::Lolli(b, c) => match find(alloc, sought, place, left, b.get())? {
            Some(names) => Ok(Some(names)),
            None => find(alloc, sought, place, past(left, b.get()), c.get()),
        },
        Ty::Named(_, args) => find_each(alloc, sought, place, args.as_slice()),
        Ty::Ex(b) => find(
            alloc,
            sought,
            &place.bind(alloc, left)?,
            rest(left),
            b.get(),
        ),
        Ty::All(b) => find(
            alloc,
            sought,
            &place.bind(alloc, left)?,
            rest(left),
            b.get(),
        ),
        Ty::Assert(f, b) => find(alloc, sought, &place.presume(alloc, f)?, left, b.get()),
        Ty::Assume(f, b) => find(alloc, sought, &place.presume(alloc, f)?, left, b.get()),
        Ty::Pays(p, b) => find_below(alloc, sought, place, left, 3, p, b.get()),
        Ty::Gets(p, b) => find_below(alloc, sought, place, left, 3, p, b.get()),
        Ty::Next(ticks, b) => find_below(alloc, sought, place, left, 4, ticks, b.get()),
    }
}

// A term that the rule with this number asks to be at least 0, and what is below it.
#[cycle(find)]
fn find_below(
    alloc: Global,
    sought: &Sought,
    place: &Place,
    left: &[u32],
    rule: u8,
    term: &Lin,
    b: &Ty,
) -> Result<Option<Items<u32>>, AllocError>
    ensures { IfOk result (λ found. (t : Table) → found ≡ refuted_scope sought.now.rule sought.now.vars (Asks rule place.now.vars place.now.premises (nonneg term.now) ∷ claims_of t place.now.vars place.now.premises b.now) (place.now.names ∷ scopes_of place.now.vars left.now place.now.names b.now)) }
{
    if is_refuted(alloc, sought, place, rule, term)? {
        return Ok(Some(Items::from_slice(alloc, place.names.as_slice())?));
    }
    find(alloc, sought, place, left, b)
}

#[cycle(find)]
fn find_choices(
    alloc: Global,
    sought: &Sought,
    place: &Place,
    left: &[u32],
    ts: &[(u32, Ty)],
) -> Result<Option<Items<u32>>, AllocError>
    ensures { IfOk result (λ found. (t : Table) → found ≡ refuted_scope sought.now.rule sought.now.vars (choice_claims t place.now.vars place.now.premises ts.now) (scopes_of_each (map (λ e. scoped e.1) ts.now) place.now.vars left.now place.now.names)) }
{
    let mut left = left;
    for (_, a) in ts {
        match find(alloc, sought, place, left, a)? {
            Some(names) => return Ok(Some(names)),
            None => left = past(left, a),
        }
    }
    Ok(None)
}

// Where the rule that each of these is at least 0 is refused.
fn find_each(
    alloc: Global,
    sought: &Sought,
    place: &Place,
    terms: &[Lin],
) -> Result<Option<Items<u32>>, AllocError>
    ensures { IfOk result (λ found. found ≡ refuted_scope sought.now.rule sought.now.vars (natural_claims place.now.vars place.now.premises terms.now) (map (λ l. place.now.names) terms.now)) }
{
    for l in terms {
        if is_refuted(alloc, sought, place, 2, l)? {
            return Ok(Some(Items::from_slice(alloc, place.names.as_slice())?));
        }
    }
    Ok(None)
}

// Whether the sought rule is the one with this number here, that the term is at least 0, and it is found false.
fn is_refuted(
    alloc: Global,
    sought: &Sought,
    place: &Place,
    rule: u8,
    term: &Lin,
) -> Result<bool, AllocError>
    ensures { IfOk result (λ b. b ≡ is_refuted sought.now.rule sought.now.vars (Asks rule place.now.vars place.now.premises (nonneg term.now))) }
{
    if rule != sought.rule || place.vars != sought.vars {
        return Ok(false);
    }
    let goal = Formula::Rel(term.again(), Rel::Ge, Lin::nought());
    if !is_asked(place, &goal) {
        return Ok(false);
    }
    let verdict = decide(alloc, place.vars, place.premises.as_slice(), &goal)?;
    Ok(matches!(verdict, Verdict::Fails { .. }))
}

// Whether the goal may be asked at the place.
fn is_asked(place: &Place, goal: &Formula) -> bool
    ensures { result ≡ is_asked place.now.vars place.now.premises goal.now }
{
    if place.vars > 16 {
        return false;
    }
    for premise in place.premises.as_slice() {
        if !is_formula_fit(premise, place.vars) {
            return false;
        }
    }
    is_formula_fit(goal, place.vars)
}

// The names that are left where each quantifier of a type takes one.
#[cycle(past)]
fn past<'a>(left: &'a [u32], a: &Ty) -> &'a [u32]
    ensures { result.now ≡ drop (quantifiers a.now) left.now }
{
    match a {
        Ty::One => left,
        Ty::Plus(ts) => past_each(left, ts.as_slice()),
        Ty::With(ts) => past_each(left, ts.as_slice()),
        Ty::Tensor(b, c) => past(past(left, b.get()), c.get()),
        Ty::Lolli(b, c) => past(past(left, b.get()), c.get()),
        Ty::Named(_, _) => left,
        Ty::Ex(b) => past(rest(left), b.get()),
        Ty::All(b) => past(rest(left), b.get()),
        Ty::Assert(_, b) => past(left, b.get()),
        Ty::Assume(_, b) => past(left, b.get()),
        Ty::Pays(_, b) => past(left, b.get()),
        Ty::Gets(_, b) => past(left, b.get()),
        Ty::Next(_, b) => past(left, b.get()),
    }
}

#[cycle(past)]
fn past_each<'a>(left: &'a [u32], ts: &[(u32, Ty)]) -> &'a [u32]
    ensures { result.now ≡ drop (sum_by (λ e. quantifiers e.1) ts.now) left.now }
{
    let mut rest = left;
    for (_, a) in ts {
        rest = past(rest, a);
    }
    rest
}

// All but the first.
fn rest(left: &[u32]) -> &[u32]
    ensures { result.now ≡ drop 1 left.now }
{
    &left[left.len().min(1)..]
}

// The same formulas again.
fn copy_formulas(alloc: Global, formulas: &[Formula]) -> Result<Items<Formula>, AllocError>
    ensures { IfOk result (λ out. out ≡ formulas.now) }
{
    let mut out = Items::new(alloc);
    for f in formulas {
        out.push(f.copy(alloc)?)?;
    }
    Ok(out)
}
