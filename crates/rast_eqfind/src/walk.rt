// The walk of the search: what is met is taken in order.
ghost use Rattle.std.specs.Prelude.{◌≡◌, ◌∷◌, ◌++◌, [], All, IfOk, slice_get};
ghost use Rattle.rast_index.specs.Truth.{is_equal};
ghost use Rattle.rast_equal.specs.Equated.{IsFitExposed};
ghost use Rattle.rast_equal.specs.Fit.{AreFit, IsAsked, IsFit, IsFitEquation, IsFitMet, IsFitTypeDef, IsScope};
ghost use Rattle.rast_equal.specs.Walk.{all_of, heads_of, left, top};
ghost use Rattle.rast_equal.specs.declared.met.Met.TheVariants.{Names, Wants};
ghost use Rattle.rast_eqfind.specs.Answer.{AreKnown, Goes, IsFitSearch, Opened, Opens};
ghost use Rattle.rast_eqfind.specs.Search.{asked, meet, meet_all, most_made, opened_mets, opened_some, walk_made, walk_one};

use crate::choice::{Choice, choose};
use crate::finding::{Finding, Halt, stopped};
use crate::make::make;
use crate::search::Search;
use rast_cooper::{Verdict, decide};
use rast_equal::{Met, Pair, Place, SameErr, Shown, expose_both, next, show_heads};
use rast_index::{Formula, Rel};
use rast_types::{Equation, Exposed, Stop, Ty, TypeTable};
use sqlite_items::Items;
use std::alloc::{AllocError, Global};

// Where the goal doesn't follow at the place, the types differ.
fn ask(alloc: Global, search: &mut Search, place: &Place, goal: &Formula) -> Result<(), Halt>
    requires search { IsFitSearch search.old }
    requires asked { IsAsked place.now goal.now }
    ensures { Goes (asked search.old place.now goal.now) search.new result }
{
    match decide(alloc, place.vars, place.premises.as_slice(), goal)? {
        Verdict::Holds => Ok(()),
        Verdict::Fails { values } => Err(Halt::Ends(Finding::Different {
            path: search.path_to(alloc, place)?,
            vars: place.vars,
            values,
        })),
        Verdict::NodeLimit => Err(stopped(Stop::NodeLimit)),
        Verdict::NumberLimit => Err(stopped(Stop::NumberLimit)),
    }
}

// Two types of which one is a name.
fn serve(
    alloc: Global,
    known: &[Equation],
    search: &mut Search,
    place: &Place,
    left: &Ty,
    right: &Ty,
) -> Result<(), Halt>
    requires known { AreKnown known.now }
    requires search { IsFitSearch search.old }
    requires fit { AreFit place.now left.now right.now }
    ensures { Goes (meet known.now search.old (Names place.now left.now right.now)) search.new result }
{
    match choose(alloc, known, search.made.as_slice(), place, left, right)? {
        Choice::Takes(reference) => {
            search.refer(reference)?;
            Ok(())
        }
        Choice::Makes => make(alloc, known, search, place, left, right),
        Choice::Halts(stop) => Err(stopped(stop)),
    }
}

// One thing met.
fn meet(alloc: Global, known: &[Equation], search: &mut Search, met: &Met) -> Result<(), Halt>
    requires known { AreKnown known.now }
    requires search { IsFitSearch search.old }
    requires fit { IsFitMet met.now }
    ensures { Goes (meet known.now search.old met.now) search.new result }
{
    match met {
        Met::Wants(place, goal) => ask(alloc, search, place, goal),
        Met::Names(place, left, right) => serve(alloc, known, search, place, left, right),
        Met::Differs(place) => ask(alloc, search, place, &Formula::False),
        Met::Shuffled(_) => Ok(()),
        Met::Over => Err(stopped(Stop::Variables)),
    }
}

// What is met, in order.
fn meet_each(
    alloc: Global,
    known: &[Equation],
    search: &mut Search,
    mets: &[Met],
) -> Result<(), Halt>
    requires known { AreKnown known.now }
    requires search { IsFitSearch search.old }
    requires fit { All IsFitMet mets.now }
    ensures { Goes (meet_all known.now search.old mets.now) search.new result }
{
    for met in mets {
        meet(alloc, known, search, met)?;
    }
    Ok(())
}

/// Walks pairs of types together, the last first.
pub(crate) fn meet_pairs(
    alloc: Global,
    known: &[Equation],
    search: &mut Search,
    pairs: Items<Pair>,
) -> Result<(), Halt>
    requires known { AreKnown known.now }
    requires search { IsFitSearch search.old }
    requires fit { All IsFit pairs }
    ensures { Goes (meet_all known.now search.old (left pairs)) search.new result }
{
    let mut pairs = pairs;
    while let Some(mets) = next(alloc, &mut pairs)? {
        meet_each(alloc, known, search, mets.as_slice())?;
    }
    Ok(())
}

// The place at which an equation is opened.
fn place_of(alloc: Global, equation: &Equation) -> Result<Place, AllocError>
    ensures { IfOk result (λ p. p ≡ top equation.now.vars (equation.now.premise ∷ [])) }
{
    let mut premises = Items::new(alloc);
    premises.push(equation.premise.copy(alloc)?)?;
    Ok(Place {
        path: Items::new(alloc),
        vars: equation.vars,
        premises,
    })
}

// What is met at two heads after their ticks, and the pairs of their parts.
fn open_heads(
    alloc: Global,
    place: Place,
    left: &Exposed,
    right: &Exposed,
) -> Result<Shown, AllocError>
    requires scope { IsScope place }
    requires left { IsFitExposed place.vars left.now }
    requires right { IsFitExposed place.vars right.now }
    ensures { IfOk result (Opened (Wants place (is_equal left.now.ticks right.now.ticks) ∷ all_of (heads_of left.now.head right.now.head place))) }
{
    match show_heads(alloc, &place, &left.head, &right.head) {
        Ok(heads) => {
            let ticks = Formula::Rel(left.ticks.again(), Rel::Eq, right.ticks.again());
            before_heads(alloc, Met::Wants(place, ticks), heads)
        }
        Err(error) => {
            drop(place);
            Err(error)
        }
    }
}

// One thing met before these.
fn before_heads(alloc: Global, first: Met, heads: Shown) -> Result<Shown, AllocError>
    ensures { IfOk result (λ s. (s.own ≡ first ∷ heads.own) × (s.parts ≡ heads.parts)) }
{
    let Shown { own: more, parts } = heads;
    let mut own = Items::new(alloc);
    own.push(first)?;
    own.append(more)?;
    Ok(Shown { own, parts })
}

// What is met at the opened sides of an equation, and the pairs of their parts.
fn open_sides(
    alloc: Global,
    equation: &Equation,
    left: &Exposed,
    right: &Exposed,
) -> Result<Shown, AllocError>
    requires fit { IsFitEquation equation.now }
    requires left { IsFitExposed equation.now.vars left.now }
    requires right { IsFitExposed equation.now.vars right.now }
    ensures { IfOk result (Opened (Wants (top equation.now.vars (equation.now.premise ∷ [])) (is_equal left.now.ticks right.now.ticks) ∷ all_of (heads_of left.now.head right.now.head (top equation.now.vars (equation.now.premise ∷ []))))) }
{
    let place = place_of(alloc, equation)?;
    open_heads(alloc, place, left, right)
}

// What is met at the heads of an equation, and the pairs of their parts.
fn open(alloc: Global, table: &TypeTable, equation: &Equation) -> Result<Shown, Halt>
    requires defs { All IsFitTypeDef table.now.defs }
    requires fit { IsFitEquation equation.now }
    ensures { Opens (opened_mets table.now.defs equation.now) result }
{
    match expose_both(alloc, table, equation) {
        Ok((left, right)) => {
            let shown = open_sides(alloc, equation, &left, &right);
            drop(left);
            drop(right);
            Ok(shown?)
        }
        Err(SameErr::Bound { stop }) => Err(stopped(stop)),
        Err(_) => Err(Halt::Memory),
    }
}

// The equation at this place is opened.
fn open_at(alloc: Global, table: &TypeTable, search: &Search, at: usize) -> Result<Shown, Halt>
    requires defs { All IsFitTypeDef table.now.defs }
    requires search { IsFitSearch search.now }
    ensures { Opens (opened_some table.now.defs (slice_get search.now.made at)) result }
{
    match search.made.get(at) {
        Some(equation) => open(alloc, table, equation),
        None => Ok(Shown {
            own: Items::new(alloc),
            parts: Items::new(alloc),
        }),
    }
}

// What is met at the heads of an equation, and then at their parts.
fn meet_shown(
    alloc: Global,
    known: &[Equation],
    search: &mut Search,
    shown: Shown,
) -> Result<(), Halt>
    requires known { AreKnown known.now }
    requires search { IsFitSearch search.old }
    requires own { All IsFitMet shown.own }
    requires parts { All IsFit shown.parts }
    ensures { Goes (meet_all known.now search.old (shown.own ++ left shown.parts)) search.new result }
{
    let Shown { own, parts } = shown;
    let met = meet_each(alloc, known, search, own.as_slice());
    drop(own);
    match met {
        Ok(()) => meet_pairs(alloc, known, search, parts),
        Err(halt) => {
            drop(parts);
            Err(halt)
        }
    }
}

// The equation at this place is opened and walked.
fn walk_one(
    alloc: Global,
    table: &TypeTable,
    known: &[Equation],
    search: &mut Search,
    at: usize,
) -> Result<(), Halt>
    requires defs { All IsFitTypeDef table.now.defs }
    requires known { AreKnown known.now }
    requires search { IsFitSearch search.old }
    ensures { Goes (walk_one table.now.defs known.now at search.old) search.new result }
{
    search.begin(alloc, at)?;
    let shown = open_at(alloc, table, search, at)?;
    meet_shown(alloc, known, search, shown)?;
    search.close(alloc, at)?;
    Ok(())
}

/// The equations that were made are walked in order.
pub(crate) fn walk_made(
    alloc: Global,
    table: &TypeTable,
    known: &[Equation],
    search: &mut Search,
) -> Result<(), Halt>
    requires defs { All IsFitTypeDef table.now.defs }
    requires known { AreKnown known.now }
    requires search { IsFitSearch search.old }
    ensures { Goes (walk_made table.now.defs known.now most_made 0 search.old) search.new result }
{
    let mut at = 0;
    while at < search.made.len() {
        walk_one(alloc, table, known, search, at)?;
        at += 1;
    }
    Ok(())
}
