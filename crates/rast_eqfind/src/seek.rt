// The search for equations by which two types are the same.
ghost use Rattle.std.specs.Prelude.{◌≡◌, All, IfOk};
ghost use Rattle.rast_equal.specs.Fit.{AreFit, IsFitTypeDef};
ghost use Rattle.rast_equal.specs.Walk.{meets, top};
ghost use Rattle.rast_eqfind.specs.Answer.{AreKnown, Comes, Goes, IsFitFinding, IsFitSearch};
ghost use Rattle.rast_eqfind.specs.Found.{TellsFound};
ghost use Rattle.rast_eqfind.specs.Search.{after_top, found, meet_all, searched};

use crate::finding::{Finding, Halt};
use crate::search::Search;
use crate::walk::{meet_pairs, walk_made};
use rast_equal::{Place, pair};
use rast_types::{Ctx, Equation, Ty, TypeTable};
use sqlite_items::Items;
use std::alloc::{AllocError, Global};

// The walk of both types.
fn meet_types(
    alloc: Global,
    known: &[Equation],
    search: &mut Search,
    ctx: &Ctx,
    a: &Ty,
    b: &Ty,
) -> Result<(), Halt>
    requires known { AreKnown known.now }
    requires search { IsFitSearch search.old }
    requires fit { AreFit (top ctx.now.vars ctx.now.premises) a.now b.now }
    ensures { Goes (meet_all known.now search.old (meets a.now b.now (top ctx.now.vars ctx.now.premises))) search.new result }
{
    let place = Place::top(alloc, ctx.vars, ctx.premises.as_slice())?;
    let both = pair(alloc, place, a, b)?;
    let mut pairs = Items::new(alloc);
    pairs.push(both)?;
    meet_pairs(alloc, known, search, pairs)
}

// The walk of the equations that were made, after that of both types.
fn walk_on(
    alloc: Global,
    table: &TypeTable,
    known: &[Equation],
    search: &mut Search,
) -> Result<Finding, Halt>
    requires defs { All IsFitTypeDef table.now.defs }
    requires known { AreKnown known.now }
    requires search { IsFitSearch search.old }
    ensures { Comes (after_top table.now.defs known.now search.old) result }
{
    let refs = search.take_refs(alloc);
    match walk_made(alloc, table, known, search) {
        Ok(()) => Ok(Finding::Found {
            added: search.take_made(alloc),
            refs,
        }),
        Err(halt) => {
            drop(refs);
            Err(halt)
        }
    }
}

// The walk of both types, and then of the equations that were made.
fn searched(
    alloc: Global,
    table: &TypeTable,
    known: &[Equation],
    ctx: &Ctx,
    a: &Ty,
    b: &Ty,
) -> Result<Finding, Halt>
    requires defs { All IsFitTypeDef table.now.defs }
    requires known { AreKnown known.now }
    requires fit { AreFit (top ctx.now.vars ctx.now.premises) a.now b.now }
    ensures { Comes (searched table.now.defs known.now (meets a.now b.now (top ctx.now.vars ctx.now.premises))) result }
{
    let mut search = Search::begun(alloc);
    let found = match meet_types(alloc, known, &mut search, ctx, a, b) {
        Ok(()) => walk_on(alloc, table, known, &mut search),
        Err(halt) => Err(halt),
    };
    drop(search);
    found
}

/// Searches for equations by which two types are the same.
///
/// `table` has the definitions, `known` the equations that are there, and `ctx` the variables in
/// scope and what is presumed of them. The types are walked together. A pair of which one is a name
/// is served by refl, or by the first equation of which it is an instance, or by a new equation,
/// which is then opened and walked too. `Found` has the new equations and the references by which
/// the types are the same. `Different` comes at the first demand that is false, `EqBound` where a
/// 257th new equation would be needed, and `Stopped` at the first bound. The only error is want of
/// memory.
pub fn find(
    alloc: Global,
    table: &TypeTable,
    known: &[Equation],
    ctx: &Ctx,
    a: &Ty,
    b: &Ty,
) -> Result<Finding, AllocError>
    requires defs { All IsFitTypeDef table.now.defs }
    requires known { AreKnown known.now }
    requires fit { AreFit (top ctx.now.vars ctx.now.premises) a.now b.now }
    ensures exact { IfOk result (λ f. f ≡ found table.now.defs known.now ctx.now.vars ctx.now.premises a.now b.now) }
    ensures found { IfOk result (TellsFound table.now.defs known.now ctx.now.vars ctx.now.premises a.now b.now) }
    ensures fit { IfOk result IsFitFinding }
{
    match searched(alloc, table, known, ctx, a, b) {
        Ok(finding) => Ok(finding),
        Err(Halt::Ends(finding)) => Ok(finding),
        Err(Halt::Memory) => Err(AllocError),
    }
}
