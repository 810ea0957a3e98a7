// The types of a judgement's channels in a child.
ghost use Rattle.std.specs.Prelude.{◌≡◌, ◌++◌, ◌∷◌, [], IfOk, List, ℕ, ◌+◌, ◌≤◌, length, min};
ghost use Rattle.rast_index.specs.Keys.{set_key};
ghost use Rattle.rast_types.specs.Symbolic.{made_type};
ghost use Rattle.rast_types.specs.declared.ty.Ty.{Ty};
ghost use Rattle.rast_rules.specs.Draft.{made_uses, join_made, drafted, turned, turned_uses, changed};
ghost use Rattle.rast_rules.specs.Making.{made_term};
ghost use Rattle.rast_rules.specs.Rules.{with_type};
ghost use Rattle.rast_rules.specs.Trail.{left};

use crate::channels::{is_among, place_of};
use crate::draft::Draft;
use crate::formulas::same_term;
use crate::judgement::Judgement;
use crate::making::{copy_within, put_within};
use rast_index::Lin;
use rast_types::{Stop, Ty};
use sqlite_items::Items;
use std::alloc::{AllocError, Global};

/// Used channels with their types, or the limit that a type passes.
pub(crate) type Uses = Result<Items<(u32, Ty)>, Stop>;

/// One more channel.
pub(crate) fn with_use(uses: Uses, channel: u32, made: Result<Ty, Stop>) -> Result<Uses, AllocError>
    ensures { IfOk result (λ m. m ≡ join_made uses channel made) }
{
    match uses {
        Ok(mut uses) => match made {
            Ok(ty) => {
                uses.push((channel, ty))?;
                Ok(Ok(uses))
            }
            Err(stop) => {
                drop(uses);
                Ok(Err(stop))
            }
        },
        Err(Stop::Variables) => {
            drop(made);
            Ok(Err(Stop::Variables))
        }
        Err(stop) => match made {
            Ok(ty) => {
                drop(ty);
                Ok(Err(stop))
            }
            Err(other) => Ok(Err(other)),
        },
    }
}

// The type in the child's scope: as it is, or at these terms.
fn type_in_scope(
    alloc: Global,
    vars: u8,
    by: Option<&[Lin]>,
    ty: &Ty,
) -> Result<Result<Ty, Stop>, AllocError>
    ensures { IfOk result (λ m. m ≡ made_type vars (turned vars by.entry ty.now)) }
{
    match by {
        Some(terms) => put_within(alloc, vars, ty, terms),
        None => copy_within(alloc, vars, ty),
    }
}

// Channels behind those that were made before, each turned, but for those that go.
fn uses_in_scope(
    alloc: Global,
    vars: u8,
    by: Option<&[Lin]>,
    gone: &[u32],
    before: Uses,
    uses: &[(u32, Ty)],
) -> Result<Uses, AllocError>
    ensures { (us : List (ℕ × Ty)) → before ≡ made_uses vars us → IfOk result (λ m. m ≡ made_uses vars (us ++ turned_uses vars by.entry (left gone.now uses.now))) }
{
    let mut made = before;
    for (channel, ty) in uses {
        made = use_in_scope(alloc, vars, by, gone, made, *channel, ty)?;
    }
    Ok(made)
}

fn use_in_scope(
    alloc: Global,
    vars: u8,
    by: Option<&[Lin]>,
    gone: &[u32],
    before: Uses,
    channel: u32,
    ty: &Ty,
) -> Result<Uses, AllocError>
    ensures { (us : List (ℕ × Ty)) → before ≡ made_uses vars us → IfOk result (λ m. m ≡ made_uses vars (us ++ turned_uses vars by.entry (left gone.now ((channel, ty.now) ∷ [])))) }
{
    if is_among(gone, channel) {
        return Ok(before);
    }
    match type_in_scope(alloc, vars, by, ty) {
        Ok(made) => with_use(before, channel, made),
        Err(error) => {
            drop(before);
            Err(error)
        }
    }
}

// The same with another type at one channel.
fn uses_with_type(
    alloc: Global,
    vars: u8,
    by: Option<&[Lin]>,
    gone: &[u32],
    uses: &[(u32, Ty)],
    x: u32,
    part: Result<Ty, Stop>,
) -> Result<Uses, AllocError>
    ensures { (a : Ty) → part ≡ made_type vars a → IfOk result (λ m. m ≡ made_uses vars (set_key x a (turned_uses vars by.entry (left gone.now uses.now)))) }
{
    let start = Ok(Items::new(alloc));
    if is_among(gone, x) {
        drop(part);
        return uses_in_scope(alloc, vars, by, gone, start, uses);
    }
    match place_of(uses, x) {
        Some(i) => match uses_in_scope(alloc, vars, by, gone, start, &uses[..i]) {
            Ok(front) => {
                let middle = with_use(front, x, part)?;
                uses_in_scope(alloc, vars, by, gone, middle, &uses[i + 1..])
            }
            Err(error) => {
                drop(part);
                Err(error)
            }
        },
        None => {
            drop(part);
            uses_in_scope(alloc, vars, by, gone, start, uses)
        }
    }
}

/// How many channels are left, where fewer than 16.
pub(crate) fn count_left(uses: &[(u32, Ty)], gone: &[u32]) -> u8
    ensures { result ≡ min 16 (length (left gone.now uses.now)) }
{
    let mut count = 0;
    for (channel, _) in uses {
        count = counted(count, gone, *channel);
    }
    count
}

// One channel more, if it is left.
fn counted(count: u8, gone: &[u32], channel: u32) -> u8
    requires { count ≤ 16 }
    ensures { (a : Ty) → result ≡ min 16 (count + length (left gone.now ((channel, a) ∷ []))) }
{
    if is_among(gone, channel) {
        return count;
    }
    one_more(count)
}

/// One more, where fewer than 16 are counted.
pub(crate) fn one_more(count: u8) -> u8
    ensures { result ≡ min 16 (count + 1) }
{
    if count < 16 { count + 1 } else { 16 }
}

/// The judgement in another scope, all types as they are or at these terms, without some used channels.
pub(crate) fn draft_in_scope(
    alloc: Global,
    at: &Judgement,
    vars: u8,
    by: Option<&[Lin]>,
    gone: &[u32],
) -> Result<Draft, AllocError>
    ensures { IfOk result (λ d. d ≡ drafted (changed vars by.entry gone.now at.now)) }
{
    let uses = at.uses.as_slice();
    let made = uses_in_scope(alloc, vars, by, gone, Ok(Items::new(alloc)), uses)?;
    match type_in_scope(alloc, vars, by, &at.gives.1) {
        Ok(gives) => Ok(draft(at, vars, made, count_left(uses, gone), gives)),
        Err(error) => {
            drop(made);
            Err(error)
        }
    }
}

/// The same with another type at one channel.
pub(crate) fn draft_with_type(
    alloc: Global,
    at: &Judgement,
    vars: u8,
    by: Option<&[Lin]>,
    gone: &[u32],
    x: u32,
    part: Result<Ty, Stop>,
) -> Result<Draft, AllocError>
    ensures { (a : Ty) → part ≡ made_type vars a → IfOk result (λ d. d ≡ drafted (with_type (changed vars by.entry gone.now at.now) x a)) }
{
    let uses = at.uses.as_slice();
    let count = count_left(uses, gone);
    if at.is_provided(x) {
        return match uses_in_scope(alloc, vars, by, gone, Ok(Items::new(alloc)), uses) {
            Ok(made) => Ok(draft(at, vars, made, count, part)),
            Err(error) => {
                drop(part);
                Err(error)
            }
        };
    }
    let used = uses_with_type(alloc, vars, by, gone, uses, x, part)?;
    match type_in_scope(alloc, vars, by, &at.gives.1) {
        Ok(gives) => Ok(draft(at, vars, used, count, gives)),
        Err(error) => {
            drop(used);
            Err(error)
        }
    }
}

// A draft with the judgement's potential and channel numbers.
pub(crate) fn draft(
    at: &Judgement,
    vars: u8,
    uses: Uses,
    count: u8,
    gives: Result<Ty, Stop>,
) -> Draft
    ensures { result ≡ record { vars = vars; uses = uses; count = count; potential = made_term at.now.potential; provided = at.now.gives.0; gives = gives; fresh = at.now.fresh } }
{
    Draft {
        vars,
        uses,
        count,
        potential: same_term(&at.potential),
        provided: at.gives.0,
        gives,
        fresh: at.fresh as usize,
    }
}
