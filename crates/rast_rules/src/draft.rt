// Judgements as they are made, and the test of their limits.
ghost use Rattle.std.specs.Prelude.{◌≡◌, ◌++◌, ◌↔◌, ◌<◌, ◌≤◌, ◌^◌, true, Err, IfOk, IsTrue};
ghost use Rattle.std.specs.List.{list_all};
ghost use Rattle.rast_index.specs.Truth.{all_small};
ghost use Rattle.rast_types.specs.declared.stop.Stop.TheVariants as limit;
ghost use Rattle.rast_rules.specs.declared.judgement.Judgement.{Judgement};
ghost use Rattle.rast_rules.specs.Draft.{drafted, made_types};
ghost use Rattle.rast_rules.specs.Rules.{limited};

use crate::judgement::Judgement;
use rast_index::{Formula, Lin};
use rast_types::{Ctx, Stop, Ty};
use sqlite_items::Items;
use std::alloc::{AllocError, Global};

/// A judgement as it is made, but for its declaration and its premises. Parts that pass a limit are that limit.
#[derive(Drop)]
pub(crate) struct Draft {
    /// How many variables are in scope.
    pub(crate) vars: u8,
    /// The used channels with their types.
    pub(crate) uses: Result<Items<(u32, Ty)>, Stop>,
    /// How many used channels there are, where fewer than 16.
    pub(crate) count: u8,
    /// The potential.
    pub(crate) potential: Result<Lin, Stop>,
    /// The provided channel.
    pub(crate) provided: u32,
    /// Its type.
    pub(crate) gives: Result<Ty, Stop>,
    /// The number that the next bound channel gets.
    pub(crate) fresh: usize,
}

/// The judgement, or the first limit that it passes: variables, channels, numbers. The premises are those of two lists.
/// Want of memory is also answered where the next channel would have the number 2^32.
pub(crate) fn finish(
    alloc: Global,
    decl: u32,
    draft: Draft,
    premises: &[Formula],
    more: &[Formula],
) -> Result<Result<Judgement, Stop>, AllocError>
    ensures { (j : Judgement) → draft ≡ drafted j → j.decl ≡ decl → j.ctx.premises ≡ (premises.now ++ more.now) → IfOk result (λ made. made ≡ limited j) }
{
    if are_deep(&draft.uses) {
        drop(draft);
        return Ok(Err(Stop::Variables));
    }
    if is_deep(&draft.gives) {
        drop(draft);
        return Ok(Err(Stop::Variables));
    }
    if draft.count > 15 {
        drop(draft);
        return Ok(Err(Stop::Channels));
    }
    if draft.fresh > u32::MAX as usize {
        drop(draft);
        return Err(AllocError);
    }
    match both(alloc, premises, more) {
        Ok(premises) => Ok(assembled(decl, draft, premises)),
        Err(error) => {
            drop(draft);
            Err(error)
        }
    }
}

// The judgement with these premises, where only numbers may be too large.
fn assembled(decl: u32, draft: Draft, premises: Items<Formula>) -> Result<Judgement, Stop>
    requires uses { draft.uses ≡ Err limit.Variables → ⊥ }
    requires gives { draft.gives ≡ Err limit.Variables → ⊥ }
    requires few { draft.count ≤ 15 }
    requires fresh { draft.fresh < 2 ^ 32 }
    requires small { list_all all_small premises ≡ true }
    ensures { (j : Judgement) → draft ≡ drafted j → j.decl ≡ decl → j.ctx.premises ≡ premises → result ≡ limited j }
{
    let Draft {
        vars,
        uses,
        count: _,
        potential,
        provided,
        gives,
        fresh,
    } = draft;
    match made_types(uses, gives) {
        Ok((uses, ty)) => match potential {
            Ok(potential) => Ok(Judgement {
                decl,
                ctx: Ctx { vars, premises },
                uses,
                potential,
                gives: (provided, ty),
                fresh: fresh as u32,
            }),
            Err(_) => {
                drop(uses);
                drop(ty);
                drop(premises);
                Err(Stop::Coefficient)
            }
        },
        Err(stop) => {
            drop(potential);
            drop(premises);
            Err(stop)
        }
    }
}

// The types of the used channels and of the provided one, where no number is too large.
fn made_types(
    uses: Result<Items<(u32, Ty)>, Stop>,
    gives: Result<Ty, Stop>,
) -> Result<(Items<(u32, Ty)>, Ty), Stop>
    ensures { result ≡ made_types uses gives }
{
    match uses {
        Ok(uses) => match gives {
            Ok(ty) => Ok((uses, ty)),
            Err(_) => {
                drop(uses);
                Err(Stop::Coefficient)
            }
        },
        Err(_) => {
            drop(gives);
            Err(Stop::Coefficient)
        }
    }
}

// The formulas of two lists.
fn both(alloc: Global, premises: &[Formula], more: &[Formula]) -> Result<Items<Formula>, AllocError>
    ensures same { IfOk result (λ fs. fs ≡ premises.now ++ more.now) }
    ensures small { IfOk result (λ fs. list_all all_small fs ≡ true) }
{
    let mut out = copy_formulas(alloc, premises)?;
    out.append(copy_formulas(alloc, more)?)?;
    Ok(out)
}

// The same formulas again, whose numbers are small.
fn copy_formulas(alloc: Global, fs: &[Formula]) -> Result<Items<Formula>, AllocError>
    ensures same { IfOk result (λ out. out ≡ fs.now) }
    ensures small { IfOk result (λ out. list_all all_small out ≡ true) }
{
    let mut out = Items::new(alloc);
    for f in fs {
        out.push(f.copy(alloc)?)?;
    }
    Ok(out)
}

fn are_deep(uses: &Result<Items<(u32, Ty)>, Stop>) -> bool
    ensures { IsTrue result ↔ (uses.now ≡ Err limit.Variables) }
{
    matches!(uses, Err(Stop::Variables))
}

fn is_deep(ty: &Result<Ty, Stop>) -> bool
    ensures { IsTrue result ↔ (ty.now ≡ Err limit.Variables) }
{
    matches!(ty, Err(Stop::Variables))
}
