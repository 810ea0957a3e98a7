// The child of a delay.
ghost use Rattle.std.specs.Prelude.{◌≡◌, ◌∷◌, [], map, true, false, Bool, IfOk};
ghost use Rattle.std.specs.List.{list_all};
ghost use Rattle.rast_types.specs.Made.{Answers};
ghost use Rattle.rast_types.specs.Symbolic.{made_type, after_delay};
ghost use Rattle.rast_rules.specs.Draft.{made_uses};
ghost use Rattle.rast_rules.specs.Late.{has_ticks};
ghost use Rattle.rast_rules.specs.Rules.{defs, limited, delayed};

use crate::below::single_child;
use crate::child_types::{Uses, count_left, draft, with_use};
use crate::judgement::Judgement;
use crate::making::settled;
use rast_index::{IndexErr, Lin};
use rast_terms::Program;
use rast_time::shift;
use rast_types::{Stop, Ty, TypeTable};
use sqlite_items::Items;
use std::alloc::{AllocError, Global};

/// The child of a delay: each type comes so many ticks earlier. The ticks before each type can be made.
pub(crate) fn delay(
    alloc: Global,
    program: &Program,
    at: &Judgement,
    by: &Lin,
) -> Result<Items<Result<Judgement, Stop>>, AllocError>
    requires used { list_all (λ u. has_ticks (defs program.now) at.now.ctx.vars u.1) at.now.uses ≡ true }
    requires provided { has_ticks (defs program.now) at.now.ctx.vars at.now.gives.1 ≡ true }
    ensures { IfOk result (λ cs. cs ≡ limited (delayed program.now at.now by.now) ∷ []) }
{
    let uses = at.uses.as_slice();
    let made = late_uses(alloc, &program.types, at.ctx.vars, by, uses)?;
    let gives = late_type(alloc, &program.types, at.ctx.vars, by, &at.gives.1)?;
    let draft = draft(at, at.ctx.vars, made, count_left(uses, &[]), gives);
    single_child(alloc, at, draft, &[])
}

fn late_uses(
    alloc: Global,
    table: &TypeTable,
    vars: u8,
    by: &Lin,
    uses: &[(u32, Ty)],
) -> Result<Uses, AllocError>
    requires { list_all (λ u. has_ticks table.now.defs vars u.1) uses.now ≡ true }
    ensures { IfOk result (λ m. m ≡ made_uses vars (map (λ u. (u.0, after_delay table.now.defs vars by.now false u.1)) uses.now)) }
{
    let mut made = Ok(Items::new(alloc));
    for (channel, ty) in uses {
        let earlier = late_type(alloc, table, vars, by, ty)?;
        made = with_use(made, *channel, earlier)?;
    }
    Ok(made)
}

// A type so many ticks earlier, or the limit that it passes.
fn late_type(
    alloc: Global,
    table: &TypeTable,
    vars: u8,
    by: &Lin,
    ty: &Ty,
) -> Result<Result<Ty, Stop>, AllocError>
    requires { has_ticks table.now.defs vars ty.now ≡ true }
    ensures { (provided : Bool) → IfOk result (λ m. m ≡ made_type vars (after_delay table.now.defs vars by.now provided ty.now)) }
{
    settled(shifted(alloc, table, vars, by, ty))
}

// The same as an answer. That the type has so many ticks is a premise.
fn shifted(alloc: Global, table: &TypeTable, vars: u8, by: &Lin, ty: &Ty) -> Result<Ty, IndexErr>
    requires { has_ticks table.now.defs vars ty.now ≡ true }
    ensures { (provided : Bool) → Answers (made_type vars (after_delay table.now.defs vars by.now provided ty.now)) result }
{
    match shift(alloc, table, vars, ty, by) {
        Ok((enough, shifted)) => {
            drop(enough);
            Ok(shifted)
        }
        Err(e) => Err(e),
    }
}
