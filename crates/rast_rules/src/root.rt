// The judgement of a declaration's body.
ghost use Rattle.std.specs.Prelude.{◌≡◌, ◌<◌, ◌+◌, ◌^◌, length, min, slice_get, Some, IfOk};
ghost use Rattle.rast_index.specs.Keys.{numbered};
ghost use Rattle.rast_terms.specs.declared.program.Decl.{Decl};
ghost use Rattle.rast_rules.specs.Draft.{made_uses};
ghost use Rattle.rast_rules.specs.Rules.{limited, root};
ghost use Rattle.rast_rules.specs.Start.{IsStart};

use crate::child_types::{Uses, with_use};
use crate::draft::{Draft, finish};
use crate::formulas::same_term;
use crate::judgement::Judgement;
use crate::making::copy_within;
use rast_terms::{Decl, Program};
use rast_types::{Stop, Ty};
use sqlite_items::Items;
use std::alloc::{AllocError, Global};

/// Why a declaration's body has no judgement.
#[derive(Drop)]
pub enum RuleErr {
    /// It would pass this limit.
    Limit {
        /// Which one: of variables, of channels or of numbers.
        stop: Stop,
    },
    /// Want of memory.
    Memory,
}

/// The judgement of a declaration's body, or the first limit that it passes, of 16 variables, of 16 channels, of numbers below 2^32.
pub fn start(alloc: Global, program: &Program, decl: u32) -> Result<Judgement, RuleErr>
    requires { decl < length program.now.decls }
    ensures { (d : Decl) → slice_get program.now.decls decl ≡ Some d → IsStart (limited (root decl d)) result }
{
    let Some(found) = program.decls.get(decl as usize) else {
        return Err(RuleErr::Memory);
    };
    match root(alloc, decl, found) {
        Ok(Ok(judgement)) => Ok(judgement),
        Ok(Err(stop)) => Err(RuleErr::Limit { stop }),
        Err(_) => Err(RuleErr::Memory),
    }
}

fn root(alloc: Global, decl: u32, found: &Decl) -> Result<Result<Judgement, Stop>, AllocError>
    ensures { IfOk result (λ j. j ≡ limited (root decl found.now)) }
{
    let count = found.uses.len();
    if count >= u32::MAX as usize {
        return Err(AllocError);
    }
    let uses = root_uses(alloc, found.params, found.uses.as_slice())?;
    let gives = copy_within(alloc, found.params, &found.gives)?;
    let draft = Draft {
        vars: found.params,
        uses,
        count: count.min(16) as u8,
        potential: same_term(&found.potential),
        provided: 0,
        gives,
        fresh: count + 1,
    };
    finish(alloc, decl, draft, &[], &[])
}

// The used channels are numbered from 1.
fn root_uses(alloc: Global, vars: u8, types: &[Ty]) -> Result<Uses, AllocError>
    requires { length types.now + 1 < 2 ^ 32 }
    ensures { IfOk result (λ m. m ≡ made_uses vars (numbered 1 types.now)) }
{
    let mut made = Ok(Items::new(alloc));
    for i in 0..types.len() {
        let ty = copy_within(alloc, vars, &types[i])?;
        made = with_use(made, i as u32 + 1, ty)?;
    }
    Ok(made)
}
