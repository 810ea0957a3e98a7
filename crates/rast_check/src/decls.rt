// The declarations' types and potentials, checked.
ghost use Rattle.std.specs.Prelude.{◌≡◌, ◌<◌, ◌≤◌, ◌^◌, ◌∷◌, [], true, All, Option, length, map};
ghost use Rattle.rast_equal.specs.Fit.{IsWithinType};
ghost use Rattle.rast_equal.specs.Invalid.{IsTypeErr};
ghost use Rattle.rast_equal.specs.Valid.{Asks, claims_of, nonneg};
ghost use Rattle.rast_equal.specs.declared.validity.TypeErr.{TypeErr};
ghost use Rattle.rast_index.specs.Linear.{is_closed};
ghost use Rattle.rast_rules.specs.Rules.{defs};
ghost use Rattle.rast_check.specs.declared.answer.CheckErr.TheVariants as check;
ghost use Rattle.rast_equal.specs.declared.validity.TypeErr.TheVariants as type;
ghost use Rattle.rast_check.specs.Formed.{IsFitDecl};
ghost use Rattle.rast_check.specs.Lifted.{decl_refusal};
ghost use Rattle.rast_check.specs.Questions.{OfDecl, decl_claims, decl_questions, uses_claims};
ghost use Rattle.rast_check.specs.Refusals.{Asked, IsRefusal};

use crate::answer::CheckErr;
use rast_cooper::{Verdict, decide};
use rast_equal::{TypeErr, validate_type};
use rast_index::{Formula, Lin, Rel};
use rast_terms::{Decl, Program};
use rast_types::{Ctx, Stop, Ty};
use sqlite_items::Items;
use std::alloc::Global;

/// Checks the types and the potential of each declaration, in order.
pub(crate) fn check_decls(alloc: Global, program: &Program) -> Result<(), CheckErr>
    requires types { length program.now.types.defs < 2 ^ 32 }
    requires few { length program.now.decls < 2 ^ 32 }
    requires fit { All IsFitDecl program.now.decls }
    ensures { Asked program.now (decl_questions program.now) result }
{
    let decls = program.decls.as_slice();
    for i in 0..decls.len() {
        check_decl(alloc, program, i as u32, &decls[i])?;
    }
    Ok(())
}

fn check_decl(alloc: Global, program: &Program, number: u32, decl: &Decl) -> Result<(), CheckErr>
    requires types { length program.now.types.defs < 2 ^ 32 }
    requires fit { IsFitDecl decl.now }
    ensures { Asked program.now (map (OfDecl number) (decl_claims program.now decl.now)) result }
{
    let ctx = Ctx {
        vars: decl.params,
        premises: Items::new(alloc),
    };
    check_uses(alloc, program, number, &ctx, decl.uses.as_slice())?;
    check_type(alloc, program, number, &ctx, &decl.gives)?;
    check_potential(alloc, program, number, decl.params, &decl.potential)
}

fn check_uses(
    alloc: Global,
    program: &Program,
    number: u32,
    ctx: &Ctx,
    uses: &[Ty],
) -> Result<(), CheckErr>
    requires types { length program.now.types.defs < 2 ^ 32 }
    requires few { ctx.now.vars ≤ 16 }
    requires premises { ctx.now.premises ≡ [] }
    requires fit { All (IsWithinType ctx.now.vars) uses.now }
    ensures { Asked program.now (map (OfDecl number) (uses_claims (defs program.now) ctx.now.vars uses.now)) result }
{
    for a in uses {
        check_type(alloc, program, number, ctx, a)?;
    }
    Ok(())
}

fn check_type(
    alloc: Global,
    program: &Program,
    number: u32,
    ctx: &Ctx,
    a: &Ty,
) -> Result<(), CheckErr>
    requires types { length program.now.types.defs < 2 ^ 32 }
    requires few { ctx.now.vars ≤ 16 }
    requires premises { ctx.now.premises ≡ [] }
    requires fit { IsWithinType ctx.now.vars a.now }
    ensures { Asked program.now (map (OfDecl number) (claims_of (defs program.now) ctx.now.vars [] a.now)) result }
{
    match validate_type(alloc, &program.types, ctx, a) {
        Ok(()) => Ok(()),
        Err(why) => Err(bad_decl(number, why)),
    }
}

fn bad_decl(decl: u32, why: TypeErr) -> CheckErr
    ensures { (o : Option TypeErr) → IsTypeErr o why → IsRefusal (decl_refusal decl o) result }
{
    match why {
        TypeErr::Memory => CheckErr::Memory,
        why => CheckErr::BadDecl { decl, why },
    }
}

// The potential is at least 0.
fn check_potential(
    alloc: Global,
    program: &Program,
    number: u32,
    params: u8,
    potential: &Lin,
) -> Result<(), CheckErr>
    requires types { length program.now.types.defs < 2 ^ 32 }
    requires few { params ≤ 16 }
    requires closed { is_closed params potential.now ≡ true }
    ensures { Asked program.now (map (OfDecl number) (Asks 6 params [] (nonneg potential.now) ∷ [])) result }
{
    let def = program.types.defs.len() as u32;
    let goal = Formula::Rel(potential.again(), Rel::Ge, Lin::nought());
    match decide(alloc, params, &[], &goal)? {
        Verdict::Holds => Ok(()),
        Verdict::Fails { values } => Err(CheckErr::BadDecl {
            decl: number,
            why: TypeErr::Invalid {
                def,
                rule: 6,
                vars: params,
                values: Some(values),
            },
        }),
        Verdict::NodeLimit => Err(stopped(number, def, Stop::NodeLimit)),
        Verdict::NumberLimit => Err(stopped(number, def, Stop::NumberLimit)),
    }
}

fn stopped(decl: u32, def: u32, stop: Stop) -> CheckErr
    ensures { result ≡ check.BadDecl decl (type.Bound def stop) }
{
    CheckErr::BadDecl {
        decl,
        why: TypeErr::Bound { def, stop },
    }
}
