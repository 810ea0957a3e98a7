// The bodies of the declarations, checked.
ghost use Rattle.std.specs.Prelude.{◌≡◌, Some, IfOk, length, slice_get};
ghost use Rattle.rast_rules.specs.Rules.{limited, root};
ghost use Rattle.rast_terms.specs.declared.program.Decl.{Decl};
ghost use Rattle.rast_check.specs.Formed.{IsFormed};
ghost use Rattle.rast_check.specs.Questions.{body_questions, node_questions};
ghost use Rattle.rast_check.specs.Refusals.{Asked};

use crate::answer::CheckErr;
use crate::walk::{Waiting, check_below};
use rast_memo::Memo;
use rast_rules::{Judgement, RuleErr, start};
use rast_terms::{Decl, Program};
use rast_types::Stop;
use std::alloc::{AllocError, Global};

/// Checks the body of each declaration, in order.
pub(crate) fn check_bodies(alloc: Global, program: &Program) -> Result<(), CheckErr>
    requires { IsFormed program.now }
    ensures { Asked program.now (body_questions program.now) result }
{
    let mut memo = Memo::new(alloc);
    let decls = program.decls.as_slice();
    for i in 0..decls.len() {
        check_body(alloc, &mut memo, program, i as u32, &decls[i])?;
    }
    Ok(())
}

fn check_body(
    alloc: Global,
    memo: &mut Memo,
    program: &Program,
    number: u32,
    decl: &Decl,
) -> Result<(), CheckErr>
    requires formed { IsFormed program.now }
    requires found { slice_get program.now.decls number ≡ Some decl.now }
    ensures { Asked program.now (node_questions program.now (length program.now.nodes) (decl.now.body, limited (root number decl.now))) result }
{
    let judgement = judgement_of(alloc, program, number, decl)?;
    let first = Waiting {
        node: decl.body,
        depth: 0,
        judgement,
    };
    check_below(alloc, memo, program, first)
}

// The judgement of a declaration's body, or the limit that it would pass.
fn judgement_of(
    alloc: Global,
    program: &Program,
    number: u32,
    decl: &Decl,
) -> Result<Result<Judgement, Stop>, AllocError>
    requires { slice_get program.now.decls number ≡ Some decl.now }
    ensures { IfOk result (λ r. limited (root number decl.now) ≡ r) }
{
    match start(alloc, program, number) {
        Ok(judgement) => Ok(Ok(judgement)),
        Err(RuleErr::Limit { stop }) => Ok(Err(stop)),
        Err(RuleErr::Memory) => Err(AllocError),
    }
}
