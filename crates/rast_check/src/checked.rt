// The check of a program.
ghost use Rattle.std.specs.Prelude.{◌≡◌, None, true, IfOk, IfErr};
ghost use Rattle.rast_made.specs.WellMade.{IsWellMade};
ghost use Rattle.rast_rules.specs.Plan.{IsForest};
ghost use Rattle.rast_rules.specs.Rules.{IsAccepted};
ghost use Rattle.rast_check.specs.Answer.{IsAnswer};
ghost use Rattle.rast_check.specs.Decided.{searched};
ghost use Rattle.rast_check.specs.Formed.{IsFormed, is_formed};
ghost use Rattle.rast_check.specs.Questions.{answer, questions};
ghost use Rattle.rast_check.specs.Refusals.{Asked, IsRefusal};
ghost use Rattle.rast_check.specs.Shown.{Refutes};

use crate::answer::CheckErr;
use crate::body::check_bodies;
use crate::decls::check_decls;
use crate::equations::check_equations;
use crate::formed::is_scoped;
use crate::types::check_types;
use rast_terms::Program;
use std::alloc::Global;

/// An accepted program; only a check makes one.
#[derive(Drop)]
pub struct Checked {
    program: Program,
}

impl Checked {
    /// The program, as it was given to the check.
    pub fn program(&self) -> &Program
        ensures { result.now ≡ self.now.program }
    {
        &self.program
    }
}

/// Checks a program: its type definitions, declarations and equations, and then each node under its judgement.
///
/// An accepted program is kept. Any other is handed back with the first of these places that is false, undecided
/// or over a limit, in this order; want of memory may always come.
///
/// The program is formed, as each one is that a text says; of any other `is_formed` tells whether it is.
pub fn check(alloc: Global, program: Program) -> Result<Checked, (Program, CheckErr)>
    requires { is_formed program ≡ true }
    ensures kept { IfOk result (λ c. c.program ≡ program) }
    ensures accepted { IfOk result (λ c. IsAccepted c.program) }
    ensures made { IfOk result (λ c. IsWellMade c.program) }
    ensures forest { IfOk result (λ c. IsForest c.program) }
    ensures none { IfOk result (λ c. answer searched program ≡ None) }
    ensures back { IfErr result (λ e. e.0 ≡ program) }
    ensures first { IfErr result (λ e. IsRefusal (answer searched program) e.1) }
    ensures refutes { IfErr result (λ e. Refutes program e.1) }
{
    match check_program(alloc, &program) {
        Ok(()) => Ok(Checked { program }),
        Err(why) => Err((program, why)),
    }
}

// That no other variables occur in wider scopes either isn't said by the definition, and is told again by the test of scopes.
fn check_program(alloc: Global, program: &Program) -> Result<(), CheckErr>
    requires { is_formed program.now ≡ true }
    ensures answer { IsAnswer program.now result }
    ensures made { IfOk result (λ done. IsWellMade program.now) }
    ensures forest { IfOk result (λ done. IsForest program.now) }
    ensures refutes { IfErr result (Refutes program.now) }
{
    if !is_scoped(program) {
        unreachable!();
    }
    check_formed(alloc, program)
}

fn check_formed(alloc: Global, program: &Program) -> Result<(), CheckErr>
    requires { IsFormed program.now }
    ensures { Asked program.now (questions program.now) result }
{
    check_types(alloc, program)?;
    check_decls(alloc, program)?;
    check_equations(alloc, program)?;
    check_bodies(alloc, program)
}
