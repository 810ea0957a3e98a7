// The equations, checked.
ghost use Rattle.std.specs.Prelude.{◌≡◌, ◌+◌, ◌<◌, ◌^◌, All, Option, Some, length};
ghost use Rattle.rast_equal.specs.Equated.{unless_memory};
ghost use Rattle.rast_equal.specs.Fit.{IsFitEquation, IsFitTypeDef};
ghost use Rattle.rast_equal.specs.declared.equations.EquationErr.{EquationErr};
ghost use Rattle.rast_check.specs.Lifted.{equation_refusal};
ghost use Rattle.rast_check.specs.Questions.{equation_questions};
ghost use Rattle.rast_check.specs.Refusals.{Asked, IsRefusal};

use crate::answer::CheckErr;
use rast_equal::{EquationErr, SameErr};
use rast_terms::Program;
use std::alloc::Global;

/// Checks each equation, in order.
pub(crate) fn check_equations(alloc: Global, program: &Program) -> Result<(), CheckErr>
    requires few { length program.now.equations + 1 < 2 ^ 32 }
    requires defs { All IsFitTypeDef program.now.types.defs }
    requires fit { All IsFitEquation program.now.equations }
    ensures { Asked program.now (equation_questions program.now) result }
{
    match rast_equal::check_equations(alloc, &program.types, program.equations.as_slice()) {
        Ok(()) => Ok(()),
        Err(why) => Err(bad_equation(why)),
    }
}

fn bad_equation(why: EquationErr) -> CheckErr
    ensures { (o : Option EquationErr) → unless_memory why.why (o ≡ Some why) → IsRefusal (equation_refusal o) result }
{
    let EquationErr {
        number,
        premise,
        why,
    } = why;
    match why {
        SameErr::Memory => CheckErr::Memory,
        why => CheckErr::BadEquation {
            why: EquationErr {
                number,
                premise,
                why,
            },
        },
    }
}
