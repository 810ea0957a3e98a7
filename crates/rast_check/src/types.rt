// The type definitions, checked.
ghost use Rattle.std.specs.Prelude.{◌<◌, ◌^◌, All, Option, length};
ghost use Rattle.rast_equal.specs.Fit.{IsFitTypeDef};
ghost use Rattle.rast_equal.specs.Invalid.{IsTypeErr};
ghost use Rattle.rast_equal.specs.declared.validity.TypeErr.{TypeErr};
ghost use Rattle.rast_check.specs.Lifted.{type_refusal};
ghost use Rattle.rast_check.specs.Questions.{type_questions};
ghost use Rattle.rast_check.specs.Refusals.{Asked, IsRefusal};

use crate::answer::CheckErr;
use rast_equal::{TypeErr, validate};
use rast_terms::Program;
use std::alloc::Global;

/// Checks each type definition, in order.
pub(crate) fn check_types(alloc: Global, program: &Program) -> Result<(), CheckErr>
    requires few { length program.now.types.defs < 2 ^ 32 }
    requires fit { All IsFitTypeDef program.now.types.defs }
    ensures { Asked program.now (type_questions program.now) result }
{
    match validate(alloc, &program.types) {
        Ok(()) => Ok(()),
        Err(why) => Err(bad_type(why)),
    }
}

fn bad_type(why: TypeErr) -> CheckErr
    ensures { (o : Option TypeErr) → IsTypeErr o why → IsRefusal (type_refusal o) result }
{
    match why {
        TypeErr::Memory => CheckErr::Memory,
        why => CheckErr::BadType { why },
    }
}
