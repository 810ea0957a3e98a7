// Where a walk stands, and what it has still to walk.
ghost use Rattle.std.specs.Prelude.{◌≡◌, ◌<◌, IfOk};
ghost use Rattle.rast_equal.specs.Walk.{top, down, bind, under};

use crate::answer::Part;
use rast_index::Formula;
use rast_types::Ty;
use sqlite_items::Items;
use std::alloc::{AllocError, Global};

/// Where a walk stands.
#[derive(Drop)]
pub struct Place {
    /// The parts that lead here.
    pub path: Items<Part>,
    /// How many variables are in scope.
    pub vars: u8,
    /// What is presumed of them.
    pub premises: Items<Formula>,
}

/// Two types that are walked together.
#[derive(Drop)]
pub struct Pair {
    /// Where the walk stands.
    pub place: Place,
    /// The first type.
    pub left: Ty,
    /// The second type.
    pub right: Ty,
}

impl Place {
    /// The place at which a walk begins, with so many variables and these premises.
    pub fn top(alloc: Global, vars: u8, premises: &[Formula]) -> Result<Place, AllocError>
        ensures { IfOk result (λ p. p ≡ top vars premises.now) }
    {
        Ok(Place {
            path: Items::new(alloc),
            vars,
            premises: copy_formulas(alloc, premises)?,
        })
    }

    /// The same place again.
    pub(crate) fn copy(&self, alloc: Global) -> Result<Place, AllocError>
        ensures { IfOk result (λ p. p ≡ self.now) }
    {
        Ok(Place {
            path: Items::from_slice(alloc, self.path.as_slice())?,
            vars: self.vars,
            premises: copy_formulas(alloc, self.premises.as_slice())?,
        })
    }

    /// The place at a part.
    pub(crate) fn down(self, part: Part) -> Result<Place, AllocError>
        ensures { IfOk result (λ p. p ≡ down part self) }
    {
        let Place {
            mut path,
            vars,
            premises,
        } = self;
        path.push(part)?;
        Ok(Place {
            path,
            vars,
            premises,
        })
    }

    /// The same place with one more variable.
    pub(crate) fn bind(self) -> Place
        requires { self.vars < 17 }
        ensures { result ≡ bind self }
    {
        Place {
            path: self.path,
            vars: self.vars + 1,
            premises: self.premises,
        }
    }

    /// The same place with one more premise.
    pub(crate) fn under(self, premise: Formula) -> Result<Place, AllocError>
        ensures { IfOk result (λ p. p ≡ under premise self) }
    {
        let Place {
            path,
            vars,
            mut premises,
        } = self;
        premises.push(premise)?;
        Ok(Place {
            path,
            vars,
            premises,
        })
    }
}

/// The same formulas again.
pub fn copy_formulas(alloc: Global, formulas: &[Formula]) -> Result<Items<Formula>, AllocError>
    ensures { IfOk result (λ out. out ≡ formulas.now) }
{
    let mut out = Items::new(alloc);
    for f in formulas {
        out.push(f.copy(alloc)?)?;
    }
    Ok(out)
}
