// Premises in order, up to and with the first that stops.
ghost use Rattle.std.specs.Prelude.{◌≡◌, ◌∷◌, [], OnOk};
ghost use Rattle.rast_rules.specs.Trail.{any_stops, and_then};

use crate::premise::Premise;
use sqlite_items::Items;
use std::alloc::{AllocError, Global};
use std::marker::Model;

/// The premises of a node that were found so far, each with its number. None is added behind one that stops.
#[derive(Drop)]
pub(crate) struct Trail {
    found: Items<(u8, Premise)>,
    closed: bool,
}

impl Model for Trail {
    ghost use Rattle.std.specs.Prelude.{◌≡◌, ℕ, List};
    ghost use Rattle.rast_rules.specs.declared.premise.Premise.{Premise};
    ghost use Rattle.rast_rules.specs.Trail.{any_stops};
    ghost use Rattle.std.specs.Coded.{codes};
    ghost use Rattle.rast_index.specs.contracts.formula.Formula as formula;
    ghost use Rattle.rast_types.specs.contracts.ty.Ty as type;

    ghost Value = { List (ℕ × Premise) };

    ghost coded = { Prim.hlevel (codes, formula.the_row.coded, type.the_row.coded) };

    ghost view = { λ t. t.found };

    ghost invariant = { λ t. t.closed ≡ any_stops t.found };
}

impl Trail {
    /// No premise yet.
    pub(crate) fn new(alloc: Global) -> Trail
        ensures { result ≡ [] }
    {
        Trail {
            found: Items::new(alloc),
            closed: false,
        }
    }

    /// Whether a premise stops.
    pub(crate) fn is_closed(&self) -> bool
        ensures { result ≡ any_stops self.now }
    {
        self.closed
    }

    /// One more premise, unless one before it stops.
    pub(crate) fn ask(&mut self, number: u8, premise: Premise) -> Result<(), AllocError>
        ensures { OnOk result (self.new ≡ and_then self.old ((number, premise) ∷ [])) }
    {
        if self.closed {
            drop(premise);
            return Ok(());
        }
        let stops = premise.stops();
        self.found.push((number, premise))?;
        self.closed = stops;
        Ok(())
    }

    /// The premises.
    pub(crate) fn into_found(self) -> Items<(u8, Premise)>
        ensures { result ≡ self }
    {
        let Trail { found, closed: _ } = self;
        found
    }
}
