// What a search has made.
ghost use Rattle.std.specs.Prelude.{◌≡◌, ◌++◌, ◌∷◌, [], IfOk, slice_get};
ghost use Rattle.rast_eqfind.specs.Search.{based, begun, closed_at, or_top, referred, with_new};

use crate::make::equation_with;
use rast_equal::{Part, Place};
use rast_types::{Equation, Ref};
use sqlite_items::Items;
use std::alloc::{AllocError, Global};
use std::mem;

/// What a search has made, and where its present walk stands.
#[derive(Drop)]
pub(crate) struct Search {
    /// The new equations. Those that were walked whole have their references, and the others none.
    pub made: Items<Equation>,
    /// The parts that lead to each, through the equations.
    pub paths: Items<Items<Part>>,
    /// The references that the present walk has chosen.
    pub refs: Items<Ref>,
    /// The parts that lead to where it began, through the equations.
    pub base: Items<Part>,
}

impl Search {
    /// Nothing is made yet.
    pub(crate) fn begun(alloc: Global) -> Search
        ensures { result ≡ begun }
    {
        Search {
            made: Items::new(alloc),
            paths: Items::new(alloc),
            refs: Items::new(alloc),
            base: Items::new(alloc),
        }
    }

    /// One more reference is chosen.
    pub(crate) fn refer(&mut self, reference: Ref) -> Result<(), AllocError>
        ensures { IfOk result (λ done. self.new ≡ referred reference self.old) }
    {
        self.refs.push(reference)
    }

    /// One more equation is made, at this place of the present walk.
    pub(crate) fn add(
        &mut self,
        alloc: Global,
        equation: Equation,
        place: &Place,
    ) -> Result<(), AllocError>
        ensures { IfOk result (λ done. self.new ≡ with_new equation place.now self.old) }
    {
        self.made.push(equation)?;
        let path = self.path_to(alloc, place)?;
        self.paths.push(path)
    }

    /// The parts that lead to a place of the present walk, through the equations.
    pub(crate) fn path_to(&self, alloc: Global, place: &Place) -> Result<Items<Part>, AllocError>
        ensures { IfOk result (λ ps. ps ≡ self.now.base ++ place.now.path) }
    {
        let mut path = Items::from_slice(alloc, self.base.as_slice())?;
        path.append(Items::from_slice(alloc, place.path.as_slice())?)?;
        Ok(path)
    }

    // The parts that lead to the equation at this place.
    fn path_of(&self, alloc: Global, at: usize) -> Result<Items<Part>, AllocError>
        ensures { IfOk result (λ ps. ps ≡ or_top (slice_get self.now.paths at)) }
    {
        match self.paths.get(at) {
            Some(path) => Items::from_slice(alloc, path.as_slice()),
            None => Ok(Items::new(alloc)),
        }
    }

    /// The walk of the equation at this place begins.
    pub(crate) fn begin(&mut self, alloc: Global, at: usize) -> Result<(), AllocError>
        ensures { IfOk result (λ done. self.new ≡ based at self.old) }
    {
        self.base = self.path_of(alloc, at)?;
        Ok(())
    }

    /// The walk of the equation at this place is over: what was chosen are its references.
    pub(crate) fn close(&mut self, alloc: Global, at: usize) -> Result<(), AllocError>
        ensures { IfOk result (λ done. self.new ≡ closed_at at self.old) }
    {
        if let Some(equation) = self.made.get(at) {
            let refs = mem::replace(&mut self.refs, Items::new(alloc));
            let closed = with_refs(alloc, equation, refs)?;
            self.made.set(at, closed);
        }
        Ok(())
    }

    /// The equations that were made, and none stays.
    pub(crate) fn take_made(&mut self, alloc: Global) -> Items<Equation>
        ensures { result ≡ self.old.made }
    {
        mem::replace(&mut self.made, Items::new(alloc))
    }

    /// The references that were chosen, and none stays.
    pub(crate) fn take_refs(&mut self, alloc: Global) -> Items<Ref>
        ensures taken { result ≡ self.old.refs }
        ensures left { self.new ≡ record self.old { refs = [] } }
    {
        mem::replace(&mut self.refs, Items::new(alloc))
    }
}

// The equation again, with these references.
fn with_refs(alloc: Global, equation: &Equation, refs: Items<Ref>) -> Result<Equation, AllocError>
    ensures { IfOk result (λ e. e ≡ record equation.now { refs = refs }) }
{
    let Equation {
        vars,
        premise,
        left,
        right,
        refs: _,
    } = equation;
    match premise.copy(alloc) {
        Ok(premise) => equation_with(alloc, *vars, premise, left, right, refs),
        Err(error) => {
            drop(refs);
            Err(error)
        }
    }
}
