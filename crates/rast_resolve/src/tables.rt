// The tables of a program that is being made.
ghost use Rattle.std.specs.Prelude.{◌≡◌, IfOk, OnOk};
ghost use Rattle.rast_resolve.specs.Programs.{no_entries, added, program_of};

use crate::bodies::Bodies;
use crate::known::Known;
use crate::parts::Part;
use rast_terms::{Decl, Program, Said};
use rast_types::{Equation, TypeDef, TypeTable};
use sqlite_items::Items;
use std::alloc::{AllocError, Global};

/// What the items before add to the program.
#[derive(Drop)]
pub(crate) struct Tables {
    /// Type definitions.
    pub defs: Items<TypeDef>,
    /// For each the numbers of its names for printing.
    pub def_said: Items<Items<u32>>,
    /// Declarations.
    pub decls: Items<Decl>,
    /// For each the numbers of its names for printing.
    pub decl_said: Items<Items<u32>>,
    /// For each the numbers of its channels' names.
    pub channels: Items<Items<u32>>,
    /// Equations.
    pub equations: Items<Equation>,
    /// For each declaration of the file the nodes of its body.
    pub bodies: Bodies,
    /// What is executed.
    pub main: Option<u32>,
}

impl Tables {
    // No entries, in a file of so many declarations.
    pub fn new(alloc: Global, decls: usize) -> Result<Tables, AllocError>
        ensures { IfOk result (λ tables. tables ≡ no_entries decls) }
    {
        Ok(Tables {
            defs: Items::new(alloc),
            def_said: Items::new(alloc),
            decls: Items::new(alloc),
            decl_said: Items::new(alloc),
            channels: Items::new(alloc),
            equations: Items::new(alloc),
            bodies: Bodies::empty(alloc, decls)?,
            main: None,
        })
    }

    // Adds what an item adds.
    pub fn add(&mut self, part: Part) -> Result<(), AllocError>
        ensures { OnOk result (self.new ≡ added part self.old) }
    {
        match part {
            Part::Def { def, said } => {
                self.defs.push(def)?;
                self.def_said.push(said)
            }
            Part::Decl {
                decl,
                said,
                channels,
            } => {
                self.decls.push(decl)?;
                self.decl_said.push(said)?;
                self.channels.push(channels)
            }
            Part::Body { place, nodes } => {
                self.bodies.put(place, nodes);
                Ok(())
            }
            Part::Equation(equation) => self.equations.push(equation),
            Part::Main(decl) => {
                self.main = Some(decl);
                Ok(())
            }
        }
    }

    // The program of these tables.
    pub fn into_program(self, alloc: Global, known: Known) -> Result<Program, AllocError>
        ensures { IfOk result (λ program. program ≡ program_of known self) }
    {
        let Tables {
            defs,
            def_said,
            decls,
            decl_said,
            channels,
            equations,
            bodies,
            main,
        } = self;
        match bodies.into_nodes(alloc) {
            Ok(nodes) => Ok(Program {
                names: known.into_names(),
                types: TypeTable { defs },
                decls,
                equations,
                nodes,
                main,
                said: Said {
                    types: def_said,
                    decls: decl_said,
                    channels,
                },
            }),
            Err(e) => {
                drop(known);
                drop(defs);
                drop(def_said);
                drop(decls);
                drop(decl_said);
                drop(channels);
                drop(equations);
                Err(e)
            }
        }
    }
}
