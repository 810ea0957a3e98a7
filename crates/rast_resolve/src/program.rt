// The program of a file.
ghost use Rattle.std.specs.Prelude.{length};
ghost use Rattle.rast_resolve.specs.Answers.{Gives, Makes, ◌>>=◌ as ◌then◌};
ghost use Rattle.rast_resolve.specs.Programs.{none_seen, no_entries, tables_of, paired, runnable, none_fails, program_with, resolved};

use crate::facts::known_of;
use crate::fault::{NameErr, bad_main, unknown};
use crate::known::Known;
use crate::parts::part_of;
use crate::seen::Seen;
use crate::tables::Tables;
use rast_ast::{File, Item};
use rast_terms::Program;
use std::alloc::Global;

/// A program, and whether its file is explicit.
#[derive(Drop)]
pub struct Resolved {
    /// The program.
    pub program: Program,
    /// Whether the file begins with `explicit`.
    pub explicit: bool,
}

// Adds what the items add, after those that are seen.
fn add_items(
    alloc: Global,
    known: &Known,
    seen: &mut Seen,
    tables: &mut Tables,
    items: &[Item],
) -> Result<(), NameErr>
    ensures { Makes (tables_of known.now seen.old tables.old items.now) result tables.new }
{
    for item in items {
        let part = part_of(alloc, known, seen, item)?;
        tables.add(part)?;
        seen.add(alloc, item)?;
    }
    Ok(())
}

// The tables of the items.
fn tables_of(alloc: Global, known: &Known, items: &[Item]) -> Result<Tables, NameErr>
    ensures { Gives (tables_of known.now none_seen (no_entries (length known.now.decls)) items.now) result }
{
    let mut tables = Tables::new(alloc, known.decls.len())?;
    let mut seen = Seen::none(alloc);
    match add_items(alloc, known, &mut seen, &mut tables, items) {
        Ok(()) => {
            drop(seen);
            Ok(tables)
        }
        Err(e) => {
            drop(seen);
            drop(tables);
            Err(e)
        }
    }
}

// A declaration has a body, and a body a declaration.
fn paired(alloc: Global, known: &Known, item: &Item) -> Result<(), NameErr>
    ensures { Gives (paired known.now item.now) result }
{
    match item {
        Item::Decl { name, .. } => {
            if known.procs.has(name) {
                Ok(())
            } else {
                Err(unknown(alloc, name))
            }
        }
        Item::Proc { name, .. } => {
            if known.decls.has(name) {
                Ok(())
            } else {
                Err(unknown(alloc, name))
            }
        }
        _ => Ok(()),
    }
}

fn all_paired(alloc: Global, known: &Known, items: &[Item]) -> Result<(), NameErr>
    ensures { Gives (none_fails (paired known.now) items.now) result }
{
    for item in items {
        paired(alloc, known, item)?;
    }
    Ok(())
}

// What is executed has no parameter and uses no channel.
fn runnable(alloc: Global, known: &Known, item: &Item) -> Result<(), NameErr>
    ensures { Gives (runnable known.now item.now) result }
{
    let Item::Exec { name } = item else {
        return Ok(());
    };
    match known.declared(name) {
        Some(counts) => {
            if counts.params == 0 && counts.channels == 0 {
                Ok(())
            } else {
                Err(bad_main(alloc, name))
            }
        }
        None => Err(bad_main(alloc, name)),
    }
}

fn all_runnable(alloc: Global, known: &Known, items: &[Item]) -> Result<(), NameErr>
    ensures { Gives (none_fails (runnable known.now) items.now) result }
{
    for item in items {
        runnable(alloc, known, item)?;
    }
    Ok(())
}

// The items are paired, and what is executed may be.
fn all_sound(alloc: Global, known: &Known, items: &[Item]) -> Result<(), NameErr>
    ensures { Gives (none_fails (paired known.now) items.now then λ u. none_fails (runnable known.now) items.now) result }
{
    all_paired(alloc, known, items)?;
    all_runnable(alloc, known, items)
}

// The program of these items, of which this is known.
fn program_of(alloc: Global, known: Known, items: &[Item]) -> Result<Program, NameErr>
    ensures { Gives (program_with known items.now) result }
{
    match tables_of(alloc, &known, items) {
        Ok(tables) => match all_sound(alloc, &known, items) {
            Ok(()) => Ok(tables.into_program(alloc, known)?),
            Err(e) => {
                drop(tables);
                drop(known);
                Err(e)
            }
        },
        Err(e) => {
            drop(known);
            Err(e)
        }
    }
}

/// The program that a file says, in which names are numbers: names of its tables in the order of their first occurrence,
/// definitions, declarations and equations in file order, nodes in preorder declaration by declaration, channels and
/// variables in the order of their bindings. No ticks are put into a file that isn't explicit: the costs are all free.
///
/// # Errors
///
/// The first fault in names, by items in file order and in an item by text: `Unknown` of a name that isn't bound there, `Twice`
/// of a second item of a name, of a second execution and of a name or label that a list has twice, `Arity` of a wrong number of
/// arguments, parameters or channels, `Limit` of the item where it has more than 16 parameters or 15 used channels, a variable
/// of number 16 or more, or a number of magnitude 2^32 or more. After the last item `Unknown` of a declaration without process
/// item or a process item without declaration, and then `BadMain` of an executed process that has parameters or uses channels.
/// `Memory` may come at any place.
pub fn resolve(alloc: Global, file: &File) -> Result<Resolved, NameErr>
    ensures { Gives (resolved file.now) result }
{
    let known = known_of(alloc, file.items.as_slice())?;
    let program = program_of(alloc, known, file.items.as_slice())?;
    Ok(Resolved {
        program,
        explicit: file.explicit,
    })
}
