// Maps from names to places.
ghost use Rattle.std.specs.Prelude.{◌≡◌, Some, IsSome, OnOk, OnErr};
ghost use Rattle.rast_resolve.specs.Maps.{Puts, HaveSame, found};

use rast_ast::Name;
use std::alloc::{AllocError, Global};
use std::collections::HashMap;

// Gives a name this place.
pub(crate) fn put(
    alloc: Global,
    places: &mut HashMap<Vec<u8>, usize>,
    name: &Name,
    place: usize,
) -> Result<(), AllocError>
    ensures ok { OnOk result (Puts places.old places.new name.now (Some place)) }
    ensures err { OnErr result (HaveSame places.old places.new) }
{
    let key = Vec::from_slice(alloc, name.as_bytes())?;
    places.insert(key, place)?;
    Ok(())
}

// Gives a name that has a place another one, or none.
pub(crate) fn replace(places: &mut HashMap<Vec<u8>, usize>, name: &Name, place: Option<usize>)
    requires { IsSome (found places.old name.now) }
    ensures { Puts places.old places.new name.now place }
{
    match place {
        Some(place) => {
            if let Some(found) = places.get_mut(name.as_bytes()) {
                *found = place;
            }
        }
        None => {
            let _ = places.remove(name.as_bytes());
        }
    }
}
