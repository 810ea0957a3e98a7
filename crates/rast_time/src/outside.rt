// The outside of a type: the definition of a name, and the ticks of a next.
ghost use Rattle.std.specs.Prelude.{◌≡◌, false, MatchOption};
ghost use Rattle.rast_types.specs.Found.{Names, is_defined};
ghost use Rattle.rast_types.specs.Symbolic.{is_next};
ghost use Rattle.rast_types.specs.declared.ty.Ty.{out-Ty};
ghost use Rattle.rast_types.specs.declared.ty.Ty.TheOpen.{Next};

use rast_index::Lin;
use rast_types::{Ty, TypeTable};

/// The definition that the type names: its body, and the arguments. None where the type is no name of the table.
pub fn definition<'a>(table: &'a TypeTable, a: &'a Ty) -> Option<(&'a Ty, &'a [Lin])>
    ensures { MatchOption result (is_defined table.now.defs a.now ≡ false) (λ d. Names table.now.defs a.now d.0.now d.1.now) }
{
    match a {
        Ty::Named(def, args) => match table.defs.get(*def as usize) {
            Some(d) => Some((&d.body, args.as_slice())),
            None => None,
        },
        _ => None,
    }
}

/// The ticks of a next, and its body. None where the type is no next; a name isn't unfolded.
pub fn next_of(a: &Ty) -> Option<(&Lin, &Ty)>
    ensures { MatchOption result (is_next a.now ≡ false) (λ e. out-Ty a.now ≡ Next e.0.now e.1.now) }
{
    match a {
        Ty::Next(ticks, body) => Some((ticks, body.get())),
        _ => None,
    }
}
