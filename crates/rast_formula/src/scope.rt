// The variables in scope at a place.
ghost use Rattle.std.specs.Prelude.{◌≡◌, Some, if◌then◌else◌};
ghost use Rattle.std.specs.Str.{bytes_eq};
ghost use Rattle.rast_formula.specs.Scopes.{variable_of};

use crate::lookup::Scope;
use rast_ast::Name;
use sqlite_items::Items;

/// A variable in scope: its name in the text, and its number.
#[derive(Debug, Drop)]
pub struct Bound {
    /// The name.
    pub name: Name,
    /// The variable's number, counted from 0.
    pub number: usize,
}

// What was found before, or a later variable of this name.
fn later(found: Option<usize>, bound: &Bound, name: &Name) -> Option<usize>
    ensures { result ≡ (if bytes_eq bound.now.name name.now then Some bound.now.number else found) }
{
    if bound.name.as_bytes() == name.as_bytes() {
        Some(bound.number)
    } else {
        found
    }
}

/// A later variable hides an earlier one of the same name.
impl Scope for Items<Bound> {
    ghost use Rattle.rast_formula.specs.Scopes.{variable_of};

    ghost find = { variable_of };

    fn find(&self, name: &Name) -> Option<usize> {
        newest(self.as_slice(), name)
    }
}

// The variable that a name stands for: the last one of this name.
fn newest(scope: &[Bound], name: &Name) -> Option<usize>
    ensures { result ≡ variable_of scope.now name.now }
{
    let mut found = None;
    for bound in scope {
        found = later(found, bound, name);
    }
    found
}
