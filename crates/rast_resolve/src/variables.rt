// The index variables in scope.
ghost use Rattle.std.specs.Prelude.{◌≡◌, ◌<◌, ◌-◌};
ghost use Rattle.std.specs.Str.{bytes_eq};
ghost use Rattle.rast_resolve.specs.Lists.{walked_name, walked_from};

use crate::bindings::Bindings;
use rast_ast::Name;
use rast_formula::Scope;

/// The index variables in scope at a place.
#[derive(Clone, Copy)]
pub(crate) struct Variables<'a> {
    /// Whether the variables that a walk adds have names too.
    pub walked: bool,
    /// The variables that are bound, by number.
    pub vars: &'a Bindings,
}

impl<'a> Scope for Variables<'a> {
    ghost use Rattle.rast_resolve.specs.Lists.{variable_of};

    ghost find = { λ s. variable_of s.walked s.vars.now };

    fn find(&self, name: &Name) -> Option<usize> {
        match self.vars.newest(name) {
            Some(number) => Some(number),
            None => {
                if self.walked {
                    walked_variable(name.as_bytes(), self.vars.len())
                } else {
                    None
                }
            }
        }
    }
}

// Whether a name is that of the variable with this number that a walk adds.
fn is_walked_name(name: &[u8], number: usize) -> bool
    requires { number < 16 }
    ensures { result ≡ bytes_eq name.now (walked_name number) }
{
    if number < 10 {
        name == [b'q', b'0' + number as u8].as_slice()
    } else {
        name == [b'q', b'1', b'0' + (number - 10) as u8].as_slice()
    }
}

// The number of the variable of this name that a walk adds where so many variables are in scope.
fn walked_variable(name: &[u8], vars: usize) -> Option<usize>
    ensures { result ≡ walked_from (16 - vars) vars name.now }
{
    for number in vars..16 {
        if is_walked_name(name, number) {
            return Some(number);
        }
    }
    None
}
