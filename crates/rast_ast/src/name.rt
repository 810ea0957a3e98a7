// Names.
ghost use Rattle.std.specs.Prelude.{◌≡◌, IfOk, IsTrue};
ghost use Rattle.rast_ast.specs.Names.{is_name};

use std::alloc::{AllocError, Global};
use std::marker::Model;

/// A name, as its bytes: a letter, and then letters, digits and `_`. It may have any length.
#[derive(Debug, Drop)]
pub struct Name {
    bytes: Vec<u8>,
}

impl Model for Name {
    ghost use Rattle.std.specs.Prelude.{List, ℕ};
    ghost use Rattle.rast_ast.specs.Names.{is_name};
    ghost use Rattle.std.specs.Prelude.{IsTrue};

    ghost Value = { List ℕ };

    ghost view = { λ n. n.bytes.items };

    ghost invariant = { λ n. IsTrue (is_name n.bytes.items) };
}

impl Name {
    /// The name with these bytes, which the caller knows to be a name.
    pub fn new(alloc: Global, bytes: &[u8]) -> Result<Name, AllocError>
        requires { IsTrue (is_name bytes.now) }
        ensures { IfOk result (λ name. name ≡ bytes.now) }
    {
        Ok(Name {
            bytes: Vec::from_slice(alloc, bytes)?,
        })
    }

    /// Its bytes.
    pub fn as_bytes(&self) -> &[u8]
        ensures bytes { result.now ≡ self.now }
        ensures are_name { IsTrue (is_name self.now) }
    {
        self.bytes.as_slice()
    }
}
