// The names of variables at a place.
use rast_ast::Name;

/// What may be named at a place: which variable each name stands for.
pub trait Scope {
    ghost use Rattle.std.specs.Prelude.{◌≡◌, ℕ, List, Option};

    ghost find: { Self → List ℕ → Option ℕ };

    /// The number of the variable of this name.
    fn find(&self, name: &Name) -> Option<usize>
        ensures { result ≡ find self.now name.now };
}
