// Equality of closed types, and what it says of them.
ghost use Rattle.std.specs.Prelude.{◌≡◌, List};
ghost use Rattle.rast_types.specs.Closed.{Agree, Closed, Equal, Table, exposed, unfolded};
ghost use Rattle.rast_equal.specs.Valid.{IsValidTable};

/// Equality of closed types under any table of definitions.
///
/// It is an equivalence. Two types are equal exactly where their ticks are equal and their heads agree: in kind, in the figure that they
/// carry, in which parts they have, and their parts are equal. Where the definitions are valid, a type is equal to what it unfolds to.
pub fn equality_law()
    ensures reflexive { (t : Table) (a : Closed) → Equal t a a }
    ensures symmetric { (t : Table) (a b : Closed) → Equal t a b → Equal t b a }
    ensures transitive { (t : Table) (a b c : Closed) → Equal t a b → Equal t b c → Equal t a c }
    ensures opens { (t : Table) (a b : Closed) → Equal t a b → ((exposed t a).ticks ≡ (exposed t b).ticks) × Agree (Equal t) (exposed t a).head (exposed t b).head }
    ensures closes { (t : Table) (a b : Closed) → (exposed t a).ticks ≡ (exposed t b).ticks → Agree (Equal t) (exposed t a).head (exposed t b).head → Equal t a b }
    ensures unfolds { (t : Table) (a : Closed) → IsValidTable t → Equal t a (unfolded t a) }
{}
