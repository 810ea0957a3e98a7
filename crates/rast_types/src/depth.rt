// How many quantifiers stand below one another.
ghost use Rattle.std.specs.Prelude.{◌≡◌, nat_le};
ghost use Rattle.std.specs.List.{list_all};
ghost use Rattle.rast_types.specs.Symbolic.{binders};

use crate::ty::Ty;

impl Ty {
    /// Whether at most `room` quantifiers stand below one another.
    #[cycle(is_shallow)]
    #[tactic(auto, using(crate::proofs::Shallow::shallow_choices))]
    pub(crate) fn is_shallow(&self, room: u8) -> bool
        ensures { result ≡ nat_le (binders self.now) room }
    {
        match self {
            Ty::One | Ty::Named(_, _) => true,
            Ty::Plus(ts) => are_shallow(ts.as_slice(), room),
            Ty::With(ts) => are_shallow(ts.as_slice(), room),
            Ty::Tensor(a, b) | Ty::Lolli(a, b) => a.get().is_shallow(room)
                && b.get().is_shallow(room),
            Ty::Ex(a) | Ty::All(a) => room > 0 && a.get().is_shallow(room - 1),
            Ty::Assert(_, a) | Ty::Assume(_, a) => a.get().is_shallow(room),
            Ty::Pays(_, a) | Ty::Gets(_, a) | Ty::Next(_, a) => a.get().is_shallow(room),
        }
    }
}

#[cycle(is_shallow)]
fn are_shallow(ts: &[(u32, Ty)], room: u8) -> bool
    ensures { result ≡ list_all (λ e. nat_le (binders e.1) room) ts.now }
{
    for (_, a) in ts {
        if !a.is_shallow(room) {
            return false;
        }
    }
    true
}
