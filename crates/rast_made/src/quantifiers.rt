// How many names are left where each quantifier of a type takes one.
ghost use Rattle.std.specs.Prelude.{◌≡◌, ◌+◌, ◌<◌, MatchOption, sum_by};
ghost use Rattle.rast_equal.specs.WellMadeTypes.{quantifiers};

use rast_types::Ty;

/// How many of so many are left, or `None` where the type has more quantifiers.
#[cycle(left)]
pub(crate) fn left(have: usize, a: &Ty) -> Option<usize>
    ensures { MatchOption result (have < quantifiers a.now) (λ rest. rest + quantifiers a.now ≡ have) }
{
    match a {
        Ty::One => Some(have),
        Ty::Plus(ts) => left_each(have, ts.as_slice()),
        Ty::With(ts) => left_each(have, ts.as_slice()),
        Ty::Tensor(b, c) => match left(have, b.get()) {
            Some(rest) => left(rest, c.get()),
            None => None,
        },
        Ty::Lolli(b, c) => match left(have, b.get()) {
            Some(rest) => left(rest, c.get()),
            None => None,
        },
        Ty::Named(_, _) => Some(have),
        Ty::Ex(b) => left_below(have, b.get()),
        Ty::All(b) => left_below(have, b.get()),
        Ty::Assert(_, b) => left(have, b.get()),
        Ty::Assume(_, b) => left(have, b.get()),
        Ty::Pays(_, b) => left(have, b.get()),
        Ty::Gets(_, b) => left(have, b.get()),
        Ty::Next(_, b) => left(have, b.get()),
    }
}

// A quantifier takes one.
#[cycle(left)]
fn left_below(have: usize, a: &Ty) -> Option<usize>
    ensures { MatchOption result (have < quantifiers a.now + 1) (λ rest. rest + (quantifiers a.now + 1) ≡ have) }
{
    if have == 0 {
        return None;
    }
    left(have - 1, a)
}

#[cycle(left)]
fn left_each(have: usize, ts: &[(u32, Ty)]) -> Option<usize>
    ensures { MatchOption result (have < sum_by (λ e. quantifiers e.1) ts.now) (λ rest. rest + sum_by (λ e. quantifiers e.1) ts.now ≡ have) }
{
    let mut rest = have;
    for (_, a) in ts {
        match left(rest, a) {
            Some(less) => rest = less,
            None => return None,
        }
    }
    Some(rest)
}
