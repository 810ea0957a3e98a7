// What the head of a channel's type says: its kind and its parts. A part that isn't there counts as the end.
ghost use Rattle.std.specs.Prelude.{◌≡◌, false, IfOk, MatchOption, None, Some, is_some};
ghost use Rattle.rast_index.specs.Keys.{find_key};
ghost use Rattle.rast_types.specs.Closed.{kind_of};
ghost use Rattle.rast_types.specs.declared.ty.Ty.TheVariants as type;
ghost use Rattle.rast_rules.specs.Rules.{choices_of, first_of_pair, second_of_pair, inner_of, formula_of, amount_of, or_one, is_kind};

use rast_index::{Formula, Lin};
use rast_types::{Kind, Ty};
use std::alloc::{AllocError, Global};

/// The kind of a head; a name and a next have none.
pub(crate) fn kind_of(ty: &Ty) -> Option<Kind>
    ensures { result ≡ kind_of ty.now }
{
    match ty {
        Ty::One => Some(Kind::One),
        Ty::Plus(_) => Some(Kind::Plus),
        Ty::With(_) => Some(Kind::With),
        Ty::Tensor(_, _) => Some(Kind::Tensor),
        Ty::Lolli(_, _) => Some(Kind::Lolli),
        Ty::Named(_, _) | Ty::Next(_, _) => None,
        Ty::Ex(_) => Some(Kind::Ex),
        Ty::All(_) => Some(Kind::All),
        Ty::Assert(_, _) => Some(Kind::Assert),
        Ty::Assume(_, _) => Some(Kind::Assume),
        Ty::Pays(_, _) => Some(Kind::Pays),
        Ty::Gets(_, _) => Some(Kind::Gets),
    }
}

/// Whether both are the same kind.
pub(crate) fn is_kind(a: Kind, b: Kind) -> bool
    ensures { result ≡ is_kind (Some a) (Some b) }
{
    matches!(
        (a, b),
        (Kind::Plus, Kind::Plus)
            | (Kind::With, Kind::With)
            | (Kind::Tensor, Kind::Tensor)
            | (Kind::Lolli, Kind::Lolli)
            | (Kind::One, Kind::One)
            | (Kind::Ex, Kind::Ex)
            | (Kind::All, Kind::All)
            | (Kind::Assert, Kind::Assert)
            | (Kind::Assume, Kind::Assume)
            | (Kind::Pays, Kind::Pays)
            | (Kind::Gets, Kind::Gets)
    )
}

/// The labels of a choice with their types; none of another head.
pub(crate) fn choices_of(ty: &Ty) -> &[(u32, Ty)]
    ensures { result.now ≡ choices_of ty.now }
{
    match ty {
        Ty::Plus(ts) => ts.as_slice(),
        Ty::With(ts) => ts.as_slice(),
        _ => &[],
    }
}

/// The type of the channel that is sent; none of another head, which counts as the end.
pub(crate) fn first_of_pair(ty: &Ty) -> Option<&Ty>
    ensures { MatchOption result (first_of_pair ty.now ≡ type.One) (λ a. first_of_pair ty.now ≡ a.now) }
{
    match ty {
        Ty::Tensor(first, _) => Some(first.get()),
        Ty::Lolli(first, _) => Some(first.get()),
        _ => None,
    }
}

/// The type at which a session goes on after a channel was sent; none of another head, which counts as the end.
pub(crate) fn second_of_pair(ty: &Ty) -> Option<&Ty>
    ensures { MatchOption result (second_of_pair ty.now ≡ type.One) (λ a. second_of_pair ty.now ≡ a.now) }
{
    match ty {
        Ty::Tensor(_, second) => Some(second.get()),
        Ty::Lolli(_, second) => Some(second.get()),
        _ => None,
    }
}

/// The body of a quantifier, a constraint or a potential; none of another head, which counts as the end.
pub(crate) fn inner_of(ty: &Ty) -> Option<&Ty>
    ensures { MatchOption result (inner_of ty.now ≡ type.One) (λ a. inner_of ty.now ≡ a.now) }
{
    match ty {
        Ty::Ex(body) | Ty::All(body) => Some(body.get()),
        Ty::Assert(_, body) | Ty::Assume(_, body) => Some(body.get()),
        Ty::Pays(_, body) | Ty::Gets(_, body) => Some(body.get()),
        _ => None,
    }
}

/// The formula of a constraint; true at another head.
pub(crate) fn formula_of(alloc: Global, ty: &Ty) -> Result<Formula, AllocError>
    ensures { IfOk result (λ f. f ≡ formula_of ty.now) }
{
    match ty {
        Ty::Assert(formula, _) => formula.copy(alloc),
        Ty::Assume(formula, _) => formula.copy(alloc),
        _ => Ok(Formula::True),
    }
}

/// The potential that a head pays; 0 at another head.
pub(crate) fn amount_of(ty: &Ty) -> Lin
    ensures { result ≡ amount_of ty.now }
{
    match ty {
        Ty::Pays(amount, _) => amount.again(),
        Ty::Gets(amount, _) => amount.again(),
        _ => Lin::nought(),
    }
}

/// The type at a label.
pub(crate) fn at_label(choices: &[(u32, Ty)], label: u32) -> Option<&Ty>
    ensures { MatchOption result (find_key label choices.now ≡ None) (λ a. find_key label choices.now ≡ Some a.now) }
{
    for (key, ty) in choices {
        if *key == label {
            return Some(ty);
        }
    }
    None
}

/// Whether a branch has the label.
pub(crate) fn has_branch(branches: &[(u32, u32)], label: u32) -> bool
    ensures { result ≡ is_some (find_key label branches.now) }
{
    for (key, _) in branches {
        if *key == label {
            return true;
        }
    }
    false
}
