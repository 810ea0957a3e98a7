// Potential that is spent, gained and used up. No call takes memory.
ghost use Rattle.std.specs.Prelude.{◌≡◌, ◌≤◌, ◌+ℤ◌, ◌-ℤ◌, true, List, ℤ, length, IfOk};
ghost use Rattle.rast_index.specs.Linear.{value, is_small, plus, nought};
ghost use Rattle.rast_index.specs.Truth.{all_small, is_equal, is_at_least};
ghost use Rattle.rast_index.specs.Answer.{Fits};
ghost use Rattle.rast_ergo.specs.Spent.{spent, has_small_rest};

use rast_index::{Coefficient, Formula, Lin, Rel, add, sub};

/// The obligation that the potential is at least what is wanted: `have >= want`. It asks nothing of the rest, and its numbers are
/// below 2^32 in magnitude.
pub fn affords(have: &Lin, want: &Lin) -> Formula
    ensures same { result ≡ is_at_least have.now want.now }
    ensures small { all_small result ≡ true }
{
    Formula::Rel(have.again(), Rel::Ge, want.again())
}

/// The obligation `have >= want`, and the rest `have - want`. `Coefficient` comes exactly where a number of the rest would have
/// magnitude 2^32 or more.
pub fn spends(have: &Lin, want: &Lin) -> Result<(Formula, Lin), Coefficient>
    ensures spent { Fits has_small_rest (spent have.now want.now) result }
    ensures value { IfOk result (λ s. (vs : List ℤ) → length vs ≤ 16 → value s.1 vs ≡ (value have.now vs -ℤ value want.now vs)) }
{
    match sub(have, want) {
        Ok(rest) => Ok((affords(have, want), rest)),
        Err(e) => Err(e),
    }
}

/// The potential after a gain: `have + more`. `Coefficient` comes exactly where a number of it would have magnitude 2^32 or more.
pub fn gains(have: &Lin, more: &Lin) -> Result<Lin, Coefficient>
    ensures sum { Fits is_small (plus have.now more.now) result }
    ensures value { IfOk result (λ sum. (vs : List ℤ) → length vs ≤ 16 → value sum vs ≡ (value have.now vs +ℤ value more.now vs)) }
{
    add(have, more)
}

/// The obligation that no potential is left: `have = 0`.
pub fn empty(have: &Lin) -> Formula
    ensures { result ≡ is_equal have.now nought }
{
    Formula::Rel(have.again(), Rel::Eq, Lin::nought())
}
