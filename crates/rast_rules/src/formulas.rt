// Formulas that premises ask for, and premises of single kinds.
ghost use Rattle.std.specs.Prelude.{◌≡◌};
ghost use Rattle.rast_index.specs.Answer.{Fits};
ghost use Rattle.rast_index.specs.Linear.{Linear};
ghost use Rattle.rast_index.specs.Truth.{all_small, is_at_least};
ghost use Rattle.rast_index.specs.declared.formula.Formula.{Formula};
ghost use Rattle.rast_index.specs.declared.formula.Formula.TheVariants as form;
ghost use Rattle.rast_equal.specs.Valid.{nonneg};
ghost use Rattle.rast_rules.specs.Making.{made_term};
ghost use Rattle.rast_rules.specs.Trail.{truth_premise};

use crate::premise::{Evidence, Premise};
use rast_ergo::affords;
use rast_index::{Coefficient, Formula, Lin, Rel};
use rast_types::Stop;

/// That a term is at least 0.
pub(crate) fn nonneg(term: &Lin) -> Formula
    ensures { result ≡ nonneg term.now }
{
    Formula::Rel(term.again(), Rel::Ge, Lin::nought())
}

/// The term itself, which is small.
pub(crate) fn same_term(term: &Lin) -> Result<Lin, Stop>
    ensures { result ≡ made_term term.now }
{
    Ok(term.again())
}

/// The comparison of two terms, or the limit that one of them passes.
pub(crate) fn compared(a: Result<Lin, Stop>, rel: Rel, b: Result<Lin, Stop>) -> Premise
    ensures { (l m : Linear) → a ≡ made_term l → b ≡ made_term m → result ≡ truth_premise (form.Rel l rel m) }
{
    match (a, b) {
        (Ok(left), Ok(right)) => Premise::Truth {
            goal: Formula::Rel(left, rel, right),
        },
        _ => Premise::Passed {
            stop: Stop::Coefficient,
        },
    }
}

/// The potential is at least what is wanted, or the limit that this passes.
pub(crate) fn afforded(have: &Lin, want: Result<Lin, Stop>) -> Premise
    ensures { (l : Linear) → want ≡ made_term l → result ≡ truth_premise (is_at_least have.now l) }
{
    match want {
        Ok(want) => Premise::Truth {
            goal: affords(have, &want),
        },
        Err(_) => Premise::Passed {
            stop: Stop::Coefficient,
        },
    }
}

/// A formula, or the limit that it passes.
pub(crate) fn truth(made: Result<Formula, Coefficient>) -> Premise
    ensures { (f : Formula) → Fits all_small f made → result ≡ truth_premise f }
{
    match made {
        Ok(goal) => Premise::Truth { goal },
        Err(_) => Premise::Passed {
            stop: Stop::Coefficient,
        },
    }
}

/// A test of a channel: it stands where it may.
pub(crate) fn linear(channel: u32, ok: bool) -> Premise
    ensures { result ≡ Premise.Shape ok (Evidence.Linear channel) }
{
    Premise::Shape {
        ok,
        why: Evidence::Linear { channel },
    }
}

/// A test of a label: it is there.
pub(crate) fn labelled(label: u32, ok: bool) -> Premise
    ensures { result ≡ Premise.Shape ok (Evidence.Label label) }
{
    Premise::Shape {
        ok,
        why: Evidence::Label { label },
    }
}
