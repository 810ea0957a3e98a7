// Whether what is asked is in scope.
ghost use Rattle.std.specs.Prelude.{◌≡◌, IsTrue};
ghost use Rattle.std.specs.List.{list_all};
ghost use Rattle.rast_cooper.specs.Verdicts as verdicts;
ghost use Rattle.rast_equal.specs.Fit as fit;
ghost use Rattle.rast_equal.specs.Walk.{top};
ghost use Rattle.rast_check.specs.Questions as questions;

use rast_equal::{is_formula_fit, is_type_fit};
use rast_index::Formula;
use rast_types::Ty;

/// Whether a goal may be asked: at most 16 variables, of which no others occur in the premises and in the goal.
pub(crate) fn is_asked(vars: u8, premises: &[Formula], goal: &Formula) -> bool
    ensures { result ≡ questions.is_asked vars premises.now goal.now }
{
    if !is_scope(vars, premises) {
        return false;
    }
    is_formula_fit(goal, vars)
}

/// Whether two types may be compared: at most 16 variables, of which no others occur in the premises and in the types.
pub(crate) fn are_compared(vars: u8, premises: &[Formula], a: &Ty, b: &Ty) -> bool
    ensures is { result ≡ questions.are_compared vars premises.now a.now b.now }
    ensures more { IsTrue result → fit.AreFit (top vars premises.now) a.now b.now }
{
    if !is_scope(vars, premises) {
        return false;
    }
    if !is_type_fit(a, vars) {
        return false;
    }
    is_type_fit(b, vars)
}

fn is_scope(vars: u8, premises: &[Formula]) -> bool
    ensures is { result ≡ questions.is_scope vars premises.now }
    ensures more { IsTrue result → fit.IsScope (top vars premises.now) }
{
    if vars > 16 {
        return false;
    }
    are_within(vars, premises)
}

fn are_within(vars: u8, formulas: &[Formula]) -> bool
    ensures is { result ≡ list_all (verdicts.is_within vars) formulas.now }
    ensures more { IsTrue result → fit.AreWithin vars formulas.now }
{
    for formula in formulas {
        if !is_formula_fit(formula, vars) {
            return false;
        }
    }
    true
}
