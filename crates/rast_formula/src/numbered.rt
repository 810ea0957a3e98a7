// A formula that stands alone, with its variables.
ghost use Rattle.std.specs.Prelude.{◌≡◌, ◌≤◌, true, length, IfOk};
ghost use Rattle.rast_ast.specs.Formulas.{form_fits};
ghost use Rattle.rast_cooper.specs.Verdicts.{is_within};
ghost use Rattle.rast_formula.specs.Answers.{Gives};
ghost use Rattle.rast_formula.specs.Variables.{numbered};

use crate::formulas::formula_of;
use crate::refusal::ScopeErr;
use crate::scope::Bound;
use crate::variables::variables_of;
use rast_ast::Form;
use rast_index::Formula;
use sqlite_items::Items;
use std::alloc::Global;

/// A formula, and its variables by number.
#[derive(Debug, Drop)]
pub struct Numbered {
    /// The variables, in the order in which they first occur in the text.
    pub variables: Items<Bound>,
    /// The formula.
    pub formula: Formula,
}

/// The formula that a written one stands for, which the grammar has, where its variables are numbered in the order in which
/// they first occur. `Limit` comes too where there are more than 16 of them.
pub fn number(alloc: Global, form: &Form) -> Result<Numbered, ScopeErr>
    requires { form_fits form.now ≡ true }
    ensures gives { Gives (numbered form.now) result }
    ensures within { IfOk result (λ n. is_within (length n.variables) n.formula ≡ true) }
    ensures few { IfOk result (λ n. length n.variables ≤ 16) }
{
    let variables = variables_of(alloc, form)?;
    if variables.len() > 16 {
        return Err(ScopeErr::Limit);
    }
    let formula = formula_of(alloc, &variables, form)?;
    Ok(Numbered { variables, formula })
}
