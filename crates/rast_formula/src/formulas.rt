// Formulas.
ghost use Rattle.std.specs.Prelude.{◌≡◌, ◌∷◌, true, map, IfOk, ℕ};
ghost use Rattle.std.specs.List.{list_all};
ghost use Rattle.rast_index.specs.declared.formula.Formula.TheVariants as formula;
ghost use Rattle.rast_ast.specs.Formulas.{form_fits, disjunction_fits, conjunction_fits, literal_fits};
ghost use Rattle.rast_formula.specs.Answers.{Gives, each};
ghost use Rattle.rast_formula.specs.Scopes.{FindsBelow, is_good};
ghost use Rattle.rast_formula.specs.Formulas.{formula_of, disjunction_of, conjunction_of, literal_of, joined, relation};

use crate::lookup::Scope;
use crate::refusal::ScopeErr;
use crate::terms::linear_of;
use rast_ast::{Conjunction, Disjunction, Form, Literal, Rel as Written};
use rast_index::{Formula, Rel};
use sqlite_items::{Boxed, Items};
use std::alloc::{AllocError, Global};

// A formula and further ones in one list.
fn members(
    alloc: Global,
    first: Formula,
    rest: Items<Formula>,
) -> Result<Items<Formula>, AllocError>
    ensures { IfOk result (λ all. all ≡ first ∷ rest) }
{
    let mut all = Items::new(alloc);
    all.push(first)?;
    all.append(rest)?;
    Ok(all)
}

// Some of the formulas is true; one alone is itself.
fn any(alloc: Global, first: Formula, rest: Items<Formula>) -> Result<Formula, AllocError>
    ensures { IfOk result (λ f. f ≡ joined formula.Or first rest) }
{
    if rest.is_empty() {
        return Ok(first);
    }
    Ok(Formula::Or(members(alloc, first, rest)?))
}

// All formulas are true; one alone is itself.
fn every(alloc: Global, first: Formula, rest: Items<Formula>) -> Result<Formula, AllocError>
    ensures { IfOk result (λ f. f ≡ joined formula.And first rest) }
{
    if rest.is_empty() {
        return Ok(first);
    }
    Ok(Formula::And(members(alloc, first, rest)?))
}

/// The formula that a written one stands for, which the grammar has.
///
/// `scope` says which variables may be named there. Groups vanish, and `F /\ G /\ H` is one conjunction of three members.
#[cycle(formula)]
#[tactic(auto, using(crate::proofs::Within::layers))]
pub fn formula_of<S: Scope>(alloc: Global, scope: &S, form: &Form) -> Result<Formula, ScopeErr>
    ensures gives { Gives (formula_of (S.find scope.now) form.now) result }
    ensures within { (n : ℕ) → FindsBelow n (S.find scope.now) → form_fits form.now ≡ true → IfOk result (λ f. is_good n f ≡ true) }
{
    match form {
        Form::Plain(alone) => disjunction(alloc, scope, alone),
        Form::Implies(premise, conclusion) => {
            let premise = disjunction(alloc, scope, premise)?;
            let conclusion = formula_of(alloc, scope, conclusion.get())?;
            Ok(Formula::Imp(Boxed::new(alloc, premise)?, Boxed::new(alloc, conclusion)?))
        }
    }
}

#[cycle(formula)]
fn disjunction<S: Scope>(alloc: Global, scope: &S, d: &Disjunction) -> Result<Formula, ScopeErr>
    ensures gives { Gives (disjunction_of (S.find scope.now) d.now) result }
    ensures within { (n : ℕ) → FindsBelow n (S.find scope.now) → disjunction_fits d.now ≡ true → IfOk result (λ f. is_good n f ≡ true) }
{
    let first = conjunction(alloc, scope, &d.first)?;
    match conjunctions(alloc, scope, d.rest.as_slice()) {
        Ok(rest) => Ok(any(alloc, first, rest)?),
        Err(fault) => {
            drop(first);
            Err(fault)
        }
    }
}

// The formulas of further conjunctions.
#[cycle(formula)]
fn conjunctions<S: Scope>(
    alloc: Global,
    scope: &S,
    rest: &[Conjunction],
) -> Result<Items<Formula>, ScopeErr>
    ensures gives { Gives (each (map (conjunction_of (S.find scope.now)) rest.now)) result }
    ensures within { (n : ℕ) → FindsBelow n (S.find scope.now) → list_all conjunction_fits rest.now ≡ true → IfOk result (λ fs. list_all (is_good n) fs ≡ true) }
{
    let mut all = Items::new(alloc);
    for next in rest {
        match conjunction(alloc, scope, next) {
            Ok(formula) => all.push(formula)?,
            Err(fault) => return Err(fault),
        }
    }
    Ok(all)
}

#[cycle(formula)]
fn conjunction<S: Scope>(alloc: Global, scope: &S, c: &Conjunction) -> Result<Formula, ScopeErr>
    ensures gives { Gives (conjunction_of (S.find scope.now) c.now) result }
    ensures within { (n : ℕ) → FindsBelow n (S.find scope.now) → conjunction_fits c.now ≡ true → IfOk result (λ f. is_good n f ≡ true) }
{
    let first = literal(alloc, scope, c.first.get())?;
    match literals(alloc, scope, c.rest.as_slice()) {
        Ok(rest) => Ok(every(alloc, first, rest)?),
        Err(fault) => {
            drop(first);
            Err(fault)
        }
    }
}

// The formulas of further members.
#[cycle(formula)]
fn literals<S: Scope>(
    alloc: Global,
    scope: &S,
    rest: &[Literal],
) -> Result<Items<Formula>, ScopeErr>
    ensures gives { Gives (each (map (literal_of (S.find scope.now)) rest.now)) result }
    ensures within { (n : ℕ) → FindsBelow n (S.find scope.now) → list_all literal_fits rest.now ≡ true → IfOk result (λ fs. list_all (is_good n) fs ≡ true) }
{
    let mut all = Items::new(alloc);
    for next in rest {
        match literal(alloc, scope, next) {
            Ok(formula) => all.push(formula)?,
            Err(fault) => return Err(fault),
        }
    }
    Ok(all)
}

#[cycle(formula)]
#[tactic(auto, using(crate::proofs::Within::layers))]
fn literal<S: Scope>(alloc: Global, scope: &S, literal: &Literal) -> Result<Formula, ScopeErr>
    ensures gives { Gives (literal_of (S.find scope.now) literal.now) result }
    ensures within { (n : ℕ) → FindsBelow n (S.find scope.now) → literal_fits literal.now ≡ true → IfOk result (λ f. is_good n f ≡ true) }
{
    match literal {
        Literal::Not(member) => {
            let member = self::literal(alloc, scope, member.get())?;
            Ok(Formula::Not(Boxed::new(alloc, member)?))
        }
        Literal::Group(form) => formula_of(alloc, scope, form.get()),
        Literal::True => Ok(Formula::True),
        Literal::False => Ok(Formula::False),
        Literal::Divides(divisor, lin) => Ok(Formula::Div(*divisor, linear_of(alloc, scope, lin)?)),
        Literal::Related(left, rel, right) => {
            let left = linear_of(alloc, scope, left)?;
            let right = linear_of(alloc, scope, right)?;
            Ok(Formula::Rel(left, relation(*rel), right))
        }
    }
}

fn relation(rel: Written) -> Rel
    ensures { result ≡ relation rel }
{
    match rel {
        Written::Eq => Rel::Eq,
        Written::Ne => Rel::Ne,
        Written::Lt => Rel::Lt,
        Written::Le => Rel::Le,
        Written::Gt => Rel::Gt,
        Written::Ge => Rel::Ge,
    }
}
