// The variables of a formula that stands alone.
ghost use Rattle.std.specs.Prelude.{◌≡◌, OnOk, IfOk};
ghost use Rattle.std.specs.List.{flat_map, list_any};
ghost use Rattle.std.specs.Str.{bytes_eq};
ghost use Rattle.rast_formula.specs.Variables.{bound, all_bound, term_names, lin_names, form_names, disjunction_names, conjunction_names, literal_names, signed_names, variables_of};

use crate::scope::Bound;
use rast_ast::{Conjunction, Disjunction, Form, Lin, Literal, Name, Sign, Term};
use sqlite_items::Items;
use std::alloc::{AllocError, Global};

/// The variables of a formula, numbered in the order in which they first occur.
pub(crate) fn variables_of(alloc: Global, form: &Form) -> Result<Items<Bound>, AllocError>
    ensures { IfOk result (λ s. s ≡ variables_of form.now) }
{
    let mut scope = Items::new(alloc);
    add_form(alloc, &mut scope, form)?;
    Ok(scope)
}

// Whether a name is bound.
fn is_bound(scope: &[Bound], name: &Name) -> bool
    ensures { result ≡ list_any (λ b. bytes_eq b.name name.now) scope.now }
{
    scope.iter().any(|b| b.name.as_bytes() == name.as_bytes())
}

// Binds a name, unless it is bound.
fn add(alloc: Global, scope: &mut Items<Bound>, name: &Name) -> Result<(), AllocError>
    ensures { OnOk result (scope.new ≡ bound scope.old name.now) }
{
    if is_bound(scope.as_slice(), name) {
        return Ok(());
    }
    let number = scope.len();
    let name = Name::new(alloc, name.as_bytes())?;
    scope.push(Bound { name, number })
}

#[cycle(names_of_lin)]
#[tactic(auto, using(crate::proofs::Numbering::steps))]
fn add_lin(alloc: Global, scope: &mut Items<Bound>, lin: &Lin) -> Result<(), AllocError>
    ensures { OnOk result (scope.new ≡ all_bound scope.old (lin_names lin.now)) }
{
    add_term(alloc, scope, lin.first.get())?;
    add_terms(alloc, scope, lin.rest.as_slice())?;
    Ok(())
}

#[cycle(names_of_lin)]
#[tactic(auto, using(crate::proofs::Numbering::steps))]
fn add_terms(
    alloc: Global,
    scope: &mut Items<Bound>,
    terms: &[(Sign, Term)],
) -> Result<(), AllocError>
    ensures { OnOk result (scope.new ≡ all_bound scope.old (flat_map signed_names terms.now)) }
{
    for (sign, term) in terms {
        add_signed(alloc, scope, *sign, term)?;
    }
    Ok(())
}

#[cycle(names_of_lin)]
fn add_signed(
    alloc: Global,
    scope: &mut Items<Bound>,
    sign: Sign,
    term: &Term,
) -> Result<(), AllocError>
    ensures { OnOk result (scope.new ≡ all_bound scope.old (signed_names (sign, term.now))) }
{
    add_term(alloc, scope, term)
}

#[cycle(names_of_lin)]
fn add_term(alloc: Global, scope: &mut Items<Bound>, term: &Term) -> Result<(), AllocError>
    ensures { OnOk result (scope.new ≡ all_bound scope.old (term_names term.now)) }
{
    match term {
        Term::Times(_, t) => add_term(alloc, scope, t.get()),
        Term::Number(_) => Ok(()),
        Term::Variable(name) => add(alloc, scope, name),
        Term::Group(lin) => add_lin(alloc, scope, lin.get()),
    }
}

#[cycle(names_of_form)]
#[tactic(auto, using(crate::proofs::Numbering::steps))]
fn add_form(alloc: Global, scope: &mut Items<Bound>, form: &Form) -> Result<(), AllocError>
    ensures { OnOk result (scope.new ≡ all_bound scope.old (form_names form.now)) }
{
    match form {
        Form::Plain(d) => add_disjunction(alloc, scope, d),
        Form::Implies(d, f) => {
            add_disjunction(alloc, scope, d)?;
            add_form(alloc, scope, f.get())?;
            Ok(())
        }
    }
}

#[cycle(names_of_form)]
#[tactic(auto, using(crate::proofs::Numbering::steps))]
fn add_disjunction(
    alloc: Global,
    scope: &mut Items<Bound>,
    d: &Disjunction,
) -> Result<(), AllocError>
    ensures { OnOk result (scope.new ≡ all_bound scope.old (disjunction_names d.now)) }
{
    add_conjunction(alloc, scope, &d.first)?;
    add_conjunctions(alloc, scope, d.rest.as_slice())?;
    Ok(())
}

#[cycle(names_of_form)]
#[tactic(auto, using(crate::proofs::Numbering::steps))]
fn add_conjunctions(
    alloc: Global,
    scope: &mut Items<Bound>,
    conjunctions: &[Conjunction],
) -> Result<(), AllocError>
    ensures { OnOk result (scope.new ≡ all_bound scope.old (flat_map conjunction_names conjunctions.now)) }
{
    for c in conjunctions {
        add_conjunction(alloc, scope, c)?;
    }
    Ok(())
}

#[cycle(names_of_form)]
#[tactic(auto, using(crate::proofs::Numbering::steps))]
fn add_conjunction(
    alloc: Global,
    scope: &mut Items<Bound>,
    c: &Conjunction,
) -> Result<(), AllocError>
    ensures { OnOk result (scope.new ≡ all_bound scope.old (conjunction_names c.now)) }
{
    add_literal(alloc, scope, c.first.get())?;
    add_literals(alloc, scope, c.rest.as_slice())?;
    Ok(())
}

#[cycle(names_of_form)]
#[tactic(auto, using(crate::proofs::Numbering::steps))]
fn add_literals(
    alloc: Global,
    scope: &mut Items<Bound>,
    literals: &[Literal],
) -> Result<(), AllocError>
    ensures { OnOk result (scope.new ≡ all_bound scope.old (flat_map literal_names literals.now)) }
{
    for l in literals {
        add_literal(alloc, scope, l)?;
    }
    Ok(())
}

#[cycle(names_of_form)]
#[tactic(auto, using(crate::proofs::Numbering::steps))]
fn add_literal(alloc: Global, scope: &mut Items<Bound>, literal: &Literal) -> Result<(), AllocError>
    ensures { OnOk result (scope.new ≡ all_bound scope.old (literal_names literal.now)) }
{
    match literal {
        Literal::Not(l) => add_literal(alloc, scope, l.get()),
        Literal::Group(f) => add_form(alloc, scope, f.get()),
        Literal::True | Literal::False => Ok(()),
        Literal::Divides(_, l) => add_lin(alloc, scope, l),
        Literal::Related(l, _, m) => {
            add_lin(alloc, scope, l)?;
            add_lin(alloc, scope, m)?;
            Ok(())
        }
    }
}
