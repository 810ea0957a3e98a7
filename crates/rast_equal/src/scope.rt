// Whether terms, formulas, types and equations are in scope.
ghost use Rattle.std.specs.Prelude.{◌≡◌, ◌<◌, ◌≤◌, ◌+◌, ◌↔◌, IsTrue, get_or, pos};
ghost use Rattle.std.specs.List.{list_all};
ghost use Rattle.rast_cooper.specs.Verdicts.{is_within};
ghost use Rattle.rast_index.specs.Linear.{is_closed};
ghost use Rattle.rast_equal.specs.Fit.{AreClosed, IsClosedFrom, IsFitEquation, IsWithin, IsWithinType, is_within_type};
ghost use Rattle.rast_equal.specs.Scoped.{Tests};

use rast_index::{Formula, Lin};
use rast_types::{Equation, Ty};

/// Whether no variable of the terms has the number `vars` or a greater one.
pub fn are_closed(args: &[Lin], vars: u8) -> bool
    ensures is { result ≡ list_all (is_closed vars) args.now }
    ensures more { IsTrue result → AreClosed vars args.now }
{
    for l in args {
        if !is_closed(l, vars) {
            return false;
        }
    }
    true
}

/// Whether no variable of the term has the number `vars` or a greater one.
pub fn is_closed(l: &Lin, vars: u8) -> bool
    ensures is { result ≡ is_closed vars l.now }
    ensures more { IsTrue result → IsClosedFrom vars l.now }
    ensures all { 16 ≤ vars → IsTrue result }
{
    let term = l.again();
    for j in vars as usize..16 {
        if !is_absent(&term, j) {
            return false;
        }
    }
    true
}

// Whether the variable with this number doesn't occur.
fn is_absent(l: &Lin, j: usize) -> bool
    requires { j < 16 }
    ensures { IsTrue result ↔ (get_or l.now.coefficients j (pos 0) ≡ pos 0) }
{
    l.coefficient[j] == 0
}

/// Whether only the first `vars` variables occur in the formula, and each divisor is at least 1.
pub fn is_formula_fit(f: &Formula, vars: u8) -> bool
    ensures is { result ≡ is_within vars f.now }
    ensures more { IsTrue result → IsWithin vars f.now }
{
    is_formula_within(f, least(vars))
}

/// Whether only the first `vars` variables occur in the type besides those that it binds, and each divisor is at
/// least 1.
pub fn is_type_fit(a: &Ty, vars: u8) -> bool
    ensures is { result ≡ is_within_type vars a.now }
    ensures more { IsTrue result → IsWithinType vars a.now }
{
    is_type_within(a, least(vars))
}

/// Whether the equation has at most 16 variables, and its premise and its sides have no others.
pub fn is_equation_fit(equation: &Equation) -> bool
    ensures { IsTrue result ↔ IsFitEquation equation.now }
{
    if equation.vars > 16 {
        return false;
    }
    if !is_formula_fit(&equation.premise, equation.vars) {
        return false;
    }
    if !is_type_fit(&equation.left, equation.vars) {
        return false;
    }
    is_type_fit(&equation.right, equation.vars)
}

// The number of variables in scope, where all from 16 on are alike.
fn least(vars: u8) -> u8
    ensures few { result ≤ 16 }
    ensures same { vars ≤ 16 → result ≡ vars }
    ensures most { 16 ≤ vars → result ≡ 16 }
{
    if vars < 16 { vars } else { 16 }
}

// A term in a scope of at most 16 variables.
fn is_term_within(l: &Lin, vars: u8) -> bool
    requires { vars ≤ 16 }
    ensures { Tests vars (λ m. is_closed m l.now) result }
{
    is_closed(l, vars)
}

fn are_terms_within(args: &[Lin], vars: u8) -> bool
    requires { vars ≤ 16 }
    ensures { Tests vars (λ m. list_all (is_closed m) args.now) result }
{
    for l in args {
        if !is_term_within(l, vars) {
            return false;
        }
    }
    true
}

#[cycle(is_formula_within)]
fn is_formula_within(f: &Formula, vars: u8) -> bool
    requires { vars ≤ 16 }
    ensures { Tests vars (λ m. is_within m f.now) result }
{
    match f {
        Formula::True | Formula::False => true,
        Formula::Rel(a, _, b) => {
            let left = is_term_within(a, vars);
            let right = is_term_within(b, vars);
            left && right
        }
        Formula::Div(d, l) => {
            let term = is_term_within(l, vars);
            term && *d > 0
        }
        Formula::Not(g) => is_formula_within(g.get(), vars),
        Formula::And(fs) => are_formulas_within(fs.as_slice(), vars),
        Formula::Or(fs) => are_formulas_within(fs.as_slice(), vars),
        Formula::Imp(g, h) => {
            let left = is_formula_within(g.get(), vars);
            let right = is_formula_within(h.get(), vars);
            left && right
        }
    }
}

#[cycle(is_formula_within)]
fn are_formulas_within(fs: &[Formula], vars: u8) -> bool
    requires { vars ≤ 16 }
    ensures { Tests vars (λ m. list_all (is_within m) fs.now) result }
{
    for f in fs {
        if !is_formula_within(f, vars) {
            return false;
        }
    }
    true
}

#[cycle(is_type_within)]
fn is_type_within(a: &Ty, vars: u8) -> bool
    requires { vars ≤ 16 }
    ensures { Tests vars (λ m. is_within_type m a.now) result }
{
    match a {
        Ty::One => true,
        Ty::Plus(ts) => are_types_within(ts.as_slice(), vars),
        Ty::With(ts) => are_types_within(ts.as_slice(), vars),
        Ty::Tensor(b, c) => {
            let left = is_type_within(b.get(), vars);
            let right = is_type_within(c.get(), vars);
            left && right
        }
        Ty::Lolli(b, c) => {
            let left = is_type_within(b.get(), vars);
            let right = is_type_within(c.get(), vars);
            left && right
        }
        Ty::Named(_, args) => are_terms_within(args.as_slice(), vars),
        Ty::Ex(b) => is_type_within(b.get(), inside(vars)),
        Ty::All(b) => is_type_within(b.get(), inside(vars)),
        Ty::Assert(f, b) => {
            let formula = is_formula_within(f, vars);
            let body = is_type_within(b.get(), vars);
            formula && body
        }
        Ty::Assume(f, b) => {
            let formula = is_formula_within(f, vars);
            let body = is_type_within(b.get(), vars);
            formula && body
        }
        Ty::Pays(l, b) => {
            let term = is_term_within(l, vars);
            let body = is_type_within(b.get(), vars);
            term && body
        }
        Ty::Gets(l, b) => {
            let term = is_term_within(l, vars);
            let body = is_type_within(b.get(), vars);
            term && body
        }
        Ty::Next(l, b) => {
            let term = is_term_within(l, vars);
            let body = is_type_within(b.get(), vars);
            term && body
        }
    }
}

#[cycle(is_type_within)]
fn are_types_within(ts: &[(u32, Ty)], vars: u8) -> bool
    requires { vars ≤ 16 }
    ensures { Tests vars (λ m. list_all (λ e. is_within_type m e.1) ts.now) result }
{
    for (_, a) in ts {
        if !is_type_within(a, vars) {
            return false;
        }
    }
    true
}

// The scope inside a quantifier; from 16 variables on all scopes are alike, since no term has more.
fn inside(vars: u8) -> u8
    requires { vars ≤ 16 }
    ensures few { result ≤ 16 }
    ensures next { vars < 16 → result ≡ vars + 1 }
    ensures last { 16 ≤ vars → result ≡ 16 }
{
    if vars < 16 { vars + 1 } else { 16 }
}
