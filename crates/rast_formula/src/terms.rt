// Linear terms.
ghost use Rattle.std.specs.Prelude.{◌≡◌, true, map, pos, IfOk, ℕ};
ghost use Rattle.rast_index.specs.Linear.{Linear, fixed, times};
ghost use Rattle.rast_formula.specs.Answers.{Answer, Gives, ◌>>=◌ as ◌then◌};
ghost use Rattle.rast_formula.specs.Scopes.{FindsBelow, is_scoped};
ghost use Rattle.rast_formula.specs.Linears.{linear_of, term_of, signed_of, limited, variable_at, signed, sums};

use crate::lookup::Scope;
use crate::refusal::ScopeErr;
use rast_ast::{Lin as Written, Name, Sign, Term};
use rast_index::{Lin, add, scale, sub};
use std::alloc::Global;

/// The linear term that a written one stands for.
///
/// `scope` says which variables may be named there. Each term of the text and each sum of first terms has to be within the
/// limits.
#[cycle(linear)]
pub fn linear_of<S: Scope>(alloc: Global, scope: &S, lin: &Written) -> Result<Lin, ScopeErr>
    ensures gives { Gives (linear_of (S.find scope.now) lin.now) result }
    ensures closed { (n : ℕ) → FindsBelow n (S.find scope.now) → IfOk result (λ l. is_scoped n l ≡ true) }
{
    let first = term(alloc, scope, lin.first.get());
    sum(alloc, scope, first, lin.rest.as_slice())
}

// What the first term gives, and the further ones, each with its sign.
#[cycle(linear)]
fn sum<S: Scope>(
    alloc: Global,
    scope: &S,
    first: Result<Lin, ScopeErr>,
    rest: &[(Sign, Term)],
) -> Result<Lin, ScopeErr>
    ensures gives { (said : Answer Linear) → Gives said first → Gives (said then λ a. sums a (map (signed_of (S.find scope.now)) rest.now)) result }
    ensures closed { (n : ℕ) → FindsBelow n (S.find scope.now) → IfOk first (λ a. is_scoped n a ≡ true) → IfOk result (λ l. is_scoped n l ≡ true) }
{
    let mut total = match first {
        Ok(first) => first,
        Err(fault) => return Err(fault),
    };
    for (sign, next) in rest {
        match term(alloc, scope, next) {
            Ok(next) => total = signed(*sign, &total, &next)?,
            Err(fault) => return Err(fault),
        }
    }
    Ok(total)
}

#[cycle(linear)]
#[tactic(auto, using(crate::proofs::Scoping::scoped))]
fn term<S: Scope>(alloc: Global, scope: &S, term: &Term) -> Result<Lin, ScopeErr>
    ensures gives { Gives (term_of (S.find scope.now) term.now) result }
    ensures closed { (n : ℕ) → FindsBelow n (S.find scope.now) → IfOk result (λ l. is_scoped n l ≡ true) }
{
    match term {
        Term::Times(k, t) => {
            let once = self::term(alloc, scope, t.get())?;
            times(*k, &once)
        }
        Term::Number(k) => Ok(number(*k)),
        Term::Variable(name) => variable(alloc, scope, name),
        Term::Group(lin) => linear_of(alloc, scope, lin.get()),
    }
}

fn number(k: u32) -> Lin
    ensures { result ≡ fixed (pos k) }
{
    Lin {
        constant: k as i64,
        coefficient: [0; 16],
    }
}

#[tactic(auto, using(crate::proofs::Scoping::scoped))]
fn variable<S: Scope>(alloc: Global, scope: &S, name: &Name) -> Result<Lin, ScopeErr>
    ensures gives { Gives (variable_at name.now (S.find scope.now name.now)) result }
    ensures closed { (n : ℕ) → FindsBelow n (S.find scope.now) → IfOk result (λ l. is_scoped n l ≡ true) }
{
    match scope.find(name) {
        Some(k) if k < 16 => Ok(Lin::variable(k)),
        Some(_) => Err(ScopeErr::Limit),
        None => Err(ScopeErr::Unknown {
            name: Name::new(alloc, name.as_bytes())?,
        }),
    }
}

#[tactic(auto, using(crate::proofs::Scoping::scoped))]
fn times(k: u32, once: &Lin) -> Result<Lin, ScopeErr>
    ensures gives { Gives (limited (times k once.now)) result }
    ensures closed { (n : ℕ) → is_scoped n once.now ≡ true → IfOk result (λ l. is_scoped n l ≡ true) }
{
    Ok(scale(k, once)?)
}

#[tactic(auto, using(crate::proofs::Scoping::scoped))]
fn signed(sign: Sign, total: &Lin, next: &Lin) -> Result<Lin, ScopeErr>
    ensures gives { Gives (limited (signed sign total.now next.now)) result }
    ensures closed { (n : ℕ) → is_scoped n total.now ≡ true → is_scoped n next.now ≡ true → IfOk result (λ l. is_scoped n l ≡ true) }
{
    match sign {
        Sign::Plus => Ok(add(total, next)?),
        Sign::Minus => Ok(sub(total, next)?),
    }
}
