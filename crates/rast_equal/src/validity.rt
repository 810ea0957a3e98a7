// Validity of types.
ghost use Rattle.std.specs.Prelude.{◌≡◌, ◌<◌, ◌≤◌, ◌+◌, ◌^◌, ◌++◌, ◌∷◌, [], All, IfOk, length};
ghost use Rattle.rast_equal.specs.Fit.{AreClosed, AreWithin, AreWithinTypes, IsClosedFrom, IsFitTypeDef, IsWithin, IsWithinType};
ghost use Rattle.rast_equal.specs.Invalid.{Judges, AnswersType, choice_claims, natural_claims, potential_claims, table_refusal, ticks_claims, type_err, type_refusal};
ghost use Rattle.rast_equal.specs.Valid.{Asks, IsValidTable, IsValidType, claims_of, def_claims, leads_to_next, nonneg};

use crate::place::copy_formulas;
use rast_cooper::{Verdict, decide};
use rast_index::{Formula, Lin, Rel};
use rast_types::{Ctx, Stop, Ty, TypeDef, TypeTable};
use sqlite_items::Items;
use std::alloc::{AllocError, AllocFailed, Global};

/// Why definitions of types or a type aren't valid.
///
/// The rules: 1, no name stands for a name; 2, each argument of a name is at least 0; 3, each potential is;
/// 4, the ticks of each next are; 5, what stands directly in a next leads to no other next.
#[derive(Drop)]
pub enum TypeErr {
    /// A rule is false.
    Invalid {
        /// The number of the definition; how many there are, where the type stands alone.
        def: u32,
        /// The number of the rule.
        rule: u8,
        /// How many variables are in scope there.
        vars: u8,
        /// Their values, at which a rule on numbers is false; those past `vars` are 0.
        values: Option<[u128; 16]>,
    },
    /// A bound was reached before the first false rule.
    Bound {
        /// The number of the definition; how many there are, where the type stands alone.
        def: u32,
        /// Which one.
        stop: Stop,
    },
    /// Want of memory.
    Memory,
}

/// Why a type isn't valid.
#[derive(Drop)]
pub(crate) enum Refusal {
    /// A rule is false, in so many variables, at these values.
    False(u8, u8, Option<[u128; 16]>),
    /// A bound was reached.
    Stopped(Stop),
    /// Want of memory.
    Memory,
}

impl From<AllocError> for Refusal {
    ghost use Rattle.std.specs.Prelude.{◌≡◌};
    ghost use Rattle.rast_equal.specs.declared.validity.Refusal.TheVariants.{Memory};

    ghost from_gives = { λ _ e. e ≡ Memory };

    fn from(_: AllocError) -> Refusal {
        Refusal::Memory
    }
}

impl<T: Drop> From<AllocFailed<T>> for Refusal {
    ghost use Rattle.std.specs.Prelude.{◌≡◌};
    ghost use Rattle.rast_equal.specs.declared.validity.Refusal.TheVariants.{Memory};

    ghost from_gives = { λ _ e. e ≡ Memory };

    fn from(_: AllocFailed<T>) -> Refusal {
        Refusal::Memory
    }
}

/// Tests each definition of the table, in its order, and answers the first rule that is false or can't be decided.
pub fn validate(alloc: Global, table: &TypeTable) -> Result<(), TypeErr>
    requires few { length table.now.defs < 2 ^ 32 }
    requires fit { All IsFitTypeDef table.now.defs }
    ensures first { AnswersType (table_refusal table.now.defs 0 table.now.defs) result }
    ensures holds { IfOk result (λ done. IsValidTable table.now.defs) }
{
    let defs = table.defs.as_slice();
    for i in 0..defs.len() {
        match check_definition(alloc, table, &defs[i]) {
            Ok(()) => {}
            Err(e) => return Err(type_err(i as u32, e)),
        }
    }
    Ok(())
}

/// Tests one type, with the variables and premises of `ctx`; an answer's `def` is the number of definitions.
pub fn validate_type(alloc: Global, table: &TypeTable, ctx: &Ctx, ty: &Ty) -> Result<(), TypeErr>
    requires defs { length table.now.defs < 2 ^ 32 }
    requires few { ctx.now.vars ≤ 16 }
    requires premises { AreWithin ctx.now.vars ctx.now.premises }
    requires within { IsWithinType ctx.now.vars ty.now }
    ensures first { AnswersType (type_refusal table.now.defs ctx.now.vars ctx.now.premises ty.now) result }
    ensures holds { IfOk result (λ done. IsValidType table.now.defs ctx.now.vars ctx.now.premises ty.now) }
{
    match check_type(alloc, table, ctx, ty) {
        Ok(()) => Ok(()),
        Err(e) => Err(type_err(table.defs.len() as u32, e)),
    }
}

// The refusal of a definition.
fn type_err(def: u32, refusal: Refusal) -> TypeErr
    ensures { result ≡ type_err def refusal }
{
    match refusal {
        Refusal::False(rule, vars, values) => TypeErr::Invalid {
            def,
            rule,
            vars,
            values,
        },
        Refusal::Stopped(stop) => TypeErr::Bound { def, stop },
        Refusal::Memory => TypeErr::Memory,
    }
}

// The rules of a definition: its body is no name, and is valid.
fn check_definition(alloc: Global, table: &TypeTable, def: &TypeDef) -> Result<(), Refusal>
    requires { IsFitTypeDef def.now }
    ensures { Judges (def_claims table.now.defs def.now) result }
{
    if matches!(def.body, Ty::Named(_, _)) {
        return Err(Refusal::False(1, def.params, None));
    }
    let ctx = Ctx {
        vars: def.params,
        premises: Items::new(alloc),
    };
    check_type(alloc, table, &ctx, &def.body)
}

/// Tests the rules 2 to 5 of a type.
#[cycle(check_type)]
pub(crate) fn check_type(alloc: Global, table: &TypeTable, ctx: &Ctx, a: &Ty) -> Result<(), Refusal>
    requires few { ctx.now.vars ≤ 17 }
    requires premises { AreWithin ctx.now.vars ctx.now.premises }
    requires within { IsWithinType ctx.now.vars a.now }
    ensures { Judges (claims_of table.now.defs ctx.now.vars ctx.now.premises a.now) result }
{
    if ctx.vars > 16 {
        return Err(Refusal::Stopped(Stop::Variables));
    }
    match a {
        Ty::One => Ok(()),
        Ty::Plus(ts) => check_choices(alloc, table, ctx, ts.as_slice()),
        Ty::With(ts) => check_choices(alloc, table, ctx, ts.as_slice()),
        Ty::Tensor(b, c) => {
            check_type(alloc, table, ctx, b.get())?;
            check_type(alloc, table, ctx, c.get())
        }
        Ty::Lolli(b, c) => {
            check_type(alloc, table, ctx, b.get())?;
            check_type(alloc, table, ctx, c.get())
        }
        Ty::Named(_, args) => check_natural_each(alloc, ctx, args.as_slice()),
        Ty::Ex(b) => check_below_variable(alloc, table, ctx, b.get()),
        Ty::All(b) => check_below_variable(alloc, table, ctx, b.get()),
        Ty::Assert(f, b) => check_below_premise(alloc, table, ctx, b.get(), f),
        Ty::Assume(f, b) => check_below_premise(alloc, table, ctx, b.get(), f),
        Ty::Pays(p, b) => check_below_potential(alloc, table, ctx, p, b.get()),
        Ty::Gets(p, b) => check_below_potential(alloc, table, ctx, p, b.get()),
        Ty::Next(ticks, b) => check_below_ticks(alloc, table, ctx, ticks, b.get()),
    }
}

// The body of a quantifier.
#[cycle(check_type)]
fn check_below_variable(
    alloc: Global,
    table: &TypeTable,
    ctx: &Ctx,
    body: &Ty,
) -> Result<(), Refusal>
    requires few { ctx.now.vars ≤ 16 }
    requires premises { AreWithin ctx.now.vars ctx.now.premises }
    requires within { IsWithinType (ctx.now.vars + 1) body.now }
    ensures { Judges (claims_of table.now.defs (ctx.now.vars + 1) ctx.now.premises body.now) result }
{
    let inner = with_variable(alloc, ctx)?;
    check_type(alloc, table, &inner, body)
}

// The body of a constraint.
#[cycle(check_type)]
fn check_below_premise(
    alloc: Global,
    table: &TypeTable,
    ctx: &Ctx,
    body: &Ty,
    premise: &Formula,
) -> Result<(), Refusal>
    requires few { ctx.now.vars ≤ 16 }
    requires premises { AreWithin ctx.now.vars ctx.now.premises }
    requires premise { IsWithin ctx.now.vars premise.now }
    requires within { IsWithinType ctx.now.vars body.now }
    ensures { Judges (claims_of table.now.defs ctx.now.vars (ctx.now.premises ++ premise.now ∷ []) body.now) result }
{
    let inner = with_premise(alloc, ctx, premise)?;
    check_type(alloc, table, &inner, body)
}

// A potential, and then the body.
#[cycle(check_type)]
fn check_below_potential(
    alloc: Global,
    table: &TypeTable,
    ctx: &Ctx,
    potential: &Lin,
    body: &Ty,
) -> Result<(), Refusal>
    requires few { ctx.now.vars ≤ 16 }
    requires premises { AreWithin ctx.now.vars ctx.now.premises }
    requires closed { IsClosedFrom ctx.now.vars potential.now }
    requires within { IsWithinType ctx.now.vars body.now }
    ensures { Judges (potential_claims table.now.defs ctx.now.vars ctx.now.premises potential.now body.now) result }
{
    check_natural(alloc, ctx, 3, potential)?;
    check_type(alloc, table, ctx, body)
}

// Ticks, what stands directly behind them, and then the body.
#[cycle(check_type)]
fn check_below_ticks(
    alloc: Global,
    table: &TypeTable,
    ctx: &Ctx,
    ticks: &Lin,
    body: &Ty,
) -> Result<(), Refusal>
    requires few { ctx.now.vars ≤ 16 }
    requires premises { AreWithin ctx.now.vars ctx.now.premises }
    requires closed { IsClosedFrom ctx.now.vars ticks.now }
    requires within { IsWithinType ctx.now.vars body.now }
    ensures { Judges (ticks_claims table.now.defs ctx.now.vars ctx.now.premises ticks.now body.now) result }
{
    check_natural(alloc, ctx, 4, ticks)?;
    if leads_to_next(table, body) {
        return Err(Refusal::False(5, ctx.vars, None));
    }
    check_type(alloc, table, ctx, body)
}

#[cycle(check_type)]
fn check_choices(
    alloc: Global,
    table: &TypeTable,
    ctx: &Ctx,
    ts: &[(u32, Ty)],
) -> Result<(), Refusal>
    requires few { ctx.now.vars ≤ 16 }
    requires premises { AreWithin ctx.now.vars ctx.now.premises }
    requires within { AreWithinTypes ctx.now.vars ts.now }
    ensures { Judges (choice_claims table.now.defs ctx.now.vars ctx.now.premises ts.now) result }
{
    for (_, a) in ts {
        check_type(alloc, table, ctx, a)?;
    }
    Ok(())
}

fn check_natural_each(alloc: Global, ctx: &Ctx, terms: &[Lin]) -> Result<(), Refusal>
    requires few { ctx.now.vars ≤ 16 }
    requires premises { AreWithin ctx.now.vars ctx.now.premises }
    requires within { AreClosed ctx.now.vars terms.now }
    ensures { Judges (natural_claims ctx.now.vars ctx.now.premises terms.now) result }
{
    for l in terms {
        check_natural(alloc, ctx, 2, l)?;
    }
    Ok(())
}

// Whether the term is at least 0; if not, the rule with this number is false.
fn check_natural(alloc: Global, ctx: &Ctx, rule: u8, term: &Lin) -> Result<(), Refusal>
    requires few { ctx.now.vars ≤ 16 }
    requires premises { AreWithin ctx.now.vars ctx.now.premises }
    requires within { IsClosedFrom ctx.now.vars term.now }
    ensures { Judges (Asks rule ctx.now.vars ctx.now.premises (nonneg term.now) ∷ []) result }
{
    let goal = Formula::Rel(term.again(), Rel::Ge, Lin::nought());
    judge(alloc, ctx, rule, &goal)
}

fn judge(alloc: Global, ctx: &Ctx, rule: u8, goal: &Formula) -> Result<(), Refusal>
    requires few { ctx.now.vars ≤ 16 }
    requires premises { AreWithin ctx.now.vars ctx.now.premises }
    requires within { IsWithin ctx.now.vars goal.now }
    ensures { Judges (Asks rule ctx.now.vars ctx.now.premises goal.now ∷ []) result }
{
    match decide(alloc, ctx.vars, ctx.premises.as_slice(), goal)? {
        Verdict::Holds => Ok(()),
        Verdict::Fails { values } => Err(Refusal::False(rule, ctx.vars, Some(values))),
        Verdict::NodeLimit => Err(Refusal::Stopped(Stop::NodeLimit)),
        Verdict::NumberLimit => Err(Refusal::Stopped(Stop::NumberLimit)),
    }
}

fn with_variable(alloc: Global, ctx: &Ctx) -> Result<Ctx, AllocError>
    requires { ctx.now.vars ≤ 16 }
    ensures { IfOk result (λ c. c ≡ record { vars = ctx.now.vars + 1; premises = ctx.now.premises }) }
{
    Ok(Ctx {
        vars: ctx.vars + 1,
        premises: copy_formulas(alloc, ctx.premises.as_slice())?,
    })
}

fn with_premise(alloc: Global, ctx: &Ctx, premise: &Formula) -> Result<Ctx, AllocError>
    ensures { IfOk result (λ c. c ≡ record { vars = ctx.now.vars; premises = ctx.now.premises ++ premise.now ∷ [] }) }
{
    let mut premises = copy_formulas(alloc, ctx.premises.as_slice())?;
    premises.push(premise.copy(alloc)?)?;
    Ok(Ctx {
        vars: ctx.vars,
        premises,
    })
}

// Whether the type is a next, or a name whose body is one.
fn leads_to_next(table: &TypeTable, a: &Ty) -> bool
    ensures { result ≡ leads_to_next table.now.defs a.now }
{
    match a {
        Ty::Next(_, _) => true,
        Ty::Named(def, _) => match table.defs.get(*def as usize) {
            Some(d) => matches!(d.body, Ty::Next(_, _)),
            None => false,
        },
        _ => false,
    }
}
