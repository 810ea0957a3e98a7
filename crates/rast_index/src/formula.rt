// Formulas over linear terms.
use crate::term::Lin;
use sqlite_items::{Boxed, Items};
use std::alloc::{AllocError, Global};

/// A relation between two linear terms.
#[derive(Clone, Copy, Debug, PartialEq, Eq)]
pub enum Rel {
    /// Equal.
    Eq,
    /// Not equal.
    Ne,
    /// Less.
    Lt,
    /// At most.
    Le,
    /// Greater.
    Gt,
    /// At least.
    Ge,
}

/// A formula of linear arithmetic with divisibility.
#[derive(Debug, Drop)]
pub enum Formula {
    /// Always true.
    True,
    /// Never true.
    False,
    /// A relation between the values of two terms.
    Rel(Lin, Rel, Lin),
    /// The value of the term is a multiple of the divisor, which is at least 1.
    Div(u32, Lin),
    /// The formula is false.
    Not(Boxed<Formula>),
    /// Every member is true; without members it is true.
    And(Items<Formula>),
    /// Some member is true; without members it is false.
    Or(Items<Formula>),
    /// The second is true where the first is.
    Imp(Boxed<Formula>, Boxed<Formula>),
}

impl Rel {
    ghost use Rattle.std.specs.Prelude.{◌≡◌, ◌↔◌, IsTrue};

    /// Whether both are the same relation.
    pub fn is_same(self, other: Rel) -> bool
        ensures { IsTrue result ↔ (self ≡ other) }
    {
        self == other
    }
}

impl Formula {
    ghost use Rattle.std.specs.Prelude.{◌≡◌, ◌↔◌, true, IfOk, IsTrue};
    ghost use Rattle.rast_index.specs.Truth.{all_small};

    /// The same formula again, whose numbers are below 2^32 in magnitude.
    #[cycle(copy)]
    #[tactic(auto, using(crate::proofs::Trees::small_members))]
    pub fn copy(&self, alloc: Global) -> Result<Formula, AllocError>
        ensures same { IfOk result (λ f. f ≡ self.now) }
        ensures small { IfOk result (λ f. all_small f ≡ true) }
    {
        match self {
            Formula::True => Ok(Formula::True),
            Formula::False => Ok(Formula::False),
            Formula::Rel(a, rel, b) => Ok(Formula::Rel(a.again(), *rel, b.again())),
            Formula::Div(d, l) => Ok(Formula::Div(*d, l.again())),
            Formula::Not(f) => Ok(Formula::Not(Boxed::new(alloc, f.get().copy(alloc)?)?)),
            Formula::And(fs) => Ok(Formula::And(copies(alloc, fs.as_slice())?)),
            Formula::Or(fs) => Ok(Formula::Or(copies(alloc, fs.as_slice())?)),
            Formula::Imp(f, g) => Ok(Formula::Imp(
                Boxed::new(alloc, f.get().copy(alloc)?)?,
                Boxed::new(alloc, g.get().copy(alloc)?)?,
            )),
        }
    }

    /// Whether both are the same formula, in writing and not in meaning.
    #[cycle(is_same)]
    pub fn is_same(&self, other: &Formula) -> bool
        ensures { IsTrue result ↔ (self.now ≡ other.now) }
    {
        match (self, other) {
            (Formula::True, Formula::True) | (Formula::False, Formula::False) => true,
            (Formula::Rel(a, r, b), Formula::Rel(c, s, d)) => {
                a.is_same(c) && r.is_same(*s) && b.is_same(d)
            }
            (Formula::Div(d, l), Formula::Div(e, m)) => *d == *e && l.is_same(m),
            (Formula::Not(f), Formula::Not(g)) => f.get().is_same(g.get()),
            (Formula::And(fs), Formula::And(gs)) | (Formula::Or(fs), Formula::Or(gs)) => {
                are_same(fs.as_slice(), gs.as_slice())
            }
            (Formula::Imp(f, g), Formula::Imp(h, k)) => {
                f.get().is_same(h.get()) && g.get().is_same(k.get())
            }
            _ => false,
        }
    }
}

ghost use Rattle.std.specs.Prelude.{◌≡◌, ◌↔◌, true, IfOk, IsTrue};
ghost use Rattle.std.specs.List.{list_all};
ghost use Rattle.rast_index.specs.Truth.{all_small};

/// The same formulas again, whose numbers are below 2^32 in magnitude.
#[cycle(copy)]
pub fn copies(alloc: Global, fs: &[Formula]) -> Result<Items<Formula>, AllocError>
    ensures same { IfOk result (λ copied. copied ≡ fs.now) }
    ensures small { IfOk result (λ copied. list_all all_small copied ≡ true) }
{
    let mut out = Items::new(alloc);
    for f in fs {
        out.push(f.copy(alloc)?)?;
    }
    Ok(out)
}

/// Whether both are the same formulas in the same order.
#[cycle(is_same)]
pub fn are_same(fs: &[Formula], gs: &[Formula]) -> bool
    ensures { IsTrue result ↔ (fs.now ≡ gs.now) }
{
    if fs.len() != gs.len() {
        return false;
    }
    for i in 0..fs.len() {
        if !fs[i].is_same(&gs[i]) {
            return false;
        }
    }
    true
}
