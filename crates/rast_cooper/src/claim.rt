// What is still to be made true, and what it comes to.
ghost use Rattle.std.specs.Prelude.{◌≡◌};
ghost use Rattle.rast_cooper.specs.Claims.{Whole, compared, node_of};
ghost use Rattle.rast_cooper.specs.Stack.{claim_value, members_value, node_value, fixed, gathered, directed, dividing, IsBounded};

use crate::literal::{Literal, Sort};
use crate::term::Term;
use rast_index::{Formula, Lin, Rel};

/// What is still to be made true.
#[derive(Clone, Copy)]
pub enum Claim<'a> {
    /// The formula is true, or it is false.
    Whole(&'a Formula, bool),
    /// The relation is between the values of the two terms.
    Compared(&'a Lin, Rel, &'a Lin),
}

/// Some claims.
#[derive(Clone, Copy)]
pub enum Members<'a> {
    /// Each of the formulas is true, or each is false.
    Each(&'a [Formula], bool),
    /// Two claims.
    Two(Claim<'a>, Claim<'a>),
}

/// What a claim comes to.
#[derive(Clone, Copy)]
pub enum Node<'a> {
    /// It is true.
    Always,
    /// It is false.
    Never,
    /// It is a literal.
    Atom(Literal),
    /// It is that all of these are true.
    Every(Members<'a>),
    /// It is that one of these is true.
    SomeOf(Members<'a>),
}

/// The relation, or its opposite where `wanted` is false.
fn directed(rel: Rel, wanted: bool) -> Rel
    ensures { result ≡ directed rel wanted }
{
    if wanted {
        return rel;
    }
    match rel {
        Rel::Eq => Rel::Ne,
        Rel::Ne => Rel::Eq,
        Rel::Lt => Rel::Ge,
        Rel::Le => Rel::Gt,
        Rel::Gt => Rel::Le,
        Rel::Ge => Rel::Lt,
    }
}

/// A multiple, or none.
fn dividing(wanted: bool) -> Sort
    ensures { result ≡ dividing wanted }
{
    if wanted {
        Sort::Multiple
    } else {
        Sort::NotMultiple
    }
}

/// True or false.
fn fixed<'a>(truth: bool) -> Node<'a>
    ensures value { node_value result ≡ fixed truth }
    ensures bounded { IsBounded result }
{
    if truth { Node::Always } else { Node::Never }
}

/// All of the members, or one of them.
fn gathered<'a>(all: bool, members: Members<'a>) -> Node<'a>
    ensures value { node_value result ≡ gathered all (members_value members.entry) }
    ensures bounded { IsBounded result }
{
    if all {
        Node::Every(members)
    } else {
        Node::SomeOf(members)
    }
}

/// What a relation comes to.
fn compare<'a>(a: &'a Lin, rel: Rel, b: &'a Lin) -> Node<'a>
    ensures value { node_value result ≡ compared a.now rel b.now }
    ensures bounded { IsBounded result }
{
    match rel {
        Rel::Eq => Node::Atom(Literal {
            sort: Sort::Equals,
            divisor: 0,
            term: Term::difference(b, a),
        }),
        Rel::Ne => Node::SomeOf(Members::Two(
            Claim::Compared(a, Rel::Lt, b),
            Claim::Compared(a, Rel::Gt, b),
        )),
        Rel::Lt => Node::Atom(Literal::at_least(Term::difference_less_one(b, a))),
        Rel::Le => Node::Atom(Literal::at_least(Term::difference(b, a))),
        Rel::Gt => Node::Atom(Literal::at_least(Term::difference_less_one(a, b))),
        Rel::Ge => Node::Atom(Literal::at_least(Term::difference(a, b))),
    }
}

/// What a claim on a formula comes to.
fn apart<'a>(f: &'a Formula, wanted: bool) -> Node<'a>
    ensures value { node_value result ≡ node_of (Whole f.now wanted) }
    ensures bounded { IsBounded result }
{
    match f {
        Formula::True => fixed(wanted),
        Formula::False => fixed(!wanted),
        Formula::Rel(a, rel, b) => compare(a, directed(*rel, wanted), b),
        Formula::Div(d, lin) => Node::Atom(Literal {
            sort: dividing(wanted),
            divisor: *d as u128,
            term: Term::widened(lin),
        }),
        Formula::Not(g) => apart(g.get(), !wanted),
        Formula::And(fs) => gathered(wanted, Members::Each(fs.as_slice(), wanted)),
        Formula::Or(fs) => gathered(!wanted, Members::Each(fs.as_slice(), wanted)),
        Formula::Imp(g, h) => gathered(
            !wanted,
            Members::Two(
                Claim::Whole(g.get(), !wanted),
                Claim::Whole(h.get(), wanted),
            ),
        ),
    }
}

/// What a claim comes to.
pub fn expand<'a>(claim: Claim<'a>) -> Node<'a>
    ensures value { node_value result ≡ node_of (claim_value claim.entry) }
    ensures bounded { IsBounded result }
{
    match claim {
        Claim::Whole(f, wanted) => apart(f, wanted),
        Claim::Compared(a, rel, b) => compare(a, rel, b),
    }
}
