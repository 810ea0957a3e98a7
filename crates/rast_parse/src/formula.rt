// Formulas.
ghost use Rattle.std.specs.Prelude.{◌≡◌, ◌-◌, ◌≤◌, true, length, List, ℕ};
ghost use Rattle.rast_ast.specs.Kinds.{code};
ghost use Rattle.rast_parse.specs.Cursors.{seen};
ghost use Rattle.rast_parse.specs.Answer.{Finds, Gives, limit_fault};
ghost use Rattle.rast_forms.specs.Reading.{Done, as_read, seq_read};
ghost use Rattle.rast_forms.specs.Words.{starts};
ghost use Rattle.rast_ast.specs.declared.kind.Kind.TheVariants as kind;
ghost use Rattle.rast_ast.specs.declared.form.Literal.TheVariants as literal;
ghost use Rattle.rast_parse.specs.LinearReading.{fixed_read, lin_read};
ghost use Rattle.rast_parse.specs.FormulaReading.{behind_kind, rel_read, divisor_read, not_by, bracket_by, divides_by, related_by, relation_by, literal_by, true_read, false_read, conjunction_by, further_literals_read, disjunction_by, further_conjunctions_read, form_by, formula_first, literal_read, form_read, is_division};

use crate::cursor::{Cursor, Fault};
use rast_ast::{Conjunction, Disjunction, Form, Kind, Lin, Literal, Rel};
use sqlite_items::{Boxed, Items};
use std::alloc::Global;

impl<'a> Cursor<'a> {
    // A formula, below at most `depth` open nonterminals, itself counted.
    #[cycle(formula)]
    pub fn form(self, alloc: Global, depth: usize) -> Result<(Form, Cursor<'a>), Fault>
        ensures { Gives result (form_read depth (seen self.entry)) }
    {
        if depth == 0 {
            return Err(self.formula_limit());
        }
        self.form_below(alloc, depth - 1)
    }

    // Why no formula and no member of a conjunction may begin where none may open.
    fn formula_limit(self) -> Fault
        ensures { result ≡ limit_fault (starts formula_first (seen self.entry)) (length (seen self.entry)) }
    {
        self.limit(&[
            Kind::Tilde,
            Kind::OpenBracket,
            Kind::True,
            Kind::False,
            Kind::Number,
            Kind::Name,
            Kind::OpenParen,
        ])
    }

    // A formula whose parts are below at most `depth` open ones.
    #[cycle(formula)]
    fn form_below(self, alloc: Global, depth: usize) -> Result<(Form, Cursor<'a>), Fault>
        ensures { Gives result (form_by (literal_read depth) (form_read depth) (seen self.entry)) }
    {
        match self.disjunction(alloc, depth) {
            Ok((premise, rest)) => {
                if rest.at(Kind::RightArrow) {
                    match rest.expect(Kind::RightArrow) {
                        Ok(rest) => match rest.boxed_form(alloc, depth) {
                            Ok((form, rest)) => Ok((Form::Implies(premise, form), rest)),
                            Err(fault) => {
                                drop(premise);
                                Err(fault)
                            }
                        },
                        Err(fault) => {
                            drop(premise);
                            Err(fault)
                        }
                    }
                } else {
                    Ok((Form::Plain(premise), rest))
                }
            }
            Err(fault) => Err(fault),
        }
    }

    // A formula, on the heap.
    #[cycle(formula)]
    fn boxed_form(self, alloc: Global, depth: usize) -> Result<(Boxed<Form>, Cursor<'a>), Fault>
        ensures { Gives result (form_read depth (seen self.entry)) }
    {
        match self.form(alloc, depth) {
            Ok((form, rest)) => Ok((Boxed::new(alloc, form)?, rest)),
            Err(fault) => Err(fault),
        }
    }

    #[cycle(formula)]
    fn disjunction(self, alloc: Global, depth: usize) -> Result<(Disjunction, Cursor<'a>), Fault>
        ensures { Gives result (disjunction_by (literal_read depth) (seen self.entry)) }
    {
        match self.conjunction(alloc, depth) {
            Ok((first, rest)) => match rest.further_conjunctions(alloc, depth) {
                Ok((further, rest)) => Ok((
                    Disjunction {
                        first,
                        rest: further,
                    },
                    rest,
                )),
                Err(fault) => {
                    drop(first);
                    Err(fault)
                }
            },
            Err(fault) => Err(fault),
        }
    }

    // The further conjunctions, each behind its `\/`.
    #[cycle(formula)]
    fn further_conjunctions(
        self,
        alloc: Global,
        depth: usize,
    ) -> Result<(Items<Conjunction>, Cursor<'a>), Fault>
        ensures { Gives result (further_conjunctions_read (literal_read depth) (seen self.entry)) }
    {
        let mut items = Items::new(alloc);
        let mut rest = self;
        for _turn in 0..self.left() {
            if !rest.at(Kind::Or) {
                return Ok((items, rest));
            }
            match rest.further_conjunction(alloc, depth) {
                Ok((conjunction, after)) => {
                    match items.push(conjunction) {
                        Ok(()) => rest = after,
                        Err(_) => return Err(Fault::Memory),
                    }
                }
                Err(fault) => return Err(fault),
            }
        }
        Ok((items, rest))
    }

    #[cycle(formula)]
    fn further_conjunction(
        self,
        alloc: Global,
        depth: usize,
    ) -> Result<(Conjunction, Cursor<'a>), Fault>
        ensures { Gives result (behind_kind kind.Or (conjunction_by (literal_read depth)) (seen self.entry)) }
    {
        match self.expect(Kind::Or) {
            Ok(rest) => rest.conjunction(alloc, depth),
            Err(fault) => Err(fault),
        }
    }

    #[cycle(formula)]
    fn conjunction(self, alloc: Global, depth: usize) -> Result<(Conjunction, Cursor<'a>), Fault>
        ensures { Gives result (conjunction_by (literal_read depth) (seen self.entry)) }
    {
        match self.literal(alloc, depth) {
            Ok((first, rest)) => match rest.further_literals(alloc, depth) {
                Ok((further, rest)) => {
                    let first = Boxed::new(alloc, first)?;
                    Ok((
                        Conjunction {
                            first,
                            rest: further,
                        },
                        rest,
                    ))
                }
                Err(fault) => {
                    drop(first);
                    Err(fault)
                }
            },
            Err(fault) => Err(fault),
        }
    }

    // The further members, each behind its `/\`.
    #[cycle(formula)]
    fn further_literals(
        self,
        alloc: Global,
        depth: usize,
    ) -> Result<(Items<Literal>, Cursor<'a>), Fault>
        ensures { Gives result (further_literals_read (literal_read depth) (seen self.entry)) }
    {
        let mut items = Items::new(alloc);
        let mut rest = self;
        for _turn in 0..self.left() {
            if !rest.at(Kind::And) {
                return Ok((items, rest));
            }
            match rest.further_literal(alloc, depth) {
                Ok((literal, after)) => {
                    match items.push(literal) {
                        Ok(()) => rest = after,
                        Err(_) => return Err(Fault::Memory),
                    }
                }
                Err(fault) => return Err(fault),
            }
        }
        Ok((items, rest))
    }

    #[cycle(formula)]
    fn further_literal(self, alloc: Global, depth: usize) -> Result<(Literal, Cursor<'a>), Fault>
        ensures { Gives result (behind_kind kind.And (literal_read depth) (seen self.entry)) }
    {
        match self.expect(Kind::And) {
            Ok(rest) => rest.literal(alloc, depth),
            Err(fault) => Err(fault),
        }
    }

    // A member of a conjunction, below at most `depth` open nonterminals, itself counted.
    #[cycle(formula)]
    fn literal(self, alloc: Global, depth: usize) -> Result<(Literal, Cursor<'a>), Fault>
        ensures { Gives result (literal_read depth (seen self.entry)) }
    {
        if depth == 0 {
            return Err(self.formula_limit());
        }
        self.literal_below(alloc, depth - 1)
    }

    // A member whose parts are below at most `depth` open ones.
    #[cycle(formula)]
    fn literal_below(self, alloc: Global, depth: usize) -> Result<(Literal, Cursor<'a>), Fault>
        ensures { Gives result (literal_by (lin_read true depth) (literal_read depth) (form_read depth) (seen self.entry)) }
    {
        if self.at(Kind::Tilde) {
            self.negation(alloc, depth)
        } else if self.at(Kind::OpenBracket) {
            self.bracketed(alloc, depth)
        } else if self.at(Kind::True) {
            self.truth()
        } else if self.at(Kind::False) {
            self.falsity()
        } else {
            self.relation(alloc, depth)
        }
    }

    fn truth(self) -> Result<(Literal, Cursor<'a>), Fault>
        ensures { Gives result (true_read (seen self.entry)) }
    {
        match self.expect(Kind::True) {
            Ok(rest) => Ok((Literal::True, rest)),
            Err(fault) => Err(fault),
        }
    }

    fn falsity(self) -> Result<(Literal, Cursor<'a>), Fault>
        ensures { Gives result (false_read (seen self.entry)) }
    {
        match self.expect(Kind::False) {
            Ok(rest) => Ok((Literal::False, rest)),
            Err(fault) => Err(fault),
        }
    }

    #[cycle(formula)]
    fn negation(self, alloc: Global, depth: usize) -> Result<(Literal, Cursor<'a>), Fault>
        ensures { Gives result (not_by (literal_read depth) (seen self.entry)) }
    {
        match self.expect(Kind::Tilde) {
            Ok(rest) => match rest.literal(alloc, depth) {
                Ok((literal, rest)) => Ok((Literal::Not(Boxed::new(alloc, literal)?), rest)),
                Err(fault) => Err(fault),
            },
            Err(fault) => Err(fault),
        }
    }

    #[cycle(formula)]
    fn bracketed(self, alloc: Global, depth: usize) -> Result<(Literal, Cursor<'a>), Fault>
        ensures { Gives result (bracket_by (form_read depth) (seen self.entry)) }
    {
        match self.expect(Kind::OpenBracket) {
            Ok(rest) => match rest.form(alloc, depth) {
                Ok((form, rest)) => match rest.expect(Kind::CloseBracket) {
                    Ok(rest) => rest.grouped(alloc, form),
                    Err(fault) => {
                        drop(form);
                        Err(fault)
                    }
                },
                Err(fault) => Err(fault),
            },
            Err(fault) => Err(fault),
        }
    }

    // The member that this formula is in brackets, all of it read.
    fn grouped(self, alloc: Global, form: Form) -> Result<(Literal, Cursor<'a>), Fault>
        ensures { Gives result (Done (literal.Group form) (seen self.entry)) }
    {
        match Boxed::new(alloc, form) {
            Ok(form) => Ok((Literal::Group(form), self)),
            Err(_) => Err(Fault::Memory),
        }
    }

    // A division or a relation, whose terms are below at most `depth` open ones.
    fn relation(self, alloc: Global, depth: usize) -> Result<(Literal, Cursor<'a>), Fault>
        ensures { Gives result (relation_by (lin_read true depth) (seen self.entry)) }
    {
        if self.at_division() {
            self.division(alloc, depth)
        } else {
            self.related(alloc, depth)
        }
    }

    // Whether a divisor comes, which is at least 1, and a bar after it.
    fn at_division(self) -> bool
        ensures { result ≡ is_division (seen self.entry) }
    {
        match self.first_divisor() {
            Some((_, rest)) => rest.at(Kind::Bar),
            None => false,
        }
    }

    // A number that is at least 1, if one comes.
    fn first_divisor(self) -> Option<(u32, Cursor<'a>)>
        ensures { Finds result (seen self.entry) (divisor_read (seen self.entry)) }
    {
        match self.first_number() {
            Some((number, rest)) => {
                if number == 0 {
                    None
                } else {
                    Some((number, rest))
                }
            }
            None => None,
        }
    }

    fn divisor(self) -> Result<(u32, Cursor<'a>), Fault>
        ensures { Gives result (divisor_read (seen self.entry)) }
    {
        match self.first_divisor() {
            Some(found) => Ok(found),
            None => Err(self.wrong()),
        }
    }

    fn division(self, alloc: Global, depth: usize) -> Result<(Literal, Cursor<'a>), Fault>
        ensures { Gives result (divides_by (lin_read true depth) (seen self.entry)) }
    {
        match self.divisor() {
            Ok((divisor, rest)) => match rest.expect(Kind::Bar) {
                Ok(rest) => match rest.lin(alloc, depth, true) {
                    Ok((sum, rest)) => Ok((Literal::Divides(divisor, sum), rest)),
                    Err(fault) => Err(fault),
                },
                Err(fault) => Err(fault),
            },
            Err(fault) => Err(fault),
        }
    }

    fn related(self, alloc: Global, depth: usize) -> Result<(Literal, Cursor<'a>), Fault>
        ensures { Gives result (related_by (lin_read true depth) (seen self.entry)) }
    {
        match self.lin(alloc, depth, true) {
            Ok((left, rest)) => match rest.rel_and_sum(alloc, depth) {
                Ok(((rel, right), rest)) => Ok((Literal::Related(left, rel, right), rest)),
                Err(fault) => {
                    drop(left);
                    Err(fault)
                }
            },
            Err(fault) => Err(fault),
        }
    }

    // The sign of a relation, and the linear term behind it.
    fn rel_and_sum(self, alloc: Global, depth: usize) -> Result<((Rel, Lin), Cursor<'a>), Fault>
        ensures { Gives result (seq_read rel_read (lin_read true depth) (seen self.entry)) }
    {
        match self.rel() {
            Ok((rel, rest)) => match rest.lin(alloc, depth, true) {
                Ok((sum, rest)) => Ok(((rel, sum), rest)),
                Err(fault) => Err(fault),
            },
            Err(fault) => Err(fault),
        }
    }

    fn rel(self) -> Result<(Rel, Cursor<'a>), Fault>
        ensures { Gives result (rel_read (seen self.entry)) }
    {
        if self.at(Kind::Equal) {
            self.rel_of(Kind::Equal, Rel::Eq)
        } else if self.at(Kind::NotEqual) {
            self.rel_of(Kind::NotEqual, Rel::Ne)
        } else if self.at(Kind::Less) {
            self.rel_of(Kind::Less, Rel::Lt)
        } else if self.at(Kind::AtMost) {
            self.rel_of(Kind::AtMost, Rel::Le)
        } else if self.at(Kind::Greater) {
            self.rel_of(Kind::Greater, Rel::Gt)
        } else {
            self.rel_of(Kind::AtLeast, Rel::Ge)
        }
    }

    // The relation of this symbol.
    fn rel_of(self, symbol: Kind, rel: Rel) -> Result<(Rel, Cursor<'a>), Fault>
        requires { 2 ≤ code symbol }
        ensures { Gives result (as_read (λ x. rel) (fixed_read symbol) (seen self.entry)) }
    {
        match self.expect(symbol) {
            Ok(rest) => Ok((rel, rest)),
            Err(fault) => Err(fault),
        }
    }
}
