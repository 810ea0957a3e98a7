// Linear terms.
ghost use Rattle.std.specs.Prelude.{◌≡◌, ◌-◌, length, List, ℕ};
ghost use Rattle.rast_parse.specs.Cursors.{seen};
ghost use Rattle.rast_parse.specs.Answer.{Gives, FailsAs};
ghost use Rattle.rast_forms.specs.Reading.{Done, seq_read};
ghost use Rattle.rast_ast.specs.declared.term.Term.TheVariants as term_of;
ghost use Rattle.rast_parse.specs.LinearReading.{term_read, term_by, number_by, group_by, further_read, lin_read, term_limit, sign_read};

use crate::cursor::{Cursor, Fault};
use rast_ast::{Kind, Lin, Sign, Term};
use sqlite_items::{Boxed, Items};
use std::alloc::Global;

impl<'a> Cursor<'a> {
    // A term, below at most `depth` open ones, itself counted.
    #[cycle(linear)]
    pub fn term(
        self,
        alloc: Global,
        depth: usize,
        in_formula: bool,
    ) -> Result<(Term, Cursor<'a>), Fault>
        ensures { Gives result (term_read in_formula depth (seen self.entry)) }
    {
        if depth == 0 {
            return Err(self.term_limit(in_formula));
        }
        self.term_below(alloc, depth - 1, in_formula)
    }

    // Why no term may begin where none may open.
    fn term_limit(self, in_formula: bool) -> Fault
        ensures { FailsAs result (term_limit in_formula (seen self.entry)) }
    {
        if in_formula && self.at(Kind::Number) && self.after().at(Kind::Bar) {
            return self.after().wrong();
        }
        self.limit(&[Kind::Number, Kind::Name, Kind::OpenParen])
    }

    // A term whose parts are below at most `depth` open ones.
    #[cycle(linear)]
    fn term_below(
        self,
        alloc: Global,
        depth: usize,
        in_formula: bool,
    ) -> Result<(Term, Cursor<'a>), Fault>
        ensures { Gives result (term_by (term_read in_formula depth) (seen self.entry)) }
    {
        if self.at(Kind::Number) {
            self.number_term(alloc, depth, in_formula)
        } else if self.at(Kind::Name) {
            match self.name(alloc) {
                Ok((name, rest)) => Ok((Term::Variable(name), rest)),
                Err(fault) => Err(fault),
            }
        } else {
            self.group(alloc, depth, in_formula)
        }
    }

    #[cycle(linear)]
    fn number_term(
        self,
        alloc: Global,
        depth: usize,
        in_formula: bool,
    ) -> Result<(Term, Cursor<'a>), Fault>
        ensures { Gives result (number_by (term_read in_formula depth) (seen self.entry)) }
    {
        match self.number() {
            Ok((number, rest)) => {
                if rest.at(Kind::Star) {
                    match rest.expect(Kind::Star) {
                        Ok(rest) => match rest.term(alloc, depth, in_formula) {
                            Ok((term, rest)) => rest.times(alloc, number, term),
                            Err(fault) => Err(fault),
                        },
                        Err(fault) => Err(fault),
                    }
                } else {
                    Ok((Term::Number(number), rest))
                }
            }
            Err(fault) => Err(fault),
        }
    }

    #[cycle(linear)]
    fn group(
        self,
        alloc: Global,
        depth: usize,
        in_formula: bool,
    ) -> Result<(Term, Cursor<'a>), Fault>
        ensures { Gives result (group_by (term_read in_formula depth) (seen self.entry)) }
    {
        match self.expect(Kind::OpenParen) {
            Ok(rest) => match rest.lin(alloc, depth, in_formula) {
                Ok((sum, rest)) => match rest.expect(Kind::CloseParen) {
                    Ok(rest) => rest.grouped_sum(alloc, sum),
                    Err(fault) => {
                        drop(sum);
                        Err(fault)
                    }
                },
                Err(fault) => Err(fault),
            },
            Err(fault) => Err(fault),
        }
    }

    // The term that this number makes with another, both read.
    fn times(self, alloc: Global, number: u32, term: Term) -> Result<(Term, Cursor<'a>), Fault>
        ensures { Gives result (Done (term_of.Times number term) (seen self.entry)) }
    {
        match Boxed::new(alloc, term) {
            Ok(term) => Ok((Term::Times(number, term), self)),
            Err(_) => Err(Fault::Memory),
        }
    }

    // The term that this linear term is in parentheses, all of it read.
    fn grouped_sum(self, alloc: Global, sum: Lin) -> Result<(Term, Cursor<'a>), Fault>
        ensures { Gives result (Done (term_of.Group sum) (seen self.entry)) }
    {
        match Boxed::new(alloc, sum) {
            Ok(sum) => Ok((Term::Group(sum), self)),
            Err(_) => Err(Fault::Memory),
        }
    }

    // A linear term whose terms are below at most `depth` open ones.
    #[cycle(linear)]
    pub fn lin(
        self,
        alloc: Global,
        depth: usize,
        in_formula: bool,
    ) -> Result<(Lin, Cursor<'a>), Fault>
        ensures { Gives result (lin_read in_formula depth (seen self.entry)) }
    {
        match self.term(alloc, depth, in_formula) {
            Ok((first, rest)) => match rest.further_terms(alloc, depth, in_formula) {
                Ok((further, rest)) => {
                    let first = Boxed::new(alloc, first)?;
                    Ok((
                        Lin {
                            first,
                            rest: further,
                        },
                        rest,
                    ))
                }
                Err(fault) => {
                    drop(first);
                    Err(fault)
                }
            },
            Err(fault) => Err(fault),
        }
    }

    // The further terms, each behind its sign.
    #[cycle(linear)]
    fn further_terms(
        self,
        alloc: Global,
        depth: usize,
        in_formula: bool,
    ) -> Result<(Items<(Sign, Term)>, Cursor<'a>), Fault>
        ensures { Gives result (further_read (term_read in_formula depth) (seen self.entry)) }
    {
        let mut items = Items::new(alloc);
        let mut rest = self;
        for _turn in 0..self.left() {
            if !rest.at_any(&[Kind::Plus, Kind::Minus]) {
                return Ok((items, rest));
            }
            match rest.signed_term(alloc, depth, in_formula) {
                Ok((term, after)) => {
                    match items.push(term) {
                        Ok(()) => rest = after,
                        Err(_) => return Err(Fault::Memory),
                    }
                }
                Err(fault) => return Err(fault),
            }
        }
        Ok((items, rest))
    }

    #[cycle(linear)]
    fn signed_term(
        self,
        alloc: Global,
        depth: usize,
        in_formula: bool,
    ) -> Result<((Sign, Term), Cursor<'a>), Fault>
        ensures { Gives result (seq_read sign_read (term_read in_formula depth) (seen self.entry)) }
    {
        match self.sign() {
            Ok((sign, rest)) => match rest.term(alloc, depth, in_formula) {
                Ok((term, rest)) => Ok(((sign, term), rest)),
                Err(fault) => Err(fault),
            },
            Err(fault) => Err(fault),
        }
    }

    fn sign(self) -> Result<(Sign, Cursor<'a>), Fault>
        ensures { Gives result (sign_read (seen self.entry)) }
    {
        if self.at(Kind::Plus) {
            match self.expect(Kind::Plus) {
                Ok(rest) => Ok((Sign::Plus, rest)),
                Err(fault) => Err(fault),
            }
        } else {
            match self.expect(Kind::Minus) {
                Ok(rest) => Ok((Sign::Minus, rest)),
                Err(fault) => Err(fault),
            }
        }
    }
}
