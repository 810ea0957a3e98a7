// Types.
ghost use Rattle.std.specs.Prelude.{◌≡◌, ◌-◌, ◌≤◌, true, false, length, List, ℕ};
ghost use Rattle.rast_ast.specs.Kinds.{code};
ghost use Rattle.rast_parse.specs.Cursors.{seen};
ghost use Rattle.rast_parse.specs.Answer.{Gives, Passes, limit_fault};
ghost use Rattle.rast_forms.specs.Reading.{seq_read, as_read};
ghost use Rattle.rast_ast.specs.declared.kind.Kind.TheVariants as kind;
ghost use Rattle.rast_parse.specs.LinearReading.{lin_read};
ghost use Rattle.rast_parse.specs.FormulaReading.{behind_kind, form_read};
ghost use Rattle.rast_parse.specs.TypeReading.{before_kind, braced_read, args_read, exists_by, all_by, pays_by, gets_by, prefix_by, labelled_by, further_labelled, choice_by, one_read_1, unit_read, plus_by, with_by, named_by, atom_by, after_by, prefixed_by, next_one_by, next_by, group_type_by, inside_by, type_by, begins_type, type_read};

use crate::cursor::{Cursor, Fault};
use rast_ast::{Atom, Choice, Form, Kind, Lin, Name, Prefix, TypeExpr};
use sqlite_items::{Boxed, Items};
use std::alloc::Global;

impl<'a> Cursor<'a> {
    // A type, below at most `depth` open nonterminals, itself counted.
    #[cycle(type_expr)]
    pub fn type_expr(self, alloc: Global, depth: usize) -> Result<(TypeExpr, Cursor<'a>), Fault>
        ensures { Gives result (type_read depth (seen self.entry)) }
    {
        if depth == 0 {
            return Err(self.type_limit());
        }
        self.type_below(alloc, depth - 1)
    }

    // Why no type may begin where none may open.
    fn type_limit(self) -> Fault
        ensures { result ≡ limit_fault (begins_type (seen self.entry)) (length (seen self.entry)) }
    {
        if self.at_type() {
            Fault::TooDeep(self.left())
        } else {
            self.wrong()
        }
    }

    // Whether a token comes that a type begins with: of the numbers, 1.
    fn at_type(self) -> bool
        ensures { result ≡ begins_type (seen self.entry) }
    {
        match self.first_number() {
            Some((number, _)) => number == 1,
            None => self.at_any(&[
                Kind::Question,
                Kind::Exclamation,
                Kind::Bar,
                Kind::Less,
                Kind::OpenParen,
                Kind::Plus,
                Kind::Ampersand,
                Kind::Name,
            ]),
        }
    }

    // A type whose parts are below at most `depth` open ones.
    #[cycle(type_expr)]
    fn type_below(self, alloc: Global, depth: usize) -> Result<(TypeExpr, Cursor<'a>), Fault>
        ensures { Gives result (type_by (lin_read false depth) (form_read depth) (type_read depth) (seen self.entry)) }
    {
        if self.at_any(&[Kind::Question, Kind::Exclamation, Kind::Bar, Kind::Less]) {
            self.prefixed(alloc, depth)
        } else if self.at(Kind::OpenParen) {
            match self.expect(Kind::OpenParen) {
                Ok(rest) => rest.inside(alloc, depth),
                Err(fault) => Err(fault),
            }
        } else {
            match self.atom(alloc, depth) {
                Ok((atom, rest)) => rest.after_atom(alloc, depth, atom),
                Err(fault) => Err(fault),
            }
        }
    }

    #[cycle(type_expr)]
    fn prefixed(self, alloc: Global, depth: usize) -> Result<(TypeExpr, Cursor<'a>), Fault>
        ensures { Gives result (prefixed_by (lin_read false depth) (form_read depth) (type_read depth) (seen self.entry)) }
    {
        match self.prefix(alloc, depth) {
            Ok((prefix, rest)) => match rest.boxed_type(alloc, depth) {
                Ok((body, rest)) => Ok((TypeExpr::Prefixed(prefix, body), rest)),
                Err(fault) => {
                    drop(prefix);
                    Err(fault)
                }
            },
            Err(fault) => Err(fault),
        }
    }

    // A type, on the heap.
    #[cycle(type_expr)]
    fn boxed_type(self, alloc: Global, depth: usize) -> Result<(Boxed<TypeExpr>, Cursor<'a>), Fault>
        ensures { Gives result (type_read depth (seen self.entry)) }
    {
        match self.type_expr(alloc, depth) {
            Ok((body, rest)) => Ok((Boxed::new(alloc, body)?, rest)),
            Err(fault) => Err(fault),
        }
    }

    // A prefix that no parenthesis begins.
    fn prefix(self, alloc: Global, depth: usize) -> Result<(Prefix, Cursor<'a>), Fault>
        ensures { Gives result (prefix_by (lin_read false depth) (form_read depth) (seen self.entry)) }
    {
        if self.at(Kind::Question) {
            self.exists(alloc, depth)
        } else if self.at(Kind::Exclamation) {
            self.all(alloc, depth)
        } else if self.at(Kind::Bar) {
            self.pays(alloc, depth)
        } else {
            self.gets(alloc, depth)
        }
    }

    fn exists(self, alloc: Global, depth: usize) -> Result<(Prefix, Cursor<'a>), Fault>
        ensures { Gives result (exists_by (form_read depth) (seen self.entry)) }
    {
        match self.expect(Kind::Question) {
            Ok(rest) => {
                if rest.at(Kind::Name) {
                    match rest.name(alloc) {
                        Ok((name, rest)) => match rest.expect(Kind::Dot) {
                            Ok(rest) => Ok((Prefix::Ex(name), rest)),
                            Err(fault) => Err(fault),
                        },
                        Err(fault) => Err(fault),
                    }
                } else {
                    match rest.braced_form(alloc, depth) {
                        Ok((form, rest)) => match rest.expect(Kind::Dot) {
                            Ok(rest) => Ok((Prefix::Assert(form), rest)),
                            Err(fault) => {
                                drop(form);
                                Err(fault)
                            }
                        },
                        Err(fault) => Err(fault),
                    }
                }
            }
            Err(fault) => Err(fault),
        }
    }

    fn all(self, alloc: Global, depth: usize) -> Result<(Prefix, Cursor<'a>), Fault>
        ensures { Gives result (all_by (form_read depth) (seen self.entry)) }
    {
        match self.expect(Kind::Exclamation) {
            Ok(rest) => {
                if rest.at(Kind::Name) {
                    match rest.name(alloc) {
                        Ok((name, rest)) => match rest.expect(Kind::Dot) {
                            Ok(rest) => Ok((Prefix::All(name), rest)),
                            Err(fault) => Err(fault),
                        },
                        Err(fault) => Err(fault),
                    }
                } else {
                    match rest.braced_form(alloc, depth) {
                        Ok((form, rest)) => match rest.expect(Kind::Dot) {
                            Ok(rest) => Ok((Prefix::Assume(form), rest)),
                            Err(fault) => {
                                drop(form);
                                Err(fault)
                            }
                        },
                        Err(fault) => Err(fault),
                    }
                }
            }
            Err(fault) => Err(fault),
        }
    }

    fn pays(self, alloc: Global, depth: usize) -> Result<(Prefix, Cursor<'a>), Fault>
        ensures { Gives result (pays_by (lin_read false depth) (seen self.entry)) }
    {
        match self.expect(Kind::Bar) {
            Ok(rest) => match rest.braced(alloc, depth) {
                Ok((sum, rest)) => match rest.expect(Kind::Greater) {
                    Ok(rest) => Ok((Prefix::Pays(sum), rest)),
                    Err(fault) => {
                        drop(sum);
                        Err(fault)
                    }
                },
                Err(fault) => Err(fault),
            },
            Err(fault) => Err(fault),
        }
    }

    fn gets(self, alloc: Global, depth: usize) -> Result<(Prefix, Cursor<'a>), Fault>
        ensures { Gives result (gets_by (lin_read false depth) (seen self.entry)) }
    {
        match self.expect(Kind::Less) {
            Ok(rest) => match rest.braced(alloc, depth) {
                Ok((sum, rest)) => match rest.expect(Kind::Bar) {
                    Ok(rest) => Ok((Prefix::Gets(sum), rest)),
                    Err(fault) => {
                        drop(sum);
                        Err(fault)
                    }
                },
                Err(fault) => Err(fault),
            },
            Err(fault) => Err(fault),
        }
    }

    // A linear term in braces.
    pub fn braced(self, alloc: Global, depth: usize) -> Result<(Lin, Cursor<'a>), Fault>
        ensures { Gives result (braced_read (lin_read false depth) (seen self.entry)) }
    {
        match self.expect(Kind::OpenBrace) {
            Ok(rest) => match rest.lin(alloc, depth, false) {
                Ok((sum, rest)) => match rest.expect(Kind::CloseBrace) {
                    Ok(rest) => Ok((sum, rest)),
                    Err(fault) => {
                        drop(sum);
                        Err(fault)
                    }
                },
                Err(fault) => Err(fault),
            },
            Err(fault) => Err(fault),
        }
    }

    // A formula in braces.
    fn braced_form(self, alloc: Global, depth: usize) -> Result<(Form, Cursor<'a>), Fault>
        ensures { Gives result (braced_read (form_read depth) (seen self.entry)) }
    {
        match self.expect(Kind::OpenBrace) {
            Ok(rest) => match rest.form(alloc, depth) {
                Ok((form, rest)) => match rest.expect(Kind::CloseBrace) {
                    Ok(rest) => Ok((form, rest)),
                    Err(fault) => {
                        drop(form);
                        Err(fault)
                    }
                },
                Err(fault) => Err(fault),
            },
            Err(fault) => Err(fault),
        }
    }

    // The arguments behind a name, each in braces.
    pub fn args(self, alloc: Global, depth: usize) -> Result<(Items<Lin>, Cursor<'a>), Fault>
        ensures { Gives result (args_read (lin_read false depth) (seen self.entry)) }
    {
        let mut items = Items::new(alloc);
        let mut rest = self;
        for _turn in 0..self.left() {
            if !rest.at(Kind::OpenBrace) {
                return Ok((items, rest));
            }
            match rest.braced(alloc, depth) {
                Ok((sum, after)) => {
                    match items.push(sum) {
                        Ok(()) => rest = after,
                        Err(_) => return Err(Fault::Memory),
                    }
                }
                Err(fault) => return Err(fault),
            }
        }
        Ok((items, rest))
    }

    // What stands behind an opening parenthesis.
    #[cycle(type_expr)]
    fn inside(self, alloc: Global, depth: usize) -> Result<(TypeExpr, Cursor<'a>), Fault>
        ensures { Gives result (inside_by (lin_read false depth) (type_read depth) (seen self.entry)) }
    {
        if self.at(Kind::CloseParen) {
            self.next_one(alloc, depth)
        } else if self.at(Kind::OpenBrace) {
            self.next(alloc, depth)
        } else {
            self.group_type(alloc, depth)
        }
    }

    #[cycle(type_expr)]
    fn next_one(self, alloc: Global, depth: usize) -> Result<(TypeExpr, Cursor<'a>), Fault>
        ensures { Gives result (next_one_by (type_read depth) (seen self.entry)) }
    {
        match self.type_behind(alloc, depth, Kind::CloseParen) {
            Ok((body, rest)) => Ok((TypeExpr::Prefixed(Prefix::NextOne, body), rest)),
            Err(fault) => Err(fault),
        }
    }

    #[cycle(type_expr)]
    fn next(self, alloc: Global, depth: usize) -> Result<(TypeExpr, Cursor<'a>), Fault>
        ensures { Gives result (next_by (lin_read false depth) (type_read depth) (seen self.entry)) }
    {
        match self.time(alloc, depth) {
            Ok((time, rest)) => match rest.boxed_type(alloc, depth) {
                Ok((body, rest)) => Ok((TypeExpr::Prefixed(Prefix::Next(time), body), rest)),
                Err(fault) => {
                    drop(time);
                    Err(fault)
                }
            },
            Err(fault) => Err(fault),
        }
    }

    // A linear term in braces, and the closing parenthesis behind it.
    fn time(self, alloc: Global, depth: usize) -> Result<(Lin, Cursor<'a>), Fault>
        ensures { Gives result (before_kind kind.CloseParen (braced_read (lin_read false depth)) (seen self.entry)) }
    {
        match self.braced(alloc, depth) {
            Ok((sum, rest)) => match rest.expect(Kind::CloseParen) {
                Ok(rest) => Ok((sum, rest)),
                Err(fault) => {
                    drop(sum);
                    Err(fault)
                }
            },
            Err(fault) => Err(fault),
        }
    }

    #[cycle(type_expr)]
    fn group_type(self, alloc: Global, depth: usize) -> Result<(TypeExpr, Cursor<'a>), Fault>
        ensures { Gives result (group_type_by (type_read depth) (seen self.entry)) }
    {
        match self.type_expr(alloc, depth) {
            Ok((inner, rest)) => match rest.expect(Kind::CloseParen) {
                Ok(rest) => {
                    let inner = Boxed::new(alloc, inner)?;
                    rest.after_atom(alloc, depth, Atom::Group(inner))
                }
                Err(fault) => {
                    drop(inner);
                    Err(fault)
                }
            },
            Err(fault) => Err(fault),
        }
    }

    // The type that an atom begins, from what follows the atom.
    #[cycle(type_expr)]
    fn after_atom(
        self,
        alloc: Global,
        depth: usize,
        atom: Atom,
    ) -> Result<(TypeExpr, Cursor<'a>), Fault>
        ensures { Gives result (after_by (type_read depth) atom (seen self.entry)) }
    {
        if self.at(Kind::Star) {
            match self.type_behind(alloc, depth, Kind::Star) {
                Ok((body, rest)) => Ok((TypeExpr::Tensor(atom, body), rest)),
                Err(fault) => {
                    drop(atom);
                    Err(fault)
                }
            }
        } else if self.at(Kind::Lolli) {
            match self.type_behind(alloc, depth, Kind::Lolli) {
                Ok((body, rest)) => Ok((TypeExpr::Lolli(atom, body), rest)),
                Err(fault) => {
                    drop(atom);
                    Err(fault)
                }
            }
        } else {
            Ok((TypeExpr::Atom(atom), self))
        }
    }

    // A type behind a symbol, on the heap.
    #[cycle(type_expr)]
    fn type_behind(
        self,
        alloc: Global,
        depth: usize,
        symbol: Kind,
    ) -> Result<(Boxed<TypeExpr>, Cursor<'a>), Fault>
        requires { 2 ≤ code symbol }
        ensures { Gives result (behind_kind symbol (type_read depth) (seen self.entry)) }
    {
        match self.expect(symbol) {
            Ok(rest) => rest.boxed_type(alloc, depth),
            Err(fault) => Err(fault),
        }
    }

    // An atom that no parenthesis begins.
    #[cycle(type_expr)]
    fn atom(self, alloc: Global, depth: usize) -> Result<(Atom, Cursor<'a>), Fault>
        ensures { Gives result (atom_by (lin_read false depth) (type_read depth) (seen self.entry)) }
    {
        if self.at(Kind::Number) {
            match self.one() {
                Ok(rest) => Ok((Atom::One, rest)),
                Err(fault) => Err(fault),
            }
        } else if self.at(Kind::Plus) {
            self.internal_choice(alloc, depth)
        } else if self.at(Kind::Ampersand) {
            self.external_choice(alloc, depth)
        } else {
            self.named(alloc, depth)
        }
    }

    // The number 1.
    fn one(self) -> Result<Cursor<'a>, Fault>
        ensures { Passes result (one_read_1 (seen self.entry)) }
    {
        match self.first_number() {
            Some((number, rest)) => {
                if number == 1 {
                    Ok(rest)
                } else {
                    Err(self.wrong())
                }
            }
            None => Err(self.wrong()),
        }
    }

    #[cycle(type_expr)]
    fn internal_choice(self, alloc: Global, depth: usize) -> Result<(Atom, Cursor<'a>), Fault>
        ensures { Gives result (plus_by (type_read depth) (seen self.entry)) }
    {
        match self.expect(Kind::Plus) {
            Ok(rest) => match rest.braced_choice(alloc, depth) {
                Ok((choice, rest)) => Ok((Atom::Plus(Boxed::new(alloc, choice)?), rest)),
                Err(fault) => Err(fault),
            },
            Err(fault) => Err(fault),
        }
    }

    #[cycle(type_expr)]
    fn external_choice(self, alloc: Global, depth: usize) -> Result<(Atom, Cursor<'a>), Fault>
        ensures { Gives result (with_by (type_read depth) (seen self.entry)) }
    {
        match self.expect(Kind::Ampersand) {
            Ok(rest) => match rest.braced_choice(alloc, depth) {
                Ok((choice, rest)) => Ok((Atom::With(Boxed::new(alloc, choice)?), rest)),
                Err(fault) => Err(fault),
            },
            Err(fault) => Err(fault),
        }
    }

    #[cycle(type_expr)]
    fn braced_choice(self, alloc: Global, depth: usize) -> Result<(Choice, Cursor<'a>), Fault>
        ensures { Gives result (braced_read (choice_by (type_read depth)) (seen self.entry)) }
    {
        match self.expect(Kind::OpenBrace) {
            Ok(rest) => match rest.choice(alloc, depth) {
                Ok((choice, rest)) => match rest.expect(Kind::CloseBrace) {
                    Ok(rest) => Ok((choice, rest)),
                    Err(fault) => {
                        drop(choice);
                        Err(fault)
                    }
                },
                Err(fault) => Err(fault),
            },
            Err(fault) => Err(fault),
        }
    }

    fn named(self, alloc: Global, depth: usize) -> Result<(Atom, Cursor<'a>), Fault>
        ensures { Gives result (named_by (lin_read false depth) (seen self.entry)) }
    {
        match self.name(alloc) {
            Ok((name, rest)) => match rest.args(alloc, depth) {
                Ok((args, rest)) => Ok((Atom::Named(name, args), rest)),
                Err(fault) => Err(fault),
            },
            Err(fault) => Err(fault),
        }
    }

    // Labels, each with its type.
    #[cycle(type_expr)]
    fn choice(self, alloc: Global, depth: usize) -> Result<(Choice, Cursor<'a>), Fault>
        ensures { Gives result (choice_by (type_read depth) (seen self.entry)) }
    {
        match self.labelled(alloc, depth) {
            Ok(((label, body), rest)) => match rest.further_labelled(alloc, depth) {
                Ok((further, rest)) => Ok((
                    Choice {
                        label,
                        body,
                        rest: further,
                    },
                    rest,
                )),
                Err(fault) => {
                    drop(body);
                    Err(fault)
                }
            },
            Err(fault) => Err(fault),
        }
    }

    #[cycle(type_expr)]
    pub fn labelled(
        self,
        alloc: Global,
        depth: usize,
    ) -> Result<((Name, TypeExpr), Cursor<'a>), Fault>
        ensures { Gives result (labelled_by (type_read depth) (seen self.entry)) }
    {
        match self.name_before(alloc, Kind::Colon) {
            Ok((label, rest)) => match rest.type_expr(alloc, depth) {
                Ok((body, rest)) => Ok(((label, body), rest)),
                Err(fault) => Err(fault),
            },
            Err(fault) => Err(fault),
        }
    }

    // The further labels, each behind its comma.
    #[cycle(type_expr)]
    fn further_labelled(
        self,
        alloc: Global,
        depth: usize,
    ) -> Result<(Items<(Name, TypeExpr)>, Cursor<'a>), Fault>
        ensures { Gives result (further_labelled (type_read depth) (seen self.entry)) }
    {
        let mut items = Items::new(alloc);
        let mut rest = self;
        for _turn in 0..self.left() {
            if !rest.at(Kind::Comma) {
                return Ok((items, rest));
            }
            match rest.labelled_behind(alloc, depth) {
                Ok((labelled, after)) => {
                    match items.push(labelled) {
                        Ok(()) => rest = after,
                        Err(_) => return Err(Fault::Memory),
                    }
                }
                Err(fault) => return Err(fault),
            }
        }
        Ok((items, rest))
    }

    #[cycle(type_expr)]
    fn labelled_behind(
        self,
        alloc: Global,
        depth: usize,
    ) -> Result<((Name, TypeExpr), Cursor<'a>), Fault>
        ensures { Gives result (behind_kind kind.Comma (labelled_by (type_read depth)) (seen self.entry)) }
    {
        match self.expect(Kind::Comma) {
            Ok(rest) => rest.labelled(alloc, depth),
            Err(fault) => Err(fault),
        }
    }
}
