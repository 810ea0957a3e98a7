// Files and their items.
ghost use Rattle.std.specs.Prelude.{◌≡◌, ◌≤◌, true, false, ◌∷◌, [], IfOk, List, ℕ};
ghost use Rattle.rast_ast.specs.Kinds.{code};
ghost use Rattle.rast_ast.specs.declared.kind.Kind.TheVariants as kind;
ghost use Rattle.rast_parse.specs.Cursors.{seen};
ghost use Rattle.rast_parse.specs.Answer.{Gives};
ghost use Rattle.rast_forms.specs.Reading.{as_read, seq_read};
ghost use Rattle.rast_parse.specs.LinearReading.{lin_read};
ghost use Rattle.rast_parse.specs.FormulaReading.{behind_kind, form_read};
ghost use Rattle.rast_parse.specs.TypeReading.{type_read};
ghost use Rattle.rast_parse.specs.ProcessReading.{names_read, optional_by_read, proc_read};
ghost use Rattle.rast_parse.specs.FileReading.{params_read, channel_by, further_channels, uses_by, potential_by, premise_by, def_by, decl_by, heading_read, proc_item_by, context_by, sides_by, eq_by, exec_read, plain_item_by, item_read, items_read, file_read};

use crate::cursor::{Cursor, Fault};
use rast_ast::{By, Channel, File, Form, Item, Kind, Lin, Name, Proc, TypeExpr};
use sqlite_items::Items;
use std::alloc::{AllocError, Global};

impl<'a> Cursor<'a> {
    // A file whose parts are below at most `depth` open nonterminals.
    pub fn file(self, alloc: Global, depth: usize) -> Result<(File, Cursor<'a>), Fault>
        ensures { Gives result (file_read depth (seen self.entry)) }
    {
        if self.at(Kind::Explicit) {
            match self.expect(Kind::Explicit) {
                Ok(rest) => match rest.items(alloc, depth, true) {
                    Ok((items, rest)) => Ok((
                        File {
                            explicit: true,
                            items,
                        },
                        rest,
                    )),
                    Err(fault) => Err(fault),
                },
                Err(fault) => Err(fault),
            }
        } else {
            match self.items(alloc, depth, false) {
                Ok((items, rest)) => Ok((
                    File {
                        explicit: false,
                        items,
                    },
                    rest,
                )),
                Err(fault) => Err(fault),
            }
        }
    }

    fn items(
        self,
        alloc: Global,
        depth: usize,
        explicit: bool,
    ) -> Result<(Items<Item>, Cursor<'a>), Fault>
        ensures { Gives result (items_read explicit depth (seen self.entry)) }
    {
        let mut items = Items::new(alloc);
        let mut rest = self;
        for _turn in 0..self.left() {
            if !rest.at_any(&[Kind::Eq, Kind::Type, Kind::Decl, Kind::Proc, Kind::Exec]) {
                return Ok((items, rest));
            }
            match rest.item(alloc, depth, explicit) {
                Ok((item, after)) => {
                    match items.push(item) {
                        Ok(()) => rest = after,
                        Err(_) => return Err(Fault::Memory),
                    }
                }
                Err(fault) => return Err(fault),
            }
        }
        Ok((items, rest))
    }

    fn item(self, alloc: Global, depth: usize, explicit: bool) -> Result<(Item, Cursor<'a>), Fault>
        ensures { Gives result (item_read explicit depth (seen self.entry)) }
    {
        if explicit && self.at(Kind::Eq) {
            self.eq_item(alloc, depth, explicit)
        } else {
            self.plain_item(alloc, depth, explicit)
        }
    }

    // An item that any file may have.
    fn plain_item(
        self,
        alloc: Global,
        depth: usize,
        explicit: bool,
    ) -> Result<(Item, Cursor<'a>), Fault>
        ensures { Gives result (plain_item_by (lin_read false depth) (type_read depth) (proc_read explicit depth) (seen self.entry)) }
    {
        if self.at(Kind::Type) {
            self.def(alloc, depth)
        } else if self.at(Kind::Decl) {
            self.decl(alloc, depth)
        } else if self.at(Kind::Proc) {
            self.proc_item(alloc, depth, explicit)
        } else {
            match self.name_behind(alloc, Kind::Exec) {
                Ok((name, rest)) => Ok((Item::Exec { name }, rest)),
                Err(fault) => Err(fault),
            }
        }
    }

    fn def(self, alloc: Global, depth: usize) -> Result<(Item, Cursor<'a>), Fault>
        ensures { Gives result (def_by (type_read depth) (seen self.entry)) }
    {
        match self.expect(Kind::Type) {
            Ok(rest) => match rest.name(alloc) {
                Ok((name, rest)) => match rest.params_and_type(alloc, depth) {
                    Ok(((params, body), rest)) => Ok((Item::Def { name, params, body }, rest)),
                    Err(fault) => Err(fault),
                },
                Err(fault) => Err(fault),
            },
            Err(fault) => Err(fault),
        }
    }

    // Parameters, and a type behind `=`.
    fn params_and_type(
        self,
        alloc: Global,
        depth: usize,
    ) -> Result<((Items<Name>, TypeExpr), Cursor<'a>), Fault>
        ensures { Gives result (seq_read params_read (behind_kind kind.Equal (type_read depth)) (seen self.entry)) }
    {
        match self.params(alloc) {
            Ok((params, rest)) => match rest.side(alloc, depth, Kind::Equal) {
                Ok((body, rest)) => Ok(((params, body), rest)),
                Err(fault) => Err(fault),
            },
            Err(fault) => Err(fault),
        }
    }

    // A type behind a symbol.
    fn side(
        self,
        alloc: Global,
        depth: usize,
        symbol: Kind,
    ) -> Result<(TypeExpr, Cursor<'a>), Fault>
        requires { 2 ≤ code symbol }
        ensures { Gives result (behind_kind symbol (type_read depth) (seen self.entry)) }
    {
        match self.expect(symbol) {
            Ok(rest) => rest.type_expr(alloc, depth),
            Err(fault) => Err(fault),
        }
    }

    fn decl(self, alloc: Global, depth: usize) -> Result<(Item, Cursor<'a>), Fault>
        ensures { Gives result (decl_by (lin_read false depth) (type_read depth) (seen self.entry)) }
    {
        match self.expect(Kind::Decl) {
            Ok(rest) => match rest.name(alloc) {
                Ok((name, rest)) => match rest.params_and_sides(alloc, depth) {
                    Ok(((params, (used, (potential, provided))), rest)) => {
                        let decl = Item::Decl {
                            name,
                            params,
                            used,
                            potential,
                            provided,
                        };
                        Ok((decl, rest))
                    }
                    Err(fault) => Err(fault),
                },
                Err(fault) => Err(fault),
            },
            Err(fault) => Err(fault),
        }
    }

    // The parameters of a declaration, and what stands behind them.
    fn params_and_sides(
        self,
        alloc: Global,
        depth: usize,
    ) -> Result<
        (
            (Items<Name>, (Items<Channel>, (Option<Lin>, Channel))),
            Cursor<'a>,
        ),
        Fault,
    >
        ensures { Gives result (seq_read params_read (seq_read (behind_kind kind.Colon (uses_by (type_read depth))) (seq_read (behind_kind kind.Bar (potential_by (lin_read false depth))) (behind_kind kind.Minus (channel_by (type_read depth))))) (seen self.entry)) }
    {
        match self.params(alloc) {
            Ok((params, rest)) => match rest.used_and_provided(alloc, depth) {
                Ok((more, rest)) => Ok(((params, more), rest)),
                Err(fault) => Err(fault),
            },
            Err(fault) => Err(fault),
        }
    }

    // What a declaration uses, its potential, and what it provides.
    fn used_and_provided(
        self,
        alloc: Global,
        depth: usize,
    ) -> Result<((Items<Channel>, (Option<Lin>, Channel)), Cursor<'a>), Fault>
        ensures { Gives result (seq_read (behind_kind kind.Colon (uses_by (type_read depth))) (seq_read (behind_kind kind.Bar (potential_by (lin_read false depth))) (behind_kind kind.Minus (channel_by (type_read depth)))) (seen self.entry)) }
    {
        match self.expect(Kind::Colon) {
            Ok(rest) => match rest.uses(alloc, depth) {
                Ok((used, rest)) => match rest.turnstile(alloc, depth) {
                    Ok((more, rest)) => Ok(((used, more), rest)),
                    Err(fault) => Err(fault),
                },
                Err(fault) => Err(fault),
            },
            Err(fault) => Err(fault),
        }
    }

    // The potential of a declaration, and what it provides.
    fn turnstile(
        self,
        alloc: Global,
        depth: usize,
    ) -> Result<((Option<Lin>, Channel), Cursor<'a>), Fault>
        ensures { Gives result (seq_read (behind_kind kind.Bar (potential_by (lin_read false depth))) (behind_kind kind.Minus (channel_by (type_read depth))) (seen self.entry)) }
    {
        match self.expect(Kind::Bar) {
            Ok(rest) => match rest.potential(alloc, depth) {
                Ok((potential, rest)) => match rest.provided(alloc, depth) {
                    Ok((channel, rest)) => Ok(((potential, channel), rest)),
                    Err(fault) => {
                        drop(potential);
                        Err(fault)
                    }
                },
                Err(fault) => Err(fault),
            },
            Err(fault) => Err(fault),
        }
    }

    // The channel that a declaration provides.
    fn provided(self, alloc: Global, depth: usize) -> Result<(Channel, Cursor<'a>), Fault>
        ensures { Gives result (behind_kind kind.Minus (channel_by (type_read depth)) (seen self.entry)) }
    {
        match self.expect(Kind::Minus) {
            Ok(rest) => rest.channel(alloc, depth),
            Err(fault) => Err(fault),
        }
    }

    fn proc_item(
        self,
        alloc: Global,
        depth: usize,
        explicit: bool,
    ) -> Result<(Item, Cursor<'a>), Fault>
        ensures { Gives result (proc_item_by (proc_read explicit depth) (seen self.entry)) }
    {
        match self.expect(Kind::Proc) {
            Ok(rest) => match rest.heading(alloc) {
                Ok(((provided, name), rest)) => match rest.params_and_body(alloc, depth, explicit) {
                    Ok(((params, (used, body)), rest)) => {
                        let item = Item::Proc {
                            channel: provided,
                            name,
                            params,
                            used,
                            body,
                        };
                        Ok((item, rest))
                    }
                    Err(fault) => Err(fault),
                },
                Err(fault) => Err(fault),
            },
            Err(fault) => Err(fault),
        }
    }

    // The parameters of a process, the channels that it uses, and its body.
    fn params_and_body(
        self,
        alloc: Global,
        depth: usize,
        explicit: bool,
    ) -> Result<((Items<Name>, (Items<Name>, Proc)), Cursor<'a>), Fault>
        ensures { Gives result (seq_read params_read (seq_read names_read (behind_kind kind.Equal (proc_read explicit depth))) (seen self.entry)) }
    {
        match self.params(alloc) {
            Ok((params, rest)) => match rest.names_and_body(alloc, depth, explicit) {
                Ok((more, rest)) => Ok(((params, more), rest)),
                Err(fault) => Err(fault),
            },
            Err(fault) => Err(fault),
        }
    }

    // The channels that a process uses, and its body.
    fn names_and_body(
        self,
        alloc: Global,
        depth: usize,
        explicit: bool,
    ) -> Result<((Items<Name>, Proc), Cursor<'a>), Fault>
        ensures { Gives result (seq_read names_read (behind_kind kind.Equal (proc_read explicit depth)) (seen self.entry)) }
    {
        match self.names(alloc) {
            Ok((used, rest)) => match rest.expect(Kind::Equal) {
                Ok(rest) => match rest.proc(alloc, depth, explicit) {
                    Ok((body, rest)) => Ok(((used, body), rest)),
                    Err(fault) => Err(fault),
                },
                Err(fault) => Err(fault),
            },
            Err(fault) => Err(fault),
        }
    }

    // The channel that a process provides, and its name.
    fn heading(self, alloc: Global) -> Result<((Name, Name), Cursor<'a>), Fault>
        ensures { Gives result (heading_read (seen self.entry)) }
    {
        match self.name(alloc) {
            Ok((channel, rest)) => match rest.name_behind(alloc, Kind::LeftArrow) {
                Ok((name, rest)) => Ok(((channel, name), rest)),
                Err(fault) => Err(fault),
            },
            Err(fault) => Err(fault),
        }
    }

    // An equation, where the file is explicit.
    fn eq_item(
        self,
        alloc: Global,
        depth: usize,
        explicit: bool,
    ) -> Result<(Item, Cursor<'a>), Fault>
        ensures { Gives result (eq_by explicit (lin_read false depth) (form_read depth) (type_read depth) (seen self.entry)) }
    {
        match self.expect(Kind::Eq) {
            Ok(rest) => match rest.context(alloc, depth) {
                Ok(((params, premise), rest)) => match rest.equated(alloc, depth, explicit) {
                    Ok((((left, right), by), rest)) => {
                        let item = Item::Eq {
                            params,
                            premise,
                            left,
                            right,
                            by,
                        };
                        Ok((item, rest))
                    }
                    Err(fault) => {
                        drop(premise);
                        Err(fault)
                    }
                },
                Err(fault) => Err(fault),
            },
            Err(fault) => Err(fault),
        }
    }

    // The two types of an equation, and `by` and its references behind them.
    fn equated(
        self,
        alloc: Global,
        depth: usize,
        explicit: bool,
    ) -> Result<(((TypeExpr, TypeExpr), Option<By>), Cursor<'a>), Fault>
        ensures { Gives result (seq_read (sides_by (type_read depth)) (optional_by_read explicit (lin_read false depth)) (seen self.entry)) }
    {
        match self.sides(alloc, depth) {
            Ok(((left, right), rest)) => match rest.optional_by(alloc, depth, explicit) {
                Ok((by, rest)) => Ok((((left, right), by), rest)),
                Err(fault) => {
                    drop(left);
                    drop(right);
                    Err(fault)
                }
            },
            Err(fault) => Err(fault),
        }
    }

    // The parameters of an equation and its premise.
    fn context(
        self,
        alloc: Global,
        depth: usize,
    ) -> Result<((Items<Name>, Option<Form>), Cursor<'a>), Fault>
        ensures { Gives result (context_by (form_read depth) (seen self.entry)) }
    {
        match self.params(alloc) {
            Ok((params, rest)) => match rest.premise(alloc, depth) {
                Ok((premise, rest)) => Ok(((params, premise), rest)),
                Err(fault) => Err(fault),
            },
            Err(fault) => Err(fault),
        }
    }

    // The two types of an equation, with the symbol before each.
    fn sides(self, alloc: Global, depth: usize) -> Result<((TypeExpr, TypeExpr), Cursor<'a>), Fault>
        ensures { Gives result (sides_by (type_read depth) (seen self.entry)) }
    {
        match self.side(alloc, depth, Kind::Colon) {
            Ok((left, rest)) => match rest.side(alloc, depth, Kind::Equal) {
                Ok((right, rest)) => Ok(((left, right), rest)),
                Err(fault) => {
                    drop(left);
                    Err(fault)
                }
            },
            Err(fault) => Err(fault),
        }
    }

    // The parameters behind a name, each in braces.
    fn params(self, alloc: Global) -> Result<(Items<Name>, Cursor<'a>), Fault>
        ensures { Gives result (params_read (seen self.entry)) }
    {
        let mut items = Items::new(alloc);
        let mut rest = self;
        for _turn in 0..self.left() {
            if !rest.at(Kind::OpenBrace) {
                return Ok((items, rest));
            }
            match rest.braced_name(alloc) {
                Ok((name, after)) => {
                    match items.push(name) {
                        Ok(()) => rest = after,
                        Err(_) => return Err(Fault::Memory),
                    }
                }
                Err(fault) => return Err(fault),
            }
        }
        Ok((items, rest))
    }

    fn channel(self, alloc: Global, depth: usize) -> Result<(Channel, Cursor<'a>), Fault>
        ensures { Gives result (channel_by (type_read depth) (seen self.entry)) }
    {
        match self.expect(Kind::OpenParen) {
            Ok(rest) => match rest.labelled(alloc, depth) {
                Ok(((name, body), rest)) => match rest.expect(Kind::CloseParen) {
                    Ok(rest) => Ok((Channel { name, body }, rest)),
                    Err(fault) => {
                        drop(body);
                        Err(fault)
                    }
                },
                Err(fault) => Err(fault),
            },
            Err(fault) => Err(fault),
        }
    }

    // The channels that a declaration uses: `.` for none.
    fn uses(self, alloc: Global, depth: usize) -> Result<(Items<Channel>, Cursor<'a>), Fault>
        ensures { Gives result (uses_by (type_read depth) (seen self.entry)) }
    {
        if self.at(Kind::Dot) {
            return match self.expect(Kind::Dot) {
                Ok(rest) => Ok((Items::new(alloc), rest)),
                Err(fault) => Err(fault),
            };
        }
        match self.channel(alloc, depth) {
            Ok((first, rest)) => rest.further_channels(alloc, depth, first),
            Err(fault) => Err(fault),
        }
    }

    // A channel and the further ones behind it.
    fn further_channels(
        self,
        alloc: Global,
        depth: usize,
        first: Channel,
    ) -> Result<(Items<Channel>, Cursor<'a>), Fault>
        ensures { Gives result (as_read (λ cs. first ∷ cs) (further_channels (type_read depth)) (seen self.entry)) }
    {
        let mut items = one_channel(alloc, first)?;
        let mut rest = self;
        for _turn in 0..self.left() {
            if !rest.at(Kind::OpenParen) {
                return Ok((items, rest));
            }
            match rest.channel(alloc, depth) {
                Ok((channel, after)) => {
                    match items.push(channel) {
                        Ok(()) => rest = after,
                        Err(_) => return Err(Fault::Memory),
                    }
                }
                Err(fault) => return Err(fault),
            }
        }
        Ok((items, rest))
    }

    fn potential(self, alloc: Global, depth: usize) -> Result<(Option<Lin>, Cursor<'a>), Fault>
        ensures { Gives result (potential_by (lin_read false depth) (seen self.entry)) }
    {
        if self.at(Kind::OpenBrace) {
            match self.braced(alloc, depth) {
                Ok((sum, rest)) => Ok((Some(sum), rest)),
                Err(fault) => Err(fault),
            }
        } else {
            Ok((None, self))
        }
    }

    fn premise(self, alloc: Global, depth: usize) -> Result<(Option<Form>, Cursor<'a>), Fault>
        ensures { Gives result (premise_by (form_read depth) (seen self.entry)) }
    {
        if self.at(Kind::If) {
            match self.expect(Kind::If) {
                Ok(rest) => match rest.form(alloc, depth) {
                    Ok((form, rest)) => Ok((Some(form), rest)),
                    Err(fault) => Err(fault),
                },
                Err(fault) => Err(fault),
            }
        } else {
            Ok((None, self))
        }
    }
}

// The list of one channel.
fn one_channel(alloc: Global, first: Channel) -> Result<Items<Channel>, AllocError>
    ensures { IfOk result (λ items. items ≡ first ∷ []) }
{
    let mut items = Items::new(alloc);
    match items.push(first) {
        Ok(()) => Ok(items),
        Err(error) => Err(error),
    }
}
