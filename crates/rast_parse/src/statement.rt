// References to equations, and the statements of process terms.
ghost use Rattle.std.specs.Prelude.{◌≡◌, ◌-◌, ◌≤◌, true, false, length, List, ℕ};
ghost use Rattle.rast_ast.specs.Kinds.{code};
ghost use Rattle.rast_parse.specs.Cursors.{seen};
ghost use Rattle.rast_parse.specs.Answer.{Gives};
ghost use Rattle.rast_forms.specs.Reading.{seq_read, as_read};
ghost use Rattle.rast_ast.specs.declared.kind.Kind.TheVariants as kind;
ghost use Rattle.rast_parse.specs.LinearReading.{lin_read, name_read};
ghost use Rattle.rast_parse.specs.FormulaReading.{behind_kind};
ghost use Rattle.rast_parse.specs.TypeReading.{args_read, before_kind, braced_read};
ghost use Rattle.rast_parse.specs.ProcessReading.{names_read, ref_by, further_refs, by_by, optional_by_read, label_by, forward_by, recv_by, spawn_by, arrow_by, after_name, named_statement, sent_by, send_by, bind_read, wait_read, work_by, delay_by, close_read, assert_read, assume_read, pay_read, get_read, impossible_read, explicit_read};

use crate::cursor::{Cursor, Fault};
use rast_ast::{By, End, Kind, Lin, Name, Ref, Step};
use sqlite_items::Items;
use std::alloc::Global;

/// A step of a process term, or its end. A spawn may be either.
#[derive(Drop)]
pub(crate) enum Statement {
    Step(Step),
    End(End),
}

impl<'a> Cursor<'a> {
    // Any number of names.
    pub fn names(self, alloc: Global) -> Result<(Items<Name>, Cursor<'a>), Fault>
        ensures { Gives result (names_read (seen self.entry)) }
    {
        let mut items = Items::new(alloc);
        let mut rest = self;
        for _turn in 0..self.left() {
            if !rest.at(Kind::Name) {
                return Ok((items, rest));
            }
            match rest.name(alloc) {
                Ok((name, after)) => {
                    match items.push(name) {
                        Ok(()) => rest = after,
                        Err(_) => return Err(Fault::Memory),
                    }
                }
                Err(fault) => return Err(fault),
            }
        }
        Ok((items, rest))
    }

    // A reference to an equation.
    fn reference(self, alloc: Global, depth: usize) -> Result<(Ref, Cursor<'a>), Fault>
        ensures { Gives result (ref_by (lin_read false depth) (seen self.entry)) }
    {
        if self.at(Kind::Refl) {
            match self.expect(Kind::Refl) {
                Ok(rest) => Ok((Ref::Refl, rest)),
                Err(fault) => Err(fault),
            }
        } else {
            match self.number() {
                Ok((number, rest)) => match rest.args(alloc, depth) {
                    Ok((args, rest)) => Ok((Ref::Equation(number, args), rest)),
                    Err(fault) => Err(fault),
                },
                Err(fault) => Err(fault),
            }
        }
    }

    fn further_reference(self, alloc: Global, depth: usize) -> Result<(Ref, Cursor<'a>), Fault>
        ensures { Gives result (behind_kind kind.Comma (ref_by (lin_read false depth)) (seen self.entry)) }
    {
        match self.expect(Kind::Comma) {
            Ok(rest) => rest.reference(alloc, depth),
            Err(fault) => Err(fault),
        }
    }

    // The further references, each behind its comma.
    fn further_references(
        self,
        alloc: Global,
        depth: usize,
    ) -> Result<(Items<Ref>, Cursor<'a>), Fault>
        ensures { Gives result (further_refs (lin_read false depth) (seen self.entry)) }
    {
        let mut items = Items::new(alloc);
        let mut rest = self;
        for _turn in 0..self.left() {
            if !rest.at(Kind::Comma) {
                return Ok((items, rest));
            }
            match rest.further_reference(alloc, depth) {
                Ok((reference, after)) => {
                    match items.push(reference) {
                        Ok(()) => rest = after,
                        Err(_) => return Err(Fault::Memory),
                    }
                }
                Err(fault) => return Err(fault),
            }
        }
        Ok((items, rest))
    }

    // `by` and its references.
    fn by(self, alloc: Global, depth: usize) -> Result<(By, Cursor<'a>), Fault>
        ensures { Gives result (by_by (lin_read false depth) (seen self.entry)) }
    {
        match self.reference_behind(alloc, depth) {
            Ok((first, rest)) => match rest.further_references(alloc, depth) {
                Ok((further, rest)) => Ok((
                    By {
                        first,
                        rest: further,
                    },
                    rest,
                )),
                Err(fault) => {
                    drop(first);
                    Err(fault)
                }
            },
            Err(fault) => Err(fault),
        }
    }

    fn reference_behind(self, alloc: Global, depth: usize) -> Result<(Ref, Cursor<'a>), Fault>
        ensures { Gives result (behind_kind kind.By (ref_by (lin_read false depth)) (seen self.entry)) }
    {
        match self.expect(Kind::By) {
            Ok(rest) => rest.reference(alloc, depth),
            Err(fault) => Err(fault),
        }
    }

    // `by` and its references, if they come and the file is explicit.
    pub fn optional_by(
        self,
        alloc: Global,
        depth: usize,
        explicit: bool,
    ) -> Result<(Option<By>, Cursor<'a>), Fault>
        ensures { Gives result (optional_by_read explicit (lin_read false depth) (seen self.entry)) }
    {
        if explicit && self.at(Kind::By) {
            match self.by(alloc, depth) {
                Ok((by, rest)) => Ok((Some(by), rest)),
                Err(fault) => Err(fault),
            }
        } else {
            Ok((None, self))
        }
    }

    // A statement that begins with a name.
    pub fn named_statement(
        self,
        alloc: Global,
        depth: usize,
        explicit: bool,
    ) -> Result<(Statement, Cursor<'a>), Fault>
        ensures { Gives result (named_statement explicit (lin_read false depth) (seen self.entry)) }
    {
        match self.name(alloc) {
            Ok((channel, rest)) => rest.after_name(alloc, depth, explicit, channel),
            Err(fault) => Err(fault),
        }
    }

    fn after_name(
        self,
        alloc: Global,
        depth: usize,
        explicit: bool,
        channel: Name,
    ) -> Result<(Statement, Cursor<'a>), Fault>
        ensures { Gives result (after_name explicit (lin_read false depth) channel (seen self.entry)) }
    {
        if self.at(Kind::Dot) {
            match self.name_behind(alloc, Kind::Dot) {
                Ok((label, rest)) => Ok((Statement::Step(Step::Label { channel, label }), rest)),
                Err(fault) => Err(fault),
            }
        } else if self.at(Kind::Forward) {
            self.forward(alloc, depth, explicit, channel)
        } else {
            match self.expect(Kind::LeftArrow) {
                Ok(rest) => rest.arrow(alloc, depth, explicit, channel),
                Err(fault) => Err(fault),
            }
        }
    }

    fn forward(
        self,
        alloc: Global,
        depth: usize,
        explicit: bool,
        channel: Name,
    ) -> Result<(Statement, Cursor<'a>), Fault>
        ensures { Gives result (forward_by explicit (lin_read false depth) channel (seen self.entry)) }
    {
        match self.expect(Kind::Forward) {
            Ok(rest) => match rest.name_and_reason(alloc, depth, explicit) {
                Ok(((other, by), rest)) => {
                    Ok((Statement::End(End::Forward { channel, other, by }), rest))
                }
                Err(fault) => Err(fault),
            },
            Err(fault) => Err(fault),
        }
    }

    // A name, and `by` and its references behind it.
    fn name_and_reason(
        self,
        alloc: Global,
        depth: usize,
        explicit: bool,
    ) -> Result<((Name, Option<By>), Cursor<'a>), Fault>
        ensures { Gives result (seq_read name_read (optional_by_read explicit (lin_read false depth)) (seen self.entry)) }
    {
        match self.name(alloc) {
            Ok((name, rest)) => match rest.optional_by(alloc, depth, explicit) {
                Ok((by, rest)) => Ok(((name, by), rest)),
                Err(fault) => Err(fault),
            },
            Err(fault) => Err(fault),
        }
    }

    // What stands behind a name and `<-`.
    fn arrow(
        self,
        alloc: Global,
        depth: usize,
        explicit: bool,
        bound: Name,
    ) -> Result<(Statement, Cursor<'a>), Fault>
        ensures { Gives result (arrow_by explicit (lin_read false depth) bound (seen self.entry)) }
    {
        if self.at(Kind::Recv) {
            match self.name_behind(alloc, Kind::Recv) {
                Ok((channel, rest)) => Ok((Statement::Step(Step::Recv { bound, channel }), rest)),
                Err(fault) => Err(fault),
            }
        } else {
            self.spawn(alloc, depth, explicit, bound)
        }
    }

    fn spawn(
        self,
        alloc: Global,
        depth: usize,
        explicit: bool,
        bound: Name,
    ) -> Result<(Statement, Cursor<'a>), Fault>
        ensures { Gives result (spawn_by explicit (lin_read false depth) bound (seen self.entry)) }
    {
        match self.name(alloc) {
            Ok((name, rest)) => match rest.operands(alloc, depth, explicit) {
                Ok(((args, (used, by)), rest)) => {
                    let spawn = Step::Spawn {
                        bound,
                        name,
                        args,
                        used,
                        by,
                    };
                    Ok((Statement::Step(spawn), rest))
                }
                Err(fault) => Err(fault),
            },
            Err(fault) => Err(fault),
        }
    }

    // What stands behind the name of a process that is spawned.
    fn operands(
        self,
        alloc: Global,
        depth: usize,
        explicit: bool,
    ) -> Result<((Items<Lin>, (Items<Name>, Option<By>)), Cursor<'a>), Fault>
        ensures { Gives result (seq_read (args_read (lin_read false depth)) (seq_read names_read (optional_by_read explicit (lin_read false depth))) (seen self.entry)) }
    {
        match self.args(alloc, depth) {
            Ok((args, rest)) => match rest.names_and_reason(alloc, depth, explicit) {
                Ok((more, rest)) => Ok(((args, more), rest)),
                Err(fault) => Err(fault),
            },
            Err(fault) => Err(fault),
        }
    }

    // Any number of names, and `by` and its references behind them.
    fn names_and_reason(
        self,
        alloc: Global,
        depth: usize,
        explicit: bool,
    ) -> Result<((Items<Name>, Option<By>), Cursor<'a>), Fault>
        ensures { Gives result (seq_read names_read (optional_by_read explicit (lin_read false depth)) (seen self.entry)) }
    {
        match self.names(alloc) {
            Ok((used, rest)) => match rest.optional_by(alloc, depth, explicit) {
                Ok((by, rest)) => Ok(((used, by), rest)),
                Err(fault) => Err(fault),
            },
            Err(fault) => Err(fault),
        }
    }

    pub fn send(
        self,
        alloc: Global,
        depth: usize,
        explicit: bool,
    ) -> Result<(Statement, Cursor<'a>), Fault>
        ensures { Gives result (send_by explicit (lin_read false depth) (seen self.entry)) }
    {
        match self.expect(Kind::Send) {
            Ok(rest) => match rest.name(alloc) {
                Ok((channel, rest)) => rest.sent(alloc, depth, explicit, channel),
                Err(fault) => Err(fault),
            },
            Err(fault) => Err(fault),
        }
    }

    // What is sent: a channel or an index.
    fn sent(
        self,
        alloc: Global,
        depth: usize,
        explicit: bool,
        channel: Name,
    ) -> Result<(Statement, Cursor<'a>), Fault>
        ensures { Gives result (sent_by explicit (lin_read false depth) channel (seen self.entry)) }
    {
        if self.at(Kind::Name) {
            match self.name_and_reason(alloc, depth, explicit) {
                Ok(((sent, by), rest)) => {
                    Ok((Statement::Step(Step::Send { channel, sent, by }), rest))
                }
                Err(fault) => Err(fault),
            }
        } else {
            match self.braced(alloc, depth) {
                Ok((value, rest)) => Ok((Statement::Step(Step::Index { channel, value }), rest)),
                Err(fault) => Err(fault),
            }
        }
    }

    pub fn bind(self, alloc: Global) -> Result<(Statement, Cursor<'a>), Fault>
        ensures { Gives result (bind_read (seen self.entry)) }
    {
        match self.braced_name(alloc) {
            Ok((bound, rest)) => match rest.received(alloc) {
                Ok((channel, rest)) => Ok((Statement::Step(Step::Bind { bound, channel }), rest)),
                Err(fault) => Err(fault),
            },
            Err(fault) => Err(fault),
        }
    }

    // The channel behind `<- recv`.
    fn received(self, alloc: Global) -> Result<(Name, Cursor<'a>), Fault>
        ensures { Gives result (behind_kind kind.LeftArrow (behind_kind kind.Recv name_read) (seen self.entry)) }
    {
        match self.expect(Kind::LeftArrow) {
            Ok(rest) => rest.name_behind(alloc, Kind::Recv),
            Err(fault) => Err(fault),
        }
    }

    // A name behind a keyword or symbol.
    pub fn name_behind(self, alloc: Global, kind: Kind) -> Result<(Name, Cursor<'a>), Fault>
        requires { 2 ≤ code kind }
        ensures { Gives result (behind_kind kind name_read (seen self.entry)) }
    {
        match self.expect(kind) {
            Ok(rest) => rest.name(alloc),
            Err(fault) => Err(fault),
        }
    }

    // A name before a keyword or symbol.
    pub fn name_before(self, alloc: Global, kind: Kind) -> Result<(Name, Cursor<'a>), Fault>
        requires { 2 ≤ code kind }
        ensures { Gives result (before_kind kind name_read (seen self.entry)) }
    {
        match self.name(alloc) {
            Ok((name, rest)) => match rest.expect(kind) {
                Ok(rest) => Ok((name, rest)),
                Err(fault) => Err(fault),
            },
            Err(fault) => Err(fault),
        }
    }

    // A name in braces.
    pub fn braced_name(self, alloc: Global) -> Result<(Name, Cursor<'a>), Fault>
        ensures { Gives result (braced_read name_read (seen self.entry)) }
    {
        match self.expect(Kind::OpenBrace) {
            Ok(rest) => match rest.name(alloc) {
                Ok((name, rest)) => match rest.expect(Kind::CloseBrace) {
                    Ok(rest) => Ok((name, rest)),
                    Err(fault) => Err(fault),
                },
                Err(fault) => Err(fault),
            },
            Err(fault) => Err(fault),
        }
    }

    pub fn wait(self, alloc: Global) -> Result<(Statement, Cursor<'a>), Fault>
        ensures { Gives result (wait_read (seen self.entry)) }
    {
        match self.name_behind(alloc, Kind::Wait) {
            Ok((channel, rest)) => Ok((Statement::Step(Step::Wait(channel)), rest)),
            Err(fault) => Err(fault),
        }
    }

    pub fn work(self, alloc: Global, depth: usize) -> Result<(Statement, Cursor<'a>), Fault>
        ensures { Gives result (work_by (lin_read false depth) (seen self.entry)) }
    {
        match self.expect(Kind::Work) {
            Ok(rest) => match rest.braced(alloc, depth) {
                Ok((amount, rest)) => Ok((Statement::Step(Step::Work(amount)), rest)),
                Err(fault) => Err(fault),
            },
            Err(fault) => Err(fault),
        }
    }

    pub fn delay(self, alloc: Global, depth: usize) -> Result<(Statement, Cursor<'a>), Fault>
        ensures { Gives result (delay_by (lin_read false depth) (seen self.entry)) }
    {
        match self.expect(Kind::Delay) {
            Ok(rest) => match rest.braced(alloc, depth) {
                Ok((time, rest)) => Ok((Statement::Step(Step::Delay(time)), rest)),
                Err(fault) => Err(fault),
            },
            Err(fault) => Err(fault),
        }
    }

    pub fn close(self, alloc: Global) -> Result<(Statement, Cursor<'a>), Fault>
        ensures { Gives result (close_read (seen self.entry)) }
    {
        match self.name_behind(alloc, Kind::Close) {
            Ok((channel, rest)) => Ok((Statement::End(End::Close(channel)), rest)),
            Err(fault) => Err(fault),
        }
    }

    // A statement that only an explicit file has.
    pub fn explicit_statement(self, alloc: Global) -> Result<(Statement, Cursor<'a>), Fault>
        ensures { Gives result (explicit_read (seen self.entry)) }
    {
        if self.at(Kind::Assert) {
            self.assertion(alloc)
        } else if self.at(Kind::Assume) {
            self.assumption(alloc)
        } else if self.at(Kind::Pay) {
            self.pay(alloc)
        } else if self.at(Kind::Get) {
            self.get(alloc)
        } else {
            match self.expect(Kind::Impossible) {
                Ok(rest) => Ok((Statement::End(End::Impossible), rest)),
                Err(fault) => Err(fault),
            }
        }
    }

    fn assertion(self, alloc: Global) -> Result<(Statement, Cursor<'a>), Fault>
        ensures { Gives result (assert_read (seen self.entry)) }
    {
        match self.name_behind(alloc, Kind::Assert) {
            Ok((channel, rest)) => Ok((Statement::Step(Step::Assert(channel)), rest)),
            Err(fault) => Err(fault),
        }
    }

    fn assumption(self, alloc: Global) -> Result<(Statement, Cursor<'a>), Fault>
        ensures { Gives result (assume_read (seen self.entry)) }
    {
        match self.name_behind(alloc, Kind::Assume) {
            Ok((channel, rest)) => Ok((Statement::Step(Step::Assume(channel)), rest)),
            Err(fault) => Err(fault),
        }
    }

    fn pay(self, alloc: Global) -> Result<(Statement, Cursor<'a>), Fault>
        ensures { Gives result (pay_read (seen self.entry)) }
    {
        match self.name_behind(alloc, Kind::Pay) {
            Ok((channel, rest)) => Ok((Statement::Step(Step::Pay(channel)), rest)),
            Err(fault) => Err(fault),
        }
    }

    fn get(self, alloc: Global) -> Result<(Statement, Cursor<'a>), Fault>
        ensures { Gives result (get_read (seen self.entry)) }
    {
        match self.name_behind(alloc, Kind::Get) {
            Ok((channel, rest)) => Ok((Statement::Step(Step::Get(channel)), rest)),
            Err(fault) => Err(fault),
        }
    }
}
