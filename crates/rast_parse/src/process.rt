// Process terms.
ghost use Rattle.std.specs.Prelude.{◌≡◌, ◌-◌, ◌&&◌, ◌||◌, true, false, length, List, ℕ};
ghost use Rattle.rast_parse.specs.Cursors.{seen};
ghost use Rattle.rast_parse.specs.Answer.{Gives, limit_fault};
ghost use Rattle.rast_forms.specs.Words.{starts};
ghost use Rattle.rast_forms.specs.Reading.{Done, choice_read, seq_read};
ghost use Rattle.rast_ast.specs.declared.kind.Kind.TheVariants as kind;
ghost use Rattle.rast_parse.specs.LinearReading.{is, lin_read};
ghost use Rattle.rast_parse.specs.FormulaReading.{behind_kind};
ghost use Rattle.rast_parse.specs.TypeReading.{between_kinds};
ghost use Rattle.rast_parse.specs.ProcessReading.{branch_by, further_branches, case_by, close_read, delay_by, work_by, explicit_first, plain_first, plain_by, statement_by, last_read, proc_by, proc_read};

use crate::cursor::{Cursor, Fault};
use crate::statement::Statement;
use rast_ast::{Branch, End, Kind, Proc, Step};
use sqlite_items::{Boxed, Items};
use std::alloc::Global;

impl<'a> Cursor<'a> {
    // A process term, below at most `depth` open nonterminals, itself counted.
    #[cycle(process)]
    pub fn proc(
        self,
        alloc: Global,
        depth: usize,
        explicit: bool,
    ) -> Result<(Proc, Cursor<'a>), Fault>
        ensures { Gives result (proc_read explicit depth (seen self.entry)) }
    {
        if depth == 0 {
            return Err(self.proc_limit(explicit));
        }
        self.proc_below(alloc, depth - 1, explicit)
    }

    // Why no process term may begin where none may open.
    fn proc_limit(self, explicit: bool) -> Fault
        ensures { result ≡ limit_fault ((explicit && starts explicit_first (seen self.entry)) || starts plain_first (seen self.entry)) (length (seen self.entry)) }
    {
        if explicit && self.at_explicit() || self.at_plain() {
            Fault::TooDeep(self.left())
        } else {
            self.wrong()
        }
    }

    // Whether a statement comes that only an explicit file has.
    fn at_explicit(self) -> bool
        ensures { result ≡ starts explicit_first (seen self.entry) }
    {
        self.at_any(&[
            Kind::Assert,
            Kind::Assume,
            Kind::Pay,
            Kind::Get,
            Kind::Impossible,
        ])
    }

    // Whether one comes that any file may have.
    fn at_plain(self) -> bool
        ensures { result ≡ starts plain_first (seen self.entry) }
    {
        self.at_any(&[
            Kind::Name,
            Kind::Send,
            Kind::OpenBrace,
            Kind::Wait,
            Kind::Work,
            Kind::Delay,
            Kind::Close,
            Kind::Case,
        ])
    }

    // A process term whose parts are below at most `depth` open ones.
    #[cycle(process)]
    fn proc_below(
        self,
        alloc: Global,
        depth: usize,
        explicit: bool,
    ) -> Result<(Proc, Cursor<'a>), Fault>
        ensures { Gives result (proc_by explicit (lin_read false depth) (proc_read explicit depth) (seen self.entry)) }
    {
        let mut steps = Items::new(alloc);
        let mut rest = self;
        for _turn in 0..self.left() {
            match rest.statement(alloc, depth, explicit) {
                Ok((statement, after)) => match statement {
                    Statement::End(end) => return after.ended(alloc, steps, end),
                    Statement::Step(step) => {
                        if !after.at(Kind::Semicolon) {
                            return after.last(alloc, steps, step);
                        }
                        match steps.push(step) {
                            Ok(()) => rest = after.after(),
                            Err(_) => return Err(Fault::Memory),
                        }
                    }
                },
                Err(fault) => return Err(fault),
            }
        }
        Err(rest.wrong())
    }

    // The process term of these steps and this end, all of it read.
    fn ended(self, alloc: Global, steps: Items<Step>, end: End) -> Result<(Proc, Cursor<'a>), Fault>
        ensures { Gives result (Done (record { steps = steps; end = end }) (seen self.entry)) }
    {
        match Boxed::new(alloc, end) {
            Ok(end) => Ok((Proc { steps, end }, self)),
            Err(_) => Err(Fault::Memory),
        }
    }

    // The process term of these steps and one that no `;` follows: a spawn there is a call.
    fn last(
        self,
        alloc: Global,
        steps: Items<Step>,
        step: Step,
    ) -> Result<(Proc, Cursor<'a>), Fault>
        ensures { Gives result (last_read steps step (seen self.entry)) }
    {
        match step {
            Step::Spawn {
                bound,
                name,
                args,
                used,
                by,
            } => {
                let call = End::Call {
                    channel: bound,
                    name,
                    args,
                    used,
                    by,
                };
                let end = Boxed::new(alloc, call)?;
                Ok((Proc { steps, end }, self))
            }
            _ => {
                drop(step);
                drop(steps);
                Err(self.wrong())
            }
        }
    }

    #[cycle(process)]
    fn statement(
        self,
        alloc: Global,
        depth: usize,
        explicit: bool,
    ) -> Result<(Statement, Cursor<'a>), Fault>
        ensures { Gives result (statement_by explicit (lin_read false depth) (proc_read explicit depth) (seen self.entry)) }
    {
        if explicit && self.at_explicit() {
            self.explicit_statement(alloc)
        } else {
            self.plain_statement(alloc, depth, explicit)
        }
    }

    // A statement that any file may have.
    #[cycle(process)]
    fn plain_statement(
        self,
        alloc: Global,
        depth: usize,
        explicit: bool,
    ) -> Result<(Statement, Cursor<'a>), Fault>
        ensures { Gives result (plain_by explicit (lin_read false depth) (proc_read explicit depth) (seen self.entry)) }
    {
        if self.at(Kind::Name) {
            self.named_statement(alloc, depth, explicit)
        } else if self.at(Kind::Send) {
            self.send(alloc, depth, explicit)
        } else if self.at(Kind::OpenBrace) {
            self.bind(alloc)
        } else if self.at(Kind::Wait) {
            self.wait(alloc)
        } else {
            self.other_statement(alloc, depth, explicit)
        }
    }

    // One that begins with `work`, `delay`, `close` or `case`.
    #[cycle(process)]
    fn other_statement(
        self,
        alloc: Global,
        depth: usize,
        explicit: bool,
    ) -> Result<(Statement, Cursor<'a>), Fault>
        ensures { Gives result (choice_read (is kind.Work) (work_by (lin_read false depth)) (choice_read (is kind.Delay) (delay_by (lin_read false depth)) (choice_read (is kind.Close) close_read (case_by (proc_read explicit depth)))) (seen self.entry)) }
    {
        if self.at(Kind::Work) {
            self.work(alloc, depth)
        } else if self.at(Kind::Delay) {
            self.delay(alloc, depth)
        } else if self.at(Kind::Close) {
            self.close(alloc)
        } else {
            self.case(alloc, depth, explicit)
        }
    }

    #[cycle(process)]
    fn case(
        self,
        alloc: Global,
        depth: usize,
        explicit: bool,
    ) -> Result<(Statement, Cursor<'a>), Fault>
        ensures { Gives result (case_by (proc_read explicit depth) (seen self.entry)) }
    {
        match self.expect(Kind::Case) {
            Ok(rest) => match rest.name(alloc) {
                Ok((channel, rest)) => match rest.branches(alloc, depth, explicit) {
                    Ok(((first, further), rest)) => {
                        let case = End::Case {
                            channel,
                            first,
                            rest: further,
                        };
                        Ok((Statement::End(case), rest))
                    }
                    Err(fault) => Err(fault),
                },
                Err(fault) => Err(fault),
            },
            Err(fault) => Err(fault),
        }
    }

    // The branches of a case, in parentheses.
    #[cycle(process)]
    fn branches(
        self,
        alloc: Global,
        depth: usize,
        explicit: bool,
    ) -> Result<((Branch, Items<Branch>), Cursor<'a>), Fault>
        ensures { Gives result (between_kinds kind.OpenParen kind.CloseParen (seq_read (branch_by (proc_read explicit depth)) (further_branches (proc_read explicit depth))) (seen self.entry)) }
    {
        match self.expect(Kind::OpenParen) {
            Ok(rest) => match rest.all_branches(alloc, depth, explicit) {
                Ok(((first, further), rest)) => match rest.expect(Kind::CloseParen) {
                    Ok(rest) => Ok(((first, further), rest)),
                    Err(fault) => {
                        drop(first);
                        drop(further);
                        Err(fault)
                    }
                },
                Err(fault) => Err(fault),
            },
            Err(fault) => Err(fault),
        }
    }

    // The branches of a case.
    #[cycle(process)]
    fn all_branches(
        self,
        alloc: Global,
        depth: usize,
        explicit: bool,
    ) -> Result<((Branch, Items<Branch>), Cursor<'a>), Fault>
        ensures { Gives result (seq_read (branch_by (proc_read explicit depth)) (further_branches (proc_read explicit depth)) (seen self.entry)) }
    {
        match self.branch(alloc, depth, explicit) {
            Ok((first, rest)) => match rest.further_branches(alloc, depth, explicit) {
                Ok((further, rest)) => Ok(((first, further), rest)),
                Err(fault) => {
                    drop(first);
                    Err(fault)
                }
            },
            Err(fault) => Err(fault),
        }
    }

    #[cycle(process)]
    fn branch(
        self,
        alloc: Global,
        depth: usize,
        explicit: bool,
    ) -> Result<(Branch, Cursor<'a>), Fault>
        ensures { Gives result (branch_by (proc_read explicit depth) (seen self.entry)) }
    {
        match self.name_before(alloc, Kind::RightArrow) {
            Ok((label, rest)) => match rest.proc(alloc, depth, explicit) {
                Ok((body, rest)) => Ok((Branch { label, body }, rest)),
                Err(fault) => Err(fault),
            },
            Err(fault) => Err(fault),
        }
    }

    // The further branches, each behind its bar.
    #[cycle(process)]
    fn further_branches(
        self,
        alloc: Global,
        depth: usize,
        explicit: bool,
    ) -> Result<(Items<Branch>, Cursor<'a>), Fault>
        ensures { Gives result (further_branches (proc_read explicit depth) (seen self.entry)) }
    {
        let mut items = Items::new(alloc);
        let mut rest = self;
        for _turn in 0..self.left() {
            if !rest.at(Kind::Bar) {
                return Ok((items, rest));
            }
            match rest.further_branch(alloc, depth, explicit) {
                Ok((branch, after)) => {
                    match items.push(branch) {
                        Ok(()) => rest = after,
                        Err(_) => return Err(Fault::Memory),
                    }
                }
                Err(fault) => return Err(fault),
            }
        }
        Ok((items, rest))
    }

    #[cycle(process)]
    fn further_branch(
        self,
        alloc: Global,
        depth: usize,
        explicit: bool,
    ) -> Result<(Branch, Cursor<'a>), Fault>
        ensures { Gives result (behind_kind kind.Bar (branch_by (proc_read explicit depth)) (seen self.entry)) }
    {
        match self.expect(Kind::Bar) {
            Ok(rest) => rest.branch(alloc, depth, explicit),
            Err(fault) => Err(fault),
        }
    }
}
