// Obligations by number, and their verdicts.
ghost use Rattle.std.specs.Prelude.{◌≡◌, true, length};
ghost use Rattle.std.specs.List.{list_all};
ghost use Rattle.std.proofs.Props.{props};
ghost use Rattle.rast_memo.specs.Numbers.{AreAsked, AreKnown, verdicts_on};
ghost use Rattle.rast_memo.specs.Obligations.{is_fit};

use crate::code::code_of;
use crate::obligation::{Obligation, copied};
use rast_cooper::{Verdict, decide};
use rast_index::Formula;
use sqlite_items::Items;
use std::alloc::{AllocError, Global};
use std::collections::BTreeMap;

/// Obligations by number, and the verdicts on the first of them.
#[derive(Drop)]
pub struct Memo {
    obligations: Vec<Obligation>,
    verdicts: Items<Verdict>,
    numbers: BTreeMap<Vec<i64>, u32>,
    pub ghost right: { verdicts ≡ verdicts_on (length verdicts) obligations.items },
    pub ghost fit: { list_all is_fit obligations.items ≡ true },
    ghost known: { AreKnown obligations.items numbers } by { Prim.hlevel props },
    ghost asked: { AreAsked obligations.items numbers } by { Prim.hlevel props },
}

impl Memo {
    ghost use Rattle.std.specs.Prelude.{◌≡◌, ◌≤◌, ◌<◌, ◌+◌, [], true, length, slice_get, None, IfOk, OnOk, OnErr};
    ghost use Rattle.std.specs.List.{list_all};
    ghost use Rattle.std.specs.BTreeMap.{get};
    ghost use Rattle.std.specs.Option.{option_copied};
    ghost use Rattle.rast_cooper.specs.Verdicts.{is_within};
    ghost use Rattle.rast_memo.specs.Codes.{obligation_code};
    ghost use Rattle.rast_memo.specs.Numbers.{IsContinued, IsNumbered, code_cmp, verdicts_on};
    ghost use Rattle.rast_memo.specs.Obligations.{asked, is_fit};

    /// No obligation yet.
    pub fn new(alloc: Global) -> Memo
        ensures none { result.obligations.items ≡ [] }
        ensures undecided { result.verdicts ≡ [] }
    {
        Memo {
            obligations: Vec::new(alloc),
            verdicts: Items::new(alloc),
            numbers: BTreeMap::new(alloc),
        }
    }

    /// The number of an obligation: that of an equal one, or else the next.
    ///
    /// `vars` is the number of variables, and no other variable may occur. The only error is want of memory, which comes also
    /// where the next number would have more than 32 bits.
    pub fn insert(
        &mut self,
        alloc: Global,
        vars: u8,
        premises: &[Formula],
        goal: &Formula,
    ) -> Result<u32, AllocError>
        requires few { vars ≤ 16 }
        requires premises { list_all (is_within vars) premises.now ≡ true }
        requires goal { is_within vars goal.now ≡ true }
        ensures numbered { IfOk result (IsNumbered (asked vars premises.now goal.now) self.old.obligations.items self.new.obligations.items) }
        ensures back { OnErr result (self.new.obligations.items ≡ self.old.obligations.items) }
        ensures decided { self.new.verdicts ≡ self.old.verdicts }
    {
        let code = code_of(alloc, vars, premises, goal)?;
        if let Some(number) = self.numbers.get(code.as_slice()) {
            return Ok(*number);
        }
        let obligation = copied(alloc, vars, premises, goal)?;
        self.add(code, obligation)
    }

    // An obligation that is new gets the next number.
    fn add(&mut self, code: Vec<i64>, obligation: Obligation) -> Result<u32, AllocError>
        requires code { code.items ≡ obligation_code obligation }
        requires new { get code_cmp self.old.numbers code ≡ None }
        requires fit { is_fit obligation ≡ true }
        ensures numbered { IfOk result (IsNumbered obligation self.old.obligations.items self.new.obligations.items) }
        ensures back { OnErr result (self.new.obligations.items ≡ self.old.obligations.items) }
        ensures decided { self.new.verdicts ≡ self.old.verdicts }
    {
        let number = self.obligations.len();
        if number > u32::MAX as usize {
            return Err(AllocError);
        }
        self.obligations.reserve(1)?;
        let _before = self.numbers.insert(code, number as u32)?;
        self.obligations.push_reserved(obligation);
        Ok(number as u32)
    }

    /// Decides each obligation that isn't decided yet, in the order of the numbers.
    ///
    /// After want of memory, those that were decided meanwhile stay decided.
    pub fn decide_all(&mut self, alloc: Global) -> Result<(), AllocError>
        ensures same { self.new.obligations.items ≡ self.old.obligations.items }
        ensures kept { IsContinued self.old.verdicts self.new.verdicts }
        ensures decided { OnOk result (length self.new.verdicts ≡ length self.new.obligations.items) }
    {
        while self.verdicts.len() < self.obligations.len() {
            self.decide_next(alloc)?;
        }
        Ok(())
    }

    fn decide_next(&mut self, alloc: Global) -> Result<(), AllocError>
        requires { length self.old.verdicts < length self.old.obligations.items }
        ensures same { self.new.obligations.items ≡ self.old.obligations.items }
        ensures kept { IsContinued self.old.verdicts self.new.verdicts }
        ensures more { OnOk result (length self.new.verdicts ≡ length self.old.verdicts + 1) }
    {
        let verdict = verdict_on(alloc, &self.obligations[self.verdicts.len()])?;
        self.verdicts.push(verdict)?;
        Ok(())
    }

    /// The verdict on the obligation with this number; none where it isn't decided, or there is no such number.
    pub fn verdict_of(&self, number: u32) -> Option<&Verdict>
        ensures { option_copied result ≡ slice_get (verdicts_on (length self.now.verdicts) self.now.obligations.items) number }
    {
        self.verdicts.get(number as usize)
    }
}

ghost use Rattle.std.specs.Prelude.{IfOk};
ghost use Rattle.rast_memo.specs.Obligations.{verdict_on};

fn verdict_on(alloc: Global, obligation: &Obligation) -> Result<Verdict, AllocError>
    requires { is_fit obligation.now ≡ true }
    ensures { IfOk result (λ v. v ≡ verdict_on obligation.now) }
{
    decide(
        alloc,
        obligation.vars,
        obligation.premises.as_slice(),
        &obligation.goal,
    )
}
