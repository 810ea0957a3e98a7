// A configuration as a plain list.
ghost use Rattle.std.specs.Prelude.{◌≡◌, ◌≤◌, ◌<◌, ◌+◌, ◌^◌, ◌++◌, ◌∷◌, IfOk, IfSome, MatchOption, None, Some};
ghost use Rattle.std.specs.Prelude.{[], slice_get, length, drop, option_to_list};
ghost use Rattle.rast_items.specs.Step.{Ended, cut, is_proc};
ghost use Rattle.rast_items.specs.Items.{held, potential_of};
ghost use Rattle.rast_items.specs.Run.{work_by};
ghost use Rattle.rast_laws.specs.Sound.{IsReady};
ghost use Rattle.rast_core.specs.Words.{Event};
ghost use Rattle.rast_core.specs.Shown.{next_of, run_code};
ghost use Rattle.rast_core.specs.Looks.{IsNextAt};
ghost use Rattle.rast_core.specs.Handles.{Lies, rest, rest_of};
ghost use Rattle.rast_core.specs.Paths.{AreAfterParents};
ghost use Rattle.rast_core.specs.Edits.{Decides, IsCutAt, IsStepEdit, edited};
ghost use Rattle.rast_core.specs.Promises.{CanStart, IsStart, IsSoundReplay, IsGoing, ProcessIs};
ghost use Rattle.rast_core.specs.Promises.{EnabledIs, StepIs, IsTold, StepIsSound};

use crate::answer::Next;
use crate::decide::decide;
use crate::decision::{Decision, Edit};
use crate::edit::{apply, note};
use crate::find::{find_near, find_process};
use crate::handle::Handle;
use crate::items::Items;
use crate::main_process::begin;
use crate::origin::Origin;
use rast_items::{Item, Pid, Proc};
use rast_rules::Plan;
use rast_terms::Program;
use std::alloc::{AllocError, Global};
use std::marker::Model;

/// The items of a run in order, where each process came from, and the plan of the run.
/// After its start it takes no memory.
#[derive(Drop)]
pub struct Config {
    items: Vec<Item>,
    origins: Vec<Origin>,
    plan: Plan,
    spare: u32,
    /// A place near which the process may stand that is asked for next.
    last: usize,
}

impl Model for Config {
    ghost use Rattle.std.specs.Prelude.{◌+◌, ◌≤◌, vec_len, vec_capacity, length};
    ghost use Rattle.rast_core.specs.Shown.{Shown};

    ghost Value = { Shown };

    ghost use Rattle.rast_core.specs.Bounds.{IsBounded};
    ghost use Rattle.rast_core.specs.Paths.{AreAfterParents};

    ghost view = { λ c. record { items = c.items.items; origins = c.origins.items; plan = c.plan; spare = c.spare } };

    ghost invariant = { λ c. (vec_len c.items + c.spare ≤ vec_capacity c.items) × (vec_len c.origins + c.spare ≤ vec_capacity c.origins) × IsBounded c.items.items (length c.origins.items) c.spare × AreAfterParents c.origins.items };
}

impl Config {
    /// The beginning of a run: main's one process, with room for `room` events. It keeps the plan.
    /// No memory is also answered where `room` is close to 2^32.
    pub fn start(
        alloc: Global,
        program: &Program,
        plan: Plan,
        room: u32,
    ) -> Result<Config, AllocError>
        requires { CanStart program.now }
        ensures start { IfOk result (λ c. IsStart program.now plan room c) }
        // Of a program that may be run the beginning is sound.
        ensures going { IfOk result (λ c. IsReady (run_code program.now plan) → IsSoundReplay program.now c []) }
        ensures potential { IfOk result (λ c. held c.items < 2 ^ 32) }
    {
        let config = Config::with_main(alloc, program, plan, room)?;
        Ok(config)
    }

    // The configuration of main's one process.
    fn with_main(
        alloc: Global,
        program: &Program,
        plan: Plan,
        room: u32,
    ) -> Result<Config, AllocError>
        requires { CanStart program.now }
        ensures start { IfOk result (λ c. IsStart program.now plan room c) }
        ensures potential { IfOk result (λ c. held c.items < 2 ^ 32) }
    {
        if room > u32::MAX - 64 {
            return Err(AllocError);
        }
        let capacity = room as usize + 1;
        let mut items = Vec::with_capacity(alloc, capacity)?;
        let mut origins = Vec::with_capacity(alloc, capacity)?;
        items.push(Item::Proc(begin(program)))?;
        origins.push(Origin {
            parent: Pid(0),
            ordinal: 0,
        })?;
        Ok(Config {
            items,
            origins,
            plan,
            spare: room,
            last: 0,
        })
    }

    /// For how many more events there is room.
    pub fn spare(&self) -> u32
        ensures { result ≡ self.now.spare }
    {
        self.spare
    }

    /// The items in order, which together hold less than 2^32.
    pub fn items(&self) -> Items<'_>
        ensures items { result ≡ self.now.items }
        ensures potential { held self.now.items < 2 ^ 32 }
    {
        Items::of(&self.items)
    }

    /// Where the first item lies.
    pub fn first(&self) -> Option<Handle>
        ensures rest { rest_of self.now result ≡ self.now.items }
        ensures lies { IfSome result (λ handle. Lies self.now handle) }
    {
        Handle::within(0, self.items.len())
    }

    /// Where the item lies that comes after another.
    pub fn after(&self, handle: Handle) -> Option<Handle>
        requires { Lies self.now handle }
        ensures rest { rest_of self.now result ≡ drop 1 (rest self.now handle) }
        ensures lies { IfSome result (λ next. Lies self.now next) }
    {
        let length = self.items.len();
        Handle::within(handle.place + 1, length)
    }

    /// The item that lies there.
    pub fn get(&self, handle: Handle) -> &Item
        requires { Lies self.now handle }
        ensures { rest self.now handle ≡ result.now ∷ drop 1 (rest self.now handle) }
    {
        &self.items[handle.place]
    }

    /// A process by its number, if it is there. It takes no memory.
    pub fn process(&self, pid: Pid) -> Option<Proc>
        ensures { ProcessIs self.now pid result }
    {
        let place = self.place_of(pid)?;
        match self.item_at(place) {
            Item::Proc(proc) => Some(*proc),
            Item::Msg(_) => unreachable!(),
        }
    }

    /// How many processes were made; they have the numbers below it. Some may have ended.
    pub fn process_count(&self) -> u32
        ensures { result ≡ length self.now.origins }
    {
        self.origins.as_slice().len() as u32
    }

    /// Where each process that was made comes from, by its number.
    pub(crate) fn origins(&self) -> &[Origin]
        ensures value { result.now ≡ self.now.origins }
        ensures parents { AreAfterParents self.now.origins }
    {
        &self.origins
    }

    /// The potential that all items hold together. It takes no memory.
    pub fn held(&self) -> u128
        ensures { result ≡ held self.now.items }
    {
        let mut total = 0u128;
        for item in self.items() {
            total += potential_of(item);
        }
        total
    }

    /// What a process does next. It takes no memory.
    pub fn enabled(&self, program: &Program, pid: Pid) -> Next
        requires { IsGoing program.now self.now }
        ensures { EnabledIs program.now self.now pid result }
    {
        match self.decided(program, pid) {
            None => Next::Ended,
            Some((_, decision)) => told(decision),
        }
    }

    /// Does the next event of a process, if it has one; else nothing changes. It takes no memory.
    pub fn step(&mut self, program: &Program, pid: Pid) -> Next
        requires going { IsGoing program.now self.old }
        requires spare { 1 ≤ self.old.spare }
        ensures step { StepIs program.now self.old pid result self.new }
        // An event takes potential from the items, and gives them none.
        ensures potential { (e : Event) → result ≡ Next.Ready e → work_by e + held self.new.items ≤ held self.old.items }
        // The run with the event is sound.
        ensures sound { StepIsSound program.now self.old result self.new }
        ensures going { IsGoing program.now self.new }
    {
        self.do_next(program, pid)
    }

    // Does the next event of a process.
    fn do_next(&mut self, program: &Program, pid: Pid) -> Next
        requires going { IsGoing program.now self.old }
        requires spare { 1 ≤ self.old.spare }
        ensures step { StepIs program.now self.old pid result self.new }
        ensures potential { (e : Event) → result ≡ Next.Ready e → work_by e + held self.new.items ≤ held self.old.items }
    {
        let Some((place, decision)) = self.decided(program, pid) else {
            return Next::Ended;
        };
        match decision {
            Decision::Does { event, edit, child } => {
                self.perform(place, edit, child);
                Next::Ready(event)
            }
            Decision::Waits(link) => Next::Waits(link),
            Decision::Halted(value) => Next::Halted(value),
        }
    }

    /// What is to be done for a process, with its place; none where there is no such process.
    pub(crate) fn decided(&self, program: &Program, pid: Pid) -> Option<(usize, Decision)>
        requires { IsGoing program.now self.now }
        ensures { MatchOption result (next_of program.now self.now pid ≡ Ended) (λ r. (r.0 < length self.now.items) × Decides (next_of program.now self.now pid) self.now.items r.0 r.1) }
    {
        let place = self.place_of(pid)?;
        match self.item_at(place) {
            Item::Proc(proc) => Some((place, self.decided_at(program, place, proc))),
            Item::Msg(_) => unreachable!(),
        }
    }

    /// What the process does next that lies there; nothing of a message.
    pub(crate) fn next_at(&self, program: &Program, handle: Handle) -> Option<(Pid, Next)>
        requires going { IsGoing program.now self.now }
        requires lies { Lies self.now handle }
        ensures { IsNextAt program.now self.now (slice_get (rest self.now handle) 0) result }
    {
        let place = handle.place;
        match self.get(handle) {
            Item::Proc(proc) => Some((proc.pid, told(self.decided_at(program, place, proc)))),
            Item::Msg(_) => None,
        }
    }

    /// What is to be done for the process at its place.
    fn decided_at(&self, program: &Program, place: usize, proc: &Proc) -> Decision
        requires going { IsGoing program.now self.now }
        requires at { slice_get self.now.items place ≡ Some (Item.Proc proc.now) }
        ensures { Decides (next_of program.now self.now proc.now.pid) self.now.items place result }
    {
        decide(
            program,
            &self.plan,
            self.process_count(),
            &self.items,
            place,
            proc,
        )
    }

    /// The item at a place.
    fn item_at(&self, place: usize) -> &Item
        requires { place < length self.now.items }
        ensures { slice_get self.now.items place ≡ Some result.now }
    {
        &self.items[place]
    }

    /// The place of a process.
    fn place_of(&self, pid: Pid) -> Option<usize>
        ensures { MatchOption result (cut (is_proc pid) self.now.items ≡ None) (λ i. IsCutAt (is_proc pid) self.now.items i) }
    {
        match find_near(&self.items, pid, self.last) {
            Some(place) => Some(place),
            None => find_process(&self.items, pid),
        }
    }

    /// Changes the list for the process at a place, and notes where a child comes from.
    fn perform(&mut self, place: usize, edit: Edit, child: Option<Origin>)
        requires place { place < length self.old.items }
        requires spare { 1 ≤ self.old.spare }
        requires step { IsStepEdit self.old place edit child }
        ensures items { self.new.items ≡ edited edit self.old.items place }
        ensures origins { self.new.origins ≡ self.old.origins ++ option_to_list child }
        ensures plan { self.new.plan ≡ self.old.plan }
        ensures spare { self.new.spare + 1 ≡ self.old.spare }
        ensures potential { (k : IsStepEdit self.old place edit child) → work_by k.event + held self.new.items ≤ held self.old.items }
    {
        let last = place_after(place, &edit);
        apply(&mut self.items, place, edit);
        note(&mut self.origins, child);
        self.spare -= 1;
        self.last = last;
    }
}

/// The potential that an item holds.
fn potential_of(item: &Item) -> u128
    ensures { result ≡ potential_of item.now }
{
    match item {
        Item::Proc(proc) => proc.potential,
        Item::Msg(msg) => msg.potential,
    }
}

/// What a decision says to those who asked.
pub(crate) fn told(decision: Decision) -> Next
    ensures { IsTold decision result }
{
    match decision {
        Decision::Does { event, .. } => Next::Ready(event),
        Decision::Waits(link) => Next::Waits(link),
        Decision::Halted(value) => Next::Halted(value),
    }
}

/// A place near which the process may stand that is asked for after an edit.
fn place_after(place: usize, edit: &Edit) -> usize {
    match edit {
        Edit::Two {
            first: Item::Msg(_),
            ..
        } => place.saturating_add(1),
        Edit::Merge { at, .. } => *at,
        _ => place,
    }
}
