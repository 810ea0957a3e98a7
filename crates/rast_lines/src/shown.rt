// Printed names, and lists in which a new one is found at once.
ghost use Rattle.std.specs.Prelude.{◌≡◌, ◌+◌, ◌++◌, ◌∷◌, ◌^◌, ◌<◌, [], true, false, length, slice_get, IfOk, OnOk, OnErr, OnSome, MatchOption, IsSome, IsTrue, ◌↔◌};
ghost use Rattle.std.specs.List.{IsDistinct};
ghost use Rattle.std.specs.Option.{option_copied};
ghost use Rattle.std.specs.Str.{bytes_eq};
ghost use Rattle.rast_terms.specs.Texts.{name_text};
ghost use Rattle.rast_lines.specs.NewNames.{numbered_name, is_taken, free_from, with_new};
ghost use Rattle.rast_lines.specs.Numbers.{AreUsed, Puts, HaveSame, found};

use rast_terms::Program;
use sqlite_items::Items;
use std::alloc::{AllocError, Global};
use std::collections::HashMap;
use std::marker::Model;

/// A name as it is printed: one of the program's, or such a name with `_` and a number behind it. It may have any length.
#[derive(Drop)]
pub struct Printed {
    bytes: Vec<u8>,
}

impl Model for Printed {
    ghost use Rattle.std.specs.Prelude.{List, ℕ};

    ghost Value = { List ℕ };

    ghost view = { λ p. p.bytes.items };
}

/// Printed names in order, among which a new one is found at once.
#[derive(Drop)]
pub struct NameList {
    names: Items<Printed>,
    /// For each name a number from 1 on: with each lower one behind it, it is one of the names.
    next: HashMap<Vec<u8>, usize>,
}

impl Model for NameList {
    ghost use Rattle.std.specs.Prelude.{List, ℕ};
    ghost use Rattle.rast_lines.specs.Numbers.{IsNumbered};

    ghost Value = { List (List ℕ) };

    ghost view = { λ l. l.names };

    ghost invariant = { λ l. IsNumbered l.next l.names };
}

impl Printed {
    /// Its bytes.
    pub fn as_bytes(&self) -> &[u8]
        ensures { result.now ≡ self.now }
    {
        self.bytes.as_slice()
    }

    // The name with this number.
    pub(crate) fn of(alloc: Global, program: &Program, name: u32) -> Result<Printed, AllocError>
        ensures { IfOk result (λ p. p ≡ name_text program.now name) }
    {
        let bytes = match program.names.get(name as usize) {
            Some(name) => Vec::from_slice(alloc, name.as_bytes())?,
            None => Vec::new(alloc),
        };
        Ok(Printed { bytes })
    }

    // The name with `_` and a number behind it.
    fn numbered(alloc: Global, name: &Printed, number: usize) -> Result<Printed, AllocError>
        ensures { IfOk result (λ p. p ≡ numbered_name name.now number) }
    {
        let mut bytes = Vec::from_slice(alloc, name.as_bytes())?;
        bytes.push(b'_')?;
        let digits = format!(in alloc; "{number}")?;
        bytes.extend_from_slice(digits.as_bytes())?;
        Ok(Printed { bytes })
    }
}

impl NameList {
    // No names.
    pub(crate) fn new(alloc: Global) -> NameList
        ensures { result ≡ [] }
    {
        NameList {
            names: Items::new(alloc),
            next: HashMap::new(alloc),
        }
    }

    /// The names in order.
    pub fn as_slice(&self) -> &[Printed]
        ensures { result.now ≡ self.now }
    {
        self.names.as_slice()
    }

    /// How many there are.
    pub fn len(&self) -> usize
        ensures { result ≡ length self.now }
    {
        self.names.len()
    }

    /// Whether there is none.
    pub fn is_empty(&self) -> bool
        ensures { IsTrue result ↔ (self.now ≡ []) }
    {
        self.names.is_empty()
    }

    /// The one at this place.
    pub fn get(&self, at: usize) -> Option<&Printed>
        ensures value { option_copied result ≡ slice_get self.now at }
        ensures within { OnSome result (at < length self.now) }
    {
        self.names.get(at)
    }

    // Whether a name is among them.
    fn has(&self, name: &Printed) -> bool
        ensures { result ≡ is_taken self.now name.now }
    {
        self.next.contains_key(name.as_bytes())
    }

    // One more name as it is, also where it is taken.
    pub(crate) fn push(&mut self, alloc: Global, name: Printed) -> Result<(), AllocError>
        ensures { OnOk result (self.new ≡ self.old ++ name ∷ []) }
    {
        if self.next.contains_key(name.as_bytes()) {
            return self.names.push(name);
        }
        let key = Vec::from_slice(alloc, name.as_bytes())?;
        self.names.push(name)?;
        match put(&mut self.next, key, 1) {
            Ok(()) => Ok(()),
            Err(error) => {
                let _ = self.names.pop();
                Err(error)
            }
        }
    }

    // A number below which all numbers from 1 on are taken behind the name, where it is taken itself.
    fn used(&self, name: &Printed) -> Option<usize>
        ensures { MatchOption result (is_taken self.now name.now ≡ false) (λ k. (is_taken self.now name.now ≡ true) × AreUsed self.now name.now k) }
    {
        self.next.get(name.as_bytes()).copied()
    }

    // One more name, printed so that it is new.
    pub(crate) fn push_new(&mut self, alloc: Global, name: Printed) -> Result<(), AllocError>
        ensures value { OnOk result (self.new ≡ with_new self.old name) }
        ensures apart { OnOk result (IsDistinct bytes_eq self.old → IsDistinct bytes_eq self.new) }
    {
        match self.used(&name) {
            Some(first) => self.push_numbered(alloc, &name, first),
            None => self.push(alloc, name),
        }
    }

    // The taken name with the least number from 1 on that makes it free. With the numbers below the first it is taken.
    fn push_numbered(
        &mut self,
        alloc: Global,
        name: &Printed,
        first: usize,
    ) -> Result<(), AllocError>
        requires taken { is_taken self.old name.now ≡ true }
        requires used { AreUsed self.old name.now first }
        ensures value { OnOk result (self.new ≡ with_new self.old name.now) }
        ensures apart { OnOk result (IsDistinct bytes_eq self.old → IsDistinct bytes_eq self.new) }
    {
        let number = self.free_number(alloc, name, first)?;
        let printed = Printed::numbered(alloc, name, number)?;
        self.push(alloc, printed)?;
        self.set_next(name, number + 1);
        Ok(())
    }

    // The least number from 1 on that makes a name free. With the numbers below the first it is taken.
    fn free_number(&self, alloc: Global, name: &Printed, first: usize) -> Result<usize, AllocError>
        requires { AreUsed self.now name.now first }
        ensures value { IfOk result (λ k. numbered_name name.now k ≡ free_from self.now 1 self.now name.now) }
        ensures free { IfOk result (λ k. is_taken self.now (numbered_name name.now k) ≡ false) }
        ensures used { IfOk result (λ k. AreUsed self.now name.now k) }
        ensures small { IfOk result (λ k. k + 1 < 2 ^ 64) }
    {
        let taken = self.as_slice();
        let mut number = first;
        while number <= taken.len() {
            let other = Printed::numbered(alloc, name, number)?;
            if !self.has(&other) {
                return Ok(number);
            }
            number += 1;
        }
        Ok(number)
    }

    // The numbers below this one are all taken behind the name.
    fn set_next(&mut self, name: &Printed, number: usize)
        requires taken { is_taken self.old name.now ≡ true }
        requires used { AreUsed self.old name.now number }
        ensures { self.new ≡ self.old }
    {
        replace(&mut self.next, name, number);
    }
}

// Gives a name this number.
fn put(next: &mut HashMap<Vec<u8>, usize>, name: Vec<u8>, number: usize) -> Result<(), AllocError>
    ensures ok { OnOk result (Puts next.old next.new name.items number) }
    ensures err { OnErr result (HaveSame next.old next.new) }
{
    next.insert(name, number)?;
    Ok(())
}

// Gives a name that has a number another one.
fn replace(next: &mut HashMap<Vec<u8>, usize>, name: &Printed, number: usize)
    requires { IsSome (found next.old name.now) }
    ensures { Puts next.old next.new name.now number }
{
    if let Some(there) = next.get_mut(name.as_bytes()) {
        *there = number;
    }
}
