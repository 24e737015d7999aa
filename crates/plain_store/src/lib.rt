//! A store that keeps each string as a plain list of code units: the plain program of [`Strings`],
//! for programs without a shared heap and for tests.
//!
//! It is never full, and each of its calls may run out of memory. Every string is settled from the
//! start, and nothing is counted as used.
#![tactic(auto)]

ghost use Rattle.std.specs.Prelude.{◌≡◌, ◌<◌, ◌≤◌, [], ◌∷◌, ◌++◌, length, IfOk, OnErr, None, Some, slice_get, slice_index, ℕ};
ghost use Rattle.std.proofs.Props.{props};
ghost use Rattle.std.specs.FinMap as map;
ghost use Rattle.js_store.specs.Limits.{limit_units};
ghost use Rattle.plain_store.specs.Plain.{IsConsistent, plain_units, history_of};

mod table;

use crate::table::Table;
use js_store::{ConcatFault, Limit, StoreFault, Strings};
use js_units::{NoMemory, Units};
use std::alloc::Global;

/// A store of plain lists. A string's number is its place in the order in which strings were
/// made.
#[derive(Drop)]
pub struct PlainStore {
    alloc: Global,
    strings: Vec<Units>,
    // the numbers that `intern` answered, in order
    answers: Vec<u32>,
    // the number interned for each list of units
    table: Table,
    limit: Limit,
    ghost consistent: { IsConsistent strings.items answers.items table } by { Prim.hlevel props },
}

impl PlainStore {
    /// The empty store, which makes strings up to this limit. It allocates nothing.
    pub fn new(alloc: Global, limit: Limit) -> PlainStore
        ensures known { (n : ℕ) → (⟦<PlainStore as Strings>⟧.state result).known n ≡ None }
        ensures history { (⟦<PlainStore as Strings>⟧.state result).history ≡ [] }
        ensures limit { (⟦<PlainStore as Strings>⟧.state result).limit ≡ limit_units limit }
    {
        PlainStore {
            alloc,
            strings: Vec::new(alloc),
            answers: Vec::new(alloc),
            table: Table::new(alloc),
            limit,
        }
    }

    // Keeps one more string, and gives its number.
    fn keep(&mut self, units: Units) -> Result<u32, NoMemory>
        requires { length units ≤ 536870888 }
        ensures number { IfOk result (λ n. n ≡ length self.old.strings.items) }
        ensures ok { IfOk result (λ _. self.new.strings.items ≡ self.old.strings.items ++ units ∷ []) }
        ensures err { OnErr result (self.new.strings.items ≡ self.old.strings.items) }
        ensures history { history_of self.new.strings.items self.new.answers.items
            ≡ history_of self.old.strings.items self.old.answers.items }
        ensures answers { self.new.answers.items ≡ self.old.answers.items }
        ensures limit { self.new.limit ≡ self.old.limit }
    {
        if self.strings.len() >= u32::MAX as usize {
            return Err(NoMemory);
        }
        read_each(units.as_slice());
        let number = self.strings.len() as u32;
        self.strings.push(units)?;
        Ok(number)
    }

    // The number that the units of `s` are interned as, which is that of `s` where they are new.
    #[tactic(auto, using(crate::proofs::Consistency::one_entry))]
    fn number_of(&mut self, s: u32) -> Result<u32, NoMemory>
        requires { s < length self.old.strings.items }
        ensures strings { self.new.strings.items ≡ self.old.strings.items }
        ensures answers { self.new.answers.items ≡ self.old.answers.items }
        ensures limit { self.new.limit ≡ self.old.limit }
        ensures ok { IfOk result (λ n. map.get self.new.table (plain_units self.old.strings.items s)
            ≡ Some n) }
        ensures units { IfOk result
            (λ n. slice_get self.old.strings.items n ≡ Some (plain_units self.old.strings.items s)) }
    {
        let units = self.strings[s as usize].as_slice();
        if let Some(number) = self.table.get(units) {
            return Ok(number);
        }
        self.table.insert(self.alloc, units, s)?;
        Ok(s)
    }
}

// Reads each unit, which says that it is 16 bits wide: of a list the type says so of no unit
// that wasn't read. The loop does nothing, and a compiler leaves it out.
fn read_each(units: &[u16])
    ensures { (k : ℕ) → k < length units.now → slice_index units.now k < 65536 }
{
    for i in 0..units.len() {
        let _unit = units[i];
    }
}

impl Strings for PlainStore {
    type Ref = u32;

    ghost use Rattle.plain_store.specs.Plain.{plain_state};
    ghost use Rattle.plain_store.specs.Sound.{plain_sound};

    ghost Frame = { Unit {0} };

    ghost number = { λ r. r };

    ghost state = { λ s. plain_state s.strings.items s.answers.items s.limit };

    fn from_units(&mut self, units: &[u16]) -> Result<u32, StoreFault> {
        let mut copy = Units::new(self.alloc);
        copy.extend_from_slice(units)?;
        Ok(self.keep(copy)?)
    }

    fn len(&mut self, s: u32) -> u32 {
        self.strings[s as usize].as_slice().len() as u32
    }

    fn settle(&mut self, _s: u32) -> Result<(), StoreFault> {
        Ok(())
    }

    fn unit_at(&mut self, s: u32, i: u32) -> u16 {
        self.strings[s as usize].as_slice()[i as usize]
    }

    fn read(&mut self, s: u32, from: u32, into: &mut [u16]) {
        let from = from as usize;
        let end = from + into.len();
        into.copy_from_slice(&self.strings[s as usize].as_slice()[from..end]);
    }

    fn find_unit(&mut self, s: u32, unit: u16, from: u32) -> Option<u32> {
        let units = self.strings[s as usize].as_slice();
        for i in from as usize..units.len() {
            if units[i] == unit {
                return Some(i as u32);
            }
        }
        None
    }

    fn concat(&mut self, a: u32, b: u32) -> Result<u32, ConcatFault> {
        let left = self.len(a);
        let right = self.len(b);
        if left + right > self.limit.units() {
            return Err(ConcatFault::TooLong { left, right });
        }
        let mut both = Units::new(self.alloc);
        both.reserve((left + right) as usize)?;
        both.extend_from_slice(self.strings[a as usize].as_slice())?;
        both.extend_from_slice(self.strings[b as usize].as_slice())?;
        Ok(self.keep(both)?)
    }

    fn slice(&mut self, s: u32, from: u32, to: u32) -> Result<u32, StoreFault> {
        let mut part = Units::new(self.alloc);
        part.extend_from_slice(&self.strings[s as usize].as_slice()[from as usize..to as usize])?;
        Ok(self.keep(part)?)
    }

    #[tactic(auto, using(crate::proofs::Consistency::one_answer, crate::proofs::Consistency::history_push))]
    fn intern(&mut self, s: u32) -> Result<u32, StoreFault> {
        let answer = self.number_of(s)?;
        if self.answers.push(answer).is_err() {
            return Err(StoreFault::Memory);
        }
        Ok(answer)
    }

    fn same(&mut self, a: u32, b: u32) -> bool {
        a == b
    }

    fn id_of(&self, s: u32) -> Option<u32> {
        Some(s)
    }

    fn limit(&self) -> u32 {
        self.limit.units()
    }

    ghost sound = { λ s. plain_sound s.strings.items s.answers.items s.limit s.table s.consistent };
}
