// The machine: its words, its views, and the events that it plays.
ghost use Rattle.std.specs.Prelude.{◌≡◌, ◌↔◌, List, ℕ, IsTrue, IfOk, OnErr, IfSome, IsNone, Err};
ghost use Rattle.heap_rule.specs.Layout.{IsBorn};
ghost use Rattle.heap_rule.specs.Contents.{units_of};
ghost use Rattle.heap_core.specs.Events.{HasNoHeap, IsSoundCore, Enabled, after, found, KeepsUnits, BornBy, HasEntry, RunsAreSound, MadeRunsAreSound, RunsKeepUnits, RunsAreLegal};
ghost use Rattle.heap_core.specs.Steps.{EventsAreSteps};
ghost use Rattle.heap_core.specs.declared.event.Refusal.TheVariants as refusal;

use crate::event::{Event, Refusal};
use crate::machine::Machine;
use heap_rule::HeapSize;
use js_units::{NoMemory, Units};
use std::alloc::Global;
use std::marker::Model;

/// The machine: the words of one heap and the view of each of its agents. Contracts see it as
/// plain data. It has no heap yet, or its words and views meet the rule.
#[derive(Drop)]
pub struct CoreState {
    machine: Machine,
}

impl Model for CoreState {
    ghost use Rattle.heap_core.specs.Core.{Core, core_of};
    ghost use Rattle.heap_core.specs.Events.{IsCore};
    ghost use Rattle.heap_rule.specs.contracts.view.View as v;
    ghost use Rattle.std.specs.Coded.{codes};

    ghost Value = { Core };

    ghost coded = { Prim.hlevel (codes, v.the_row.coded) };

    ghost view = { λ s. core_of s.machine };

    ghost invariant = { λ s. IsCore (core_of s.machine) };
}

impl CoreState {
    /// A machine without a heap. It allocates nothing.
    pub fn new(alloc: Global) -> CoreState
        ensures { HasNoHeap result }
    {
        CoreState {
            machine: Machine::new(alloc),
        }
    }

    /// The sizes of the heap, all 0 where there is none yet.
    pub fn size(&self) -> HeapSize
        ensures { result ≡ self.now.size }
    {
        self.machine.size
    }

    /// The words of the heap.
    pub fn words(&self) -> &[u64]
        ensures { result.now ≡ self.now.words }
    {
        self.machine.words.as_slice()
    }

    /// The units of a born id.
    pub fn units_of(&self, alloc: Global, id: u32) -> Result<Units, NoMemory>
        requires sound { IsSoundCore self.now }
        requires born { IsBorn self.now.size self.now.words id }
        ensures { IfOk result (λ us. us ≡ units_of self.now.size self.now.words id) }
    {
        let mut units = Units::new(alloc);
        self.machine.add_units(id, &mut units)?;
        Ok(units)
    }

    /// The units that the view has of the string that it saw in the slot; None exactly where
    /// there is no such view, it saw no string there, or it has no units of that string.
    pub fn entry_for(&self, view: u32, slot: u32) -> Option<&Units>
        ensures some { IfSome result (λ us. HasEntry self.now view slot us.now) }
        ensures none { IsNone result ↔ ((us : List ℕ) → HasEntry self.now view slot us → ⊥) }
    {
        match self.machine.views.get(view as usize) {
            Some(view) => match view.slots.get(slot) {
                Some(id) => view.units.get(*id),
                None => None,
            },
            None => None,
        }
    }
}

/// Whether the event may come.
pub fn enabled(state: &CoreState, event: &Event) -> bool
    ensures { IsTrue result ↔ Enabled state.now event.now }
{
    state.machine.enabled(event)
}

/// Makes the event, and answers the word that it found. `NotEnabled` comes exactly where the
/// event is not enabled, unless memory runs out first.
pub fn apply(state: &mut CoreState, event: &Event) -> Result<u64, Refusal>
    ensures enabled { IfOk result (λ _. Enabled state.old event.now) }
    ensures after { IfOk result (λ _. state.new ≡ after state.old event.now) }
    ensures found { IfOk result (λ x. x ≡ found state.old event.now) }
    ensures not_enabled { result ≡ Err refusal.NotEnabled → Enabled state.old event.now → ⊥ }
    ensures unchanged { OnErr result (state.new ≡ state.old) }
    ensures sound { IfOk result (λ _. IsSoundCore state.new) }
    ensures units { KeepsUnits state.old state.new }
    ensures born { IfOk result (λ _. BornBy event.now state.new) }
{
    state.machine.apply(event)
}

/// What holds of every list of events, however long and of however many agents, in which each
/// event is enabled in its turn: the law of the machine. The call does nothing.
pub fn every_run()
    ensures sound { RunsAreSound }
    ensures made { MadeRunsAreSound }
    ensures units { RunsKeepUnits }
    ensures legal { RunsAreLegal }
{}

/// What each event on a word does to the machine is what its kind of step does to that word and to
/// the agent's view, wherever it is enabled. The steps of the running heap are of the same kinds.
/// The call does nothing.
pub fn every_event()
    ensures { EventsAreSteps }
{}
