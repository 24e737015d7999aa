// Compare-exchanges that move a header to a later form.
ghost use Rattle.std.specs.Prelude.{◌≡◌, ℕ, ◌+◌, ◌*◌, ◌≤◌, ◌<◌, ◌^◌};
ghost use Rattle.heap_rule.specs.HeaderMoves.{MayFlatten, MayThin, flattened, thinned};
ghost use Rattle.js_header.specs.declared.form.Form.TheVariants.{Thin};
ghost use Rattle.heap_rule.specs.Maps.{Has};
ghost use Rattle.heap_rule.specs.Learning.{learned_all};
ghost use Rattle.heap_rule.specs.Views.{IsSeenSettled};
ghost use Rattle.heap_table.specs.Agents.{Belongs, view_of};
ghost use Rattle.heap_table.specs.Headers.{IsMoved, header_found};
ghost use Rattle.heap_table.specs.Known.{KeepsKnown};

use crate::agent::Agent;
use crate::heap::Heap;
use crate::rule::{Flattens, Thins};
use crate::stores::Step;
use js_header::{Form, encode};

impl Agent {
    // One compare-exchange of a header. It is won where it answers the word of the old form.
    fn try_flatten(&mut self, heap: &Heap, id: u32, old: Form, new: Form) -> u64
        requires belongs { Belongs self.old heap.now }
        requires may { MayFlatten (view_of self.old) id old new }
        ensures belongs { Belongs self.new heap.now }
        ensures known { KeepsKnown (view_of self.old) (view_of self.new) }
        ensures view { view_of self.new ≡ learned_all (flattened (view_of self.old) id old new result) }
        ensures settled { IsSeenSettled (view_of self.new) id }
    {
        let place = heap.size.form_place(id);
        heap.table
            .shared
            .compare_exchange::<Flattens>(&mut self.seat, place, encode(old), encode(new))
    }

    /// Puts a Flat over own words, which show the string's units, in the place of a Cons that was
    /// loaded. Where it is won, these words are frozen. It is lost where another agent flattened
    /// the string before; the words are still the agent's own then.
    pub fn flatten_step(&mut self, heap: &Heap, id: u32, old: Form, new: Form) -> Step
        requires belongs { Belongs self.old heap.now }
        requires may { MayFlatten (view_of self.old) id old new }
        ensures belongs { Belongs self.new heap.now }
        ensures known { KeepsKnown (view_of self.old) (view_of self.new) }
        ensures step { IsMoved old result }
        ensures view { view_of self.new
            ≡ learned_all (flattened (view_of self.old) id old new (header_found old result)) }
        ensures settled { IsSeenSettled (view_of self.new) id }
    {
        let word = self.try_flatten(heap, id, old, new);
        if word == encode(old) {
            return Step::Won;
        }
        Step::Lost { word }
    }

    // One compare-exchange of a header to a Thin. It is won where it answers the word of the old
    // form.
    fn try_thin(&mut self, heap: &Heap, id: u32, old: Form, target: u32) -> u64
        requires belongs { Belongs self.old heap.now }
        requires may { MayThin (view_of self.old) id old target }
        ensures belongs { Belongs self.new heap.now }
        ensures known { KeepsKnown (view_of self.old) (view_of self.new) }
        ensures view { view_of self.new ≡ learned_all (thinned (view_of self.old) id old target result) }
        ensures forwards { Has (view_of self.new).forms id (Thin target) }
    {
        let place = heap.size.form_place(id);
        heap.table.shared.compare_exchange::<Thins>(
            &mut self.seat,
            place,
            encode(old),
            encode(Form::Thin { target }),
        )
    }

    /// Forwards a string to the interned string with its units. Where it is lost, another agent
    /// forwarded it before, and to the same string.
    pub fn thin_step(&mut self, heap: &Heap, id: u32, old: Form, target: u32) -> Step
        requires belongs { Belongs self.old heap.now }
        requires may { MayThin (view_of self.old) id old target }
        ensures belongs { Belongs self.new heap.now }
        ensures known { KeepsKnown (view_of self.old) (view_of self.new) }
        ensures step { IsMoved old result }
        ensures view { view_of self.new
            ≡ learned_all (thinned (view_of self.old) id old target (header_found old result)) }
        ensures forwards { Has (view_of self.new).forms id (Thin target) }
    {
        let found = self.try_thin(heap, id, old, target);
        if found == encode(old) {
            return Step::Won;
        }
        Step::Lost { word: found }
    }
}
