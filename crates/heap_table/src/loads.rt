// Loads of headers and content words. Each also learns every pair that the view's new data
// justify, which uses nothing at run time.
ghost use Rattle.std.specs.Prelude.{◌≡◌, ◌≢◌, ℕ, Bool, ◌⊎◌, ◌+◌, ◌*◌, ◌≤◌, ◌<◌, ◌^◌, Some};
ghost use Rattle.heap_rule.specs.Forms.{IsCons, IsLater, IsSolid};
ghost use Rattle.heap_rule.specs.Maps.{Has};
ghost use Rattle.heap_rule.specs.Views.{MayUse, IsSeenSettled, shown_word};
ghost use Rattle.heap_rule.specs.Layout.{MAX, content_at};
ghost use Rattle.heap_rule.specs.Loads.{MayLoadWord, loaded_form, loaded_length, loaded_word};
ghost use Rattle.heap_rule.specs.Learning.{learned_all};
ghost use Rattle.js_header.specs.Form.{IsInRange, form_of};
ghost use Rattle.js_header.specs.declared.form.Form.TheVariants.{Unborn, Sliced};
ghost use Rattle.js_header.specs.declared.form.Form as form;
ghost use Rattle.heap_table.specs.Agents.{Belongs, size_of, view_of};
ghost use Rattle.heap_table.specs.Known.{KeepsKnown};

use crate::agent::Agent;
use crate::heap::Heap;
use crate::rule::{LoadsForm, LoadsLength, LoadsWord};
use js_header::{Form, decode};

impl Agent {
    /// The form of a known id, as it is at this moment: the one that was seen, or a later one. What
    /// a Sliced was cut from is a Flat or a Thin.
    pub fn load_form(&mut self, heap: &Heap, id: u32) -> Form
        requires belongs { Belongs self.old heap.now }
        requires known { MayUse (view_of self.old) id }
        ensures belongs { Belongs self.new heap.now }
        ensures known { KeepsKnown (view_of self.old) (view_of self.new) }
        ensures view { (word : ℕ) × (form_of word ≡ Some result)
            × (view_of self.new ≡ learned_all (loaded_form (view_of self.old) id word)) }
        ensures born { result ≢ Unborn }
        ensures range { IsInRange result }
        ensures settled { IsSeenSettled (view_of self.old) id → ¬ IsCons result }
        ensures later { (f : form.Form) → Has (view_of self.old).forms id f
            → (f ≡ result) ⊎ IsLater f result }
        ensures solid { (j : ℕ) (wide : Bool) (offset : ℕ)
            → Has (view_of self.old).forms j (Sliced wide id offset) → IsSolid result }
    {
        let word = heap
            .table
            .shared
            .load::<LoadsForm>(&mut self.seat, heap.size.form_place(id));
        match decode(word) {
            Some(form) => form,
            None => unreachable!(),
        }
    }

    /// The length of a known id, in units.
    pub fn load_length(&mut self, heap: &Heap, id: u32) -> u32
        requires belongs { Belongs self.old heap.now }
        requires known { MayUse (view_of self.old) id }
        ensures belongs { Belongs self.new heap.now }
        ensures known { KeepsKnown (view_of self.old) (view_of self.new) }
        ensures view { view_of self.new ≡ learned_all (loaded_length (view_of self.old) id result) }
        ensures forms { (view_of self.new).forms ≡ (view_of self.old).forms }
        ensures short { result ≤ MAX }
    {
        heap.table
            .shared
            .load::<LoadsLength>(&mut self.seat, heap.size.length_place(id)) as u32
    }

    /// A content word that is the agent's own or known to be frozen.
    pub fn load_word(&mut self, heap: &Heap, at: u32) -> u64
        requires belongs { Belongs self.old heap.now }
        requires may { MayLoadWord (view_of self.old) at }
        ensures belongs { Belongs self.new heap.now }
        ensures known { KeepsKnown (view_of self.old) (view_of self.new) }
        ensures view { view_of self.new ≡ learned_all (loaded_word (view_of self.old) at result) }
        ensures forms { (view_of self.new).forms ≡ (view_of self.old).forms }
        ensures shown { result ≡ shown_word (view_of self.new) at }
    {
        heap.table
            .shared
            .load::<LoadsWord>(&mut self.seat, heap.size.content_place(at))
    }

    /// The same by the place of the heap's first content word (`Heap::first_content`), which a loop looks
    /// up once.
    #[inline(always)]
    pub fn load_word_from(&mut self, heap: &Heap, first: usize, at: u32) -> u64
        requires belongs { Belongs self.old heap.now }
        requires first { first ≡ content_at (size_of heap.now) 0 }
        requires may { MayLoadWord (view_of self.old) at }
        ensures belongs { Belongs self.new heap.now }
        ensures known { KeepsKnown (view_of self.old) (view_of self.new) }
        ensures view { view_of self.new ≡ learned_all (loaded_word (view_of self.old) at result) }
        ensures forms { (view_of self.new).forms ≡ (view_of self.old).forms }
        ensures shown { result ≡ shown_word (view_of self.new) at }
    {
        heap.table
            .shared
            .load::<LoadsWord>(&mut self.seat, first + at as usize)
    }
}
