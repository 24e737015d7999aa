// Stores to what an agent owns, and births.
ghost use Rattle.std.specs.Prelude.{◌≡◌, ℕ, ◌+◌, ◌*◌, ◌≤◌, ◌<◌, ◌^◌};
ghost use Rattle.heap_rule.specs.Maps.{HasKey};
ghost use Rattle.heap_rule.specs.Births.{MayBear, MayStoreLength, born, stored_length, stored_word};
ghost use Rattle.heap_table.specs.Agents.{Belongs, view_of};
ghost use Rattle.heap_table.specs.Known.{KeepsKnown};

use crate::agent::Agent;
use crate::heap::Heap;
use crate::rule::{GivesBirth, StoresLength, StoresWord};
use js_header::{Form, encode};

/// How a compare-exchange of a header or a slot ended: lost with the word that it found.
#[derive(Clone, Copy, Debug, PartialEq, Eq)]
pub enum Step {
    Won,
    Lost { word: u64 },
}

impl Agent {
    /// Stores an own content word.
    pub fn store_word(&mut self, heap: &Heap, at: u32, word: u64)
        requires belongs { Belongs self.old heap.now }
        requires own { HasKey (view_of self.old).own_words at }
        ensures belongs { Belongs self.new heap.now }
        ensures view { view_of self.new ≡ stored_word (view_of self.old) at word }
    {
        heap.table
            .shared
            .store::<StoresWord>(&mut self.seat, heap.size.content_place(at), word);
    }

    /// Stores the length, in units, of an own id that is not born.
    pub fn store_length(&mut self, heap: &Heap, id: u32, length: u32)
        requires belongs { Belongs self.old heap.now }
        requires may { MayStoreLength (view_of self.old) id length }
        ensures belongs { Belongs self.new heap.now }
        ensures view { view_of self.new ≡ stored_length (view_of self.old) id length }
    {
        heap.table.shared.store::<StoresLength>(
            &mut self.seat,
            heap.size.length_place(id),
            u64::from(length),
        );
    }

    /// Stores the form by which an own id is born. The form fits the length that was stored; the
    /// id is known from then on, and its content words are frozen.
    pub fn birth(&mut self, heap: &Heap, id: u32, form: Form)
        requires belongs { Belongs self.old heap.now }
        requires fits { MayBear (view_of self.old) id form }
        ensures belongs { Belongs self.new heap.now }
        ensures known { KeepsKnown (view_of self.old) (view_of self.new) }
        ensures view { view_of self.new ≡ born (view_of self.old) id form }
    {
        heap.table
            .shared
            .store::<GivesBirth>(&mut self.seat, heap.size.form_place(id), encode(form));
    }
}
