// How many strings are interned.
ghost use Rattle.std.specs.Prelude.{◌≡◌, ℕ, ◌+◌, ◌≤◌, ◌<◌, ◌^◌};
ghost use Rattle.std.specs.FinMap.{contains_key};
ghost use Rattle.heap_rule.specs.declared.view.View.{View};
ghost use Rattle.heap_rule.specs.Views.{history};
ghost use Rattle.heap_table.specs.Agents.{size_of};
ghost use Rattle.heap_intern.specs.Counting.{count_below, different};
ghost use Rattle.heap_intern.specs.Goes.{LoadsAlone};
ghost use Rattle.heap_intern.specs.Visits.{Counted};
ghost use Rattle.heap_read.specs.Readers.{view_in};

use heap_read::{HeapRef, Reader};

// Whether a slot is used, as a number.
fn used<H: HeapRef>(reader: &mut Reader<H>, k: u32) -> u32
    requires inside { k < (size_of (H.reached reader.old.heap)).slots }
    requires whole { (view_in reader.old).share ≡ (view_in reader.old).agents }
    ensures heap { reader.new.heap ≡ reader.old.heap }
    ensures looks { LoadsAlone (view_in reader.old) (view_in reader.new) }
    ensures one { result ≤ 1 }
    ensures counts { (a : View) (count : ℕ) → Counted a (view_in reader.old) k count
        → Counted a (view_in reader.new) (k + 1) (count + result) }
{
    match reader.agent.load_slot(reader.heap.heap(), k, false) {
        Some(_) => 1,
        None => 0,
    }
}

/// The number of different lists of units in the history, by loads of all slots. Whoever holds
/// the whole share has every interned string in its history, so this is the number of used slots.
pub fn count_interned<H: HeapRef>(reader: &mut Reader<H>) -> u32
    requires whole { (view_in reader.old).share ≡ (view_in reader.old).agents }
    ensures heap { reader.new.heap ≡ reader.old.heap }
    ensures looks { LoadsAlone (view_in reader.old) (view_in reader.new) }
    ensures count { result ≡ different (history (view_in reader.old)) }
    ensures used { result ≡ count_below (λ k. contains_key (view_in reader.new).slots k)
        (size_of (H.reached reader.old.heap)).slots }
{
    let n = reader.heap.heap().size().slots;
    let mut count = 0;
    for k in 0..n {
        count += used(reader, k);
    }
    count
}
