// Strings of the table by their slots. An interned string is in one slot for good, so an agent that
// gets the number of the slot may load it, and knows the string from then on.
ghost use Rattle.std.specs.Prelude.{◌≡◌, ◌↔◌, ℕ, List, ◌+◌, ◌%◌, ◌≤◌, ◌<◌, Contains, IsTrue, Some};
ghost use Rattle.js_units.specs.Lanes.{hash_of};
ghost use Rattle.heap_rule.specs.Maps.{Has, HasKey};
ghost use Rattle.heap_rule.specs.Views.{MayUse, history};
ghost use Rattle.heap_table.specs.Agents.{size_of};
ghost use Rattle.heap_intern.specs.Adopted.{AdoptsSlot, IsAdopted, LoadsHere, LoadsNoneBehind, adopting_loads};
ghost use Rattle.heap_intern.specs.Goes.{LoadsAlone};
ghost use Rattle.heap_intern.specs.SlotLoads.{loads_at};
ghost use Rattle.heap_read.specs.Frozen.{AreFrozen, IsFixedWindow, IsLearned};
ghost use Rattle.heap_read.specs.Readers.{MovesView, view_in};
ghost use Rattle.heap_read.specs.Reads.{HoldsForms, KeepsForms, OnlyLoads};
ghost use Rattle.heap_read.specs.Windows.{IsFrozenWindow};

use heap_read::{HeapRef, Reader, Window};

// Loads each word of a window once, after which they are known to be frozen.
fn read_words<H: HeapRef>(reader: &mut Reader<H>, w: Window)
    requires frozen { IsFrozenWindow (view_in reader.old) w }
    requires learned { IsLearned (view_in reader.old) }
    ensures reads { MovesView OnlyLoads reader.old reader.new }
    ensures forms { KeepsForms (view_in reader.old) (view_in reader.new) }
    ensures learned { IsLearned (view_in reader.new) }
    ensures frozen { AreFrozen (view_in reader.new) w }
{
    let mut i = 0;
    while i < w.len {
        let held = reader.hold_in(w, i);
        let count = held.count_from(i);
        i += count;
    }
}

// A string that was found in a slot: its units are read, and one more load of the slot enters the
// call in the history.
fn enter<H: HeapRef>(reader: &mut Reader<H>, slot: u32, id: u32)
    requires inside { slot < (size_of (H.reached reader.old.heap)).slots }
    requires used { Has (view_in reader.old).slots slot id × MayUse (view_in reader.old) id }
    ensures heap { reader.new.heap ≡ reader.old.heap }
    ensures adopted { IsAdopted (view_in reader.old) (view_in reader.new) slot id }
    ensures forms { HoldsForms (view_in reader.old) (view_in reader.new) }
    ensures loads { LoadsHere (view_in reader.old) (view_in reader.new) slot 1 }
{
    let window = reader.fixed_window(id);
    read_words(reader, window);
    reader.agent.load_slot(reader.heap.heap(), slot, true);
}

/// The string in a slot of the table, whose units are known from then on; none exactly where a load
/// found the slot free. It uses nothing, also on a full heap. Each content word of the string is
/// loaded once, and the slot twice. The string counts as a call of the history, so its number may
/// be compared with those that interning answers.
pub fn adopt<H: HeapRef>(reader: &mut Reader<H>, slot: u32) -> Option<u32>
    requires { slot < (size_of (H.reached reader.old.heap)).slots }
    ensures heap { reader.new.heap ≡ reader.old.heap }
    ensures adopts { AdoptsSlot (view_in reader.old) (view_in reader.new) slot result }
    ensures again { (i : ℕ) → Has (view_in reader.old).slots slot i → result ≡ Some i }
    ensures forms { HoldsForms (view_in reader.old) (view_in reader.new) }
    ensures loads { LoadsHere (view_in reader.old) (view_in reader.new) slot (adopting_loads result) }
{
    let id = match reader.agent.load_slot(reader.heap.heap(), slot, false) {
        Some(id) => id,
        None => return None,
    };
    enter(reader, slot, id);
    Some(id)
}

// Whether a slot has this string.
fn has_string<H: HeapRef>(reader: &mut Reader<H>, slot: u32, id: u32) -> bool
    requires { slot < (size_of (H.reached reader.old.heap)).slots }
    ensures heap { reader.new.heap ≡ reader.old.heap }
    ensures looks { LoadsAlone (view_in reader.old) (view_in reader.new) }
    ensures forms { HoldsForms (view_in reader.old) (view_in reader.new) }
    ensures loads { LoadsHere (view_in reader.old) (view_in reader.new) slot 1 }
    ensures stands { IsTrue result ↔ Has (view_in reader.new).slots slot id }
{
    match reader.agent.load_slot(reader.heap.heap(), slot, false) {
        Some(found) => found == id,
        None => false,
    }
}

// The slot with this string, which is on the path of its hash.
fn walk_to<H: HeapRef>(reader: &mut Reader<H>, id: u32, hash: u32) -> u32
    requires stands { (k : ℕ) × Has (view_in reader.old).slots k id }
    requires hash { (us : List ℕ) × Has (view_in reader.old).units id us × (hash ≡ hash_of us) }
    ensures heap { reader.new.heap ≡ reader.old.heap }
    ensures looks { LoadsAlone (view_in reader.old) (view_in reader.new) }
    ensures forms { HoldsForms (view_in reader.old) (view_in reader.new) }
    ensures stands { Has (view_in reader.new).slots result id }
    ensures once { (k : ℕ) → loads_at (view_in reader.new) k ≤ loads_at (view_in reader.old) k + 1 }
    ensures few { (us : List ℕ) → Has (view_in reader.old).units id us
        → LoadsNoneBehind (view_in reader.old) (view_in reader.new) us result }
{
    let n = reader.heap.heap().size().slots;
    let start = hash % n;
    for r in 0..n {
        let slot = (start + r) % n;
        if has_string(reader, slot, id) {
            return slot;
        }
    }
    unreachable!()
}

/// The slot that an interned string is in, for good: an answer of the string table that is in
/// the history. It uses nothing, also on a full heap. Each slot on the path of the string's hash is
/// loaded once, up to this one, and each of its content words.
pub fn slot_of<H: HeapRef>(reader: &mut Reader<H>, id: u32) -> u32
    requires known { HasKey (view_in reader.old).units id }
    requires call { (u : List ℕ) × Contains (history (view_in reader.old)) (u, id) }
    ensures heap { reader.new.heap ≡ reader.old.heap }
    ensures looks { LoadsAlone (view_in reader.old) (view_in reader.new) }
    ensures forms { HoldsForms (view_in reader.old) (view_in reader.new) }
    ensures inside { result < (size_of (H.reached reader.old.heap)).slots }
    ensures stands { Has (view_in reader.new).slots result id }
    ensures once { (k : ℕ) → loads_at (view_in reader.new) k ≤ loads_at (view_in reader.old) k + 1 }
    ensures few { (us : List ℕ) → Has (view_in reader.old).units id us
        → LoadsNoneBehind (view_in reader.old) (view_in reader.new) us result }
{
    let window = reader.fixed_window(id);
    let hash = reader.hash_in(window);
    walk_to(reader, id, hash)
}
