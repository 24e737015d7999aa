// Units that are in no string, interned and looked for by an agent that keeps the short lists that it looked for
// last, and notes what the strings in slots hash to.
ghost use Rattle.std.specs.Prelude.{◌≤◌, length, IfSome};
ghost use Rattle.heap_rule.specs.Layout.{MAX};
ghost use Rattle.heap_table.specs.Agents.{view_of};
ghost use Rattle.heap_text.specs.Keeping.{KeepsText};
ghost use Rattle.heap_read.specs.Reads.{HoldsForms};
ghost use Rattle.heap_intern.specs.Answers.{copy_plan};
ghost use Rattle.heap_intern.specs.Keys.{IsKey, units_of_key};
ghost use Rattle.heap_intern.specs.Searching.{IsOpening, LoadsFrom, SearchesKey, seat_found};
ghost use Rattle.heap_intern.specs.Seats.{IsSeatOf};
ghost use Rattle.heap_reserve.specs.Interning.{InternsAt};
ghost use Rattle.heap_reserve.specs.Reserves.{IsReserve};
ghost use Rattle.heap_notes.specs.Noted.{AreNoted};
ghost use Rattle.heap_agents.specs.Shared.{IsSameText, IsThere, view_if};

use heap_intern::{Key, KeySearch, Opening, TableFull, intern_again};
use heap_notes::Seats;
use heap_reserve::Reserve;
use heap_table::Heap;
use heap_text::Text;
use std::alloc::Global;
use std::sync::Arc;

// Looks for units by what they hash to.
fn search_by_hash(text: &mut Text<Arc<Heap, Global>>, seats: &mut Seats, key: &Key) -> KeySearch
    requires key { IsKey key.now }
    requires noted { AreNoted (view_of text.old.reader.agent) seats.old }
    ensures kept { KeepsText text.old text.new }
    ensures searches { SearchesKey (view_of text.old.reader.agent) (view_of text.new.reader.agent)
        (units_of_key key.now) result }
    ensures forms { HoldsForms (view_of text.old.reader.agent) (view_of text.new.reader.agent) }
    ensures seated { IfSome (seat_found result)
        (IsSeatOf (view_of text.new.reader.agent) (units_of_key key.now)) }
    ensures noted { AreNoted (view_of text.new.reader.agent) seats.new }
{
    seats.reach_hashes(text.reader.heap().size().slots);
    let hashes = seats.hashes.as_mut_slice();
    heap_intern::search_key(&mut text.reader, key, hashes)
}

// Looks for the units of a list, by one load where it is kept. A short one is kept once it is found.
fn search_units(text: &mut Text<Arc<Heap, Global>>, seats: &mut Seats, units: &[u16]) -> KeySearch
    requires short { length units.now ≤ MAX }
    requires noted { AreNoted (view_of text.old.reader.agent) seats.old }
    ensures kept { KeepsText text.old text.new }
    ensures searches { SearchesKey (view_of text.old.reader.agent) (view_of text.new.reader.agent)
        units.now result }
    ensures forms { HoldsForms (view_of text.old.reader.agent) (view_of text.new.reader.agent) }
    ensures noted { AreNoted (view_of text.new.reader.agent) seats.new }
{
    if let Some(seat) = seats.find_list(units) {
        intern_again(&mut text.reader, seat);
        return KeySearch::Found(seat);
    }
    match search_by_hash(text, seats, &Key::Units(units)) {
        KeySearch::Found(seat) => {
            seats.keep_list(units, seat);
            KeySearch::Found(seat)
        }
        KeySearch::Open(opening) => KeySearch::Open(opening),
        KeySearch::Shut { slots } => KeySearch::Shut { slots },
    }
}

// Looks for units in the table of a text.
fn search_in(text: &mut Text<Arc<Heap, Global>>, seats: &mut Seats, key: &Key) -> KeySearch
    requires key { IsKey key.now }
    requires noted { AreNoted (view_of text.old.reader.agent) seats.old }
    ensures kept { KeepsText text.old text.new }
    ensures searches { SearchesKey (view_of text.old.reader.agent) (view_of text.new.reader.agent)
        (units_of_key key.now) result }
    ensures forms { HoldsForms (view_of text.old.reader.agent) (view_of text.new.reader.agent) }
    ensures noted { AreNoted (view_of text.new.reader.agent) seats.new }
{
    match key {
        Key::Units(units) => search_units(text, seats, units),
        Key::Spelled(_) => search_by_hash(text, seats, key),
    }
}

// Looks for units, before anything is claimed for a string of theirs.
pub(crate) fn search_key(
    text: &mut Option<Text<Arc<Heap, Global>>>,
    seats: &mut Seats,
    key: &Key,
) -> KeySearch
    requires there { IsThere text.old }
    requires key { IsKey key.now }
    requires noted { AreNoted (view_if text.old) seats.old }
    ensures there { IsThere text.new }
    ensures same { IsSameText text.old text.new }
    ensures searches { SearchesKey (view_if text.old) (view_if text.new) (units_of_key key.now) result }
    ensures forms { HoldsForms (view_if text.old) (view_if text.new) }
    ensures noted { AreNoted (view_if text.new) seats.new }
{
    match text {
        Some(text) => search_in(text, seats, key),
        None => unreachable!(),
    }
}

// Interns units for which there is an opening, by what is in reserve where that suffices.
pub(crate) fn intern_at(
    text: &mut Option<Text<Arc<Heap, Global>>>,
    seats: &mut Seats,
    reserve: &mut Reserve,
    key: &Key,
    opening: Opening,
) -> Result<u32, TableFull>
    requires there { IsThere text.old }
    requires key { IsKey key.now }
    requires opening { IsOpening (view_if text.old) (units_of_key key.now) opening }
    requires noted { AreNoted (view_if text.old) seats.old }
    requires reserved { IsReserve (view_if text.old) reserve.old }
    ensures there { IsThere text.new }
    ensures same { IsSameText text.old text.new }
    ensures interns { InternsAt (view_if text.old) (view_if text.new) reserve.old reserve.new
        (units_of_key key.now) (copy_plan (units_of_key key.now)) result }
    ensures forms { HoldsForms (view_if text.old) (view_if text.new) }
    ensures loads { LoadsFrom (view_if text.old) (view_if text.new) (units_of_key key.now) opening }
    ensures noted { AreNoted (view_if text.new) seats.new }
    ensures reserved { IsReserve (view_if text.new) reserve.new }
{
    match text {
        Some(text) => {
            let hashes = seats.hashes.as_mut_slice();
            reserve.intern_at(text, key, opening, hashes)
        }
        None => unreachable!(),
    }
}
