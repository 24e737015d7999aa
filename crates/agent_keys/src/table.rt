// The string table.
ghost use Rattle.std.specs.Prelude.{ℕ, List, IfOk};
ghost use Rattle.heap_rule.specs.Maps.{Has, HasKey};
ghost use Rattle.heap_rule.specs.Views.{IsSeenSettled};
ghost use Rattle.heap_intern.specs.Answers.{IsForwarded};
ghost use Rattle.heap_intern.specs.Searching.{IsStringOpening, LoadsFrom, SearchesString, opening_plan};
ghost use Rattle.heap_reserve.specs.Interning.{InternsAt};
ghost use Rattle.heap_reserve.specs.Reserves.{IsReserve};
ghost use Rattle.heap_agents.specs.Held.{IsHeld, view_by};
ghost use Rattle.agent_keys.specs.Keys.{InternedString};
ghost use Rattle.agent_keys.specs.Openings.{TakesKey};
ghost use Rattle.heap_agents.specs.Shared.{IsSameText, IsThere, view_if};
ghost use Rattle.heap_notes.specs.Noted.{AreNoted};

use agent_makes::renew_for;
use heap_agents::Held;
use heap_intern::{StringOpening, StringSearch, TableFull};
use heap_notes::Seats;
use heap_reserve::Reserve;
use heap_table::Heap;
use heap_text::Text;
use std::alloc::Global;
use std::sync::Arc;

// Looks for the units of a settled string, by one load where its slot was noted; else that is noted then.
fn search_string(
    text: &mut Option<Text<Arc<Heap, Global>>>,
    seats: &mut Seats,
    s: u32,
) -> StringSearch
    requires there { IsThere text.old }
    requires known { HasKey (view_if text.old).units s }
    requires settled { IsSeenSettled (view_if text.old) s }
    requires noted { AreNoted (view_if text.old) seats.old }
    ensures there { IsThere text.new }
    ensures same { IsSameText text.old text.new }
    ensures searches { (us : List ℕ) → Has (view_if text.old).units s us
        → SearchesString (view_if text.old) (view_if text.new) s us result }
    ensures noted { AreNoted (view_if text.new) seats.new }
{
    match text {
        Some(text) => {
            let size = text.reader.heap().size();
            seats.reach(s, size.ids);
            seats.reach_hashes(size.slots);
            heap_intern::search_string(
                &mut text.reader,
                s,
                seats.slots.as_mut_slice(),
                seats.hashes.as_mut_slice(),
            )
        }
        None => unreachable!(),
    }
}

// Interns a string for whose units there is an opening, by what is in reserve where that suffices.
fn intern_string_at(
    text: &mut Option<Text<Arc<Heap, Global>>>,
    seats: &mut Seats,
    reserve: &mut Reserve,
    opening: StringOpening,
) -> Result<u32, TableFull>
    requires there { IsThere text.old }
    requires opening { (us : List ℕ) × IsStringOpening (view_if text.old) us opening }
    requires noted { AreNoted (view_if text.old) seats.old }
    requires reserved { IsReserve (view_if text.old) reserve.old }
    ensures there { IsThere text.new }
    ensures same { IsSameText text.old text.new }
    ensures interns { (us : List ℕ) → IsStringOpening (view_if text.old) us opening
        → InternsAt (view_if text.old) (view_if text.new) reserve.old reserve.new us
        (opening_plan opening us) result }
    ensures forwards { IfOk result (λ i. IsForwarded (view_if text.new) opening.sought.id i) }
    ensures loads { (us : List ℕ) → IsStringOpening (view_if text.old) us opening
        → LoadsFrom (view_if text.old) (view_if text.new) us opening.opening }
    ensures noted { AreNoted (view_if text.new) seats.new }
    ensures reserved { IsReserve (view_if text.new) reserve.new }
{
    match text {
        Some(text) => reserve.intern_string_at(
            text,
            opening,
            seats.slots.as_mut_slice(),
            seats.hashes.as_mut_slice(),
        ),
        None => unreachable!(),
    }
}

/// The one string of the table with the units of a settled string. Where the string was interned before, it
/// is mostly answered by one load of its slot; where its units are in the table, nothing is used. Else it
/// takes an id, and where it is a part of another string the content words of a copy, from what was claimed
/// in advance, where that suffices. Where it doesn't, it is renewed first.
pub fn intern(agent: &mut Held, s: u32) -> Result<u32, TableFull>
    requires held { IsHeld agent.old }
    requires known { HasKey (view_by agent.old).units s }
    requires settled { IsSeenSettled (view_by agent.old) s }
    ensures { InternedString agent.old agent.new s result }
{
    match search_string(&mut agent.text, &mut agent.seats, s) {
        StringSearch::Found(seat) => {
            agent.mark_interned(seat.id);
            Ok(seat.id)
        }
        StringSearch::Open(opening) => {
            renew_for(agent, opening.words());
            take_string(agent, opening)
        }
        StringSearch::Shut { slots } => Err(TableFull::Slots { slots }),
    }
}

// Interns a string for whose units there is an opening, with what is in reserve now.
fn take_string(agent: &mut Held, opening: StringOpening) -> Result<u32, TableFull>
    requires held { IsHeld agent.old }
    requires opening { (us : List ℕ) × IsStringOpening (view_by agent.old) us opening }
    ensures takes { (us : List ℕ) → IsStringOpening (view_by agent.old) us opening
        → TakesKey agent.old agent.new us (opening_plan opening us) opening.opening result }
    ensures forwards { IfOk result (λ i. IsForwarded (view_by agent.new) opening.sought.id i) }
{
    let answer = intern_string_at(
        &mut agent.text,
        &mut agent.seats,
        &mut agent.reserve,
        opening,
    );
    let id = answer?;
    agent.mark_interned(id);
    Ok(id)
}
