// Comparing settled strings, and finding one in another, which goes by the calls of `js_search` on a store
// that makes nothing.
ghost use Rattle.std.specs.Prelude.{◌≡◌, Some, ◌↔◌, ℕ, ◌≤◌, List, length, Option, IsTrue};
ghost use Rattle.heap_rule.specs.Maps.{Has};
ghost use Rattle.heap_read.specs.Reads.{OnlyLoads};
ghost use Rattle.js_search.specs.Order.{units_cmp};
ghost use Rattle.js_search.specs.Places.{IsFirst, IsLast, IsPartAt, first, last, stands};
ghost use Rattle.heap_agents.specs.Held.{IsHeld, LeavesSearched, view_by};
ghost use Rattle.agent_searches.specs.Order.{IsOrder};
ghost use Rattle.heap_agents.specs.Searched.{IsSearchable};

use crate::looking::Looking;
use heap_agents::Held;
use heap_text::JsStr;
use std::cmp::Ordering;

/// The order of two settled strings by their units, where a proper prefix comes first, by loads alone.
pub fn compare(agent: &mut Held, a: JsStr, b: JsStr) -> Ordering
    requires held { IsHeld agent.old }
    requires left { IsSearchable (view_by agent.old) a.id }
    requires right { IsSearchable (view_by agent.old) b.id }
    ensures searched { LeavesSearched agent.old agent.new }
    ensures order { (us vs : List ℕ) → Has (view_by agent.old).units a.id us
        → Has (view_by agent.old).units b.id vs
        → result ≡ units_cmp us vs }
    ensures means { (us vs : List ℕ) → Has (view_by agent.old).units a.id us
        → Has (view_by agent.old).units b.id vs
        → IsOrder us vs result }
    ensures reads { OnlyLoads (view_by agent.old) (view_by agent.new) }
{
    match &mut agent.text {
        Some(text) => heap_export::compare_strings(text, a, b),
        None => unreachable!(),
    }
}

/// Whether two settled strings have the same units, by loads alone.
pub fn equal(agent: &mut Held, a: JsStr, b: JsStr) -> bool
    requires held { IsHeld agent.old }
    requires left { IsSearchable (view_by agent.old) a.id }
    requires right { IsSearchable (view_by agent.old) b.id }
    ensures searched { LeavesSearched agent.old agent.new }
    ensures value { (us vs : List ℕ) → Has (view_by agent.old).units a.id us
        → Has (view_by agent.old).units b.id vs
        → IsTrue result ↔ (us ≡ vs) }
    ensures reads { OnlyLoads (view_by agent.old) (view_by agent.new) }
{
    match &mut agent.text {
        Some(text) => heap_export::has_same_units(text, a, b),
        None => unreachable!(),
    }
}

/// Whether the units of `needle` occur in `hay` at place `at`, both settled.
pub fn starts_with(agent: &mut Held, hay: JsStr, needle: JsStr, at: u32) -> bool
    requires held { IsHeld agent.old }
    requires left { IsSearchable (view_by agent.old) hay.id }
    requires right { IsSearchable (view_by agent.old) needle.id }
    ensures searched { LeavesSearched agent.old agent.new }
    ensures stands { (us vs : List ℕ) → Has (view_by agent.old).units hay.id us
        → Has (view_by agent.old).units needle.id vs
        → IsTrue result ↔ IsPartAt us vs at }
    ensures test { (us vs : List ℕ) → Has (view_by agent.old).units hay.id us
        → Has (view_by agent.old).units needle.id vs
        → result ≡ stands us vs at }
{
    match &mut agent.text {
        Some(text) => {
            let mut store = Looking {
                text,
                seats: &agent.seats,
            };
            js_search::stands_at(&mut store, hay, needle, at)
        }
        None => unreachable!(),
    }
}

/// The least place at or after `from` at which `needle` occurs in `hay`, both settled.
pub fn index_of(agent: &mut Held, hay: JsStr, needle: JsStr, from: u32) -> Option<u32>
    requires held { IsHeld agent.old }
    requires left { IsSearchable (view_by agent.old) hay.id }
    requires right { IsSearchable (view_by agent.old) needle.id }
    requires within { (us : List ℕ) × Has (view_by agent.old).units hay.id us × (from ≤ length us) }
    ensures searched { LeavesSearched agent.old agent.new }
    ensures least { (us vs : List ℕ) → Has (view_by agent.old).units hay.id us
        → Has (view_by agent.old).units needle.id vs
        → IsFirst us vs from result }
    ensures place { (us vs : List ℕ) → Has (view_by agent.old).units hay.id us
        → Has (view_by agent.old).units needle.id vs
        → result ≡ first us vs from }
{
    match &mut agent.text {
        Some(text) => {
            let mut store = Looking {
                text,
                seats: &agent.seats,
            };
            js_search::index_of(&mut store, hay, needle, from)
        }
        None => unreachable!(),
    }
}

/// The greatest place at most `limit` at which `needle` occurs in `hay`, both settled.
pub fn last_index_of(agent: &mut Held, hay: JsStr, needle: JsStr, limit: u32) -> Option<u32>
    requires held { IsHeld agent.old }
    requires left { IsSearchable (view_by agent.old) hay.id }
    requires right { IsSearchable (view_by agent.old) needle.id }
    ensures searched { LeavesSearched agent.old agent.new }
    ensures greatest { (us vs : List ℕ) → Has (view_by agent.old).units hay.id us
        → Has (view_by agent.old).units needle.id vs
        → IsLast us vs limit result }
    ensures place { (us vs : List ℕ) → Has (view_by agent.old).units hay.id us
        → Has (view_by agent.old).units needle.id vs
        → result ≡ last us vs limit }
{
    match &mut agent.text {
        Some(text) => {
            let mut store = Looking {
                text,
                seats: &agent.seats,
            };
            js_search::last_index_of(&mut store, hay, needle, limit)
        }
        None => unreachable!(),
    }
}
