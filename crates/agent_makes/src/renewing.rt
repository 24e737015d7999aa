// What an agent has in reserve, renewed by blocks before a string is made that finds too little there.
ghost use Rattle.std.specs.Prelude.{◌≡◌, ◌↔◌, ◌⊎◌, ℕ, ◌+◌, ◌-◌, ◌<◌, ◌≤◌, false, IsTrue, List, length};
ghost use Rattle.js_units.specs.Lanes.{words_over};
ghost use Rattle.heap_rule.specs.Layout.{MAX};
ghost use Rattle.heap_rule.specs.Maps.{Has, HasKey};
ghost use Rattle.heap_read.specs.Reads.{HoldsForms, OnlyLoads};
ghost use Rattle.heap_intern.specs.Keys.{IsKey, units_of_key};
ghost use Rattle.heap_reserve.specs.Making.{words_holding};
ghost use Rattle.heap_agents.specs.Held.{IsHeld, LeavesStrings, MarksNothing, limit_by, view_by};
ghost use Rattle.agent_makes.specs.Preparing.{IsPrepared, Prepares};
ghost use Rattle.agent_makes.specs.Spending.{AreClaimedFor, AreIdsDue, AreWordsDue, IsRenewalDue, Renews, RenewsForBoth, RenewsForPart, SetsBlocks, most_words};

use crate::spending::reserve;
use heap_agents::{Held, ReserveBlocks};
use heap_intern::Key;
use heap_text::{JsStr, MIN_CONS};
use js_units::words_for;

// The words of the longest copy that joining, or cutting, makes.
const SHORT_WORDS: u32 = 3;

/// Sets the blocks by which an agent renews its reserve from now on: before a string is made, joined or cut, or
/// made for what is interned, that finds no id, or too few content words, there. Then it claims a block of
/// ids if it has none, and a block of words, or as many as the string needs where these are more, if it has
/// too few; but nothing if it has too little of what it has no block of. Where the heap has less, the string
/// is made as ever.
pub fn renew(agent: &mut Held, ids: u32, words: u32)
    requires held { IsHeld agent.old }
    ensures held { IsHeld agent.new }
    ensures sets { SetsBlocks agent.old agent.new ids words }
{
    agent.blocks = ReserveBlocks { ids, words };
}

/// Renews the reserve for a string with units that are given as a list or as bytes. They are read only where
/// the reserve may lack something.
pub fn renew_for_key(agent: &mut Held, key: &Key)
    requires held { IsHeld agent.old }
    requires key { IsKey key.now }
    ensures prepared { IsPrepared agent.old agent.new }
    ensures renews { Prepares (IsRenewalDue agent.old (words_holding (units_of_key key.now))) agent.old
        agent.new (words_holding (units_of_key key.now)) }
    ensures left { (IsRenewalDue agent.old (words_holding (units_of_key key.now)) → ⊥)
        → agent.new ≡ agent.old }
    ensures forms { HoldsForms (view_by agent.old) (view_by agent.new) }
{
    let n = key.len();
    if may_lack(agent, words_for(n, true)) {
        renew_for(agent, words_for(n, key.is_wide()));
    }
}

// Renews for two strings that are joined.
pub(crate) fn renew_for_both(agent: &mut Held, a: JsStr, b: JsStr)
    requires held { IsHeld agent.old }
    requires known { HasKey (view_by agent.old).units a.id
        × HasKey (view_by agent.old).units b.id }
    ensures prepared { IsPrepared agent.old agent.new }
    ensures renews { (us vs : List ℕ) → Has (view_by agent.old).units a.id us
        → Has (view_by agent.old).units b.id vs
        → Prepares (RenewsForBoth agent.old us vs) agent.old agent.new
        (most_words (length us + length vs)) }
{
    if !may_lack(agent, SHORT_WORDS) {
        return;
    }
    let left = agent_reads::length(agent, a);
    let right = agent_reads::length(agent, b);
    if !makes_new(agent, left, right) {
        return;
    }
    renew_for(agent, most_words(left + right));
}

// Renews for a part of a string.
pub(crate) fn renew_for_part(agent: &mut Held, s: JsStr, from: u32, to: u32)
    requires held { IsHeld agent.old }
    requires known { HasKey (view_by agent.old).units s.id }
    requires ordered { from ≤ to }
    ensures prepared { IsPrepared agent.old agent.new }
    ensures renews { (us : List ℕ) → Has (view_by agent.old).units s.id us
        → Prepares (RenewsForPart agent.old from to us) agent.old agent.new (most_words (to - from)) }
{
    if !may_lack(agent, SHORT_WORDS) {
        return;
    }
    let n = agent_reads::length(agent, s);
    if !is_part(from, to, n) {
        return;
    }
    renew_for(agent, most_words(to - from));
}

// Whether strings of these lengths are joined to a new one.
fn makes_new(agent: &Held, left: u32, right: u32) -> bool
    requires held { IsHeld agent.now }
    requires short { (left ≤ MAX) × (right ≤ MAX) }
    ensures { IsTrue result ↔ ((left + right ≤ limit_by agent.now) × (0 < left) × (0 < right)) }
{
    match &agent.text {
        Some(text) => left + right <= text.limit && 0 < left && 0 < right,
        None => unreachable!(),
    }
}

// Whether an agent has blocks, and a string that needs at most so many content words may find too little.
fn may_lack(agent: &Held, words: u32) -> bool
    ensures { result ≡ false → (n : ℕ) → n ≤ words → IsRenewalDue agent.now n → ⊥ }
{
    let has_blocks = agent.blocks.ids > 0 || agent.blocks.words > 0;
    let may_suffice = agent.reserve.ids_left() > 0 && words <= agent.reserve.words_left();
    has_blocks && !may_suffice
}

/// Renews the reserve for a string that needs so many content words, where it is to.
pub fn renew_for(agent: &mut Held, words: u32)
    requires held { IsHeld agent.old }
    ensures prepared { IsPrepared agent.old agent.new }
    ensures renews { Prepares (IsRenewalDue agent.old words) agent.old agent.new words }
    ensures left { (IsRenewalDue agent.old words → ⊥) → agent.new ≡ agent.old }
    ensures forms { HoldsForms (view_by agent.old) (view_by agent.new) }
{
    if is_due(agent, words) {
        let ReserveBlocks {
            ids: more_ids,
            words: more_words,
        } = blocks_for(agent, words);
        let _ = reserve(agent, more_ids, more_words);
    }
}

// Whether a string that needs so many content words renews the reserve.
fn is_due(agent: &Held, words: u32) -> bool
    ensures { IsTrue result ↔ IsRenewalDue agent.now words }
{
    let no_ids = agent.reserve.ids_left() == 0;
    let lacks_words = agent.reserve.words_left() < words;
    (no_ids || lacks_words)
        && (!no_ids || agent.blocks.ids > 0)
        && (!lacks_words || agent.blocks.words > 0)
}

// What is claimed for such a string.
fn blocks_for(agent: &Held, words: u32) -> ReserveBlocks
    ensures { AreClaimedFor agent.now words result.ids result.words }
{
    let few_words = agent.reserve.words_left() < words;
    ReserveBlocks {
        ids: if agent.reserve.ids_left() == 0 {
            agent.blocks.ids
        } else {
            0
        },
        words: if few_words {
            agent.blocks.words.max(words)
        } else {
            0
        },
    }
}

// Whether a part is not all of `n` units.
fn is_part(from: u32, to: u32, n: u32) -> bool
    ensures { IsTrue result ↔ ((0 < from) ⊎ (to < n)) }
{
    0 < from || to < n
}

// The most content words of a string of so many units that joining, or cutting, makes.
fn most_words(n: u32) -> u32
    ensures { result ≡ most_words n }
{
    if n < MIN_CONS { words_for(n, true) } else { 0 }
}
