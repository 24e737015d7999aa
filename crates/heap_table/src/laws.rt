// The laws of the running heap.
ghost use Rattle.std.specs.Prelude.{ℕ, ◌<◌, ◌^◌, None};
ghost use Rattle.heap_rule.specs.Slots.{entry_in};
ghost use Rattle.js_header.specs.Form.{IsInRange};
ghost use Rattle.js_header.specs.declared.form.Form.{Form};
ghost use Rattle.heap_rule.specs.declared.size.Counter.{Counter};
ghost use Rattle.heap_rule.specs.Kinds.{load_counter, claim, store_word, store_length, birth, flatten, load_form, load_length, load_slot, load_word, take_slot, thin};
ghost use Rattle.heap_table.specs.Moments.{IsSoundTable, IsLegalTable, IsOfKind, IsOfKindBy, AreClaimsInTurn};

use crate::rule::{
    Claims, EntersSlot, Flattens, GivesBirth, HeapKey, HeapRule, LoadsCounter, LoadsForm,
    LoadsLength, LoadsSlot, LoadsWord, StoresLength, StoresWord, TakesSlot, Thins,
};
use atomic_table::{Play, TableRule};
use heap_rule::View;

/// What the rule of the table says at every moment between two steps of any agents: the rule of
/// the machine holds of its words and of the views of all its agents, and their histories, all
/// together, are legal. The call does nothing.
pub fn every_moment()
    ensures sound { IsSoundTable ⟦<HeapRule as TableRule<(), View, HeapKey>>⟧.holds }
    ensures legal { IsLegalTable ⟦<HeapRule as TableRule<(), View, HeapKey>>⟧.holds }
{}

/// The step of each call is a step of its kind: what it makes of the agent's view is what that
/// kind does to it by the word found. A step that claims several ids is that many claims in turn.
/// The call does nothing.
pub fn every_play()
    ensures counter { (k : Counter) → IsOfKind ⟦<LoadsCounter as Play<(), View>>⟧.then (load_counter k) }
    ensures claim { (k : Counter) (at want : ℕ)
        → IsOfKind ⟦<Claims as Play<(), View>>⟧.then (claim k at want) }
    ensures claim_ids { AreClaimsInTurn ⟦<Claims as Play<(), View>>⟧.then }
    ensures word { (c n : ℕ) → IsOfKind ⟦<StoresWord as Play<(), View>>⟧.then (store_word c n) }
    ensures length { (i n : ℕ) → IsOfKind ⟦<StoresLength as Play<(), View>>⟧.then (store_length i n) }
    ensures birth { (i : ℕ) (f : Form) → IsInRange f
        → IsOfKind ⟦<GivesBirth as Play<(), View>>⟧.then (birth i f) }
    ensures load_form { (i : ℕ) → IsOfKind ⟦<LoadsForm as Play<(), View>>⟧.then (load_form i) }
    ensures load_length { (i : ℕ) → IsOfKind ⟦<LoadsLength as Play<(), View>>⟧.then (load_length i) }
    ensures load_word { (c : ℕ) → IsOfKind ⟦<LoadsWord as Play<(), View>>⟧.then (load_word c) }
    ensures flatten { (i : ℕ) (old new : Form) → IsInRange old → IsInRange new
        → IsOfKind ⟦<Flattens as Play<(), View>>⟧.then (flatten i old new) }
    ensures thin { (i t : ℕ) (old : Form) → IsInRange old → t < 2 ^ 29
        → IsOfKind ⟦<Thins as Play<(), View>>⟧.then (thin i old t) }
    ensures load_slot { (k : ℕ) → IsOfKind ⟦<LoadsSlot as Play<(), View>>⟧.then (load_slot k None) }
    ensures enter_slot { (k : ℕ) → IsOfKindBy ⟦<EntersSlot as Play<(), View>>⟧.then
        (λ v. load_slot k (entry_in v k)) }
    ensures take_slot { (k i : ℕ) → IsOfKind ⟦<TakesSlot as Play<(), View>>⟧.then (take_slot k i) }
{}
