// What an agent knows of the string table: which slots have a string that differs, and what a
// step on a slot makes of the view.
ghost use Rattle.std.specs.Prelude.{◌≡◌, ◌≢◌, ◌+◌, ◌%◌, ◌<◌, ◌≤◌, ◌^◌, ◌↔◌, ℕ, List, Bool, true, IfSome, IfOk, OnOk, IsTrue, length, Some, [], unwrap_or};
ghost use Rattle.std.specs.FinMap.{get};
ghost use Rattle.js_units.specs.Lanes.{hash_of};
ghost use Rattle.js_header.specs.Form.{IsInRange};
ghost use Rattle.js_header.specs.declared.form.Form.{Form};
ghost use Rattle.js_header.specs.declared.form.Form.TheVariants as form;
ghost use Rattle.heap_rule.specs.Layout.{MAX};
ghost use Rattle.heap_rule.specs.Maps.{Has};
ghost use Rattle.heap_rule.specs.Learning.{learned};
ghost use Rattle.heap_rule.specs.Slots.{MayEnter, MayTakeSlot, loaded_slot, took_slot, with_slot};
ghost use Rattle.heap_rule.specs.SlotTests.{any_below, differs, other_flat, other_lane, other_length, other_units, passes, shut_at};
ghost use Rattle.heap_core_views.specs.Loading.{HasRoom};
ghost use Rattle.heap_core_views.specs.Probing.{HasForms, HasShorts, IsBehind, IsHeader, MayLoad, MayTake, with_entry, with_load};

use crate::learning::{learn, twin, units_from};
use crate::load::Load;
use heap_rule::View;
use js_header::Form;
use js_units::{NoMemory, Units, hash_step, lane, lanes};
use std::alloc::Global;

fn has_other_length(view: &View, us: &[u16], id: u32) -> bool
    ensures { result ≡ passes (other_length view.now us.now) (get view.now.lengths id) }
{
    match view.lengths.get(id) {
        Some(length) => *length as usize != us.len(),
        None => false,
    }
}

fn has_other_units(view: &View, us: &[u16], id: u32) -> bool
    ensures { result ≡ passes (other_units view.now us.now) (get view.now.units id) }
{
    match view.units.get(id) {
        Some(units) => units.as_slice() != us,
        None => false,
    }
}

// Whether lane `o` of a Flat is known to be another unit.
#[tactic(auto, unfolding(heap_rule::specs::Contents::lane_in))]
fn has_other_lane(view: &View, us: &[u16], wide: bool, start: u32, o: u32) -> bool
    requires small { start + o < 2 ^ 32 }
    requires inside { o < length us.now }
    ensures { result ≡ other_lane view.now us.now wide start o }
{
    let n = lanes(wide);
    match view.frozen.get(start + o / n) {
        Some(word) => lane(*word, wide, o % n) != us[o as usize],
        None => false,
    }
}

fn has_other_flat(view: &View, us: &[u16], wide: bool, start: u32) -> bool
    requires short { length us.now ≤ MAX }
    requires range { start < 2 ^ 29 }
    ensures { result ≡ any_below (other_lane view.now us.now wide start) (length us.now) }
{
    let n = us.len() as u32;
    for o in 0..n {
        if has_other_lane(view, us, wide, start, o) {
            return true;
        }
    }
    false
}

fn has_other_form(view: &View, us: &[u16], form: Form) -> bool
    requires short { length us.now ≤ MAX }
    requires range { IsInRange form }
    ensures { result ≡ other_flat view.now us.now form }
{
    match form {
        Form::Flat {
            wide,
            start,
            fixed: _,
        } => has_other_flat(view, us, wide, start),
        Form::Unborn => false,
        Form::Cons {
            wide: _,
            left: _,
            right: _,
        } => false,
        Form::Sliced {
            wide: _,
            parent: _,
            offset: _,
        } => false,
        Form::Thin { target: _ } => false,
    }
}

fn flat_differs(view: &View, us: &[u16], id: u32) -> bool
    requires short { length us.now ≤ MAX }
    requires range { IfSome (get view.now.forms id) IsInRange }
    ensures { result ≡ passes (other_flat view.now us.now) (get view.now.forms id) }
{
    match view.forms.get(id) {
        Some(form) => has_other_form(view, us, *form),
        None => false,
    }
}

/// Whether the string is known not to have these units.
#[tactic(auto, unfolding(heap_rule::specs::SlotTests::differs))]
pub fn differs(view: &View, us: &[u16], id: u32) -> bool
    requires short { length us.now ≤ MAX }
    requires range { IfSome (get view.now.forms id) IsInRange }
    ensures { result ≡ differs view.now us.now id }
{
    has_other_length(view, us, id) || has_other_units(view, us, id) || flat_differs(view, us, id)
}

/// Whether the slot is known to have such a string.
pub fn is_shut_at(view: &View, us: &[u16], slot: u32) -> bool
    requires short { length us.now ≤ MAX }
    requires forms { HasForms view.now }
    ensures { result ≡ shut_at view.now us.now slot }
{
    match view.slots.get(slot) {
        Some(id) => differs(view, us, *id),
        None => false,
    }
}

// The hash of a list of units.
fn hash(us: &[u16]) -> u32
    ensures { result ≡ hash_of us.now }
{
    let mut h = 0;
    for unit in us {
        h = hash_step(h, *unit);
    }
    h
}

// Whether each slot before this one on the path of the units has a string that differs.
fn is_behind(view: &View, us: &[u16], slot: u32) -> bool
    requires short { length us.now ≤ MAX }
    requires forms { HasForms view.now }
    requires slots { view.now.sizes.slots < 2 ^ 29 }
    requires inside { slot < view.now.sizes.slots }
    ensures { IsTrue result ↔ IsBehind view.now us.now slot }
{
    let n = view.sizes.slots;
    let start = hash(us) % n;
    let rank = (slot + (n - start)) % n;
    for r in 0..rank {
        if !is_shut_at(view, us, (start + r) % n) {
            return false;
        }
    }
    true
}

// Whether the string was seen as a fixed Flat.
fn is_header(view: &View, id: u32) -> bool
    ensures { IsTrue result ↔ IsHeader view.now id }
{
    match view.forms.get(id) {
        Some(form) => is_fixed(*form),
        None => false,
    }
}

fn is_fixed(seen: Form) -> bool
    ensures { IsTrue result ↔ ((wide : Bool) × (start : ℕ) × (seen ≡ form.Flat wide start true)) }
{
    match seen {
        Form::Flat {
            wide: _,
            start: _,
            fixed,
        } => fixed,
        _ => false,
    }
}

/// Whether the slot may be claimed for the string.
pub fn may_take_slot(view: &View, slot: u32, id: u32) -> bool
    requires shorts { HasShorts view.now }
    requires forms { HasForms view.now }
    requires slots { view.now.sizes.slots < 2 ^ 29 }
    ensures { IsTrue result ↔ MayTakeSlot view.now slot id }
{
    if view.sizes.slots <= slot {
        return false;
    }
    if !is_header(view, id) {
        return false;
    }
    match view.units.get(id) {
        Some(units) => is_behind(view, units.as_slice(), slot),
        None => false,
    }
}

/// Whether a call with these units may enter the history by the string in the slot.
pub fn may_enter(view: &View, slot: u32, entry: &Option<Units>) -> bool
    ensures { IsTrue result ↔ MayEnter view.now slot entry.now }
{
    match entry {
        Some(us) => has_entry(view, slot, us.as_slice()),
        None => true,
    }
}

fn has_entry(view: &View, slot: u32, us: &[u16]) -> bool
    ensures { IsTrue result ↔ ((i : ℕ) × Has view.now.slots slot i × Has view.now.units i us.now) }
{
    match view.slots.get(slot) {
        Some(id) => has_units(view, *id, us),
        None => false,
    }
}

/// Whether the view has these units of the string.
pub fn has_units(view: &View, id: u32, us: &[u16]) -> bool
    ensures { IsTrue result ↔ Has view.now.units id us.now }
{
    match view.units.get(id) {
        Some(found) => found.as_slice() == us,
        None => false,
    }
}

/// Whether the slot may be loaded, and the units of all these strings follow from
/// the view afterwards, whatever is in the slot.
pub fn may_load(view: &View, slot: u32, entry: &Option<Units>, names: &[u32]) -> bool
    requires { HasRoom view.now }
    ensures { (x : ℕ) → IsTrue result ↔ MayLoad view.now slot entry.now names.now x }
{
    if view.sizes.slots <= slot {
        return false;
    }
    if !may_enter(view, slot, entry) {
        return false;
    }
    Load::Own.justifies_all(view, names)
}

/// The same of a claim of the slot.
pub fn may_take(view: &View, slot: u32, id: u32, names: &[u32]) -> bool
    requires shorts { HasShorts view.now }
    requires forms { HasForms view.now }
    requires slots { view.now.sizes.slots < 2 ^ 29 }
    requires room { HasRoom view.now }
    ensures { (x : ℕ) → IsTrue result ↔ MayTake view.now slot id names.now x }
{
    if !may_take_slot(view, slot, id) {
        return false;
    }
    Load::Own.justifies_all(view, names)
}

// What is in a slot is seen and met.
fn see(view: &mut View, slot: u32, word: u64) -> Result<(), NoMemory>
    requires { word < 2 ^ 32 }
    ensures { OnOk result (view.new ≡ with_slot view.old slot word) }
{
    if word == 0 {
        return Ok(());
    }
    let id = (word - 1) as u32;
    view.met.insert(id, ())?;
    view.slots.insert(slot, id)
}

// The id that the view saw in the slot, or 0.
fn seen_id(view: &View, slot: u32) -> u32
    ensures { result ≡ unwrap_or (get view.now.slots slot) 0 }
{
    match view.slots.get(slot) {
        Some(id) => *id,
        None => 0,
    }
}

// The call enters the history.
fn enter(view: &mut View, alloc: Global, slot: u32, entry: &Option<Units>) -> Result<(), NoMemory>
    ensures { OnOk result (view.new ≡ with_entry view.old slot entry.now) }
{
    match entry {
        Some(us) => {
            let id = seen_id(view, slot);
            let us = units_from(alloc, us.as_slice())?;
            view.mine.push(us, id)
        }
        None => Ok(()),
    }
}

// One load of the slot more.
fn count(view: &mut View, slot: u32) -> Result<(), NoMemory>
    ensures { OnOk result (view.new ≡ with_load view.old slot) }
{
    let loads = view.slot_loads.count_at(slot).saturating_add(1);
    view.slot_loads.insert(slot, loads)
}

/// The view after a load of a slot that learns the units of the named strings.
pub fn slot_loaded(
    view: &View,
    alloc: Global,
    slot: u32,
    entry: &Option<Units>,
    word: u64,
    names: &[u32],
) -> Result<View, NoMemory>
    requires room { HasRoom view.now }
    requires small { word < 2 ^ 32 }
    ensures { IfOk result (λ w. w ≡ learned (loaded_slot view.now slot entry.now word) names.now) }
{
    let mut seen = twin(view, alloc)?;
    load(&mut seen, alloc, slot, entry, word)?;
    learn(&mut seen, alloc, names)?;
    Ok(seen)
}

fn load(
    view: &mut View,
    alloc: Global,
    slot: u32,
    entry: &Option<Units>,
    word: u64,
) -> Result<(), NoMemory>
    requires { word < 2 ^ 32 }
    ensures { OnOk result (view.new ≡ loaded_slot view.old slot entry.now word) }
{
    enter(view, alloc, slot, entry)?;
    count(view, slot)?;
    see(view, slot, word)
}

// The units of a string, none where the view has not got them.
fn units_of(view: &View, alloc: Global, id: u32) -> Result<Units, NoMemory>
    ensures { IfOk result (λ us. us ≡ unwrap_or (get view.now.units id) []) }
{
    match view.units.get(id) {
        Some(units) => units_from(alloc, units.as_slice()),
        None => Ok(Units::new(alloc)),
    }
}

fn take(view: &mut View, alloc: Global, slot: u32, id: u32, word: u64) -> Result<(), NoMemory>
    requires { word < 2 ^ 32 }
    ensures { OnOk result (view.new ≡ took_slot view.old slot id word) }
{
    if word != 0 {
        return see(view, slot, word);
    }
    let us = units_of(view, alloc, id)?;
    view.mine.push(us, id)?;
    view.slots.insert(slot, id)
}

/// The view after a claim of a slot that learns the units of the named strings.
pub fn slot_taken(
    view: &View,
    alloc: Global,
    slot: u32,
    id: u32,
    word: u64,
    names: &[u32],
) -> Result<View, NoMemory>
    requires room { HasRoom view.now }
    requires small { word < 2 ^ 32 }
    ensures { IfOk result (λ w. w ≡ learned (took_slot view.now slot id word) names.now) }
{
    let mut seen = twin(view, alloc)?;
    take(&mut seen, alloc, slot, id, word)?;
    learn(&mut seen, alloc, names)?;
    Ok(seen)
}
