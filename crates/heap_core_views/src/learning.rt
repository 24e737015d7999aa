// What a view has after a load, and what it learns.
ghost use Rattle.std.specs.Prelude.{◌≡◌, ℕ, ◌+◌, ◌<◌, ◌^◌, ◌↔◌, IfOk, OnOk, IsTrue, Some};
ghost use Rattle.std.specs.FinMap.{get, keys};
ghost use Rattle.std.specs.Option.{option_copied};
ghost use Rattle.heap_rule.specs.Contents.{span, lane_in};
ghost use Rattle.heap_rule.specs.Maps.{Has, first_in};
ghost use Rattle.heap_rule.specs.Views.{MayUse, HasLength};
ghost use Rattle.js_header.specs.declared.form.Form.{Form};
ghost use Rattle.js_header.specs.declared.form.Form.TheVariants as form;
ghost use Rattle.heap_rule.specs.Loads.{MayLoadWord, loaded_word};
ghost use Rattle.heap_rule.specs.Learning.{split_by, by_thin, by_cons, by_flat, frozen_word, justified, learned};
ghost use Rattle.heap_core_views.specs.Loading.{loaded_by, met_by, HasRoom, IsRunCounted, IsSpanned, Spans, EndsPast};

use crate::load::Load;
use heap_rule::{Twin, View};
use js_header::Form;
use js_units::{NoMemory, Units, lane, lanes, words_for};
use std::alloc::Global;

/// Whether the string is known.
pub fn is_known(view: &View, id: u32) -> bool
    ensures { IsTrue result ↔ MayUse view.now id }
{
    if view.units.contains_key(id) {
        return true;
    }
    view.met.contains_key(id)
}

/// Whether the content word is own or known to be frozen.
pub fn may_load_word(view: &View, at: u32) -> bool
    ensures { IsTrue result ↔ MayLoadWord view.now at }
{
    if view.own_words.contains_key(at) {
        return true;
    }
    if view.frozen.contains_key(at) {
        return true;
    }
    is_spanned(view, at)
}

/// What a load of a content word adds.
pub fn word_load(view: &View, at: u32, word: u64) -> Load
    ensures view { loaded_by view.now result ≡ loaded_word view.now at word }
    ensures run { IsRunCounted result }
{
    if view.own_words.contains_key(at) {
        return Load::Own;
    }
    Load::SeenWord { at, word }
}

// Whether the word lies in the span of a Flat, by a length that the view has.
fn is_spanned(view: &View, at: u32) -> bool
    ensures { IsTrue result ↔ IsSpanned view.now at }
{
    for (id, form) in view.forms.iter() {
        if spans(view, at, *id, *form) {
            return true;
        }
    }
    false
}

fn spans(view: &View, at: u32, id: u32, form: Form) -> bool
    ensures { IsTrue result ↔ Spans view.now at id form }
{
    match form {
        Form::Flat {
            wide,
            start,
            fixed: _,
        } => {
            if at < start {
                return false;
            }
            is_longer(view, id, u64::from(at - start) * u64::from(lanes(wide)))
        }
        _ => false,
    }
}

// Whether the view has a length of the string that is more than n.
fn is_longer(view: &View, id: u32, n: u64) -> bool
    ensures { IsTrue result ↔ ((m : ℕ) × HasLength view.now id m × (n < m)) }
{
    if has_longer(view, id, n) {
        return true;
    }
    has_later_part(view, id, n)
}

fn has_longer(view: &View, id: u32, n: u64) -> bool
    ensures { IsTrue result ↔ ((m : ℕ) × Has view.now.lengths id m × (n < m)) }
{
    match view.lengths.get(id) {
        Some(length) => n < u64::from(*length),
        None => false,
    }
}

// Whether a Sliced of the string ends past n.
fn has_later_part(view: &View, id: u32, n: u64) -> bool
    ensures { IsTrue result ↔ ((j : ℕ) × (f : Form) × Has view.now.forms j f × EndsPast view.now id n j f) }
{
    for (part, form) in view.forms.iter() {
        if ends_past(view, id, n, *part, *form) {
            return true;
        }
    }
    false
}

fn ends_past(view: &View, id: u32, n: u64, part: u32, form: Form) -> bool
    ensures { IsTrue result ↔ EndsPast view.now id n part form }
{
    match form {
        Form::Sliced {
            wide: _,
            parent,
            offset,
        } => {
            if parent != id && !forwards(view, parent, id) {
                return false;
            }
            match view.lengths.get(part) {
                Some(length) => n < u64::from(offset) + u64::from(*length),
                None => false,
            }
        }
        _ => false,
    }
}

fn forwards(view: &View, from: u32, to: u32) -> bool
    ensures { IsTrue result ↔ Has view.now.forms from (form.Thin to) }
{
    match view.forms.get(from) {
        Some(form) => match *form {
            Form::Thin { target } => target == to,
            _ => false,
        },
        None => false,
    }
}

/// The same view again.
pub(crate) fn twin(view: &View, alloc: Global) -> Result<View, NoMemory>
    ensures { IfOk result (λ w. w ≡ view.now) }
{
    Ok(View {
        sizes: view.sizes,
        agents: view.agents,
        live: view.live,
        share: view.share,
        used: view.used,
        low: view.low,
        own_ids: view.own_ids.twin(alloc)?,
        own_words: view.own_words.twin(alloc)?,
        units: view.units.twin(alloc)?,
        met: view.met.twin(alloc)?,
        forms: view.forms.twin(alloc)?,
        lengths: view.lengths.twin(alloc)?,
        frozen: view.frozen.twin(alloc)?,
        slots: view.slots.twin(alloc)?,
        seen: view.seen.twin(alloc)?,
        mine: view.mine.twin(alloc)?,
        form_loads: view.form_loads,
        slot_loads: view.slot_loads.twin(alloc)?,
        giving: view.giving,
    })
}

/// The view after a load that learns the units of the named strings.
pub fn loaded(view: &View, alloc: Global, load: Load, names: &[u32]) -> Result<View, NoMemory>
    requires room { HasRoom (loaded_by view.now load) }
    requires run { IsRunCounted load }
    ensures { IfOk result (λ w. w ≡ learned (loaded_by view.now load) names.now) }
{
    let mut seen = twin(view, alloc)?;
    add_load(&mut seen, load)?;
    learn(&mut seen, alloc, names)?;
    Ok(seen)
}

// A load without what is learned.
fn add_load(view: &mut View, load: Load) -> Result<(), NoMemory>
    requires { IsRunCounted load }
    ensures { OnOk result (view.new ≡ loaded_by view.old load) }
{
    match load {
        Load::SeenForm { id, form } => {
            meet(view, form)?;
            view.forms.insert(id, form)?;
            view.form_loads = view.form_loads.saturating_add(1);
            Ok(())
        }
        Load::SeenLength { id, length } => view.lengths.insert(id, length),
        Load::SeenWord { at, word } => view.frozen.insert(at, word),
        Load::Turned {
            id,
            form,
            start,
            count,
        } => {
            view.frozen.take_run(&view.own_words, start, count)?;
            view.own_words.remove_run(start, count);
            view.forms.insert(id, form)
        }
        Load::Own => Ok(()),
    }
}

// The ids that a form names are met.
fn meet(view: &mut View, form: Form) -> Result<(), NoMemory>
    ensures { OnOk result (view.new ≡ met_by view.old form) }
{
    match form {
        Form::Cons {
            wide: _,
            left,
            right,
        } => {
            view.met.insert(left, ())?;
            view.met.insert(right, ())
        }
        Form::Sliced {
            wide: _,
            parent,
            offset: _,
        } => view.met.insert(parent, ()),
        Form::Thin { target } => view.met.insert(target, ()),
        Form::Unborn => Ok(()),
        Form::Flat {
            wide: _,
            start: _,
            fixed: _,
        } => Ok(()),
    }
}

// One round of learning: all of it follows from the view as it was.
pub(crate) fn learn(view: &mut View, alloc: Global, names: &[u32]) -> Result<(), NoMemory>
    requires { HasRoom view.old }
    ensures { OnOk result (view.new ≡ learned view.old names.now) }
{
    let mut units = view.units.twin(alloc)?;
    let mut k = 0;
    'names: while k < names.len() {
        let id = names[k];
        if let Some(found) = justified(view, alloc, id)? {
            units.insert(id, found)?;
        }
        k += 1;
    }
    view.units = units;
    Ok(())
}

// The units of a string that follow from the view.
fn justified(view: &View, alloc: Global, id: u32) -> Result<Option<Units>, NoMemory>
    requires { HasRoom view.now }
    ensures { IfOk result (λ o. o ≡ justified view.now id) }
{
    if let Some(units) = by_thins(view, id) {
        return Ok(Some(units_from(alloc, units)?));
    }
    if let Some(units) = by_conses(view, id) {
        return Ok(Some(units_from(alloc, units)?));
    }
    by_flat(view, alloc, id)
}

// By the string with the least id that forwards to it.
fn by_thins(view: &View, id: u32) -> Option<&[u16]>
    ensures { option_copied result
        ≡ first_in (λ j. by_thin view.now id j (get view.now.forms j)) (keys view.now.forms) }
{
    for (other, form) in view.forms.iter() {
        if let Some(units) = by_thin(view, id, *other, *form) {
            return Some(units);
        }
    }
    None
}

fn by_thin(view: &View, id: u32, other: u32, form: Form) -> Option<&[u16]>
    ensures { option_copied result ≡ by_thin view.now id other (Some form) }
{
    match form {
        Form::Thin { target } => {
            if target == id {
                units_at(view, other)
            } else {
                None
            }
        }
        _ => None,
    }
}

/// The units that the view has of the string.
pub fn units_at(view: &View, id: u32) -> Option<&[u16]>
    ensures { option_copied result ≡ get view.now.units id }
{
    match view.units.get(id) {
        Some(units) => Some(units.as_slice()),
        None => None,
    }
}

// By the Cons with the least id that joins it to another.
fn by_conses(view: &View, id: u32) -> Option<&[u16]>
    ensures { option_copied result
        ≡ first_in (λ j. by_cons view.now id j (get view.now.forms j)) (keys view.now.forms) }
{
    for (other, form) in view.forms.iter() {
        if let Some(units) = by_cons(view, id, *other, *form) {
            return Some(units);
        }
    }
    None
}

fn by_cons(view: &View, id: u32, other: u32, form: Form) -> Option<&[u16]>
    ensures { option_copied result ≡ by_cons view.now id other (Some form) }
{
    match form {
        Form::Cons {
            wide: _,
            left,
            right,
        } => {
            if left == id {
                return side(view, other, left, true);
            }
            if right == id {
                return side(view, other, left, false);
            }
            None
        }
        _ => None,
    }
}

// The front of a string's units by the left length, or the rest.
fn side(view: &View, id: u32, left: u32, front: bool) -> Option<&[u16]>
    ensures { option_copied result ≡ split_by front (get view.now.units id) (get view.now.lengths left) }
{
    let Some(units) = units_at(view, id) else {
        return None;
    };
    let Some(n) = view.lengths.get(left) else {
        return None;
    };
    let n = (*n as usize).min(units.len());
    if front {
        return Some(&units[..n]);
    }
    Some(&units[n..])
}

// By its own form, as a Flat over frozen words.
fn by_flat(view: &View, alloc: Global, id: u32) -> Result<Option<Units>, NoMemory>
    requires { HasRoom view.now }
    ensures { IfOk result (λ o. o ≡ by_flat view.now id (get view.now.forms id) (get view.now.lengths id)) }
{
    let Some(form) = view.forms.get(id) else {
        return Ok(None);
    };
    let Some(n) = view.lengths.get(id) else {
        return Ok(None);
    };
    match *form {
        Form::Flat {
            wide,
            start,
            fixed: _,
        } => {
            if !Load::Own.are_frozen(view, start, words_for(*n, wide)) {
                return Ok(None);
            }
            let units = frozen_span(view, alloc, wide, start, *n)?;
            Ok(Some(units))
        }
        _ => Ok(None),
    }
}

// A frozen word, 0 where the view has none.
fn frozen_word(view: &View, at: u32) -> u64
    ensures { result ≡ frozen_word view.now at }
{
    match view.frozen.get(at) {
        Some(word) => *word,
        None => 0,
    }
}

// Lane `o` of a span of frozen words.
#[tactic(auto, unfolding(heap_rule::specs::Contents::lane_in))]
fn frozen_lane(view: &View, wide: bool, start: u32, o: u32) -> u16
    requires { start + o < 2 ^ 32 }
    ensures { result ≡ lane_in (frozen_word view.now) wide start o }
{
    let n = lanes(wide);
    lane(frozen_word(view, start + o / n), wide, o % n)
}

// The first n lanes of a span of frozen words.
fn frozen_span(
    view: &View,
    alloc: Global,
    wide: bool,
    start: u32,
    n: u32,
) -> Result<Units, NoMemory>
    requires { start + n < 2 ^ 32 }
    ensures { IfOk result (λ us. us ≡ span (frozen_word view.now) wide start 0 n) }
{
    let mut units = Units::new(alloc);
    let mut o = 0;
    'lanes: while o < n {
        units.push(frozen_lane(view, wide, start, o))?;
        o += 1;
    }
    Ok(units)
}

/// A copy of these units.
pub fn units_from(alloc: Global, units: &[u16]) -> Result<Units, NoMemory>
    ensures { IfOk result (λ us. us ≡ units.now) }
{
    let mut all = Units::new(alloc);
    all.extend_from_slice(units)?;
    Ok(all)
}
