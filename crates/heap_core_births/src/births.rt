// Stores of own words and births: when they may be made, and what they make of a view.
ghost use Rattle.std.specs.Prelude.{◌≡◌, ℕ, ◌+◌, ◌*◌, ◌<◌, ◌≤◌, ◌^◌, ◌↔◌, ◌⊎◌, ◌++◌, IsTrue, IfOk, OnOk, OnErr, None, unwrap_or, length, []};
ghost use Rattle.js_header.specs.Form.{IsInRange};
ghost use Rattle.js_header.specs.declared.form.Form.TheVariants as form;
ghost use Rattle.std.specs.FinMap as map;
ghost use Rattle.heap_rule.specs.declared.view.View as v;
ghost use Rattle.heap_rule.specs.Layout.{MAX};
ghost use Rattle.heap_rule.specs.Contents.{span, lane_in};
ghost use Rattle.heap_rule.specs.Maps.{Has, HasKey};
ghost use Rattle.heap_rule.specs.Views.{shown_word};
ghost use Rattle.heap_rule.specs.Births.{stored_word, MayStoreLength, stored_length, FormFits, MayBear, born_with, freeze, freeze_form, shown_part, units_for};
ghost use Rattle.heap_core_views.specs.Probing.{HasShorts};
ghost use Rattle.heap_core_births.specs.Moving.{Join, HasJoin};

use crate::parts::{has_part, is_narrow, is_parent, shown_part};
use heap_core_views::learning::units_from;
use heap_rule::{MAX, View};
use js_header::{FIELD_END, Form};
use js_units::{NoMemory, Units, lane, lanes, words_for};
use std::alloc::Global;

/// Whether the content word is own.
pub fn may_store_word(view: &View, at: u32) -> bool
    ensures { IsTrue result ↔ HasKey view.now.own_words at }
{
    view.own_words.contains_key(at)
}

/// A store of an own content word.
pub fn store_word(view: &mut View, at: u32, word: u64) -> Result<(), NoMemory>
    ensures ok { OnOk result (view.new ≡ stored_word view.old at word) }
    ensures err { OnErr result (view.new ≡ view.old) }
{
    view.own_words.insert(at, word)
}

/// Whether the id is own and the length is not too great.
pub fn may_store_length(view: &View, id: u32, length: u32) -> bool
    ensures { IsTrue result ↔ MayStoreLength view.now id length }
{
    view.own_ids.contains_key(id) && length <= MAX
}

/// A store of an own length.
pub fn store_length(view: &mut View, id: u32, length: u32) -> Result<(), NoMemory>
    ensures ok { OnOk result (view.new ≡ stored_length view.old id length) }
    ensures err { OnErr result (view.new ≡ view.old) }
{
    view.own_ids.insert(id, length)
}

/// The word that the view has for a place, its own or frozen.
fn shown(view: &View, at: u32) -> u64
    ensures { result ≡ shown_word view.now at }
{
    match view.own_words.get(at) {
        Some(word) => *word,
        None => match view.frozen.get(at) {
            Some(word) => *word,
            None => 0,
        },
    }
}

/// Whether the content word is own or in `frozen`.
fn has_word(view: &View, at: u32) -> bool
    ensures { IsTrue result ↔ (HasKey view.now.own_words at ⊎ HasKey view.now.frozen at) }
{
    if view.own_words.contains_key(at) {
        return true;
    }
    view.frozen.contains_key(at)
}

/// Whether each of n content words is.
fn has_words(view: &View, from: u32, n: u32) -> bool
    requires { from + n < 2 ^ 32 }
    ensures { IsTrue result ↔
        ((c : ℕ) → from ≤ c → c < from + n → HasKey view.now.own_words c ⊎ HasKey view.now.frozen c) }
{
    let mut at = from;
    let mut left = n;
    'words: while 0 < left {
        if !has_word(view, at) {
            return false;
        }
        at += 1;
        left -= 1;
    }
    true
}

/// Whether each of n content words is own.
pub(crate) fn has_own(view: &View, from: u32, n: u32) -> bool
    requires { from + n < 2 ^ 32 }
    ensures { IsTrue result ↔ ((c : ℕ) → from ≤ c → c < from + n → HasKey view.now.own_words c) }
{
    let mut at = from;
    let mut left = n;
    'words: while 0 < left {
        if !view.own_words.contains_key(at) {
            return false;
        }
        at += 1;
        left -= 1;
    }
    true
}

/// Lane `o` of a span.
#[tactic(auto, unfolding(heap_rule::specs::Contents::lane_in))]
fn shown_lane(view: &View, wide: bool, start: u32, o: u32) -> u16
    requires { start + o < 2 ^ 32 }
    ensures { result ≡ lane_in (shown_word view.now) wide start o }
{
    let n = lanes(wide);
    lane(shown(view, start + o / n), wide, o % n)
}

/// Whether the lanes from `from` to `end` are 0.
pub(crate) fn has_zeros(view: &View, wide: bool, start: u32, from: u32, end: u32) -> bool
    requires { start + end < 2 ^ 32 }
    ensures { IsTrue result ↔ ((o : ℕ) → from ≤ o → o < end → lane_in (shown_word view.now) wide start o
        ≡ 0) }
{
    let mut o = from;
    'lanes: while o < end {
        if shown_lane(view, wide, start, o) != 0 {
            return false;
        }
        o += 1;
    }
    true
}

/// Whether the first lanes of a span are these units.
pub(crate) fn has_span(view: &View, us: &[u16], wide: bool, start: u32) -> bool
    requires { (start < 2 ^ 29) × (length us.now ≤ MAX) }
    ensures { IsTrue result ↔ (span (shown_word view.now) wide start 0 (length us.now) ≡ us.now) }
{
    let n = us.len() as u32;
    let mut o = 0;
    'lanes: while o < n {
        if shown_lane(view, wide, start, o) != us[o as usize] {
            return false;
        }
        o += 1;
    }
    true
}

/// The first n lanes of a span.
fn span(view: &View, alloc: Global, wide: bool, start: u32, n: u32) -> Result<Units, NoMemory>
    requires { start + n < 2 ^ 32 }
    ensures { IfOk result (λ us. us ≡ span (shown_word view.now) wide start 0 n) }
{
    let mut units = Units::new(alloc);
    let mut o = 0;
    'lanes: while o < n {
        units.push(shown_lane(view, wide, start, o))?;
        o += 1;
    }
    Ok(units)
}

// Whether a Flat fits an own id of length n.
fn fits_flat(view: &View, id: u32, n: u32, wide: bool, start: u32, fixed: bool) -> bool
    requires { n ≤ MAX }
    ensures { IsTrue result ↔ FormFits view.now id n (form.Flat wide start fixed) }
{
    if FIELD_END <= start {
        return false;
    }
    let count = words_for(n, wide);
    has_words(view, start, count)
        && has_zeros(view, wide, start, n, count * lanes(wide))
        && (n != 0 || start == 0)
}

// Whether a Cons of n units may join the two lists.
fn may_join(left: &[u16], right: &[u16], n: u32, wide: bool) -> bool
    requires { (length left.now ≤ MAX) × (length right.now ≤ MAX) }
    ensures { IsTrue result ↔ Join left.now right.now n wide }
{
    if left.is_empty() || right.is_empty() {
        return false;
    }
    if left.len() + right.len() != n as usize {
        return false;
    }
    is_narrow(left, wide) && is_narrow(right, wide)
}

fn has_join(view: &View, left: u32, right: u32, n: u32, wide: bool) -> bool
    requires { HasShorts view.now }
    ensures { IsTrue result ↔ HasJoin view.now left right n wide }
{
    match view.units.get(left) {
        Some(front) => match view.units.get(right) {
            Some(rest) => may_join(front.as_slice(), rest.as_slice(), n, wide),
            None => false,
        },
        None => false,
    }
}

// Whether a Cons fits an own id of length n.
fn fits_cons(view: &View, id: u32, n: u32, wide: bool, left: u32, right: u32) -> bool
    requires { HasShorts view.now }
    ensures { IsTrue result ↔ FormFits view.now id n (form.Cons wide left right) }
{
    if id <= left || id <= right || n < 13 {
        return false;
    }
    has_join(view, left, right, n, wide)
}

// Whether a Sliced fits an own id of length n.
fn fits_sliced(view: &View, id: u32, n: u32, wide: bool, parent: u32, offset: u32) -> bool
    ensures { IsTrue result ↔ FormFits view.now id n (form.Sliced wide parent offset) }
{
    if id <= parent || n < 13 {
        return false;
    }
    if !is_parent(view, parent) {
        return false;
    }
    has_part(view, parent, offset, n, wide)
}

// Whether a form fits an own id of length n.
fn fits(view: &View, id: u32, n: u32, form: Form) -> bool
    requires shorts { HasShorts view.now }
    requires short { n ≤ MAX }
    ensures { IsTrue result ↔ FormFits view.now id n form }
{
    match form {
        Form::Flat { wide, start, fixed } => fits_flat(view, id, n, wide, start, fixed),
        Form::Cons { wide, left, right } => fits_cons(view, id, n, wide, left, right),
        Form::Sliced {
            wide,
            parent,
            offset,
        } => fits_sliced(view, id, n, wide, parent, offset),
        Form::Unborn => false,
        Form::Thin { target: _ } => false,
    }
}

/// The length word of an own id, 0 where it isn't own.
pub fn own_length(view: &View, id: u32) -> u32
    ensures { result ≡ unwrap_or (map.get view.now.own_ids id) 0 }
{
    match view.own_ids.get(id) {
        Some(n) => *n,
        None => 0,
    }
}

/// Whether the own id may be born in this form.
pub fn may_bear(view: &View, id: u32, form: Form) -> bool
    requires shorts { HasShorts view.now }
    requires own { (n : ℕ) → Has view.now.own_ids id n → n ≤ MAX }
    ensures { IsTrue result ↔ MayBear view.now id form }
{
    match view.own_ids.get(id) {
        Some(n) => fits(view, id, *n, form),
        None => false,
    }
}

// The units of a string, none where the view has not got them.
fn add_known(view: &View, id: u32, units: &mut Units) -> Result<(), NoMemory>
    ensures { OnOk result (units.new ≡ units.old ++ unwrap_or (map.get view.now.units id) []) }
{
    match view.units.get(id) {
        Some(known) => units.extend_from_slice(known.as_slice()),
        None => Ok(()),
    }
}

fn joint(view: &View, alloc: Global, left: u32, right: u32) -> Result<Units, NoMemory>
    ensures { IfOk result
        (λ us. us
        ≡ unwrap_or (map.get view.now.units left) [] ++ unwrap_or (map.get view.now.units right) []) }
{
    let mut units = Units::new(alloc);
    add_known(view, left, &mut units)?;
    add_known(view, right, &mut units)?;
    Ok(units)
}

fn piece(view: &View, alloc: Global, parent: u32, offset: u32, n: u32) -> Result<Units, NoMemory>
    ensures { IfOk result (λ us. us ≡ unwrap_or (shown_part view.now parent offset n) []) }
{
    match shown_part(view, parent, offset, n) {
        Some(units) => units_from(alloc, units),
        None => Ok(Units::new(alloc)),
    }
}

/// The n units that the form will show.
pub fn units_for(view: &View, alloc: Global, n: u32, form: Form) -> Result<Units, NoMemory>
    requires short { n ≤ MAX }
    requires range { IsInRange form }
    ensures { IfOk result (λ us. us ≡ units_for view.now n form) }
{
    match form {
        Form::Flat {
            wide,
            start,
            fixed: _,
        } => span(view, alloc, wide, start, n),
        Form::Cons {
            wide: _,
            left,
            right,
        } => joint(view, alloc, left, right),
        Form::Sliced {
            wide: _,
            parent,
            offset,
        } => piece(view, alloc, parent, offset, n),
        Form::Unborn => Ok(Units::new(alloc)),
        Form::Thin { target: _ } => Ok(Units::new(alloc)),
    }
}

/// The run of content words of a string of n units: where it starts, and how many they are.
pub(crate) fn run_of(form: Form, n: u32) -> (u32, u32)
    requires short { n ≤ MAX }
    requires range { IsInRange form }
    ensures frozen { (w : v.View) → freeze w result.0 result.1 ≡ freeze_form w n form }
    ensures small { result.0 + result.1 < 2 ^ 32 }
{
    match form {
        Form::Flat {
            wide,
            start,
            fixed: _,
        } => (start, words_for(n, wide)),
        Form::Unborn => (0, 0),
        Form::Cons {
            wide: _,
            left: _,
            right: _,
        } => (0, 0),
        Form::Sliced {
            wide: _,
            parent: _,
            offset: _,
        } => (0, 0),
        Form::Thin { target: _ } => (0, 0),
    }
}

/// The birth of a string of n units, of these units.
#[tactic(auto, using(heap_rule::proofs::MapLemmas::remove_insert))]
pub fn bear(view: &mut View, id: u32, n: u32, form: Form, units: Units) -> Result<(), NoMemory>
    requires short { n ≤ MAX }
    requires range { IsInRange form }
    requires units { units ≡ units_for view.old n form }
    requires fresh { (map.get view.old.units id ≡ None) × (map.get view.old.forms id ≡ None) }
    ensures ok { OnOk result (view.new ≡ born_with view.old id n form) }
    ensures err { OnErr result (view.new ≡ view.old) }
{
    let (start, count) = run_of(form, n);
    let mut frozen = view.frozen.copied()?;
    frozen.take_run(&view.own_words, start, count)?;
    view.units.insert(id, units)?;
    if let Err(none) = view.forms.insert(id, form) {
        view.units.remove(id);
        return Err(none);
    }
    if let Err(none) = view.lengths.insert(id, n) {
        view.units.remove(id);
        view.forms.remove(id);
        return Err(none);
    }
    view.frozen = frozen;
    view.own_words.remove_run(start, count);
    view.own_ids.remove(id);
    Ok(())
}
