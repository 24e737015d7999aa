// The two compare-exchanges that move a header, flattening and thinning: when they may be made,
// and what they add to a view.
ghost use Rattle.std.specs.Prelude.{◌≡◌, ◌<◌, ◌≤◌, ◌↔◌, ℕ, List, IsTrue, length, unwrap_or, []};
ghost use Rattle.std.specs.FinMap.{get};
ghost use Rattle.js_header.specs.Form.{IsInRange, word_of};
ghost use Rattle.heap_rule.specs.Layout.{MAX};
ghost use Rattle.heap_rule.specs.Maps.{Has};
ghost use Rattle.heap_rule.specs.Forms.{IsCons};
ghost use Rattle.heap_rule.specs.HeaderMoves.{MayFlatten, flattened, CanThin, MayThin, thinned};
ghost use Rattle.heap_core_views.specs.Loading.{loaded_by, IsRunCounted};
ghost use Rattle.heap_core_views.specs.Probing.{HasShorts};
ghost use Rattle.heap_core_births.specs.Moving.{Spells, SpellsUnits, IsSameOrLater};

use crate::births::{has_own, has_span, has_zeros, run_of};
use heap_core_views::load::Load;
use heap_core_views::slots::has_units;
use heap_rule::View;
use js_header::{FIELD_END, Form};
use js_units::{lanes, words_for};

// Whether the view has this form of the string.
fn has_form(view: &View, id: u32, form: Form) -> bool
    ensures { IsTrue result ↔ Has view.now.forms id form }
{
    match view.forms.get(id) {
        Some(found) => *found == form,
        None => false,
    }
}

fn is_cons(form: Form) -> bool
    ensures { IsTrue result ↔ IsCons form }
{
    match form {
        Form::Cons {
            wide: _,
            left: _,
            right: _,
        } => true,
        Form::Unborn => false,
        Form::Flat {
            wide: _,
            start: _,
            fixed: _,
        } => false,
        Form::Sliced {
            wide: _,
            parent: _,
            offset: _,
        } => false,
        Form::Thin { target: _ } => false,
    }
}

// Whether the words from `start` on are own, show these units, and are 0 past them.
fn spells(view: &View, us: &[u16], wide: bool, start: u32) -> bool
    requires { length us.now ≤ MAX }
    ensures { IsTrue result ↔ Spells view.now us.now wide start }
{
    if FIELD_END <= start {
        return false;
    }
    let n = us.len() as u32;
    let count = words_for(n, wide);
    has_own(view, start, count)
        && has_zeros(view, wide, start, n, count * lanes(wide))
        && has_span(view, us, wide, start)
}

fn spells_units(view: &View, id: u32, wide: bool, start: u32) -> bool
    requires { HasShorts view.now }
    ensures { IsTrue result ↔ SpellsUnits view.now id wide start }
{
    match view.units.get(id) {
        Some(units) => spells(view, units.as_slice(), wide, start),
        None => false,
    }
}

/// Whether the string may be flattened: it was seen as this Cons, and the words of the new Flat
/// are own and show its units.
pub fn may_flatten(view: &View, id: u32, old: Form, new: Form) -> bool
    requires { HasShorts view.now }
    ensures { IsTrue result ↔ MayFlatten view.now id old new }
{
    if !has_form(view, id, old) {
        return false;
    }
    if !is_cons(old) {
        return false;
    }
    match new {
        Form::Flat { wide, start, fixed } => {
            if fixed {
                return false;
            }
            spells_units(view, id, wide, start)
        }
        Form::Unborn => false,
        Form::Cons {
            wide: _,
            left: _,
            right: _,
        } => false,
        Form::Sliced {
            wide: _,
            parent: _,
            offset: _,
        } => false,
        Form::Thin { target: _ } => false,
    }
}

// Whether a string of this form may be thinned.
fn can_thin(form: Form) -> bool
    ensures { IsTrue result ↔ CanThin form }
{
    match form {
        Form::Flat {
            wide: _,
            start: _,
            fixed,
        } => !fixed,
        Form::Sliced {
            wide: _,
            parent: _,
            offset: _,
        } => true,
        Form::Unborn => false,
        Form::Cons {
            wide: _,
            left: _,
            right: _,
        } => false,
        Form::Thin { target: _ } => false,
    }
}

// Whether the view saw the string in a slot.
fn is_in_slot(view: &View, id: u32) -> bool
    ensures { IsTrue result ↔ ((k : ℕ) × Has view.now.slots k id) }
{
    for (_slot, seen) in view.slots.iter() {
        if *seen == id {
            return true;
        }
    }
    false
}

fn has_same_units(view: &View, id: u32, other: u32) -> bool
    ensures { IsTrue result ↔ ((us : List ℕ) × Has view.now.units id us × Has view.now.units other us) }
{
    match view.units.get(id) {
        Some(units) => has_units(view, other, units.as_slice()),
        None => false,
    }
}

/// Whether the string may be forwarded to the target: it was seen in this form, a Sliced or a Flat
/// that is not fixed, and the target was seen in a slot and has the same units.
pub fn may_thin(view: &View, id: u32, old: Form, target: u32) -> bool
    ensures { IsTrue result ↔ MayThin view.now id old target }
{
    if !has_form(view, id, old) {
        return false;
    }
    if !can_thin(old) {
        return false;
    }
    if !is_in_slot(view, target) {
        return false;
    }
    has_same_units(view, id, target)
}

// How many units the view has of the string.
fn unit_count(view: &View, id: u32) -> u32
    requires { HasShorts view.now }
    ensures is { result ≡ length (unwrap_or (get view.now.units id) []) }
    ensures short { result ≤ MAX }
{
    match view.units.get(id) {
        Some(units) => units.as_slice().len() as u32,
        None => 0,
    }
}

/// What a flattening adds to the view, where the word of `stands` is found.
pub fn flattening(view: &View, id: u32, old: Form, new: Form, stands: Form) -> Load
    requires shorts { HasShorts view.now }
    requires new { IsInRange new }
    requires range { IsInRange stands }
    requires stays { IsSameOrLater old stands }
    ensures view { loaded_by view.now result ≡ flattened view.now id old new (word_of stands) }
    ensures run { IsRunCounted result }
{
    if stands != old {
        return Load::Turned {
            id,
            form: stands,
            start: 0,
            count: 0,
        };
    }
    let n = unit_count(view, id);
    let run = run_of(new, n);
    Load::Turned {
        id,
        form: new,
        start: run.0,
        count: run.1,
    }
}

/// What a thinning adds to the view, where the word of `stands` is found.
pub fn thinning(view: &View, id: u32, old: Form, target: u32, stands: Form) -> Load
    requires range { IsInRange stands }
    requires stays { IsSameOrLater old stands }
    ensures view { loaded_by view.now result ≡ thinned view.now id old target (word_of stands) }
    ensures run { IsRunCounted result }
{
    if stands != old {
        return Load::Turned {
            id,
            form: stands,
            start: 0,
            count: 0,
        };
    }
    Load::Turned {
        id,
        form: Form::Thin { target },
        start: 0,
        count: 0,
    }
}
