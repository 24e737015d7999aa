// Which part of a string a view shows, and what a Sliced may be cut from.
ghost use Rattle.std.specs.Prelude.{◌≡◌, ◌<◌, ◌↔◌, ℕ, All, IsTrue, Some};
ghost use Rattle.std.specs.FinMap.{get, keys};
ghost use Rattle.std.specs.Option.{option_copied};
ghost use Rattle.heap_rule.specs.Maps.{Has, first_in};
ghost use Rattle.heap_rule.specs.Forms.{IsCons, IsNarrow, IsSliced};
ghost use Rattle.js_header.specs.declared.form.Form.{Form};
ghost use Rattle.heap_rule.specs.Births.{part_within, part_by, shown_part, IsParent};
ghost use Rattle.heap_core_births.specs.Moving.{IsWhole, IsCut, HasPart};

use heap_core_views::learning::units_at;
use heap_rule::View;
use js_header::Form;

/// Whether each unit is below 256, which a form without the wide bit asks for.
pub(crate) fn is_narrow(us: &[u16], wide: bool) -> bool
    ensures { IsTrue result ↔ IsNarrow wide us.now }
{
    wide || are_bytes(us)
}

fn are_bytes(us: &[u16]) -> bool
    ensures { IsTrue result ↔ All (λ u. u < 256) us.now }
{
    us.iter().all(|unit| *unit < 256)
}

// The n units from o on, by a stretch of units that begins at `offset`.
fn part_within(o: u32, n: u32, offset: u32, us: &[u16]) -> Option<&[u16]>
    ensures { option_copied result ≡ part_within o n offset (Some us.now) }
{
    if o < offset {
        return None;
    }
    let from = (o - offset) as usize;
    let to = from + n as usize;
    if us.len() < to {
        return None;
    }
    Some(&us[from..to])
}

// The same, by the string j, where it is a Sliced of p.
fn part_by(view: &View, p: u32, o: u32, n: u32, j: u32, form: Form) -> Option<&[u16]>
    ensures { option_copied result ≡ part_by view.now p o n j (Some form) }
{
    match form {
        Form::Sliced {
            wide: _,
            parent,
            offset,
        } => {
            if parent != p {
                return None;
            }
            match units_at(view, j) {
                Some(units) => part_within(o, n, offset, units),
                None => None,
            }
        }
        _ => None,
    }
}

// By the Sliced of p with the least id that shows it.
fn part_by_any(view: &View, p: u32, o: u32, n: u32) -> Option<&[u16]>
    ensures { option_copied result
        ≡ first_in (λ j. part_by view.now p o n j (get view.now.forms j)) (keys view.now.forms) }
{
    for (other, form) in view.forms.iter() {
        if let Some(units) = part_by(view, p, o, n, *other, *form) {
            return Some(units);
        }
    }
    None
}

// By the string p itself.
fn part_of(view: &View, p: u32, o: u32, n: u32) -> Option<&[u16]>
    ensures { option_copied result ≡ part_within o n 0 (get view.now.units p) }
{
    match units_at(view, p) {
        Some(units) => part_within(o, n, 0, units),
        None => None,
    }
}

/// The n units of the string p from o on, as the view shows them: by the units of p, or else by
/// the first Sliced of p that has them all.
pub(crate) fn shown_part(view: &View, p: u32, o: u32, n: u32) -> Option<&[u16]>
    ensures { option_copied result ≡ shown_part view.now p o n }
{
    if let Some(units) = part_of(view, p, o, n) {
        return Some(units);
    }
    part_by_any(view, p, o, n)
}

// Whether it was seen as a string that is neither a Cons nor a Sliced.
fn is_whole(view: &View, p: u32) -> bool
    ensures { IsTrue result ↔ IsWhole view.now p }
{
    match view.forms.get(p) {
        Some(form) => is_whole_form(*form),
        None => false,
    }
}

fn is_whole_form(seen: Form) -> bool
    ensures { IsTrue result ↔ ((IsCons seen → ⊥) × (IsSliced seen → ⊥)) }
{
    match seen {
        Form::Cons {
            wide: _,
            left: _,
            right: _,
        } => false,
        Form::Sliced {
            wide: _,
            parent: _,
            offset: _,
        } => false,
        Form::Unborn => true,
        Form::Flat {
            wide: _,
            start: _,
            fixed: _,
        } => true,
        Form::Thin { target: _ } => true,
    }
}

fn is_cut(p: u32, seen: Form) -> bool
    ensures { IsTrue result ↔ IsCut p seen }
{
    match seen {
        Form::Sliced {
            wide: _,
            parent,
            offset: _,
        } => parent == p,
        Form::Unborn => false,
        Form::Flat {
            wide: _,
            start: _,
            fixed: _,
        } => false,
        Form::Cons {
            wide: _,
            left: _,
            right: _,
        } => false,
        Form::Thin { target: _ } => false,
    }
}

// Whether a Sliced of it was seen.
fn has_cut(view: &View, p: u32) -> bool
    ensures { IsTrue result ↔ ((j : ℕ) × (f : Form) × Has view.now.forms j f × IsCut p f) }
{
    for (_part, form) in view.forms.iter() {
        if is_cut(p, *form) {
            return true;
        }
    }
    false
}

/// Whether a Sliced may be cut from it.
pub(crate) fn is_parent(view: &View, p: u32) -> bool
    ensures { IsTrue result ↔ IsParent view.now p }
{
    if is_whole(view, p) {
        return true;
    }
    has_cut(view, p)
}

/// Whether the view shows that part of p, of bytes alone where it is not wide.
pub(crate) fn has_part(view: &View, p: u32, o: u32, n: u32, wide: bool) -> bool
    ensures { IsTrue result ↔ HasPart view.now p o n wide }
{
    match shown_part(view, p, o, n) {
        Some(units) => is_narrow(units, wide),
        None => false,
    }
}
