// The units of a string that may be a rope, written into own content words.
ghost use Rattle.std.specs.Prelude.{◌≡◌, ◌≢◌, ℕ, Bool, ◌+◌, ◌-◌, ◌*◌, ◌/◌, ◌<◌, ◌≤◌, false, slice_index, length};
ghost use Rattle.js_units.specs.Lanes.{lane_count};
ghost use Rattle.js_header.specs.declared.form.Form.TheVariants.{Cons, Unborn};
ghost use Rattle.heap_rule.specs.Contents.{lane_in};
ghost use Rattle.heap_rule.specs.Forms.{IsCons};
ghost use Rattle.heap_rule.specs.Layout.{MAX};
ghost use Rattle.heap_rule.specs.Loads.{added_loads};
ghost use Rattle.heap_rule.specs.Maps.{Has, HasKey};
ghost use Rattle.heap_rule.specs.Views.{MayUse};
ghost use Rattle.heap_read.specs.Filling.{IsFilled, own_word};
ghost use Rattle.heap_read.specs.Readers.{MovesView, view_in};
ghost use Rattle.heap_read.specs.Reads.{KeepsBelow, KeepsForms, OnlyLoads, WritesOwnWords};
ghost use Rattle.heap_read.specs.Sides.{KnowsSide, LoadsForms, target_loads};
ghost use Rattle.heap_read.specs.Windows.{IsWindow, ShowsAll};
ghost use Rattle.heap_text.specs.Filling.{HoldsAbove, IsBoth, units_at};

use heap_read::{HeapRef, JsStr, Piece, Reader, Run, Steps, UnitSource, Window};
use js_header::Form;
use std::sync::ledger::Ledger;

// The length of the left side of a string that was seen as a Cons. The units of both sides
// are known from then on.
pub(crate) fn left_length<H: HeapRef>(reader: &mut Reader<H>, id: u32, left: u32, right: u32) -> u32
    requires cons { (wide : Bool) × Has (view_in reader.old).forms id (Cons wide left right) }
    requires known { HasKey (view_in reader.old).units id }
    requires met { MayUse (view_in reader.old) left }
    ensures reads { MovesView OnlyLoads reader.old reader.new }
    ensures forms { KeepsForms (view_in reader.old) (view_in reader.new) }
    ensures below { (left < id) × (right < id) }
    ensures known { HasKey (view_in reader.new).units left
        × HasKey (view_in reader.new).units right }
    ensures sides { IsBoth (units_at (view_in reader.old) id) (units_at (view_in reader.new) left)
        (units_at (view_in reader.new) right) result (length (units_at (view_in reader.old) id)) }
{
    reader.agent.load_length(reader.heap.heap(), left)
}

// A window on all units of a leaf, a string that was seen with another form than Cons. Each
// load of a form is one step.
fn leaf_window<L: Ledger, H: HeapRef>(
    reader: &mut Reader<H>,
    of: JsStr,
    form: Form,
    steps: &mut Steps<L>,
) -> Window
    requires known { HasKey (view_in reader.old).units of.id }
    requires seen { Has (view_in reader.old).forms of.id form }
    requires born { form ≢ Unborn }
    requires leaf { ¬ IsCons form }
    requires side { KnowsSide (view_in reader.old) form }
    ensures reads { MovesView OnlyLoads reader.old reader.new }
    ensures above { HoldsAbove (view_in reader.old) (view_in reader.new) of.id }
    ensures shows { ShowsAll (view_in reader.old) (view_in reader.new) of.id result }
    ensures loads { LoadsForms (view_in reader.old) (view_in reader.new) (steps.new - steps.old) }
    ensures more { steps.old ≤ steps.new }
    ensures steps { steps.new ≤ steps.old + 2 }
{
    if let Form::Sliced { parent, offset, .. } = form {
        let under = reader.form_now(parent);
        steps.tick();
        count_target(under, steps);
        return reader.part_window(of, parent, offset, under);
    }
    count_target(form, steps);
    reader.solid_window(of, form)
}

// Lanes `at` on of a run of own words become the `n` units of a string, which a window shows.
fn fill_leaf<H: HeapRef>(
    reader: &mut Reader<H>,
    of: JsStr,
    window: Window,
    at: u32,
    n: u32,
    to: Run,
)
    requires known { HasKey (view_in reader.old).units of.id }
    requires shows { IsWindow (view_in reader.old) window (units_at (view_in reader.old) of.id) }
    requires whole { window.len ≡ n }
    requires count { length (units_at (view_in reader.old) of.id) ≡ n }
    requires short { at + n ≤ MAX }
    requires own { (o : ℕ) → at ≤ o → o < at + n
        → HasKey (view_in reader.old).own_words (to.start + o / lane_count to.wide) }
    requires fits { to.wide ≡ false → (k : ℕ) → k < n
        → slice_index (units_at (view_in reader.old) of.id) k < 256 }
    ensures writes { MovesView WritesOwnWords reader.old reader.new }
    ensures below { KeepsBelow to.start (view_in reader.old) (view_in reader.new) }
    ensures forms { KeepsForms (view_in reader.old) (view_in reader.new) }
    ensures filled { IsFilled to.wide to.start (own_word (view_in reader.old).own_words)
        (own_word (view_in reader.new).own_words) at n
        (slice_index (units_at (view_in reader.old) of.id)) }
{
    let source = UnitSource::Piece(Piece {
        of,
        from: 0,
        window,
    });
    reader.copy_lanes(&source, n, to, at);
}

// Lanes `at + n` on of a run of own words become the `n` units of a string, which the lanes before
// them hold.
fn fill_again<H: HeapRef>(reader: &mut Reader<H>, id: u32, at: u32, n: u32, to: Run)
    requires short { at + n + n ≤ MAX }
    requires own { (o : ℕ) → at ≤ o → o < at + n + n
        → HasKey (view_in reader.old).own_words (to.start + o / lane_count to.wide) }
    requires held { (k : ℕ) → k < n
        → lane_in (own_word (view_in reader.old).own_words) to.wide to.start (at + k)
        ≡ slice_index (units_at (view_in reader.old) id) k }
    ensures writes { MovesView WritesOwnWords reader.old reader.new }
    ensures below { KeepsBelow to.start (view_in reader.old) (view_in reader.new) }
    ensures forms { KeepsForms (view_in reader.old) (view_in reader.new) }
    ensures filled { IsFilled to.wide to.start (own_word (view_in reader.old).own_words)
        (own_word (view_in reader.new).own_words) (at + n) n
        (slice_index (units_at (view_in reader.old) id)) }
{
    reader.repeat_lanes(to, at, n);
}

// Lanes `at` on of a run of own words become the `n` units of any string. Of a Cons it goes into the
// shorter side and loops on the longer one; a side that is both is gone into once. Each load of a form
// is one step. A leaf costs three at most.
pub(crate) fn fill<L: Ledger, H: HeapRef>(
    reader: &mut Reader<H>,
    mut id: u32,
    mut at: u32,
    mut n: u32,
    to: Run,
    steps: &mut Steps<L>,
)
    requires known { HasKey (view_in reader.old).units id }
    requires count { length (units_at (view_in reader.old) id) ≡ n }
    requires some { 0 < n }
    requires short { at + n ≤ MAX }
    requires own { (o : ℕ) → at ≤ o → o < at + n
        → HasKey (view_in reader.old).own_words (to.start + o / lane_count to.wide) }
    requires fits { to.wide ≡ false → (k : ℕ) → k < n
        → slice_index (units_at (view_in reader.old) id) k < 256 }
    ensures writes { MovesView WritesOwnWords reader.old reader.new }
    ensures below { KeepsBelow to.start (view_in reader.old) (view_in reader.new) }
    ensures above { HoldsAbove (view_in reader.old) (view_in reader.new) id }
    ensures filled { IsFilled to.wide to.start (own_word (view_in reader.old).own_words)
        (own_word (view_in reader.new).own_words) at n
        (slice_index (units_at (view_in reader.old) id)) }
    ensures loads { (view_in reader.new).form_loads
        ≡ added_loads (view_in reader.old).form_loads (steps.new - steps.old) }
    ensures more { steps.old ≤ steps.new }
    ensures steps { steps.new + 4 ≤ steps.old + 8 * n }
{
    loop {
        let form = reader.form_now(id);
        steps.tick();
        match form {
            Form::Cons { left, right, .. } => {
                let m = left_length(reader, id, left, right);
                if m <= n - m {
                    fill(reader, left, at, m, to, steps);
                    if left == right {
                        fill_again(reader, left, at, m, to);
                        return;
                    }
                    id = right;
                    at += m;
                    n -= m;
                } else {
                    fill(reader, right, at + m, n - m, to, steps);
                    id = left;
                    n = m;
                }
            }
            _ => {
                let of = JsStr { id };
                let window = leaf_window(reader, of, form, steps);
                fill_leaf(reader, of, window, at, n, to);
                return;
            }
        }
    }
}

// Lanes `m` on of a run of own words become the `n` units of the right side of a Cons. The `m` lanes
// before them hold those of the left side, which may be the same string.
pub(crate) fn fill_right<L: Ledger, H: HeapRef>(
    reader: &mut Reader<H>,
    left: u32,
    right: u32,
    m: u32,
    n: u32,
    to: Run,
    steps: &mut Steps<L>,
)
    requires known { HasKey (view_in reader.old).units right }
    requires before { length (units_at (view_in reader.old) left) ≡ m }
    requires count { length (units_at (view_in reader.old) right) ≡ n }
    requires some { 0 < n }
    requires short { m + n ≤ MAX }
    requires own { (o : ℕ) → o < m + n
        → HasKey (view_in reader.old).own_words (to.start + o / lane_count to.wide) }
    requires fits { to.wide ≡ false → (k : ℕ) → k < n
        → slice_index (units_at (view_in reader.old) right) k < 256 }
    requires held { (k : ℕ) → k < m
        → lane_in (own_word (view_in reader.old).own_words) to.wide to.start (0 + k)
        ≡ slice_index (units_at (view_in reader.old) left) k }
    ensures writes { MovesView WritesOwnWords reader.old reader.new }
    ensures below { KeepsBelow to.start (view_in reader.old) (view_in reader.new) }
    ensures above { HoldsAbove (view_in reader.old) (view_in reader.new) right }
    ensures filled { IsFilled to.wide to.start (own_word (view_in reader.old).own_words)
        (own_word (view_in reader.new).own_words) m n
        (slice_index (units_at (view_in reader.old) right)) }
    ensures loads { LoadsForms (view_in reader.old) (view_in reader.new) (steps.new - steps.old) }
    ensures more { steps.old ≤ steps.new }
    ensures steps { steps.new + 4 ≤ steps.old + 8 * n }
{
    if left == right {
        fill_again(reader, left, 0, m, to);
        return;
    }
    fill(reader, right, m, n, to, steps);
}

// One step where the form is a Thin, for the load of its target's form.
fn count_target<L: Ledger>(form: Form, steps: &mut Steps<L>)
    ensures { steps.new ≡ steps.old + target_loads form }
{
    if let Form::Thin { .. } = form {
        steps.tick();
    }
}
