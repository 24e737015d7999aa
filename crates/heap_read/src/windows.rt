// Finding the content words under a string that is no Cons. They are those of a Flat: the string
// itself, or the one to which it or its parent forwards.
ghost use Rattle.std.specs.Prelude.{◌≡◌, ◌≢◌, ◌⊎◌, ◌↔◌, ℕ, List, Bool, ◌+◌, true, IfSome, IsTrue, None};
ghost use Rattle.js_header.specs.declared.form.Form.TheVariants.{Flat, Sliced, Thin};
ghost use Rattle.heap_rule.specs.Forms.{IsSolid};
ghost use Rattle.heap_rule.specs.Loads.{added_loads};
ghost use Rattle.heap_rule.specs.Maps.{Has, HasKey};
ghost use Rattle.heap_rule.specs.Views.{MayUse, IsSeenSettled};
ghost use Rattle.heap_read.specs.Frozen.{IsFixedBy, IsFixedWindow, IsLearned};
ghost use Rattle.heap_read.specs.Parts.{IsSeenSliced};
ghost use Rattle.heap_read.specs.Readers.{MovesView, view_in};
ghost use Rattle.heap_read.specs.Reads.{HoldsForms, KeepsForms, OnlyLoads};
ghost use Rattle.heap_read.specs.Sides.{KnowsSide, LoadsFewForms, LoadsForms, target_loads};
ghost use Rattle.heap_read.specs.Windows.{IsLed, IsWindowOf, ShowsAll, StandsFor};

use crate::heap_ref::HeapRef;
use crate::lanes::Run;
use crate::reader::Reader;
use crate::string::{JsStr, Window};
use js_header::Form;

impl<H: HeapRef> Reader<H> {
    // A window on all units of a string, which lie behind `before` others in the words of a Flat.
    #[inline(always)]
    fn window_over(&mut self, of: JsStr, by: u32, run: Run, before: u32) -> Window
        requires known { HasKey (view_in self.old).units of.id }
        requires met { MayUse (view_in self.old) by }
        requires led { IsLed (view_in self.old) of.id by run.wide run.start before }
        ensures reads { MovesView OnlyLoads self.old self.new }
        ensures forms { KeepsForms (view_in self.old) (view_in self.new) }
        ensures shows { ShowsAll (view_in self.old) (view_in self.new) of.id result }
        ensures over { IsWindowOf (view_in self.new) of.id result }
    {
        Window {
            wide: run.wide,
            start: run.start,
            offset: before,
            len: self.agent.load_length(self.heap.heap(), by),
        }
    }

    /// The words of the fixed Flat to which a string forwards, by one load of its form. No form
    /// that was seen is another one afterwards.
    #[inline(always)]
    pub fn target_run(&mut self, of: u32, target: u32) -> Run
        requires thin { Has (view_in self.old).forms of (Thin target) }
        requires met { MayUse (view_in self.old) target }
        ensures reads { MovesView OnlyLoads self.old self.new }
        ensures held { HoldsForms (view_in self.old) (view_in self.new) }
        ensures flat { Has (view_in self.new).forms target (Flat result.wide result.start true) }
        ensures loads { (view_in self.new).form_loads ≡ added_loads (view_in self.old).form_loads 1 }
    {
        match self.form_now(target) {
            Form::Flat { wide, start, .. } => Run { start, wide },
            _ => unreachable!(),
        }
    }

    // The words of a string that was seen as a Flat or a Thin.
    #[inline(always)]
    fn solid_run(&mut self, id: u32, form: Form) -> Run
        requires seen { Has (view_in self.old).forms id form }
        requires solid { IsSolid form }
        requires side { KnowsSide (view_in self.old) form }
        ensures reads { MovesView OnlyLoads self.old self.new }
        ensures held { HoldsForms (view_in self.old) (view_in self.new) }
        ensures flat { (i : ℕ) × (fixed : Bool) × StandsFor (view_in self.new) id i
            × Has (view_in self.new).forms i (Flat result.wide result.start fixed) }
        ensures loads { LoadsForms (view_in self.old) (view_in self.new) (target_loads form) }
    {
        match form {
            Form::Flat { wide, start, .. } => Run { start, wide },
            Form::Thin { target } => self.target_run(id, target),
            _ => unreachable!(),
        }
    }

    /// A window on all units of a string that was seen as a Flat or a Thin.
    #[inline(always)]
    pub fn solid_window(&mut self, of: JsStr, form: Form) -> Window
        requires known { HasKey (view_in self.old).units of.id }
        requires seen { Has (view_in self.old).forms of.id form }
        requires solid { IsSolid form }
        requires side { KnowsSide (view_in self.old) form }
        ensures reads { MovesView OnlyLoads self.old self.new }
        ensures held { HoldsForms (view_in self.old) (view_in self.new) }
        ensures shows { ShowsAll (view_in self.old) (view_in self.new) of.id result }
        ensures loads { LoadsForms (view_in self.old) (view_in self.new) (target_loads form) }
        ensures over { IsWindowOf (view_in self.new) of.id result }
    {
        match form {
            Form::Flat { wide, start, .. } => {
                self.window_over(of, of.id, Run { start, wide }, 0)
            }
            Form::Thin { target } => {
                let run = self.target_run(of.id, target);
                self.window_over(of, target, run, 0)
            }
            _ => unreachable!(),
        }
    }

    /// A window on all units of a string that was seen as a Sliced of `parent`, and that one with
    /// the form `under`.
    #[inline(always)]
    pub fn part_window(&mut self, of: JsStr, parent: u32, offset: u32, under: Form) -> Window
        requires known { HasKey (view_in self.old).units of.id }
        requires sliced { (wide : Bool) × Has (view_in self.old).forms of.id (Sliced wide parent offset) }
        requires seen { Has (view_in self.old).forms parent under }
        requires solid { IsSolid under }
        requires side { KnowsSide (view_in self.old) under }
        ensures reads { MovesView OnlyLoads self.old self.new }
        ensures held { HoldsForms (view_in self.old) (view_in self.new) }
        ensures shows { ShowsAll (view_in self.old) (view_in self.new) of.id result }
        ensures loads { LoadsForms (view_in self.old) (view_in self.new) (target_loads under) }
        ensures over { IsWindowOf (view_in self.new) of.id result }
    {
        let run = self.solid_run(parent, under);
        self.window_over(of, of.id, run, offset)
    }

    /// A window on all units of a settled string, by at most three loads of a form.
    #[inline(always)]
    pub fn window_on(&mut self, of: JsStr) -> Window
        requires known { HasKey (view_in self.old).units of.id }
        requires settled { IsSeenSettled (view_in self.old) of.id }
        ensures reads { MovesView OnlyLoads self.old self.new }
        ensures shows { ShowsAll (view_in self.old) (view_in self.new) of.id result }
        ensures few { LoadsFewForms (view_in self.old) (view_in self.new) 3 }
    {
        let form = self.form_now(of.id);
        if let Form::Sliced { parent, offset, .. } = form {
            let under = self.form_now(parent);
            return self.part_window(of, parent, offset, under);
        }
        self.solid_window(of, form)
    }

    /// Windows on all units of two settled strings, which serve at once. There are none where one of the two
    /// was cut from another string, whose words may be found elsewhere while the other is looked for.
    pub fn both_windows(&mut self, a: JsStr, b: JsStr) -> Option<(Window, Window)>
        requires apart { a.id ≢ b.id }
        requires left_known { HasKey (view_in self.old).units a.id }
        requires left_settled { IsSeenSettled (view_in self.old) a.id }
        requires right_known { HasKey (view_in self.old).units b.id }
        requires right_settled { IsSeenSettled (view_in self.old) b.id }
        ensures reads { MovesView OnlyLoads self.old self.new }
        ensures shows { IfSome result (λ p. ShowsAll (view_in self.old) (view_in self.new) a.id p.0
            × ShowsAll (view_in self.old) (view_in self.new) b.id p.1) }
        ensures cut { result ≡ None
            → IsSeenSliced (view_in self.new) a.id ⊎ IsSeenSliced (view_in self.new) b.id }
    {
        let left = self.form_now(a.id);
        let right = self.form_now(b.id);
        if is_sliced(left) {
            return None;
        }
        if is_sliced(right) {
            return None;
        }
        let of_left = self.solid_window(a, left);
        let of_right = self.solid_window(b, right);
        Some((of_left, of_right))
    }

    /// A window on all units of a fixed Flat, a string that is in a slot of the string table or to
    /// which another forwards. No form that was seen is another one afterwards.
    pub fn fixed_window(&mut self, id: u32) -> Window
        requires met { MayUse (view_in self.old) id }
        requires fixed { IsFixedBy (view_in self.old) id }
        ensures reads { MovesView OnlyLoads self.old self.new }
        ensures held { HoldsForms (view_in self.old) (view_in self.new) }
        ensures fixed { IsFixedWindow (view_in self.new) id result }
        ensures learned { IsLearned (view_in self.new) }
    {
        match self.form_now(id) {
            Form::Flat { wide, start, .. } => Window {
                wide,
                start,
                offset: 0,
                len: self.agent.load_length(self.heap.heap(), id),
            },
            _ => unreachable!(),
        }
    }
}

// Whether a string of this form was cut from another one.
fn is_sliced(form: Form) -> bool
    ensures { IsTrue result
        ↔ ((wide : Bool) × (parent : ℕ) × (offset : ℕ) × (form ≡ Sliced wide parent offset)) }
{
    match form {
        Form::Sliced { .. } => true,
        _ => false,
    }
}
