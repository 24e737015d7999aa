// The form of a string, by one load.
ghost use Rattle.std.specs.Prelude.{◌≡◌, ◌≢◌, ℕ, Bool, ◌⊎◌};
ghost use Rattle.std.specs.FinMap.{get};
ghost use Rattle.js_header.specs.Form.{IsInRange};
ghost use Rattle.js_header.specs.declared.form.Form.TheVariants.{Sliced, Thin, Unborn};
ghost use Rattle.js_header.specs.declared.form.Form as form;
ghost use Rattle.heap_rule.specs.Forms.{IsCons, IsLater, IsSolid};
ghost use Rattle.heap_rule.specs.Loads.{added_loads};
ghost use Rattle.heap_rule.specs.Maps.{Has, HasKey};
ghost use Rattle.heap_rule.specs.Views.{MayUse, IsSeenSettled};
ghost use Rattle.heap_read.specs.Readers.{MovesView, view_in};
ghost use Rattle.heap_read.specs.Reads.{OnlyLoads};
ghost use Rattle.heap_read.specs.Sides.{KnowsSide};

use crate::heap_ref::HeapRef;
use crate::reader::Reader;
use js_header::Form;

impl<H: HeapRef> Reader<H> {
    /// The form of a known string, as it is at this moment, by one load. Where it forwards to
    /// another, the units of that one are known from then on, if its own are.
    pub fn form_now(&mut self, id: u32) -> Form
        requires known { MayUse (view_in self.old) id }
        ensures reads { MovesView OnlyLoads self.old self.new }
        ensures seen { Has (view_in self.new).forms id result }
        ensures others { (i : ℕ) → i ≢ id → get (view_in self.new).forms i ≡ get (view_in self.old).forms i }
        ensures side { KnowsSide (view_in self.new) result }
        ensures target { (t : ℕ) → result ≡ Thin t → HasKey (view_in self.old).units id
            → HasKey (view_in self.new).units t }
        ensures loads { (view_in self.new).form_loads ≡ added_loads (view_in self.old).form_loads 1 }
        ensures born { result ≢ Unborn }
        ensures range { IsInRange result }
        ensures settled { IsSeenSettled (view_in self.old) id → ¬ IsCons result }
        ensures later { (f : form.Form) → Has (view_in self.old).forms id f → (f ≡ result)
            ⊎ IsLater f result }
        ensures solid { (j : ℕ) (wide : Bool) (offset : ℕ)
            → Has (view_in self.old).forms j (Sliced wide id offset) → IsSolid result }
    {
        self.agent.load_form(self.heap.heap(), id)
    }
}
