// Settling a string: a rope becomes flat.
ghost use Rattle.std.specs.Prelude.{◌≡◌, ℕ, List, ◌+◌, ◌-◌, ◌*◌, ◌<◌, ◌≤◌, IfOk, IfErr, length};
ghost use Rattle.js_header.specs.declared.form.Form.TheVariants.{Cons};
ghost use Rattle.heap_rule.specs.Loads.{added_loads};
ghost use Rattle.heap_rule.specs.Maps.{Has, HasKey};
ghost use Rattle.heap_rule.specs.Views.{MayUse, IsSeenSettled};
ghost use Rattle.heap_table.specs.Agents.{size_of, view_of};
ghost use Rattle.heap_read.specs.Readers.{MovesView, view_in};
ghost use Rattle.heap_read.specs.Reads.{Continues, OnlyLoads};
ghost use Rattle.heap_read.specs.Sides.{LoadsForms};
ghost use Rattle.heap_text.specs.Texts.{KeepsOwn};
ghost use Rattle.heap_text.specs.Settling.{HasSides, IsFlattened, IsNoRoom, LoadsFewFor, Settles};
ghost use Rattle.heap_text.specs.Keeping.{KeepsText};

use crate::faults::TextFull;
use crate::filling::{fill, fill_right, left_length};
use crate::text::Text;
use heap_read::{HeapRef, JsStr, Reader, Run, Steps};
use js_header::Form;
use js_units::words_for;
use std::marker::Brand;
use std::sync::ledger::{Blank, Ledger};

impl<H: HeapRef> Text<H> {
    /// Sees to it that the string is settled: its header is no Cons from then on. Where a Cons is
    /// loaded, its units are copied into new content words, and a Flat over these takes its place
    /// by one compare-exchange. Each load of a header's form is one step.
    pub fn settle_counted<L: Ledger>(
        &mut self,
        s: JsStr,
        steps: &mut Steps<L>,
    ) -> Result<(), TextFull>
        requires known { HasKey (view_of self.old.reader.agent).units s.id }
        ensures kept { KeepsText self.old self.new }
        ensures continues { Continues (view_of self.old.reader.agent) (view_of self.new.reader.agent) }
        ensures settles { Settles (view_of self.old.reader.agent) (view_of self.new.reader.agent)
            (size_of (H.reached self.old.reader.heap)) s.id result }
        ensures loads { (view_of self.new.reader.agent).form_loads
            ≡ added_loads (view_of self.old.reader.agent).form_loads (steps.new - steps.old) }
        ensures more { steps.old ≤ steps.new }
        ensures steps { (us : List ℕ) → Has (view_of self.old.reader.agent).units s.id us → 0 < length us
            → steps.new ≤ steps.old + 8 * length us }
    {
        let form = self.reader.form_now(s.id);
        steps.tick();
        match form {
            Form::Cons { wide, left, right } => flatten(
                &mut self.reader,
                s,
                wide,
                left,
                right,
                steps,
            ),
            _ => Ok(()),
        }
    }

    // The ledger of a caller that counts nothing.
    fn settle_by<L: Ledger>(&mut self, s: JsStr, blank: Blank) -> Result<(), TextFull>
        requires name { blank.name ≡ L.name }
        requires parts { blank.parts ≡ L.parts }
        requires some { 0 < blank.parts }
        requires known { HasKey (view_of self.old.reader.agent).units s.id }
        ensures kept { KeepsText self.old self.new }
        ensures continues { Continues (view_of self.old.reader.agent) (view_of self.new.reader.agent) }
        ensures settles { Settles (view_of self.old.reader.agent) (view_of self.new.reader.agent)
            (size_of (H.reached self.old.reader.heap)) s.id result }
        ensures loads { LoadsFewFor (view_of self.old.reader.agent) (view_of self.new.reader.agent) s.id }
    {
        let mut steps = Steps::<L>::start(blank);
        self.settle_counted(s, &mut steps)
    }

    /// Sees to it that the string is settled, as `settle_counted` does, with no count.
    pub fn settle(&mut self, s: JsStr) -> Result<(), TextFull>
        requires known { HasKey (view_of self.old.reader.agent).units s.id }
        ensures kept { KeepsText self.old self.new }
        ensures continues { Continues (view_of self.old.reader.agent) (view_of self.new.reader.agent) }
        ensures settles { Settles (view_of self.old.reader.agent) (view_of self.new.reader.agent)
            (size_of (H.reached self.old.reader.heap)) s.id result }
        ensures loads { LoadsFewFor (view_of self.old.reader.agent) (view_of self.new.reader.agent) s.id }
    {
        self.settle_by::<Brand>(s, Blank::new(1))
    }
}

// A string that was seen as a Cons becomes flat.
fn flatten<L: Ledger, H: HeapRef>(
    reader: &mut Reader<H>,
    s: JsStr,
    wide: bool,
    left: u32,
    right: u32,
    steps: &mut Steps<L>,
) -> Result<(), TextFull>
    requires known { HasKey (view_in reader.old).units s.id }
    requires seen { Has (view_in reader.old).forms s.id (Cons wide left right) }
    requires side { MayUse (view_in reader.old) left }
    ensures continues { MovesView Continues reader.old reader.new }
    ensures own { KeepsOwn (view_in reader.old) (view_in reader.new) }
    ensures settled { IfOk result (λ u. IsSeenSettled (view_in reader.new) s.id) }
    ensures flat { IfOk result
        (λ u. (us : List ℕ) → Has (view_in reader.old).units s.id us
        → IsFlattened (view_in reader.old) (view_in reader.new) s.id us wide) }
    ensures refused { IfErr result
        (λ f. (us : List ℕ) → Has (view_in reader.old).units s.id us
        → IsNoRoom (view_in reader.old) (view_in reader.new)
        (size_of (H.reached reader.old.heap)) us f wide) }
    ensures rope { IfErr result (λ f. (us : List ℕ) → Has (view_in reader.old).units s.id us
        → HasSides (view_in reader.new) s.id us) }
    ensures loads { LoadsForms (view_in reader.old) (view_in reader.new) (steps.new - steps.old) }
    ensures more { steps.old ≤ steps.new }
    ensures steps { (us : List ℕ) → Has (view_in reader.old).units s.id us
        → steps.new + 1 ≤ steps.old + 8 * length us }
{
    let n = reader.agent.load_length(reader.heap.heap(), s.id);
    let m = left_length(reader, s.id, left, right);
    let start = match reader
        .agent
        .claim_words(reader.heap.heap(), words_for(n, wide))
    {
        Ok(start) => start,
        Err(full) => return Err(TextFull::Words(full)),
    };
    let to = Run { start, wide };
    fill(reader, left, 0, m, to, steps);
    fill_right(reader, left, right, m, n - m, to, steps);
    let old = Form::Cons { wide, left, right };
    let flat = Form::Flat {
        wide,
        start,
        fixed: false,
    };
    reader
        .agent
        .flatten_step(reader.heap.heap(), s.id, old, flat);
    Ok(())
}
