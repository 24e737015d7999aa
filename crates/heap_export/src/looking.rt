// The hash of a string's units, and whether it is settled.
ghost use Rattle.std.specs.Prelude.{◌≡◌, ◌↔◌, ℕ, List, IsTrue};
ghost use Rattle.js_header.specs.declared.form.Form as form;
ghost use Rattle.js_units.specs.Lanes.{hash_of};
ghost use Rattle.heap_rule.specs.Forms.{IsCons};
ghost use Rattle.heap_rule.specs.Loads.{added_loads};
ghost use Rattle.heap_rule.specs.Maps.{Has, HasKey};
ghost use Rattle.heap_rule.specs.Views.{IsSeenSettled};
ghost use Rattle.heap_table.specs.Agents.{view_of};
ghost use Rattle.heap_read.specs.Reads.{OnlyLoads};
ghost use Rattle.heap_read.specs.Sides.{LoadsFewForms};
ghost use Rattle.heap_text.specs.Keeping.{KeepsText};

use heap_read::HeapRef;
use heap_text::{JsStr, Text};
use js_header::Form;

/// The hash by which the string table looks for the units of a settled string.
pub fn hash<H: HeapRef>(text: &mut Text<H>, s: JsStr) -> u32
    requires known { HasKey (view_of text.old.reader.agent).units s.id }
    requires settled { IsSeenSettled (view_of text.old.reader.agent) s.id }
    ensures kept { KeepsText text.old text.new }
    ensures reads { OnlyLoads (view_of text.old.reader.agent) (view_of text.new.reader.agent) }
    ensures few { LoadsFewForms (view_of text.old.reader.agent) (view_of text.new.reader.agent) 3 }
    ensures hash { (us : List ℕ) → Has (view_of text.old.reader.agent).units s.id us → result ≡ hash_of us }
{
    let window = text.window(s);
    text.reader.hash_in(window)
}

/// Whether a string is settled at this moment, by one load of its form. It stays so.
pub fn is_settled<H: HeapRef>(text: &mut Text<H>, s: JsStr) -> bool
    requires known { HasKey (view_of text.old.reader.agent).units s.id }
    ensures kept { KeepsText text.old text.new }
    ensures reads { OnlyLoads (view_of text.old.reader.agent) (view_of text.new.reader.agent) }
    ensures loads { (view_of text.new.reader.agent).form_loads
        ≡ added_loads (view_of text.old.reader.agent).form_loads 1 }
    ensures seen { (f : form.Form) × Has (view_of text.new.reader.agent).forms s.id f
        × (IsTrue result ↔ ¬ IsCons f) }
    ensures stays { IsSeenSettled (view_of text.old.reader.agent) s.id → IsTrue result }
{
    let form = text.reader.form_now(s.id);
    is_no_cons(form)
}

fn is_no_cons(form: Form) -> bool
    ensures { IsTrue result ↔ ¬ IsCons form }
{
    match form {
        Form::Cons { .. } => false,
        _ => true,
    }
}
