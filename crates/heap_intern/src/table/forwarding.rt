// The header of a string that was interned moves to the answer.
ghost use Rattle.std.specs.Prelude.{◌≡◌, ℕ, List, [], Bool};
ghost use Rattle.std.specs.Bool.{MatchBool};
ghost use Rattle.heap_rule.specs.HeaderMoves.{CanThin};
ghost use Rattle.heap_rule.specs.Maps.{Has};
ghost use Rattle.heap_intern.specs.Answers.{IsForwarded};
ghost use Rattle.heap_intern.specs.Goes.{LoadsAlone};
ghost use Rattle.heap_intern.specs.Headers.{target_of};
ghost use Rattle.heap_read.specs.Readers.{view_in};
ghost use Rattle.heap_intern.specs.Seeking.{IsSought};

use crate::table::sought::Sought;
use heap_read::{HeapRef, Reader};
use js_header::Form;

// Whether a header of this form may come to forward.
fn can_thin(form: Form) -> bool
    ensures { MatchBool result (CanThin form) (¬ CanThin form) }
{
    match form {
        Form::Unborn => false,
        Form::Flat { fixed, .. } => !fixed,
        Form::Cons { .. } => false,
        Form::Sliced { .. } => true,
        Form::Thin { .. } => false,
    }
}

// The string to which a form forwards: the interned one, which is a header for the same units.
pub(crate) fn forwards_to(form: Form) -> Option<u32>
    ensures { result ≡ target_of form }
{
    match form {
        Form::Thin { target } => Some(target),
        _ => None,
    }
}

// The header of a string that was interned forwards to the answer, unless it is a fixed Flat. Where
// it forwards already it does so to the answer.
pub(crate) fn forward<H: HeapRef>(reader: &mut Reader<H>, s: Sought, answer: u32)
    requires lies { IsSought (view_in reader.old) s }
    requires stands { (k : ℕ) × Has (view_in reader.old).slots k answer }
    requires units { (us : List ℕ) × Has (view_in reader.old).units s.id us
        × Has (view_in reader.old).units answer us }
    ensures heap { reader.new.heap ≡ reader.old.heap }
    ensures looks { LoadsAlone (view_in reader.old) (view_in reader.new) }
    ensures loads { (view_in reader.new).slot_loads ≡ (view_in reader.old).slot_loads }
    ensures forwards { IsForwarded (view_in reader.new) s.id answer }
{
    if can_thin(s.form) {
        reader
            .agent
            .thin_step(reader.heap.heap(), s.id, s.form, answer);
        return;
    }
}
