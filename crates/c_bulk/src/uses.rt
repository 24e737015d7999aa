// That the clauses of the exports fit together, as a C program would call them: the call below is proved from
// those clauses alone. Nothing calls this function.
ghost use Rattle.std.specs.Prelude.{◌≡◌, [], ◌++◌, IfSome};
ghost use Rattle.heap_rule.specs.Maps.{Has};
ghost use Rattle.heap_agents.specs.Ready.{handle_view};
ghost use Rattle.c_handles.specs.Handles.{IsHandle};
ghost use Rattle.c_steps.specs.Building.{IsBuilder, text_so_far};

use crate::building::{jsstr_build_units, jsstr_built};
use c_handles::JsAgent;
use c_steps::{DONE, JsBuilder};
use std::alloc::Global;

// A text of two lists, which becomes a string: it has the units of both, and the text is empty again.
fn built_of_two(
    alloc: Global,
    text: &mut JsBuilder,
    agent: &mut JsAgent,
    first: &[u16],
    second: &[u16],
) -> Option<u32>
    requires text { IsBuilder text.old }
    requires empty { text_so_far text.old.at.value ≡ [] }
    requires handle { IsHandle agent.old }
    ensures handle { IsBuilder text.new × IsHandle agent.new }
    ensures units { IfSome result (λ s. Has (handle_view agent.new.at.value).units s
        (first.now ++ second.now)) }
    ensures empty { IfSome result (λ s. text_so_far text.new.at.value ≡ []) }
{
    let front = jsstr_build_units(alloc, text, first);
    if front != DONE {
        return None;
    }
    let behind = jsstr_build_units(alloc, text, second);
    if behind != DONE {
        return None;
    }
    let made = jsstr_built(alloc, text, agent);
    if made.status != DONE {
        return None;
    }
    Some(made.id)
}
