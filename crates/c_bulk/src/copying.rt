// Strings of one heap that are made, or interned, in another.
ghost use Rattle.std.specs.Prelude.{◌≢◌, ℕ, List, ◌≡◌, ◌↔◌, ◌⊎◌};
ghost use Rattle.heap_rule.specs.Maps.{Has};
ghost use Rattle.heap_agents.specs.Ready.{HandleSpends, IsReady, handle_view, HandleKnows};
ghost use Rattle.c_handles.specs.Handles.{IsHandle};
ghost use Rattle.c_steps.specs.Checked.{RefusesSettling, SettlesAndLooks};
ghost use Rattle.c_steps.specs.Given.{IsInterning, MakesString, OrNoMemory};
ghost use Rattle.c_steps.specs.Reports as reports;

use c_handles::JsAgent;
use c_steps::{DONE, JsAnswer, Task, bad_argument, on_string, settle_known};
use std::alloc::Global;

/// A new string in another heap with the units of a string, which is settled first. It allocates for the duration of the
/// call.
#[unsafe(no_mangle)]
pub extern "C" fn jsstr_copy_into(
    alloc: Global,
    from: &mut JsAgent,
    s: u32,
    to: &mut JsAgent,
) -> JsAnswer
    requires from { IsHandle from.old }
    requires to { IsHandle to.old }
    ensures handle { IsHandle from.new × IsHandle to.new }
    ensures bad { result.status ≡ reports.BAD_ARGUMENT
        ↔ ¬ (HandleKnows from.old.at.value s × IsReady to.old.at.value) }
    ensures unchanged { result.status ≡ reports.BAD_ARGUMENT → (result ≡ reports.bad_argument)
        × (from.new.at.value ≡ from.old.at.value) × (to.new.at.value ≡ to.old.at.value) }
    ensures leaves { result.status ≢ reports.BAD_ARGUMENT → HandleSpends to.old.at.value to.new.at.value }
    ensures does { result.status ≢ reports.BAD_ARGUMENT
        → (RefusesSettling from.old.at.value from.new.at.value s result × (to.new.at.value ≡ to.old.at.value))
        ⊎ (SettlesAndLooks from.old.at.value from.new.at.value s × ((us : List ℕ)
        → Has (handle_view from.old.at.value).units s us
        → OrNoMemory MakesString to.old.at.value to.new.at.value us result)) }
{
    if to.is_empty() {
        return bad_argument();
    }
    let settled = settle_known(from, s);
    if settled.status != DONE {
        return settled;
    }
    on_string(alloc, from, s, to, Task::Make)
}

/// The one string of another heap's table with the units of a string, which is settled first. It allocates for the duration
/// of the call.
#[unsafe(no_mangle)]
pub extern "C" fn jsstr_intern_into(
    alloc: Global,
    from: &mut JsAgent,
    s: u32,
    to: &mut JsAgent,
) -> JsAnswer
    requires from { IsHandle from.old }
    requires to { IsHandle to.old }
    ensures handle { IsHandle from.new × IsHandle to.new }
    ensures bad { result.status ≡ reports.BAD_ARGUMENT
        ↔ ¬ (HandleKnows from.old.at.value s × IsReady to.old.at.value) }
    ensures unchanged { result.status ≡ reports.BAD_ARGUMENT → (result ≡ reports.bad_argument)
        × (from.new.at.value ≡ from.old.at.value) × (to.new.at.value ≡ to.old.at.value) }
    ensures does { result.status ≢ reports.BAD_ARGUMENT
        → (RefusesSettling from.old.at.value from.new.at.value s result × (to.new.at.value ≡ to.old.at.value))
        ⊎ (SettlesAndLooks from.old.at.value from.new.at.value s × ((us : List ℕ)
        → Has (handle_view from.old.at.value).units s us
        → OrNoMemory IsInterning to.old.at.value to.new.at.value us result)) }
{
    if to.is_empty() {
        return bad_argument();
    }
    let settled = settle_known(from, s);
    if settled.status != DONE {
        return settled;
    }
    on_string(alloc, from, s, to, Task::Intern)
}
