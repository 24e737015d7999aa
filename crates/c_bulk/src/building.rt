// Texts that are built up outside any heap, and then become strings. Calls on a text alone have no condition.
ghost use Rattle.std.specs.Prelude.{◌≡◌, None, ◌≢◌, ◌≤◌, ℕ, List, ◌↔◌};
ghost use Rattle.js_number.specs.Arith.{text_of};
ghost use Rattle.js_number.specs.declared.Num.TheVariants.{Int};
ghost use Rattle.heap_rule.specs.Maps.{Has, HasKey};
ghost use Rattle.heap_rule.specs.Views.{IsSeenSettled};
ghost use Rattle.heap_build.specs.Built.{AddsSpelled, room_in};
ghost use Rattle.heap_agents.specs.Ready.{IsReady, handle_view, HandleKnows};
ghost use Rattle.c_handles.specs.Handles.{IsHandle};
ghost use Rattle.c_steps.specs.Building.{AddsToText, BuildsSpelled, IsBuilder, text_so_far, EmptiesText};
ghost use Rattle.c_steps.specs.Checked.{OnlyLooks, ReadsSettled};
ghost use Rattle.c_steps.specs.Encodings as encodings;
ghost use Rattle.c_steps.specs.Encodings.{spells_in};
ghost use Rattle.c_steps.specs.Given.{IsInterning, MakesString, TestsGiven};
ghost use Rattle.c_steps.specs.Reports as reports;

use c_handles::JsAgent;
use c_steps::{
    DONE, JsAnswer, JsBuilder, NO_MEMORY, Task, TextEncoding, bad_argument, encoding_by, no_memory,
    of_decoded, settle_known, status_of,
};
use heap_build::{Builder, DecodeFault};
use heap_text::JsStr;
use std::alloc::Global;

/// Adds units to a text, all or none.
#[unsafe(no_mangle)]
pub extern "C" fn jsstr_build_units(alloc: Global, text: &mut JsBuilder, units: &[u16]) -> u32
    requires { IsBuilder text.old }
    ensures handle { IsBuilder text.new }
    ensures builds { AddsToText text.old.at.value text.new.at.value units.now result }
{
    match text.open(alloc) {
        Ok(mut opened) => {
            let answer = opened.push_units(units);
            text.put(opened);
            status_of(answer)
        }
        Err(_) => NO_MEMORY,
    }
}

/// Adds the decimal digits of a number, with a sign where it is negative (ECMA-262, "Number::toString").
#[unsafe(no_mangle)]
pub extern "C" fn jsstr_build_number(alloc: Global, text: &mut JsBuilder, number: i64) -> u32
    requires { IsBuilder text.old }
    ensures handle { IsBuilder text.new }
    ensures builds { AddsToText text.old.at.value text.new.at.value (text_of (Int number)) result }
{
    match text.open(alloc) {
        Ok(mut opened) => {
            let answer = opened.push_number(number);
            text.put(opened);
            status_of(answer)
        }
        Err(_) => NO_MEMORY,
    }
}

// Adds the units that bytes spell.
fn push_bytes(text: &mut Builder, encoding: TextEncoding, bytes: &[u8]) -> Result<(), DecodeFault>
    ensures added { AddsSpelled (spells_in encoding) text.old text.new bytes.now result }
    ensures room { room_in text.old ≤ room_in text.new }
{
    match encoding {
        TextEncoding::Latin1 => match text.push_latin1(bytes) {
            Ok(()) => Ok(()),
            Err(fault) => Err(DecodeFault::NotAdded(fault)),
        },
        TextEncoding::Utf8 => text.push_utf8(bytes),
        TextEncoding::Wtf8 => text.push_wtf8(bytes),
    }
}

/// Adds the units that bytes spell, all or none.
#[unsafe(no_mangle)]
pub extern "C" fn jsstr_build_bytes(
    alloc: Global,
    text: &mut JsBuilder,
    encoding: u32,
    bytes: &[u8],
) -> JsAnswer
    requires { IsBuilder text.old }
    ensures handle { IsBuilder text.new }
    ensures bad { result.status ≡ reports.BAD_ARGUMENT ↔ ¬ (encoding ≤ 2) }
    ensures unchanged { result.status ≡ reports.BAD_ARGUMENT
        → (result ≡ reports.bad_argument) × (text.new.at.value ≡ text.old.at.value) }
    ensures builds { result.status ≢ reports.BAD_ARGUMENT
        → BuildsSpelled (spells_in (encodings.encoding_by encoding)) text.old.at.value text.new.at.value
        bytes.now result }
{
    if encoding > 2 {
        return bad_argument();
    }
    match text.open(alloc) {
        Ok(mut opened) => {
            let answer = push_bytes(&mut opened, encoding_by(encoding), bytes);
            text.put(opened);
            of_decoded(answer)
        }
        Err(_) => no_memory(),
    }
}

// Adds the units of a settled string.
fn add_settled(alloc: Global, text: &mut JsBuilder, agent: &mut JsAgent, s: u32) -> u32
    requires text { IsBuilder text.old }
    requires ready { IsReady agent.old.at.value }
    requires known { HasKey (handle_view agent.old.at.value).units s }
    requires settled { IsSeenSettled (handle_view agent.old.at.value) s }
    ensures text { IsBuilder text.new }
    ensures handle { IsHandle agent.new }
    ensures told { result ≢ reports.BAD_ARGUMENT }
    ensures words { result ≢ reports.NO_WORDS }
    ensures looks { OnlyLooks agent.old.at.value agent.new.at.value }
    ensures builds { (us : List ℕ) → Has (handle_view agent.old.at.value).units s us
        → AddsToText text.old.at.value text.new.at.value us result }
{
    let held = agent.held();
    match text.open(alloc) {
        Ok(mut opened) => {
            let answer = agent_reads::add_to(held, JsStr { id: s }, &mut opened);
            text.put(opened);
            status_of(answer)
        }
        Err(_) => NO_MEMORY,
    }
}

/// Adds the units of a string, which is settled first.
#[unsafe(no_mangle)]
pub extern "C" fn jsstr_build_string(
    alloc: Global,
    text: &mut JsBuilder,
    agent: &mut JsAgent,
    s: u32,
) -> u32
    requires text { IsBuilder text.old }
    requires handle { IsHandle agent.old }
    ensures handle { IsBuilder text.new × IsHandle agent.new }
    ensures bad { result ≡ reports.BAD_ARGUMENT ↔ ¬ (HandleKnows agent.old.at.value s) }
    ensures builds { ReadsSettled agent.old.at.value agent.new.at.value s result
        (text.new.at.value ≡ text.old.at.value)
        (λ us. AddsToText text.old.at.value text.new.at.value us result) }
{
    let settled = settle_known(agent, s);
    if settled.status != DONE {
        return settled.status;
    }
    add_settled(alloc, text, agent, s)
}

/// A new string with the units of a text, settled. The text is empty then, and keeps its memory for the next
/// one; where there is no room for the string, the text stays, so that it can go into another heap.
#[unsafe(no_mangle)]
pub extern "C" fn jsstr_built(alloc: Global, text: &mut JsBuilder, agent: &mut JsAgent) -> JsAnswer
    requires text { IsBuilder text.old }
    requires handle { IsHandle agent.old }
    ensures handle { IsBuilder text.new × IsHandle agent.new }
    ensures bad { result.status ≡ reports.BAD_ARGUMENT ↔ ¬ (IsReady agent.old.at.value) }
    ensures makes { TestsGiven MakesString agent.old.at.value agent.new.at.value
        (text_so_far text.old.at.value) result }
    ensures spent { EmptiesText text.old.at.value text.new.at.value result.status }
{
    if agent.is_empty() {
        return bad_argument();
    }
    text.spend(alloc, agent, Task::Make)
}

/// The one string of the table with the units of a text, which is then empty or stays, as for a new string.
#[unsafe(no_mangle)]
pub extern "C" fn jsstr_built_interned(
    alloc: Global,
    text: &mut JsBuilder,
    agent: &mut JsAgent,
) -> JsAnswer
    requires text { IsBuilder text.old }
    requires handle { IsHandle agent.old }
    ensures handle { IsBuilder text.new × IsHandle agent.new }
    ensures bad { result.status ≡ reports.BAD_ARGUMENT ↔ ¬ (IsReady agent.old.at.value) }
    ensures interns { TestsGiven IsInterning agent.old.at.value agent.new.at.value
        (text_so_far text.old.at.value)
        result }
    ensures spent { EmptiesText text.old.at.value text.new.at.value result.status }
{
    if agent.is_empty() {
        return bad_argument();
    }
    text.spend(alloc, agent, Task::Intern)
}

/// Gives the memory of a text back. The handle is zero then.
#[unsafe(no_mangle)]
pub extern "C" fn jsstr_drop_builder(alloc: Global, text: &mut JsBuilder)
    requires { IsBuilder text.old }
    ensures handle { IsBuilder text.new }
    ensures gone { text.new.at.value ≡ None }
{
    if text.live == 0 {
        return;
    }
    drop(text.take(alloc));
}
