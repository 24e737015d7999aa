// Calls on units that C gives, each once for all ways to give them.
ghost use Rattle.std.specs.Prelude.{◌≡◌, ◌≢◌, ◌↔◌, ◌≤◌, ℕ, List, length, true, IfOk, IsTrue};
ghost use Rattle.heap_rule.specs.Layout.{MAX};
ghost use Rattle.heap_rule.specs.Maps.{Has, HasKey};
ghost use Rattle.heap_rule.specs.Views.{IsSeenSettled};
ghost use Rattle.heap_agents.specs.Ready.{IsReady, handle_view};
ghost use Rattle.c_handles.specs.Handles.{IsHandle};
ghost use Rattle.c_steps.specs.Batches.{AreLists};
ghost use Rattle.c_steps.specs.Checked.{OnlyLooks};
ghost use Rattle.heap_bytes.specs.Spellings.{IsReadable, spelling_units};
ghost use Rattle.c_steps.specs.Given.{IsFinding, IsInterning, MakesString, OnSpelled, OrNoMemory};
ghost use Rattle.c_steps.specs.Reports as reports;
ghost use Rattle.c_steps.specs.Encodings as encodings;
ghost use Rattle.c_steps.specs.Tasks.{Does, Leaves};

use crate::answer::{JsAnswer, bad_argument, no_memory, not_utf8, of_found, of_table, of_text};
use crate::encoding::{TextEncoding, decode, encoding_by};
use crate::reading::{length_of, read_into};
use agent_keys::are_ends;
use c_handles::JsAgent;
use heap_bytes::Spelling;
use heap_intern::Key;
use heap_rule::MAX;
use std::alloc::{AllocError, Global};

/// What is done with units that are in no string.
#[derive(Clone, Copy)]
pub enum Task {
    /// A string is made of them.
    Make,
    /// They are interned.
    Intern,
    /// They are looked for in the string table.
    Find,
}

/// A new string with these units, settled.
pub fn from_units(agent: &mut JsAgent, units: &[u16]) -> JsAnswer
    requires ready { IsReady agent.old.at.value }
    requires short { length units.now ≤ MAX }
    ensures handle { IsHandle agent.new }
    ensures told { result.status ≢ reports.BAD_ARGUMENT }
    ensures makes { MakesString agent.old.at.value agent.new.at.value units.now result }
{
    let answer = agent_makes::from_units(agent.held(), units);
    of_text(answer)
}

/// The one string of the table with these units. No string is made first: where it is in the table,
/// nothing is used.
pub fn intern_units(agent: &mut JsAgent, units: &[u16]) -> JsAnswer
    requires ready { IsReady agent.old.at.value }
    requires short { length units.now ≤ MAX }
    ensures handle { IsHandle agent.new }
    ensures told { result.status ≢ reports.BAD_ARGUMENT }
    ensures interns { IsInterning agent.old.at.value agent.new.at.value units.now result }
{
    let answer = agent_keys::intern_units(agent.held(), units);
    of_table(answer)
}

/// The one string of the table with these units, if it is there. Nothing is used, ever.
pub fn find_units(agent: &mut JsAgent, units: &[u16]) -> JsAnswer
    requires ready { IsReady agent.old.at.value }
    requires short { length units.now ≤ MAX }
    ensures handle { IsHandle agent.new }
    ensures told { result.status ≢ reports.BAD_ARGUMENT }
    ensures finds { IsFinding agent.old.at.value agent.new.at.value units.now result }
{
    let answer = agent_keys::find_units(agent.held(), units);
    of_found(answer)
}

// A task on units.
#[inline(always)]
pub(crate) fn on_units(agent: &mut JsAgent, task: Task, units: &[u16]) -> JsAnswer
    requires ready { IsReady agent.old.at.value }
    requires short { length units.now ≤ MAX }
    ensures handle { IsHandle agent.new }
    ensures told { result.status ≢ reports.BAD_ARGUMENT }
    ensures does { Does task agent.old.at.value agent.new.at.value units.now result }
    ensures leaves { Leaves task agent.old.at.value agent.new.at.value }
{
    match task {
        Task::Make => from_units(agent, units),
        Task::Intern => intern_units(agent, units),
        Task::Find => find_units(agent, units),
    }
}

/// A refusal that leaves the agent as it was. It is lent once, so that its handle says that it has one.
pub fn left(agent: &mut JsAgent, refusal: JsAnswer) -> JsAnswer
    requires { IsReady agent.old.at.value }
    ensures handle { IsHandle agent.new }
    ensures same { agent.new.at.value ≡ agent.old.at.value }
    ensures answer { result ≡ refusal }
{
    let _ = agent.held();
    refusal
}

// A string made of the units that bytes spell.
fn make_from(agent: &mut JsAgent, spelled: &Spelling) -> JsAnswer
    requires ready { IsReady agent.old.at.value }
    requires read { IsReadable spelled.now }
    requires short { length (spelling_units spelled.now) ≤ MAX }
    ensures handle { IsHandle agent.new }
    ensures told { result.status ≢ reports.BAD_ARGUMENT }
    ensures makes { MakesString agent.old.at.value agent.new.at.value (spelling_units spelled.now) result }
{
    let answer = agent_makes::make_from(agent.held(), spelled);
    of_text(answer)
}

// The one string of the table with the units that bytes spell.
fn intern_from(agent: &mut JsAgent, spelled: &Spelling) -> JsAnswer
    requires ready { IsReady agent.old.at.value }
    requires read { IsReadable spelled.now }
    requires short { length (spelling_units spelled.now) ≤ MAX }
    ensures handle { IsHandle agent.new }
    ensures told { result.status ≢ reports.BAD_ARGUMENT }
    ensures interns { IsInterning agent.old.at.value agent.new.at.value (spelling_units spelled.now) result }
{
    let answer = agent_keys::intern_key(agent.held(), &Key::Spelled(*spelled));
    of_table(answer)
}

// The one string of the table with the units that bytes spell, if it is there.
fn find_from(agent: &mut JsAgent, spelled: &Spelling) -> JsAnswer
    requires ready { IsReady agent.old.at.value }
    requires read { IsReadable spelled.now }
    requires short { length (spelling_units spelled.now) ≤ MAX }
    ensures handle { IsHandle agent.new }
    ensures told { result.status ≢ reports.BAD_ARGUMENT }
    ensures finds { IsFinding agent.old.at.value agent.new.at.value (spelling_units spelled.now) result }
{
    let answer = agent_keys::find_key(agent.held(), &Key::Spelled(*spelled));
    of_found(answer)
}

// A task on the units that bytes spell.
fn on_spelling(agent: &mut JsAgent, task: Task, spelled: &Spelling) -> JsAnswer
    requires ready { IsReady agent.old.at.value }
    requires read { IsReadable spelled.now }
    requires short { length (spelling_units spelled.now) ≤ MAX }
    ensures handle { IsHandle agent.new }
    ensures told { result.status ≢ reports.BAD_ARGUMENT }
    ensures does { Does task agent.old.at.value agent.new.at.value (spelling_units spelled.now) result }
    ensures leaves { Leaves task agent.old.at.value agent.new.at.value }
{
    match task {
        Task::Make => make_from(agent, spelled),
        Task::Intern => intern_from(agent, spelled),
        Task::Find => find_from(agent, spelled),
    }
}

// A task on the units that bytes spell, if they spell any.
fn on_bytes(agent: &mut JsAgent, task: Task, encoding: TextEncoding, bytes: &[u8]) -> JsAnswer
    requires ready { IsReady agent.old.at.value }
    requires short { length bytes.now ≤ MAX }
    ensures handle { IsHandle agent.new }
    ensures told { result.status ≢ reports.BAD_ARGUMENT }
    ensures does { OnSpelled (encodings.spells_in encoding) (Does task) agent.old.at.value
        agent.new.at.value bytes.now result }
    ensures leaves { Leaves task agent.old.at.value agent.new.at.value }
{
    match decode(encoding, bytes) {
        Ok(spelled) => on_spelling(agent, task, &spelled),
        Err(at) => left(agent, not_utf8(at as u32)),
    }
}

/// A task on units, where its condition holds: there is an agent, and no more is given than a string may
/// have.
#[inline(always)]
pub fn tested_units(agent: &mut JsAgent, task: Task, units: &[u16]) -> JsAnswer
    requires { IsHandle agent.old }
    ensures handle { IsHandle agent.new }
    ensures bad { result.status ≡ reports.BAD_ARGUMENT
        ↔ ¬ (IsReady agent.old.at.value × (length units.now ≤ MAX)) }
    ensures unchanged { result.status ≡ reports.BAD_ARGUMENT
        → (result ≡ reports.bad_argument) × (agent.new.at.value ≡ agent.old.at.value) }
    ensures does { result.status ≢ reports.BAD_ARGUMENT
        → Does task agent.old.at.value agent.new.at.value units.now result }
    ensures leaves { result.status ≢ reports.BAD_ARGUMENT
        → Leaves task agent.old.at.value agent.new.at.value }
{
    if agent.is_empty() || units.len() > MAX as usize {
        return bad_argument();
    }
    on_units(agent, task, units)
}

/// The same on the units that bytes spell, where there is an encoding with that number too.
#[inline(always)]
pub fn tested_bytes(agent: &mut JsAgent, task: Task, encoding: u32, bytes: &[u8]) -> JsAnswer
    requires { IsHandle agent.old }
    ensures handle { IsHandle agent.new }
    ensures bad { result.status ≡ reports.BAD_ARGUMENT
        ↔ ¬ (IsReady agent.old.at.value × (encoding ≤ 2) × (length bytes.now ≤ MAX)) }
    ensures unchanged { result.status ≡ reports.BAD_ARGUMENT
        → (result ≡ reports.bad_argument) × (agent.new.at.value ≡ agent.old.at.value) }
    ensures does { result.status ≢ reports.BAD_ARGUMENT
        → OnSpelled (encodings.spells_in (encodings.encoding_by encoding)) (Does task)
        agent.old.at.value agent.new.at.value bytes.now result }
    ensures leaves { result.status ≢ reports.BAD_ARGUMENT
        → Leaves task agent.old.at.value agent.new.at.value }
{
    if agent.is_empty() || encoding > 2 || bytes.len() > MAX as usize {
        return bad_argument();
    }
    on_bytes(agent, task, encoding_by(encoding), bytes)
}

/// Whether the ends are those of lists within so many units, and there is room for their ids.
pub fn are_lists(units: usize, ends: &[u32], room: usize) -> bool
    ensures { IsTrue result ↔ AreLists units ends.now room }
{
    ends.len() <= room && ends.len() <= u32::MAX as usize && are_ends(units, ends)
}

// The units of a settled string, copied.
fn copied(alloc: Global, agent: &mut JsAgent, s: u32) -> Result<Vec<u16>, AllocError>
    requires ready { IsReady agent.old.at.value }
    requires known { HasKey (handle_view agent.old.at.value).units s }
    requires settled { IsSeenSettled (handle_view agent.old.at.value) s }
    ensures handle { IsHandle agent.new }
    ensures looks { OnlyLooks agent.old.at.value agent.new.at.value }
    ensures units { IfOk result (λ v. (us : List ℕ) → Has (handle_view agent.old.at.value).units s us
        → v.items ≡ us) }
    ensures short { IfOk result (λ v. length v.items ≤ MAX) }
{
    let len = length_of(agent, s);
    let mut units = Vec::from_elem(alloc, 0u16, len as usize)?;
    read_into(agent, s, 0, units.as_mut_slice());
    Ok(units)
}

/// A task in one heap on the units of a settled string of another.
pub fn on_string(
    alloc: Global,
    from: &mut JsAgent,
    s: u32,
    to: &mut JsAgent,
    task: Task,
) -> JsAnswer
    requires ready { IsReady from.old.at.value }
    requires known { HasKey (handle_view from.old.at.value).units s }
    requires settled { IsSeenSettled (handle_view from.old.at.value) s }
    requires other { IsReady to.old.at.value }
    ensures handle { IsHandle from.new }
    ensures other_handle { IsHandle to.new }
    ensures looks { OnlyLooks from.old.at.value from.new.at.value }
    ensures told { result.status ≢ reports.BAD_ARGUMENT }
    ensures leaves { Leaves task to.old.at.value to.new.at.value }
    ensures does { (us : List ℕ) → Has (handle_view from.old.at.value).units s us
        → OrNoMemory (Does task) to.old.at.value to.new.at.value us result }
{
    match copied(alloc, from, s) {
        Ok(units) => on_units(to, task, units.as_slice()),
        Err(_) => left(to, no_memory()),
    }
}
