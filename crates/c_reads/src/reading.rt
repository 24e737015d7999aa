// Reading strings: lengths, units, words and bytes, hashes, array indexes.
ghost use Rattle.std.specs.Prelude.{◌≡◌, ◌≢◌, ℕ, ◌+◌, ◌≤◌, List, length, slice_range, ◌↔◌, Option, ◌<◌, slice_index, IsTrue, Some};
ghost use Rattle.js_units.specs.Lanes.{hash_of};
ghost use Rattle.js_header.specs.declared.form.Form as form;
ghost use Rattle.heap_rule.specs.Maps.{Has, HasKey};
ghost use Rattle.heap_rule.specs.Views.{IsSeenSettled};
ghost use Rattle.heap_rule.specs.Forms.{IsCons};
ghost use Rattle.heap_export.specs.Index.{IsArrayIndex};
ghost use Rattle.heap_export.specs.Encoded.{bytes_of, past_latin1, refused};
ghost use Rattle.heap_agents.specs.Ready.{IsReady, handle_view, HandleKnows};
ghost use Rattle.agent_reads.specs.Words.{AreShown, AreThere};
ghost use Rattle.c_handles.specs.Handles.{IsHandle};
ghost use Rattle.c_steps.specs.Checked.{ReadsLength, OnlyLooks, ReachesLength, ReadsSettled};
ghost use Rattle.c_steps.specs.Reports.{shown_by, number_answer, no_words, no_number, no_truth};
ghost use Rattle.c_steps.specs.Bytes.{IsGiven, unpaired_by, no_bytes};
ghost use Rattle.c_steps.specs.Reports as reports;

use c_handles::JsAgent;
use c_steps::{
    BAD_ARGUMENT, DONE, JsBytes, JsNumber, JsTruth, JsWords, length_of, of_bytes, of_number,
    of_words, read_into, settle_known, settle_reaching, unpaired_by, without_bytes, without_number,
    without_truth, without_words,
};
use heap_text::JsStr;

/// The length of a string, in units.
#[unsafe(no_mangle)]
pub extern "C" fn jsstr_length_unchecked(agent: &mut JsAgent, s: u32) -> u32
    requires ready { IsReady agent.old.at.value }
    requires known { HasKey (handle_view agent.old.at.value).units s }
    ensures handle { IsHandle agent.new }
    ensures measures { ReadsLength agent.old.at.value agent.new.at.value }
    ensures length { (us : List ℕ) → Has (handle_view agent.old.at.value).units s us → result ≡ length us }
{
    length_of(agent, s)
}

/// The same, with its conditions tested.
#[unsafe(no_mangle)]
pub extern "C" fn jsstr_length(agent: &mut JsAgent, s: u32) -> JsNumber
    requires { IsHandle agent.old }
    ensures handle { IsHandle agent.new }
    ensures bad { result.status ≡ reports.BAD_ARGUMENT ↔ ¬ (HandleKnows agent.old.at.value s) }
    ensures unchanged { result.status ≡ reports.BAD_ARGUMENT
        → (result ≡ no_number reports.BAD_ARGUMENT) × (agent.new.at.value ≡ agent.old.at.value) }
    ensures status { result.status ≢ reports.BAD_ARGUMENT → result.status ≡ reports.DONE }
    ensures known { result.status ≡ reports.DONE → HandleKnows agent.old.at.value s }
    ensures measures { result.status ≡ reports.DONE → ReadsLength agent.old.at.value agent.new.at.value }
    ensures length { result.status ≡ reports.DONE → (us : List ℕ)
        → Has (handle_view agent.old.at.value).units s us → result.value ≡ length us }
{
    if !agent.knows(s) {
        return without_number(BAD_ARGUMENT);
    }
    let value = jsstr_length_unchecked(agent, s);
    JsNumber {
        status: DONE,
        value,
    }
}

/// The units of a string from unit `from` on, as many as there is room for.
/// The string is settled first.
#[unsafe(no_mangle)]
pub extern "C" fn jsstr_read(agent: &mut JsAgent, s: u32, from: u32, out: &mut [u16]) -> u32
    requires { IsHandle agent.old }
    ensures handle { IsHandle agent.new }
    ensures bad { result ≡ reports.BAD_ARGUMENT
        ↔ ¬ (ReachesLength agent.old.at.value s (from + length out.old)) }
    ensures reads { ReadsSettled agent.old.at.value agent.new.at.value s result (out.new ≡ out.old)
        (λ us. (result ≡ reports.DONE) × (out.new ≡ slice_range us from (from + length out.old))) }
{
    let settled = settle_reaching(agent, s, from, out.len());
    if settled.status != DONE {
        return settled.status;
    }
    read_into(agent, s, from, out);
    DONE
}

/// Unit number `place` of a settled string.
#[unsafe(no_mangle)]
pub extern "C" fn jsstr_unit_at_unchecked(agent: &mut JsAgent, s: u32, place: u32) -> u16
    requires ready { IsReady agent.old.at.value }
    requires settled { IsSeenSettled (handle_view agent.old.at.value) s }
    requires within { (us : List ℕ) × Has (handle_view agent.old.at.value).units s us × (place < length us) }
    ensures handle { IsHandle agent.new }
    ensures looks { OnlyLooks agent.old.at.value agent.new.at.value }
    ensures unit { (us : List ℕ) → Has (handle_view agent.old.at.value).units s us
        → result ≡ slice_index us place }
{
    agent_reads::unit_at(agent.held(), JsStr { id: s }, place)
}

/// The same, with its conditions tested and the string settled first.
#[unsafe(no_mangle)]
pub extern "C" fn jsstr_unit_at(agent: &mut JsAgent, s: u32, place: u32) -> JsNumber
    requires { IsHandle agent.old }
    ensures handle { IsHandle agent.new }
    ensures bad { result.status ≡ reports.BAD_ARGUMENT ↔ ¬ (ReachesLength agent.old.at.value s (place + 1)) }
    ensures reads { ReadsSettled agent.old.at.value agent.new.at.value s result.status
        (result ≡ no_number result.status) (λ us. result ≡ number_answer (Some (slice_index us place))) }
{
    let settled = settle_reaching(agent, s, place, 1);
    if settled.status != DONE {
        return without_number(settled.status);
    }
    let unit = jsstr_unit_at_unchecked(agent, s, place);
    of_number(Some(u32::from(unit)))
}

/// The content words of a settled string from word number `at` on, as many as there are and as there is
/// room for, and where its units are in them.
#[unsafe(no_mangle)]
pub extern "C" fn jsstr_window_unchecked(
    agent: &mut JsAgent,
    s: u32,
    at: u32,
    out: &mut [u64],
) -> JsWords
    requires ready { IsReady agent.old.at.value }
    requires known { HasKey (handle_view agent.old.at.value).units s }
    requires settled { IsSeenSettled (handle_view agent.old.at.value) s }
    ensures handle { IsHandle agent.new }
    ensures looks { OnlyLooks agent.old.at.value agent.new.at.value }
    ensures told { result.status ≡ reports.DONE }
    ensures shown { (us : List ℕ) → Has (handle_view agent.old.at.value).units s us
        → AreShown us at out.old out.new (shown_by result) }
    ensures there { (us : List ℕ) → Has (handle_view agent.old.at.value).units s us
        → AreThere (handle_view agent.new.at.value) us (shown_by result) }
{
    let shown = agent_reads::window(agent.held(), JsStr { id: s }, at, out);
    of_words(shown)
}

/// The same, with its conditions tested and the string settled first.
#[unsafe(no_mangle)]
pub extern "C" fn jsstr_window(agent: &mut JsAgent, s: u32, at: u32, out: &mut [u64]) -> JsWords
    requires { IsHandle agent.old }
    ensures handle { IsHandle agent.new }
    ensures bad { result.status ≡ reports.BAD_ARGUMENT ↔ ¬ (HandleKnows agent.old.at.value s) }
    ensures reads { ReadsSettled agent.old.at.value agent.new.at.value s result.status
        ((result ≡ no_words result.status) × (out.new ≡ out.old))
        (λ us. (result.status ≡ reports.DONE) × AreShown us at out.old out.new (shown_by result)
        × AreThere (handle_view agent.new.at.value) us (shown_by result)) }
{
    let settled = settle_known(agent, s);
    if settled.status != DONE {
        return without_words(settled.status);
    }
    jsstr_window_unchecked(agent, s, at, out)
}

// The UTF-8 of a settled string into `out`. An unpaired surrogate becomes U+FFFD (0), refuses the call
// (1), or stays, as WTF-8 has it (2).
fn write_utf8(agent: &mut JsAgent, s: u32, unpaired: u32, out: &mut [u8]) -> JsBytes
    requires ready { IsReady agent.old.at.value }
    requires known { HasKey (handle_view agent.old.at.value).units s }
    requires settled { IsSeenSettled (handle_view agent.old.at.value) s }
    requires way { unpaired ≤ 2 }
    ensures handle { IsHandle agent.new }
    ensures looks { OnlyLooks agent.old.at.value agent.new.at.value }
    ensures told { result.status ≢ reports.BAD_ARGUMENT }
    ensures words { result.status ≢ reports.NO_WORDS }
    ensures given { (us : List ℕ) → Has (handle_view agent.old.at.value).units s us
        → IsGiven (refused (unpaired_by unpaired) us) (bytes_of (unpaired_by unpaired) us)
        out.old out.new result }
{
    let way = unpaired_by(unpaired);
    let answer = agent_reads::write_utf8(agent.held(), JsStr { id: s }, way, out);
    of_bytes(answer)
}

/// The UTF-8 of a string into `out`. An unpaired surrogate becomes U+FFFD (0), refuses the call
/// (1), or stays, as WTF-8 has it (2).
/// The string is settled first.
#[unsafe(no_mangle)]
pub extern "C" fn jsstr_to_utf8(
    agent: &mut JsAgent,
    s: u32,
    unpaired: u32,
    out: &mut [u8],
) -> JsBytes
    requires { IsHandle agent.old }
    ensures handle { IsHandle agent.new }
    ensures bad { result.status ≡ reports.BAD_ARGUMENT
        ↔ ¬ (HandleKnows agent.old.at.value s × (unpaired ≤ 2)) }
    ensures unchanged { result.status ≡ reports.BAD_ARGUMENT → agent.new.at.value ≡ agent.old.at.value }
    ensures reads { ReadsSettled agent.old.at.value agent.new.at.value s result.status
        ((result ≡ no_bytes result.status) × (out.new ≡ out.old))
        (λ us. IsGiven (refused (unpaired_by unpaired) us) (bytes_of (unpaired_by unpaired) us)
        out.old out.new result) }
{
    if unpaired > 2 {
        return without_bytes(BAD_ARGUMENT);
    }
    let settled = settle_known(agent, s);
    if settled.status != DONE {
        return without_bytes(settled.status);
    }
    write_utf8(agent, s, unpaired, out)
}

// The units of a settled string into `out`, a byte each, as Latin-1 has them. A unit over 255 refuses the
// call.
fn write_latin1(agent: &mut JsAgent, s: u32, out: &mut [u8]) -> JsBytes
    requires ready { IsReady agent.old.at.value }
    requires known { HasKey (handle_view agent.old.at.value).units s }
    requires settled { IsSeenSettled (handle_view agent.old.at.value) s }
    ensures handle { IsHandle agent.new }
    ensures looks { OnlyLooks agent.old.at.value agent.new.at.value }
    ensures told { result.status ≢ reports.BAD_ARGUMENT }
    ensures words { result.status ≢ reports.NO_WORDS }
    ensures given { (us : List ℕ) → Has (handle_view agent.old.at.value).units s us
        → IsGiven (past_latin1 0 us) us out.old out.new result }
{
    let answer = agent_reads::write_latin1(agent.held(), JsStr { id: s }, out);
    of_bytes(answer)
}

/// The units of a string into `out`, a byte each, as Latin-1 has them. A unit over 255 refuses the
/// call.
/// The string is settled first.
#[unsafe(no_mangle)]
pub extern "C" fn jsstr_to_latin1(agent: &mut JsAgent, s: u32, out: &mut [u8]) -> JsBytes
    requires { IsHandle agent.old }
    ensures handle { IsHandle agent.new }
    ensures bad { result.status ≡ reports.BAD_ARGUMENT ↔ ¬ (HandleKnows agent.old.at.value s) }
    ensures reads { ReadsSettled agent.old.at.value agent.new.at.value s result.status
        ((result ≡ no_bytes result.status) × (out.new ≡ out.old))
        (λ us. IsGiven (past_latin1 0 us) us out.old out.new result) }
{
    let settled = settle_known(agent, s);
    if settled.status != DONE {
        return without_bytes(settled.status);
    }
    write_latin1(agent, s, out)
}

/// The hash by which the string table looks for the units of a settled string.
#[unsafe(no_mangle)]
pub extern "C" fn jsstr_hash_unchecked(agent: &mut JsAgent, s: u32) -> u32
    requires ready { IsReady agent.old.at.value }
    requires known { HasKey (handle_view agent.old.at.value).units s }
    requires settled { IsSeenSettled (handle_view agent.old.at.value) s }
    ensures handle { IsHandle agent.new }
    ensures looks { OnlyLooks agent.old.at.value agent.new.at.value }
    ensures hash { (us : List ℕ) → Has (handle_view agent.old.at.value).units s us → result ≡ hash_of us }
{
    agent_reads::hash(agent.held(), JsStr { id: s })
}

/// The same, with its conditions tested and the string settled first.
#[unsafe(no_mangle)]
pub extern "C" fn jsstr_hash(agent: &mut JsAgent, s: u32) -> JsNumber
    requires { IsHandle agent.old }
    ensures handle { IsHandle agent.new }
    ensures bad { result.status ≡ reports.BAD_ARGUMENT ↔ ¬ (HandleKnows agent.old.at.value s) }
    ensures reads { ReadsSettled agent.old.at.value agent.new.at.value s result.status
        (result ≡ no_number result.status) (λ us. result ≡ number_answer (Some (hash_of us))) }
{
    let settled = settle_known(agent, s);
    if settled.status != DONE {
        return without_number(settled.status);
    }
    let value = jsstr_hash_unchecked(agent, s);
    of_number(Some(value))
}

// The number of a settled string that is an array index (ECMA-262, "array index"); NONE where it is none.
fn index_of_settled(agent: &mut JsAgent, s: u32) -> JsNumber
    requires ready { IsReady agent.old.at.value }
    requires known { HasKey (handle_view agent.old.at.value).units s }
    requires settled { IsSeenSettled (handle_view agent.old.at.value) s }
    ensures handle { IsHandle agent.new }
    ensures looks { OnlyLooks agent.old.at.value agent.new.at.value }
    ensures told { result.status ≢ reports.BAD_ARGUMENT }
    ensures words { result.status ≢ reports.NO_WORDS }
    ensures index { (us : List ℕ) → Has (handle_view agent.old.at.value).units s us
        → (n : Option ℕ) × (result ≡ number_answer n) × IsArrayIndex us n }
{
    let answer = agent_reads::array_index(agent.held(), JsStr { id: s });
    of_number(answer)
}

/// The number of a string that is an array index (ECMA-262, "array index"); NONE where it is none.
/// The string is settled first.
#[unsafe(no_mangle)]
pub extern "C" fn jsstr_array_index(agent: &mut JsAgent, s: u32) -> JsNumber
    requires { IsHandle agent.old }
    ensures handle { IsHandle agent.new }
    ensures bad { result.status ≡ reports.BAD_ARGUMENT ↔ ¬ (HandleKnows agent.old.at.value s) }
    ensures reads { ReadsSettled agent.old.at.value agent.new.at.value s result.status
        (result ≡ no_number result.status)
        (λ us. (n : Option ℕ) × (result ≡ number_answer n) × IsArrayIndex us n) }
{
    let settled = settle_known(agent, s);
    if settled.status != DONE {
        return without_number(settled.status);
    }
    index_of_settled(agent, s)
}

// Whether a string is settled, by one load of its form, which the agent knows from then on.
fn is_seen_settled(agent: &mut JsAgent, s: u32) -> bool
    requires ready { IsReady agent.old.at.value }
    requires known { HasKey (handle_view agent.old.at.value).units s }
    ensures handle { IsHandle agent.new }
    ensures looks { OnlyLooks agent.old.at.value agent.new.at.value }
    ensures seen { (f : form.Form) × Has (handle_view agent.new.at.value).forms s f
        × (IsTrue result ↔ ¬ IsCons f) }
    ensures stays { IsSeenSettled (handle_view agent.old.at.value) s → IsTrue result }
{
    agent_reads::is_settled(agent.held(), JsStr { id: s })
}

/// Whether a string is settled, by one load of its form, which the agent knows from then on.
#[unsafe(no_mangle)]
pub extern "C" fn jsstr_is_settled(agent: &mut JsAgent, s: u32) -> JsTruth
    requires { IsHandle agent.old }
    ensures handle { IsHandle agent.new }
    ensures bad { result.status ≡ reports.BAD_ARGUMENT ↔ ¬ (HandleKnows agent.old.at.value s) }
    ensures status { result.status ≢ reports.BAD_ARGUMENT → result.status ≡ reports.DONE }
    ensures unchanged { result.status ≡ reports.BAD_ARGUMENT
        → (result ≡ no_truth reports.BAD_ARGUMENT) × (agent.new.at.value ≡ agent.old.at.value) }
    ensures looks { result.status ≡ reports.DONE → OnlyLooks agent.old.at.value agent.new.at.value }
    ensures seen { result.status ≡ reports.DONE → (f : form.Form)
        × Has (handle_view agent.new.at.value).forms s f × (IsTrue result.holds ↔ ¬ IsCons f) }
    ensures stays { result.status ≡ reports.DONE → IsSeenSettled (handle_view agent.old.at.value) s
        → IsTrue result.holds }
{
    if !agent.knows(s) {
        return without_truth(BAD_ARGUMENT);
    }
    let holds = is_seen_settled(agent, s);
    JsTruth {
        status: DONE,
        holds,
    }
}
