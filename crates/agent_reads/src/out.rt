// What is read of settled strings, by loads alone: one unit, all of them, bytes, the hash, the number as an
// array index, their order beside units. And whether a string is settled.
ghost use Rattle.std.specs.Prelude.{◌≡◌, ◌↔◌, ℕ, ◌<◌, List, length, slice_index, IsTrue, None};
ghost use Rattle.js_header.specs.declared.form.Form as form;
ghost use Rattle.js_units.specs.Lanes.{hash_of};
ghost use Rattle.heap_rule.specs.Forms.{IsCons};
ghost use Rattle.heap_rule.specs.Maps.{Has, HasKey};
ghost use Rattle.heap_rule.specs.Views.{IsSeenSettled};
ghost use Rattle.heap_read.specs.Reads.{OnlyLoads};
ghost use Rattle.heap_export.specs.Index.{IsArrayIndex};
ghost use Rattle.heap_agents.specs.Held.{IsHeld, LeavesStrings, MarksNothing, view_by};
ghost use Rattle.heap_export.specs.Encoded.{IsEncodedInto, bytes_of, past_latin1, refused};
ghost use Rattle.js_search.specs.Order.{units_cmp};

use heap_agents::Held;
use heap_export::{Unpaired, WriteFault};
use heap_text::JsStr;
use std::cmp::Ordering;

/// Unit `i` of a settled string, by loads alone.
pub fn unit_at(agent: &mut Held, s: JsStr, i: u32) -> u16
    requires held { IsHeld agent.old }
    requires settled { IsSeenSettled (view_by agent.old) s.id }
    requires within { (us : List ℕ) × Has (view_by agent.old).units s.id us × (i < length us) }
    ensures leaves { LeavesStrings agent.old agent.new }
    ensures reads { OnlyLoads (view_by agent.old) (view_by agent.new) }
    ensures marked { MarksNothing agent.old agent.new }
    ensures unit { (us : List ℕ) → Has (view_by agent.old).units s.id us → result ≡ slice_index us i }
{
    match &mut agent.text {
        Some(text) => text.unit_at(s, i),
        None => unreachable!(),
    }
}

/// The hash by which the string table looks for the units of a settled string, by loads alone.
pub fn hash(agent: &mut Held, s: JsStr) -> u32
    requires held { IsHeld agent.old }
    requires known { HasKey (view_by agent.old).units s.id }
    requires settled { IsSeenSettled (view_by agent.old) s.id }
    ensures leaves { LeavesStrings agent.old agent.new }
    ensures reads { OnlyLoads (view_by agent.old) (view_by agent.new) }
    ensures marked { MarksNothing agent.old agent.new }
    ensures hash { (us : List ℕ) → Has (view_by agent.old).units s.id us → result ≡ hash_of us }
{
    match &mut agent.text {
        Some(text) => heap_export::hash(text, s),
        None => unreachable!(),
    }
}

/// The number of a settled string that is an array index (ECMA-262, "array index"), by loads alone.
pub fn array_index(agent: &mut Held, s: JsStr) -> Option<u32>
    requires held { IsHeld agent.old }
    requires known { HasKey (view_by agent.old).units s.id }
    requires settled { IsSeenSettled (view_by agent.old) s.id }
    ensures leaves { LeavesStrings agent.old agent.new }
    ensures reads { OnlyLoads (view_by agent.old) (view_by agent.new) }
    ensures marked { MarksNothing agent.old agent.new }
    ensures index { (us : List ℕ) → Has (view_by agent.old).units s.id us → IsArrayIndex us result }
{
    match &mut agent.text {
        Some(text) => heap_export::array_index(text, s),
        None => unreachable!(),
    }
}

/// Whether a string is settled at this moment, which it stays, by one load of its form.
pub fn is_settled(agent: &mut Held, s: JsStr) -> bool
    requires held { IsHeld agent.old }
    requires known { HasKey (view_by agent.old).units s.id }
    ensures leaves { LeavesStrings agent.old agent.new }
    ensures reads { OnlyLoads (view_by agent.old) (view_by agent.new) }
    ensures marked { MarksNothing agent.old agent.new }
    ensures seen { (f : form.Form) × Has (view_by agent.new).forms s.id f × (IsTrue result ↔ ¬ IsCons f) }
    ensures stays { IsSeenSettled (view_by agent.old) s.id → IsTrue result }
{
    match &mut agent.text {
        Some(text) => heap_export::is_settled(text, s),
        None => unreachable!(),
    }
}

/// The UTF-8 of a settled string into `out`, by loads alone; how many bytes it is. Nothing is written
/// where there is no room for all, or where an unpaired surrogate is refused.
pub fn write_utf8(
    agent: &mut Held,
    s: JsStr,
    unpaired: Unpaired,
    out: &mut [u8],
) -> Result<u32, WriteFault>
    requires held { IsHeld agent.old }
    requires known { HasKey (view_by agent.old).units s.id }
    requires settled { IsSeenSettled (view_by agent.old) s.id }
    ensures leaves { LeavesStrings agent.old agent.new }
    ensures reads { OnlyLoads (view_by agent.old) (view_by agent.new) }
    ensures marked { MarksNothing agent.old agent.new }
    ensures written { (us : List ℕ) → Has (view_by agent.old).units s.id us
        → IsEncodedInto (refused unpaired us) (bytes_of unpaired us) out.old out.new result }
{
    match &mut agent.text {
        Some(text) => heap_export::write_utf8(text, s, unpaired, out),
        None => unreachable!(),
    }
}

/// The units of a settled string into `out`, a byte each, by loads alone; how many they are. Nothing
/// is written where there is no room for all, or where one is over 255.
pub fn write_latin1(agent: &mut Held, s: JsStr, out: &mut [u8]) -> Result<u32, WriteFault>
    requires held { IsHeld agent.old }
    requires known { HasKey (view_by agent.old).units s.id }
    requires settled { IsSeenSettled (view_by agent.old) s.id }
    ensures leaves { LeavesStrings agent.old agent.new }
    ensures reads { OnlyLoads (view_by agent.old) (view_by agent.new) }
    ensures marked { MarksNothing agent.old agent.new }
    ensures written { (us : List ℕ) → Has (view_by agent.old).units s.id us
        → IsEncodedInto (past_latin1 0 us) us out.old out.new result }
{
    match &mut agent.text {
        Some(text) => heap_export::write_latin1(text, s, out),
        None => unreachable!(),
    }
}

/// The units of a settled string into `out`, by loads alone; how many they are. Nothing is written where
/// there is no room for all.
pub fn write_units(agent: &mut Held, s: JsStr, out: &mut [u16]) -> Result<u32, WriteFault>
    requires held { IsHeld agent.old }
    requires known { HasKey (view_by agent.old).units s.id }
    requires settled { IsSeenSettled (view_by agent.old) s.id }
    ensures leaves { LeavesStrings agent.old agent.new }
    ensures reads { OnlyLoads (view_by agent.old) (view_by agent.new) }
    ensures marked { MarksNothing agent.old agent.new }
    ensures written { (us : List ℕ) → Has (view_by agent.old).units s.id us
        → IsEncodedInto None us out.old out.new result }
{
    match &mut agent.text {
        Some(text) => heap_export::write_units(text, s, out),
        None => unreachable!(),
    }
}

/// The order of a settled string and a list by units, where a proper prefix comes first.
pub fn compare_units(agent: &mut Held, s: JsStr, units: &[u16]) -> Ordering
    requires held { IsHeld agent.old }
    requires known { HasKey (view_by agent.old).units s.id }
    requires settled { IsSeenSettled (view_by agent.old) s.id }
    ensures leaves { LeavesStrings agent.old agent.new }
    ensures reads { OnlyLoads (view_by agent.old) (view_by agent.new) }
    ensures marked { MarksNothing agent.old agent.new }
    ensures order { (us : List ℕ) → Has (view_by agent.old).units s.id us
        → result ≡ units_cmp us units.now }
{
    match &mut agent.text {
        Some(text) => heap_export::compare_units(text, s, units),
        None => unreachable!(),
    }
}

/// Whether a settled string has just these units.
pub fn has_units(agent: &mut Held, s: JsStr, units: &[u16]) -> bool
    requires held { IsHeld agent.old }
    requires known { HasKey (view_by agent.old).units s.id }
    requires settled { IsSeenSettled (view_by agent.old) s.id }
    ensures leaves { LeavesStrings agent.old agent.new }
    ensures reads { OnlyLoads (view_by agent.old) (view_by agent.new) }
    ensures marked { MarksNothing agent.old agent.new }
    ensures same { (us : List ℕ) → Has (view_by agent.old).units s.id us
        → IsTrue result ↔ (us ≡ units.now) }
{
    match &mut agent.text {
        Some(text) => heap_export::has_units(text, s, units),
        None => unreachable!(),
    }
}
