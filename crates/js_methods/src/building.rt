// Methods that build another string: of several, of one so many times, with a filler, with units replaced, or of
// units that numbers give.
ghost use Rattle.std.specs.Prelude.{◌≡◌, ◌↔◌, ◌≤◌, ◌+◌, ◌++◌, ◌∷◌, ℕ, List, false, All, map, length, IfOk, OnOk, IsTrue, ◌*◌, ◌-◌, ◌%◌, take, None, ◌/◌, ◌<◌, ◌^◌, MatchOption, true};
ghost use Rattle.js_units.specs.Text;
ghost use Rattle.js_units.specs.Text.{well};
ghost use Rattle.js_store.specs.State.{NamesUnits, IsKnown, IsSettled, text};
ghost use Rattle.js_store.specs.Rows.{flat_words, wide_words, join_ids, join_words};
ghost use Rattle.js_store.specs.Faults.{Uses, fault_of};
ghost use Rattle.js_texts.specs.Answers.{NeverThrows, ThrowsLong, full_of, method_fault_of};
ghost use Rattle.js_texts.specs.Texts.{full_fault_of};
ghost use Rattle.js_number.specs.Places.{IsLawful};
ghost use Rattle.js_number.specs.Arith.{modulo};
ghost use Rattle.js_methods.specs.Waiting.{IsLeadOrNone, well_after};
ghost use Rattle.js_methods.specs.Building.{is_code_point, code_units, code_units_of, ThrowsBadPoint, PointsAnswer, CutsFiller, ReadsBoth, filling, pad_start_of, pad_end_of, pad_used_ids, pad_used_words, is_count, copies, repeat_of, ThrowsCount, repeat_used_ids, repeat_used_words};
ghost use Rattle.std.specs.List.{repeat as repeated};

use js_number::Num;
use js_store::{ConcatFault, StoreFault, Strings};
use js_texts::{Cause, MethodFault};
use js_units::{NoMemory, Units, is_lead, is_trail};
use std::alloc::Global;

// As many units of filler are put together at once.
const AT_ONCE: usize = 32;

// A string of fewer units is no rope (V8's `ConsString::kMinLength`), so settling it uses nothing on the heap.
const SHORTEST_ROPE: u64 = 13;

/// The units of `s` followed by those of `t` ("String.prototype.concat" with one argument).
pub fn concat<S: Strings>(store: &mut S, s: S::Ref, t: S::Ref) -> Result<S::Ref, MethodFault>
    requires left { IsKnown (S.state store.old) (S.number s) }
    requires right { IsKnown (S.state store.old) (S.number t) }
    ensures value { IfOk result
        (λ r. NamesUnits (S.state store.new) (S.number r)
        (text (S.state store.old) (S.number s) ++ text (S.state store.old) (S.number t))) }
    ensures throws { ThrowsLong result (S.state store.old).limit
        (length (text (S.state store.old) (S.number s)) + length (text (S.state store.old) (S.number t))) }
    ensures uses { Uses (S.state store.old) (S.state store.new) (method_fault_of result)
        (join_ids (length (text (S.state store.old) (S.number s)))
        (length (text (S.state store.old) (S.number t))))
        (join_words (length (text (S.state store.old) (S.number s)))
        (length (text (S.state store.old) (S.number t)))) }
{
    Ok(store.concat(s, t)?)
}

// The units of `a` followed by those of `b`, which together aren't too many.
fn joined<S: Strings>(store: &mut S, a: S::Ref, b: S::Ref) -> Result<S::Ref, StoreFault>
    requires left { IsKnown (S.state store.old) (S.number a) }
    requires right { IsKnown (S.state store.old) (S.number b) }
    requires short { length (text (S.state store.old) (S.number a)) + length
        (text (S.state store.old) (S.number b)) ≤ (S.state store.old).limit }
    ensures value { IfOk result
        (λ r. NamesUnits (S.state store.new) (S.number r)
        (text (S.state store.old) (S.number a) ++ text (S.state store.old) (S.number b))) }
    ensures uses { Uses (S.state store.old) (S.state store.new) (fault_of result) 1 3 }
{
    match store.concat(a, b) {
        Ok(both) => Ok(both),
        Err(fault) => match fault {
            ConcatFault::Store(fault) => Err(fault),
            ConcatFault::TooLong { .. } => unreachable!(),
        },
    }
}

/// The string with the filler, repeated and cut, behind it, so that it has `max` units; the
/// string itself where it has as many, or where the filler is empty
/// ("String.prototype.padEnd").
pub fn pad_end<S: Strings>(
    store: &mut S,
    s: S::Ref,
    max: u64,
    filler: S::Ref,
) -> Result<S::Ref, MethodFault>
    requires known { IsKnown (S.state store.old) (S.number s) }
    requires filler_known { IsKnown (S.state store.old) (S.number filler) }
    ensures value { IfOk result
        (λ r. NamesUnits (S.state store.new) (S.number r)
        (pad_end_of (text (S.state store.old) (S.number s)) max
        (text (S.state store.old) (S.number filler)))) }
    ensures filler_settled { CutsFiller (max - length (text (S.state store.old) (S.number s)))
        (length (text (S.state store.old) (S.number filler)))
        → OnOk result (IsSettled (S.state store.new) (S.number filler)) }
    ensures settled { ReadsBoth max (length (text (S.state store.old) (S.number s)))
        (length (text (S.state store.old) (S.number filler)))
        → OnOk result (IsSettled (S.state store.new) (S.number s)) }
    ensures throws { ThrowsLong result (S.state store.old).limit
        (length (pad_end_of (text (S.state store.old) (S.number s)) max
        (text (S.state store.old) (S.number filler)))) }
    ensures uses { Uses (S.state store.old) (S.state store.new) (method_fault_of result)
        pad_used_ids (pad_used_words (length (text (S.state store.old) (S.number filler)))) }
{
    let room = missing(store, s, max, filler)?;
    if room == 0 {
        return Ok(s);
    }
    if is_at_once(max, room) {
        return Ok(end_at_once(store, s, max as u32, filler)?);
    }
    let fill = filled(store, filler, room)?;
    Ok(joined(store, s, fill)?)
}

/// The string with the filler, repeated and cut, before it, so that it has `max` units; the
/// string itself where it has as many, or where the filler is empty
/// ("String.prototype.padStart").
pub fn pad_start<S: Strings>(
    store: &mut S,
    s: S::Ref,
    max: u64,
    filler: S::Ref,
) -> Result<S::Ref, MethodFault>
    requires known { IsKnown (S.state store.old) (S.number s) }
    requires filler_known { IsKnown (S.state store.old) (S.number filler) }
    ensures value { IfOk result
        (λ r. NamesUnits (S.state store.new) (S.number r)
        (pad_start_of (text (S.state store.old) (S.number s)) max
        (text (S.state store.old) (S.number filler)))) }
    ensures filler_settled { CutsFiller (max - length (text (S.state store.old) (S.number s)))
        (length (text (S.state store.old) (S.number filler)))
        → OnOk result (IsSettled (S.state store.new) (S.number filler)) }
    ensures settled { ReadsBoth max (length (text (S.state store.old) (S.number s)))
        (length (text (S.state store.old) (S.number filler)))
        → OnOk result (IsSettled (S.state store.new) (S.number s)) }
    ensures throws { ThrowsLong result (S.state store.old).limit
        (length (pad_start_of (text (S.state store.old) (S.number s)) max
        (text (S.state store.old) (S.number filler)))) }
    ensures uses { Uses (S.state store.old) (S.state store.new) (method_fault_of result)
        pad_used_ids (pad_used_words (length (text (S.state store.old) (S.number filler)))) }
{
    let room = missing(store, s, max, filler)?;
    if room == 0 {
        return Ok(s);
    }
    if is_at_once(max, room) {
        return Ok(start_at_once(store, s, max as u32, filler)?);
    }
    let fill = filled(store, filler, room)?;
    Ok(joined(store, fill, s)?)
}

// Whether so many units with the filler are few, and without it too few for a rope.
fn is_at_once(max: u64, room: u32) -> bool
    ensures { IsTrue result ↔ ((max ≤ 32) × (max < room + 13)) }
{
    max <= AT_ONCE as u64 && max < u64::from(room) + SHORTEST_ROPE
}

// How many units of filler are to be added.
fn missing<S: Strings>(
    store: &mut S,
    s: S::Ref,
    max: u64,
    filler: S::Ref,
) -> Result<u32, MethodFault>
    requires known { IsKnown (S.state store.old) (S.number s) }
    requires filler_known { IsKnown (S.state store.old) (S.number filler) }
    ensures value { IfOk result
        (λ r. r ≡ length
        (filling (text (S.state store.old) (S.number filler))
        (max - length (text (S.state store.old) (S.number s))))) }
    ensures throws { ThrowsLong result (S.state store.old).limit
        (length (text (S.state store.old) (S.number s)) + length
        (filling (text (S.state store.old) (S.number filler))
        (max - length (text (S.state store.old) (S.number s))))) }
    ensures fault { method_fault_of result ≡ None }
    ensures uses { Uses (S.state store.old) (S.state store.new) None 0 0 }
{
    let len = store.len(s);
    let size = store.len(filler);
    let padded = padded_length(u64::from(len), max, size);
    if padded > u64::from(store.limit()) {
        let length = u128::from(padded);
        return Err(MethodFault::RangeError(Cause::TooLong { length }));
    }
    Ok(padded as u32 - len)
}

// The length of the result of a pad, where the filler has `size` units.
fn padded_length(len: u64, max: u64, size: u32) -> u64
    ensures full { 1 ≤ size → result ≡ len + (max - len) }
    ensures empty { size ≡ 0 → result ≡ len }
{
    if size == 0 { len } else { len.max(max) }
}

// The string and behind it the filler, repeated and cut, which are few units together: they are put together
// outside the store.
fn end_at_once<S: Strings>(
    store: &mut S,
    s: S::Ref,
    max: u32,
    filler: S::Ref,
) -> Result<S::Ref, StoreFault>
    requires known { IsKnown (S.state store.old) (S.number s) }
    requires filler_known { IsKnown (S.state store.old) (S.number filler) }
    requires units { 1 ≤ length (text (S.state store.old) (S.number filler)) }
    requires some { length (text (S.state store.old) (S.number s)) < max }
    requires few { max ≤ 32 }
    requires short { max ≤ (S.state store.old).limit }
    ensures value { IfOk result
        (λ r. NamesUnits (S.state store.new) (S.number r)
        (pad_end_of (text (S.state store.old) (S.number s)) max
        (text (S.state store.old) (S.number filler)))) }
    ensures settled { OnOk result (IsSettled (S.state store.new) (S.number s)) }
    ensures filler_settled { OnOk result (IsSettled (S.state store.new) (S.number filler)) }
    ensures uses { Uses (S.state store.old) (S.state store.new) (fault_of result)
        pad_used_ids (pad_used_words (length (text (S.state store.old) (S.number filler)))) }
{
    settle_both(store, s, filler)?;
    let mut units = [0; AT_ONCE];
    let units = &mut units[..max as usize];
    read_and_fill(store, s, filler, units);
    store.from_units(units)
}

// The same with the filler before the string.
fn start_at_once<S: Strings>(
    store: &mut S,
    s: S::Ref,
    max: u32,
    filler: S::Ref,
) -> Result<S::Ref, StoreFault>
    requires known { IsKnown (S.state store.old) (S.number s) }
    requires filler_known { IsKnown (S.state store.old) (S.number filler) }
    requires units { 1 ≤ length (text (S.state store.old) (S.number filler)) }
    requires some { length (text (S.state store.old) (S.number s)) < max }
    requires few { max ≤ 32 }
    requires short { max ≤ (S.state store.old).limit }
    ensures value { IfOk result
        (λ r. NamesUnits (S.state store.new) (S.number r)
        (pad_start_of (text (S.state store.old) (S.number s)) max
        (text (S.state store.old) (S.number filler)))) }
    ensures settled { OnOk result (IsSettled (S.state store.new) (S.number s)) }
    ensures filler_settled { OnOk result (IsSettled (S.state store.new) (S.number filler)) }
    ensures uses { Uses (S.state store.old) (S.state store.new) (fault_of result)
        pad_used_ids (pad_used_words (length (text (S.state store.old) (S.number filler)))) }
{
    settle_both(store, s, filler)?;
    let mut units = [0; AT_ONCE];
    let units = &mut units[..max as usize];
    fill_and_read(store, s, filler, units);
    store.from_units(units)
}

// Settles both strings.
fn settle_both<S: Strings>(store: &mut S, s: S::Ref, t: S::Ref) -> Result<(), StoreFault>
    requires first { IsKnown (S.state store.old) (S.number s) }
    requires second { IsKnown (S.state store.old) (S.number t) }
    ensures settled { OnOk result (IsSettled (S.state store.new) (S.number s)) }
    ensures second_settled { OnOk result (IsSettled (S.state store.new) (S.number t)) }
    ensures uses { Uses (S.state store.old) (S.state store.new) (fault_of result) 0
        (wide_words (length (text (S.state store.old) (S.number s)))
        + wide_words (length (text (S.state store.old) (S.number t)))) }
{
    store.settle(s)?;
    store.settle(t)
}

// Fills a list with the units of a settled string, and behind them with those of a settled filler.
fn read_and_fill<S: Strings>(store: &mut S, s: S::Ref, filler: S::Ref, into: &mut [u16])
    requires known { IsKnown (S.state store.old) (S.number s) }
    requires settled { IsSettled (S.state store.old) (S.number s) }
    requires filler_known { IsKnown (S.state store.old) (S.number filler) }
    requires filler_settled { IsSettled (S.state store.old) (S.number filler) }
    requires units { 1 ≤ length (text (S.state store.old) (S.number filler)) }
    requires some { length (text (S.state store.old) (S.number s)) < length into.old }
    ensures units { into.new ≡ pad_end_of (text (S.state store.old) (S.number s)) (length into.old)
        (text (S.state store.old) (S.number filler)) }
    ensures uses { Uses (S.state store.old) (S.state store.new) None 0 0 }
{
    let len = store.len(s) as usize;
    store.read(s, 0, &mut into[..len]);
    read_filling(store, filler, &mut into[len..]);
}

// The same with the filler before the string.
fn fill_and_read<S: Strings>(store: &mut S, s: S::Ref, filler: S::Ref, into: &mut [u16])
    requires known { IsKnown (S.state store.old) (S.number s) }
    requires settled { IsSettled (S.state store.old) (S.number s) }
    requires filler_known { IsKnown (S.state store.old) (S.number filler) }
    requires filler_settled { IsSettled (S.state store.old) (S.number filler) }
    requires units { 1 ≤ length (text (S.state store.old) (S.number filler)) }
    requires some { length (text (S.state store.old) (S.number s)) < length into.old }
    ensures units { into.new ≡ pad_start_of (text (S.state store.old) (S.number s)) (length into.old)
        (text (S.state store.old) (S.number filler)) }
    ensures uses { Uses (S.state store.old) (S.state store.new) None 0 0 }
{
    let room = into.len() - store.len(s) as usize;
    read_filling(store, filler, &mut into[..room]);
    store.read(s, 0, &mut into[room..]);
}

// The filler repeated and cut to `room` units.
fn filled<S: Strings>(store: &mut S, filler: S::Ref, room: u32) -> Result<S::Ref, StoreFault>
    requires known { IsKnown (S.state store.old) (S.number filler) }
    requires units { 1 ≤ length (text (S.state store.old) (S.number filler)) }
    requires some { 1 ≤ room }
    requires short { room ≤ (S.state store.old).limit }
    ensures value { IfOk result
        (λ r. NamesUnits (S.state store.new) (S.number r)
        (filling (text (S.state store.old) (S.number filler)) room)) }
    ensures settled { 1 ≤ room % length (text (S.state store.old) (S.number filler))
        → OnOk result (IsSettled (S.state store.new) (S.number filler)) }
    ensures uses { Uses (S.state store.old) (S.state store.new) (fault_of result)
        64 (2 * wide_words (length (text (S.state store.old) (S.number filler))) + 256) }
{
    if room as usize <= AT_ONCE {
        return filled_at_once(store, filler, room);
    }
    filled_by_doubling(store, filler, room)
}

// The same of few units, which are put together outside the store.
fn filled_at_once<S: Strings>(
    store: &mut S,
    filler: S::Ref,
    room: u32,
) -> Result<S::Ref, StoreFault>
    requires known { IsKnown (S.state store.old) (S.number filler) }
    requires units { 1 ≤ length (text (S.state store.old) (S.number filler)) }
    requires some { 1 ≤ room }
    requires few { room ≤ 32 }
    requires short { room ≤ (S.state store.old).limit }
    ensures value { IfOk result
        (λ r. NamesUnits (S.state store.new) (S.number r)
        (filling (text (S.state store.old) (S.number filler)) room)) }
    ensures settled { OnOk result (IsSettled (S.state store.new) (S.number filler)) }
    ensures uses { Uses (S.state store.old) (S.state store.new) (fault_of result)
        64 (2 * wide_words (length (text (S.state store.old) (S.number filler))) + 256) }
{
    store.settle(filler)?;
    let mut units = [0; AT_ONCE];
    let units = &mut units[..room as usize];
    read_filling(store, filler, units);
    store.from_units(units)
}

// Fills a list with the units of a settled filler, repeated and cut.
fn read_filling<S: Strings>(store: &mut S, filler: S::Ref, into: &mut [u16])
    requires known { IsKnown (S.state store.old) (S.number filler) }
    requires settled { IsSettled (S.state store.old) (S.number filler) }
    requires units { 1 ≤ length (text (S.state store.old) (S.number filler)) }
    requires some { 1 ≤ length into.old }
    ensures units { into.new ≡ filling (text (S.state store.old) (S.number filler)) (length into.old) }
    ensures uses { Uses (S.state store.old) (S.state store.new) None 0 0 }
{
    let size = into.len().min(store.len(filler) as usize);
    store.read(filler, 0, &mut into[..size]);
    repeat_front(into, size);
}

// Puts the first units of a list behind them, again and again.
fn repeat_front(units: &mut [u16], size: usize)
    requires some { 1 ≤ size }
    requires within { size ≤ length units.old }
    ensures { units.new ≡ filling (take size units.old) (length units.old) }
{
    for i in size..units.len() {
        units[i] = units[i - size];
    }
}

// The filler repeated and cut to `room` units, of copies that are doubled and a front of it.
fn filled_by_doubling<S: Strings>(
    store: &mut S,
    filler: S::Ref,
    room: u32,
) -> Result<S::Ref, StoreFault>
    requires known { IsKnown (S.state store.old) (S.number filler) }
    requires units { 1 ≤ length (text (S.state store.old) (S.number filler)) }
    requires some { 1 ≤ room }
    requires short { room ≤ (S.state store.old).limit }
    ensures value { IfOk result
        (λ r. NamesUnits (S.state store.new) (S.number r)
        (filling (text (S.state store.old) (S.number filler)) room)) }
    ensures settled { 1 ≤ room % length (text (S.state store.old) (S.number filler))
        → OnOk result (IsSettled (S.state store.new) (S.number filler)) }
    ensures uses { Uses (S.state store.old) (S.state store.new) (fault_of result)
        64 (2 * wide_words (length (text (S.state store.old) (S.number filler))) + 256) }
{
    let size = store.len(filler);
    let whole = room / size;
    let part = room % size;
    if whole == 0 {
        return front(store, filler, part);
    }
    let repeats = doubled(store, filler, whole)?;
    if part == 0 {
        return Ok(repeats);
    }
    let rest = front(store, filler, part)?;
    joined(store, repeats, rest)
}

// The first units of a string.
fn front<S: Strings>(store: &mut S, s: S::Ref, size: u32) -> Result<S::Ref, StoreFault>
    requires known { IsKnown (S.state store.old) (S.number s) }
    requires within { size ≤ length (text (S.state store.old) (S.number s)) }
    ensures value { IfOk result
        (λ r. NamesUnits (S.state store.new) (S.number r)
        (take size (text (S.state store.old) (S.number s)))) }
    ensures settled { OnOk result (IsSettled (S.state store.new) (S.number s)) }
    ensures uses { Uses (S.state store.old) (S.state store.new) (fault_of result)
        1 (2 * wide_words (length (text (S.state store.old) (S.number s))) + 3) }
{
    store.settle(s)?;
    store.slice(s, 0, size)
}

/// As many copies as the integer of `count` says. It throws where that is negative or infinite,
/// whatever the string is ("String.prototype.repeat").
pub fn repeat<S: Strings>(store: &mut S, s: S::Ref, count: Num) -> Result<S::Ref, MethodFault>
    requires { IsKnown (S.state store.old) (S.number s) }
    ensures value { IfOk result
        (λ r. NamesUnits (S.state store.new) (S.number r)
        (repeat_of (text (S.state store.old) (S.number s)) count)) }
    ensures throws { ThrowsCount result (is_count count) (S.state store.old).limit
        (length (repeat_of (text (S.state store.old) (S.number s)) count)) }
    ensures uses { Uses (S.state store.old) (S.state store.new) (method_fault_of result)
        repeat_used_ids repeat_used_words }
{
    let Some(count) = whole_count(count) else {
        return Err(MethodFault::RangeError(Cause::BadCount));
    };
    let len = store.len(s);
    let length = u128::from(len) * u128::from(count);
    if length > u128::from(store.limit()) {
        return Err(MethodFault::RangeError(Cause::TooLong { length }));
    }
    if count == 0 {
        return Ok(store.from_units(&[])?);
    }
    if len == 0 {
        return Ok(s);
    }
    Ok(doubled(store, s, count as u32)?)
}

// How many copies are asked for, unless the number is negative or infinite.
fn whole_count(count: Num) -> Option<u64>
    ensures { MatchOption result (is_count count ≡ false)
        (λ n. (is_count count ≡ true) × (n ≡ copies count)) }
{
    match count {
        Num::NaN => Some(0),
        Num::Int(n) if n >= 0 => Some(n as u64),
        _ => None,
    }
}

// At least one copy: half as many twice, and one more where the count is odd.
fn doubled<S: Strings>(store: &mut S, s: S::Ref, count: u32) -> Result<S::Ref, StoreFault>
    requires known { IsKnown (S.state store.old) (S.number s) }
    requires some { 1 ≤ count }
    requires short { length (repeated count (text (S.state store.old) (S.number s)))
        ≤ (S.state store.old).limit }
    ensures value { IfOk result
        (λ r. NamesUnits (S.state store.new) (S.number r)
        (repeated count (text (S.state store.old) (S.number s)))) }
    ensures uses { (k : ℕ) → count < 2 ^ (k + 1)
        → Uses (S.state store.old) (S.state store.new) (fault_of result) (2 * k) (6 * k) }
{
    if count == 1 {
        return Ok(s);
    }
    let half = doubled(store, s, count / 2)?;
    twice(store, s, half, count)
}

// So many copies of `s`, of which `half` has half as many, rounded down.
fn twice<S: Strings>(
    store: &mut S,
    s: S::Ref,
    half: S::Ref,
    count: u32,
) -> Result<S::Ref, StoreFault>
    requires known { IsKnown (S.state store.old) (S.number s) }
    requires half { NamesUnits (S.state store.old) (S.number half)
        (repeated (count / 2) (text (S.state store.old) (S.number s))) }
    requires short { length (repeated count (text (S.state store.old) (S.number s)))
        ≤ (S.state store.old).limit }
    ensures value { IfOk result
        (λ r. NamesUnits (S.state store.new) (S.number r)
        (repeated count (text (S.state store.old) (S.number s)))) }
    ensures uses { Uses (S.state store.old) (S.state store.new) (fault_of result) 2 6 }
{
    let even = joined(store, half, half)?;
    if count % 2 == 0 {
        return Ok(even);
    }
    joined(store, even, s)
}

/// The string with U+FFFD in the place of each unpaired surrogate
/// ("String.prototype.toWellFormed").
#[tactic(auto, using(crate::proofs::WellFormed::well_length))]
pub fn to_well_formed<S: Strings>(
    alloc: Global,
    store: &mut S,
    s: S::Ref,
) -> Result<S::Ref, MethodFault>
    requires { IsKnown (S.state store.old) (S.number s) }
    ensures value { IfOk result
        (λ r. NamesUnits (S.state store.new) (S.number r) (well (text (S.state store.old) (S.number s)))) }
    ensures settled { OnOk result (IsSettled (S.state store.new) (S.number s)) }
    ensures throws { ThrowsLong result (S.state store.old).limit
        (length (well (text (S.state store.old) (S.number s)))) }
    ensures uses { Uses (S.state store.old) (S.state store.new) (full_of result)
        1 (wide_words (length (text (S.state store.old) (S.number s)))
        + flat_words (well (text (S.state store.old) (S.number s)))) }
{
    let len = store.len(s);
    if len > store.limit() {
        let length = u128::from(len);
        return Err(MethodFault::RangeError(Cause::TooLong { length }));
    }
    let units = settled_well_formed(alloc, store, s)?;
    Ok(store.from_units(units.as_slice())?)
}

// The units of a string, which is settled, with U+FFFD in the place of each unpaired surrogate.
fn settled_well_formed<S: Strings>(
    alloc: Global,
    store: &mut S,
    s: S::Ref,
) -> Result<Units, StoreFault>
    requires { IsKnown (S.state store.old) (S.number s) }
    ensures value { IfOk result (λ u. u ≡ well (text (S.state store.old) (S.number s))) }
    ensures settled { OnOk result (IsSettled (S.state store.new) (S.number s)) }
    ensures uses { Uses (S.state store.old) (S.state store.new) (full_fault_of result)
        0 (wide_words (length (text (S.state store.old) (S.number s)))) }
{
    store.settle(s)?;
    Ok(well_formed(alloc, store, s)?)
}

// The units of a settled string with U+FFFD in the place of each unpaired surrogate.
fn well_formed<S: Strings>(alloc: Global, store: &mut S, s: S::Ref) -> Result<Units, NoMemory>
    requires known { IsKnown (S.state store.old) (S.number s) }
    requires settled { IsSettled (S.state store.old) (S.number s) }
    ensures value { IfOk result (λ u. u ≡ well (text (S.state store.old) (S.number s))) }
    ensures uses { Uses (S.state store.old) (S.state store.new) None 0 0 }
{
    let len = store.len(s);
    let mut units = Units::new(alloc);
    // a leading surrogate that may still get its trailing one
    let mut waiting = None;
    for i in 0..len {
        let unit = store.unit_at(s, i);
        waiting = push_well(&mut units, waiting, unit)?;
    }
    if waiting.is_some() {
        units.push(0xFFFD)?;
    }
    Ok(units)
}

// Adds what is certain after one more unit, and gives the leading surrogate that waits then.
#[tactic(auto, using(crate::proofs::WellFormed::well_lone, crate::proofs::WellFormed::well_pair, crate::proofs::WellFormed::well_apart))]
fn push_well(units: &mut Units, waiting: Option<u16>, unit: u16) -> Result<Option<u16>, NoMemory>
    requires { IsLeadOrNone waiting }
    ensures lead { IfOk result IsLeadOrNone }
    ensures next { (rest : List ℕ)
        → IfOk result (λ r. units.old ++ well_after waiting (unit ∷ rest) ≡ units.new ++ well_after r rest) }
{
    if is_lead(unit) {
        if waiting.is_some() {
            units.push(0xFFFD)?;
        }
        return Ok(Some(unit));
    }
    match waiting {
        None => units.push(alone(unit))?,
        Some(lead) if is_trail(unit) => units.extend_from_slice(&[lead, unit])?,
        Some(_) => units.extend_from_slice(&[0xFFFD, unit])?,
    }
    Ok(None)
}

// A unit that is no leading surrogate and has none before it.
fn alone(unit: u16) -> u16
    requires { Text.is_lead unit ≡ false }
    ensures { result ≡ Text.alone unit }
{
    if is_trail(unit) { 0xFFFD } else { unit }
}

/// The string whose units are the numbers modulo 2^16 ("String.fromCharCode").
pub fn from_char_code<S: Strings>(
    alloc: Global,
    store: &mut S,
    codes: &[Num],
) -> Result<S::Ref, MethodFault>
    requires lawful { All IsLawful codes.now }
    requires count { length codes.now ≤ 1048576 }
    ensures value { IfOk result (λ r. NamesUnits (S.state store.new) (S.number r)
        (map (modulo 65536) codes.now)) }
    ensures throws { NeverThrows result }
    ensures uses { Uses (S.state store.old) (S.state store.new) (full_of result)
        1 (flat_words (map (modulo 65536) codes.now)) }
{
    let units = units_of_codes(alloc, codes)?;
    Ok(store.from_units(units.as_slice())?)
}

fn units_of_codes(alloc: Global, codes: &[Num]) -> Result<Units, NoMemory>
    requires { All IsLawful codes.now }
    ensures { IfOk result (λ u. u ≡ map (modulo 65536) codes.now) }
{
    let mut units = Units::new(alloc);
    for code in codes {
        units.push(code.to_uint16())?;
    }
    Ok(units)
}

/// The string of the code points that the numbers are, each as its one or two units; it throws
/// exactly where a number is no code point, which is a whole number in 0..10FFFF hexadecimal
/// ("String.fromCodePoint").
#[tactic(auto, using(crate::proofs::Points::bounded_units))]
pub fn from_code_point<S: Strings>(
    alloc: Global,
    store: &mut S,
    points: &[Num],
) -> Result<S::Ref, MethodFault>
    requires { length points.now ≤ 1048576 }
    ensures value { IfOk result (λ r. NamesUnits (S.state store.new) (S.number r)
        (code_units_of points.now)) }
    ensures throws { ThrowsBadPoint result points.now }
    ensures uses { Uses (S.state store.old) (S.state store.new) (full_of result)
        1 (flat_words (code_units_of points.now)) }
{
    match units_of_points(alloc, points)? {
        None => Err(MethodFault::RangeError(Cause::BadCodePoint)),
        Some(units) => Ok(store.from_units(units.as_slice())?),
    }
}

// The units of the code points, none where a number is no code point.
fn units_of_points(alloc: Global, points: &[Num]) -> Result<Option<Units>, NoMemory>
    ensures { IfOk result (λ r. PointsAnswer r points.now) }
{
    let mut units = Units::new(alloc);
    for point in points {
        if !push_point(&mut units, *point)? {
            return Ok(None);
        }
    }
    Ok(Some(units))
}

// Adds the units of a number that is a code point, and says whether it is one.
fn push_point(units: &mut Units, point: Num) -> Result<bool, NoMemory>
    ensures told { IfOk result (λ r. r ≡ is_code_point point) }
    ensures added { IfOk result (λ r. IsTrue r → units.new ≡ units.old ++ code_units point) }
{
    match point {
        Num::Int(n) if 0 <= n && n <= 0x10FFFF => {
            match char::from_u32(n as u32) {
                Some(c) => units.push_code_point(c)?,
                // a surrogate, which is no character
                None => units.push(n as u16)?,
            }
            Ok(true)
        }
        _ => Ok(false),
    }
}
