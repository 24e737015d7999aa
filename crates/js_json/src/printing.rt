// The bytes of a line.
ghost use Rattle.std.specs.Prelude.{◌≡◌, ◌+◌, ◌<◌, ◌≤◌, ◌++◌, ◌∷◌, [], drop, length, take, All, vec_capacity, vec_len, None, OnOk, OnErr, IfErr};
ghost use Rattle.js_units.specs.Text.{utf8};
ghost use Rattle.js_store.specs.State.{IsKnown, IsSettled, text};
ghost use Rattle.js_store.specs.Faults.{Uses};
ghost use Rattle.js_store.specs.Rows.{settle_words};
ghost use Rattle.js_json.specs.Printing.{line, line_rest};
ghost use Rattle.js_json.specs.Printing;
ghost use Rattle.js_texts.specs.Texts.{known_texts, AllKnown, AllSettled, settle_most, full_fault_of};

use js_store::{StoreFault, Strings};
use js_texts::copied;
use js_units::{NoMemory, append_utf8};
use std::alloc::Global;

/// Adds the line of some strings.
pub fn append_line<S: Strings>(
    alloc: Global,
    store: &mut S,
    parts: &[S::Ref],
    line: &mut Vec<u8>,
) -> Result<(), StoreFault>
    requires { AllKnown (S.state store.old) S.number parts.now }
    ensures added { OnOk result
        (line.new.items ≡ line.old.items
        ++ Printing.line (known_texts (S.state store.old) S.number parts.now)) }
    ensures settled { OnOk result (AllSettled (S.state store.new) S.number parts.now) }
    ensures kept { take (length line.old.items) line.new.items ≡ line.old.items }
    ensures uses { Uses (S.state store.old) (S.state store.new) (full_fault_of result) 0
        (settle_most (S.state store.old) S.number parts.now) }
{
    match parts {
        [] => push_byte(line, b'\n'),
        [first, rest @ ..] => {
            append_string(alloc, store, *first, line)?;
            append_rest(alloc, store, rest, line)
        }
    }
}

// Adds a space and the string for each of the strings, and a line feed.
fn append_rest<S: Strings>(
    alloc: Global,
    store: &mut S,
    rest: &[S::Ref],
    line: &mut Vec<u8>,
) -> Result<(), StoreFault>
    requires { AllKnown (S.state store.old) S.number rest.now }
    ensures added { OnOk result
        (line.new.items ≡ line.old.items ++ line_rest (known_texts (S.state store.old) S.number rest.now)) }
    ensures settled { OnOk result (AllSettled (S.state store.new) S.number rest.now) }
    ensures kept { take (length line.old.items) line.new.items ≡ line.old.items }
    ensures uses { Uses (S.state store.old) (S.state store.new) (full_fault_of result) 0
        (settle_most (S.state store.old) S.number rest.now) }
{
    for s in rest {
        push_byte(line, b' ')?;
        append_string(alloc, store, *s, line)?;
    }
    push_byte(line, b'\n')
}

// Adds the UTF-8 of a string.
fn append_string<S: Strings>(
    alloc: Global,
    store: &mut S,
    s: S::Ref,
    line: &mut Vec<u8>,
) -> Result<(), StoreFault>
    requires { IsKnown (S.state store.old) (S.number s) }
    ensures added { OnOk result
        (line.new.items ≡ line.old.items ++ utf8 (text (S.state store.old) (S.number s))) }
    ensures settled { OnOk result (IsSettled (S.state store.new) (S.number s)) }
    ensures kept { take (length line.old.items) line.new.items ≡ line.old.items }
    ensures uses { Uses (S.state store.old) (S.state store.new) (full_fault_of result) 0
        (settle_words ((S.state store.old).settled (S.number s))
        (length (text (S.state store.old) (S.number s)))) }
{
    store.settle(s)?;
    Ok(append_settled(alloc, store, s, line)?)
}

// Adds the UTF-8 of a settled string, and has room for one more byte where its units are ASCII.
fn append_settled<S: Strings>(
    alloc: Global,
    store: &mut S,
    s: S::Ref,
    line: &mut Vec<u8>,
) -> Result<(), NoMemory>
    requires known { IsKnown (S.state store.old) (S.number s) }
    requires settled { IsSettled (S.state store.old) (S.number s) }
    ensures added { OnOk result
        (line.new.items ≡ line.old.items ++ utf8 (text (S.state store.old) (S.number s))) }
    ensures kept { take (length line.old.items) line.new.items ≡ line.old.items }
    ensures uses { Uses (S.state store.old) (S.state store.new) None 0 0 }
{
    let len = store.len(s);
    line.reserve(len as usize + 1)?;
    let ascii = push_ascii(store, s, len, line);
    if ascii == len {
        return Ok(());
    }
    append_behind(alloc, store, s, ascii, line)
}

// Units of a block.
const SIZE: u32 = 256;

// Adds the ASCII units in front of a settled string, a byte each, and answers how many they are.
#[tactic(auto, using(js_texts::proofs::Delimited::kept_trans))]
fn push_ascii<S: Strings>(store: &mut S, s: S::Ref, len: u32, line: &mut Vec<u8>) -> u32
    requires known { IsKnown (S.state store.old) (S.number s) }
    requires settled { IsSettled (S.state store.old) (S.number s) }
    requires len { len ≡ length (text (S.state store.old) (S.number s)) }
    requires room { vec_len line.old + len ≤ vec_capacity line.old }
    ensures bound { result ≤ len }
    ensures added { line.new.items ++ utf8 (drop result (text (S.state store.old) (S.number s)))
        ≡ line.old.items ++ utf8 (text (S.state store.old) (S.number s)) }
    ensures kept { take (length line.old.items) line.new.items ≡ line.old.items }
    ensures uses { Uses (S.state store.old) (S.state store.new) None 0 0 }
{
    let mut block = [0; 256];
    let mut done = 0;
    while done < len {
        let count = SIZE.min(len - done);
        let part = &mut block[..count as usize];
        store.read(s, done, part);
        let ascii = push_front(part, line);
        done += ascii;
        if ascii < count {
            return done;
        }
    }
    len
}

// Adds the ASCII units in front of a block, a byte each, and answers how many they are.
#[tactic(auto, using(js_units::proofs::Ascii::ascii_next))]
fn push_front(units: &[u16], line: &mut Vec<u8>) -> u32
    requires short { length units.now ≤ 256 }
    requires room { vec_len line.old + length units.now ≤ vec_capacity line.old }
    ensures bound { result ≤ length units.now }
    ensures ascii { All (λ u. u < 0x80) (take result units.now) }
    ensures added { line.new.items ≡ line.old.items ++ take result units.now }
    ensures kept { take (length line.old.items) line.new.items ≡ line.old.items }
    ensures room { vec_capacity line.new ≡ vec_capacity line.old }
    ensures len { vec_len line.new ≡ vec_len line.old + result }
{
    for i in 0..units.len() {
        if units[i] >= 0x80 {
            return i as u32;
        }
        line.push_reserved(units[i] as u8);
    }
    units.len() as u32
}

// Adds the UTF-8 of the units of a settled string from place `from` on.
fn append_behind<S: Strings>(
    alloc: Global,
    store: &mut S,
    s: S::Ref,
    from: u32,
    line: &mut Vec<u8>,
) -> Result<(), NoMemory>
    requires known { IsKnown (S.state store.old) (S.number s) }
    requires settled { IsSettled (S.state store.old) (S.number s) }
    requires within { from ≤ length (text (S.state store.old) (S.number s)) }
    ensures added { OnOk result
        (line.new.items ≡ line.old.items ++ utf8 (drop from (text (S.state store.old) (S.number s)))) }
    ensures unchanged { OnErr result (line.new.items ≡ line.old.items) }
    ensures uses { Uses (S.state store.old) (S.state store.new) None 0 0 }
{
    let units = copied(alloc, store, s)?;
    append_utf8(&units.as_slice()[from as usize..], line)
}

fn push_byte(line: &mut Vec<u8>, byte: u8) -> Result<(), StoreFault>
    ensures added { OnOk result (line.new.items ≡ line.old.items ++ byte ∷ []) }
    ensures kept { take (length line.old.items) line.new.items ≡ line.old.items }
    ensures fault { IfErr result (λ f. f ≡ StoreFault.Memory) }
{
    match line.push(byte) {
        Ok(()) => Ok(()),
        Err(_) => Err(StoreFault::Memory),
    }
}
