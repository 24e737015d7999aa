// The fields of a line: words and numbers with one space between them.
ghost use Rattle.std.specs.Prelude.{◌≡◌, ◌+◌, ◌<◌, ◌≤◌, bytes_eq, drop, length};
ghost use Rattle.std.specs.List.{prefix_len};
ghost use Rattle.heap_schedule.specs.Fields.{GivesAll, differs, field_of, line_fields, schedule_keyword, decimal_number, own_keyword, shared_keyword, slot_keyword};

use itoa::Buffer;
use std::alloc::Global;
use std::str;

/// The words of the form.
#[derive(Clone, Copy, Debug, PartialEq, Eq)]
pub enum Keyword {
    Heap,
    Split,
    Join,
    Counter,
    Claim,
    Store,
    Length,
    Birth,
    Form,
    Len,
    Word,
    Flatten,
    Thin,
    Slot,
    Take,
    Enter,
    Learn,
    Ids,
    Words,
}

/// A field of a line.
#[derive(Clone, Copy, Debug, PartialEq, Eq)]
pub enum Field {
    Keyword(Keyword),
    Number(u64),
}

/// Why a text is not read on.
#[derive(Clone, Copy, Debug, PartialEq, Eq)]
pub enum LineFault {
    /// It is not of the form.
    Refused,
    Memory,
}

fn is(bytes: &[u8], word: &str) -> bool
    ensures { result ≡ bytes_eq bytes.now word.now }
{
    bytes == word.as_bytes()
}

// The words of steps on agents and counters.
fn shared_keyword(bytes: &[u8]) -> Option<Keyword>
    ensures { result ≡ shared_keyword bytes.now }
{
    if is(bytes, "heap") {
        return Some(Keyword::Heap);
    }
    if is(bytes, "split") {
        return Some(Keyword::Split);
    }
    if is(bytes, "join") {
        return Some(Keyword::Join);
    }
    if is(bytes, "counter") {
        return Some(Keyword::Counter);
    }
    if is(bytes, "claim") {
        return Some(Keyword::Claim);
    }
    if is(bytes, "ids") {
        return Some(Keyword::Ids);
    }
    if is(bytes, "words") {
        return Some(Keyword::Words);
    }
    None
}

// The words of stores, of births and of loads.
fn own_keyword(bytes: &[u8]) -> Option<Keyword>
    ensures { result ≡ own_keyword bytes.now }
{
    if is(bytes, "store") {
        return Some(Keyword::Store);
    }
    if is(bytes, "length") {
        return Some(Keyword::Length);
    }
    if is(bytes, "birth") {
        return Some(Keyword::Birth);
    }
    if is(bytes, "form") {
        return Some(Keyword::Form);
    }
    if is(bytes, "len") {
        return Some(Keyword::Len);
    }
    if is(bytes, "word") {
        return Some(Keyword::Word);
    }
    None
}

// The words of steps on headers and slots.
fn slot_keyword(bytes: &[u8]) -> Option<Keyword>
    ensures { result ≡ slot_keyword bytes.now }
{
    if is(bytes, "flatten") {
        return Some(Keyword::Flatten);
    }
    if is(bytes, "thin") {
        return Some(Keyword::Thin);
    }
    if is(bytes, "slot") {
        return Some(Keyword::Slot);
    }
    if is(bytes, "take") {
        return Some(Keyword::Take);
    }
    if is(bytes, "enter") {
        return Some(Keyword::Enter);
    }
    if is(bytes, "learn") {
        return Some(Keyword::Learn);
    }
    None
}

fn keyword_of(bytes: &[u8]) -> Option<Keyword>
    ensures { result ≡ schedule_keyword bytes.now }
{
    if let Some(word) = shared_keyword(bytes) {
        return Some(word);
    }
    if let Some(word) = own_keyword(bytes) {
        return Some(word);
    }
    slot_keyword(bytes)
}

// The number whose decimal digits this is.
fn number_of(bytes: &[u8]) -> Option<u64>
    ensures { result ≡ decimal_number bytes.now }
{
    let text = match str::from_utf8(bytes) {
        Ok(text) => text,
        Err(_) => return None,
    };
    let number = match text.parse::<u64>() {
        Ok(number) => number,
        Err(_) => return None,
    };
    let mut digits = Buffer::new();
    if digits.format(number) == text {
        return Some(number);
    }
    None
}

fn field_of(bytes: &[u8]) -> Option<Field>
    ensures { result ≡ field_of bytes.now }
{
    if let Some(word) = keyword_of(bytes) {
        return Some(Field::Keyword(word));
    }
    match number_of(bytes) {
        Some(number) => Some(Field::Number(number)),
        None => None,
    }
}

/// How many bytes precede the first separator.
pub(crate) fn piece_len(bytes: &[u8], separator: u8) -> usize
    ensures value { result ≡ prefix_len (differs separator) bytes.now }
    ensures within { result ≤ length bytes.now }
{
    for (i, byte) in bytes.iter().enumerate() {
        if *byte == separator {
            return i;
        }
    }
    bytes.len()
}

/// What follows a separator.
pub(crate) fn behind(bytes: &[u8], at: usize) -> &[u8]
    requires { at < length bytes.now }
    ensures rest { result.now ≡ drop (at + 1) bytes.now }
    ensures shorter { length result.now < length bytes.now }
{
    &bytes[at + 1..]
}

/// The fields of a line.
pub(crate) fn fields(alloc: Global, line: &[u8]) -> Result<Vec<Field>, LineFault>
    ensures { GivesAll result (line_fields line.now) }
{
    let mut fields = Vec::new(alloc);
    let mut rest = line;
    'fields: loop {
        let end = piece_len(rest, b' ');
        match field_of(&rest[..end]) {
            Some(field) => {
                if fields.push(field).is_err() {
                    return Err(LineFault::Memory);
                }
            }
            None => return Err(LineFault::Refused),
        }
        if end == rest.len() {
            return Ok(fields);
        }
        rest = behind(rest, end);
    }
}
