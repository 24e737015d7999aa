// The lines of a schedule, each with its fields.
ghost use Rattle.std.specs.Prelude.{◌≡◌, true, IfOk};
ghost use Rattle.heap_schedule.specs.Fields.{GivesReading};
ghost use Rattle.heap_schedule.specs.Lines.{GivesLine, GivesNames, counter_in, form_in, is_enter, is_heap, is_learn, is_small, line_by, line_of, making_of, field_names, field_number, field_place, birth_line_of, claim_line_of, counter_line_of, flatten_line_of, form_line_of, join_line_of, len_line_of, length_line_of, slot_line_of, split_line_of, store_line_of, take_line_of, thin_line_of, word_line_of};

use crate::field::{Field, Keyword, LineFault};
use heap_core::{Counter, Event, HeapSize};
use js_header::{Form, decode};
use std::alloc::Global;

// The most that the three sizes of a heap may be together.
const SIZE_MAX: u32 = 16_384;

/// A line behind the first.
#[derive(Drop)]
pub enum Line {
    Event(Event),
    /// A load of a slot, whose entry is what the view knows of the string that it saw there.
    Enter {
        view: u32,
        slot: u32,
        learn: Vec<u32>,
    },
}

fn number_in(field: Field) -> Result<u64, LineFault>
    ensures { GivesReading (λ n. n) result (field_number field) }
{
    match field {
        Field::Number(number) => Ok(number),
        Field::Keyword(_) => Err(LineFault::Refused),
    }
}

// The number of a view, an id, a content word or a slot, or a count of such. All of these are below
// 2^32 - 1, so a greater number is as little of use as that one.
fn place_in(field: Field) -> Result<u32, LineFault>
    ensures { GivesReading (λ n. n) result (field_place field) }
{
    match field {
        Field::Number(number) => {
            if number < 4_294_967_295 {
                return Ok(number as u32);
            }
            Ok(4_294_967_295)
        }
        Field::Keyword(_) => Err(LineFault::Refused),
    }
}

fn counter_in(field: Field) -> Result<Counter, LineFault>
    ensures { GivesReading (λ k. k) result (counter_in field) }
{
    match field {
        Field::Keyword(word) => match word {
            Keyword::Ids => Ok(Counter::Ids),
            Keyword::Words => Ok(Counter::Words),
            _ => Err(LineFault::Refused),
        },
        Field::Number(_) => Err(LineFault::Refused),
    }
}

fn form_in(field: Field) -> Result<Form, LineFault>
    ensures { GivesReading (λ f. f) result (form_in field) }
{
    match field {
        Field::Number(number) => match decode(number) {
            Some(form) => Ok(form),
            None => Err(LineFault::Refused),
        },
        Field::Keyword(_) => Err(LineFault::Refused),
    }
}

fn is_learn(field: Field) -> bool
    ensures { result ≡ is_learn field }
{
    match field {
        Field::Keyword(word) => matches!(word, Keyword::Learn),
        Field::Number(_) => false,
    }
}

// The ids that are learned, each behind a word `learn`.
fn names_in(alloc: Global, fields: &[Field]) -> Result<Vec<u32>, LineFault>
    ensures { GivesNames result (field_names fields.now) }
{
    let mut names = Vec::new(alloc);
    let mut rest = fields;
    'names: while !rest.is_empty() {
        if rest.len() < 2 {
            return Err(LineFault::Refused);
        }
        if !is_learn(rest[0]) {
            return Err(LineFault::Refused);
        }
        let name = place_in(rest[1])?;
        if names.push(name).is_err() {
            return Err(LineFault::Memory);
        }
        rest = &rest[2..];
    }
    Ok(names)
}

fn split_line(fields: &[Field]) -> Result<Line, LineFault>
    ensures { GivesLine result (split_line_of fields.now) }
{
    if fields.len() != 3 {
        return Err(LineFault::Refused);
    }
    let view = place_in(fields[1])?;
    let give = place_in(fields[2])?;
    Ok(Line::Event(Event::Split { view, give }))
}

fn join_line(fields: &[Field]) -> Result<Line, LineFault>
    ensures { GivesLine result (join_line_of fields.now) }
{
    if fields.len() != 3 {
        return Err(LineFault::Refused);
    }
    let view = place_in(fields[1])?;
    let other = place_in(fields[2])?;
    Ok(Line::Event(Event::Join { view, other }))
}

fn counter_line(fields: &[Field]) -> Result<Line, LineFault>
    ensures { GivesLine result (counter_line_of fields.now) }
{
    if fields.len() != 3 {
        return Err(LineFault::Refused);
    }
    let view = place_in(fields[1])?;
    let counter = counter_in(fields[2])?;
    Ok(Line::Event(Event::LoadCounter { view, counter }))
}

fn claim_line(fields: &[Field]) -> Result<Line, LineFault>
    ensures { GivesLine result (claim_line_of fields.now) }
{
    if fields.len() != 5 {
        return Err(LineFault::Refused);
    }
    let view = place_in(fields[1])?;
    let counter = counter_in(fields[2])?;
    let at = place_in(fields[3])?;
    let want = place_in(fields[4])?;
    Ok(Line::Event(Event::Claim {
        view,
        counter,
        at,
        want,
    }))
}

fn store_line(fields: &[Field]) -> Result<Line, LineFault>
    ensures { GivesLine result (store_line_of fields.now) }
{
    if fields.len() != 4 {
        return Err(LineFault::Refused);
    }
    let view = place_in(fields[1])?;
    let at = place_in(fields[2])?;
    let word = number_in(fields[3])?;
    Ok(Line::Event(Event::StoreWord { view, at, word }))
}

fn length_line(fields: &[Field]) -> Result<Line, LineFault>
    ensures { GivesLine result (length_line_of fields.now) }
{
    if fields.len() != 4 {
        return Err(LineFault::Refused);
    }
    let view = place_in(fields[1])?;
    let id = place_in(fields[2])?;
    let length = place_in(fields[3])?;
    Ok(Line::Event(Event::StoreLength { view, id, length }))
}

fn birth_line(fields: &[Field]) -> Result<Line, LineFault>
    ensures { GivesLine result (birth_line_of fields.now) }
{
    if fields.len() != 4 {
        return Err(LineFault::Refused);
    }
    let view = place_in(fields[1])?;
    let id = place_in(fields[2])?;
    let form = form_in(fields[3])?;
    Ok(Line::Event(Event::Birth { view, id, form }))
}

fn form_line(alloc: Global, fields: &[Field]) -> Result<Line, LineFault>
    ensures { GivesLine result (form_line_of fields.now) }
{
    if fields.len() < 3 {
        return Err(LineFault::Refused);
    }
    let view = place_in(fields[1])?;
    let id = place_in(fields[2])?;
    let learn = names_in(alloc, &fields[3..])?;
    Ok(Line::Event(Event::LoadHeader {
        view,
        id,
        length: false,
        learn,
    }))
}

fn len_line(alloc: Global, fields: &[Field]) -> Result<Line, LineFault>
    ensures { GivesLine result (len_line_of fields.now) }
{
    if fields.len() < 3 {
        return Err(LineFault::Refused);
    }
    let view = place_in(fields[1])?;
    let id = place_in(fields[2])?;
    let learn = names_in(alloc, &fields[3..])?;
    Ok(Line::Event(Event::LoadHeader {
        view,
        id,
        length: true,
        learn,
    }))
}

fn word_line(alloc: Global, fields: &[Field]) -> Result<Line, LineFault>
    ensures { GivesLine result (word_line_of fields.now) }
{
    if fields.len() < 3 {
        return Err(LineFault::Refused);
    }
    let view = place_in(fields[1])?;
    let at = place_in(fields[2])?;
    let learn = names_in(alloc, &fields[3..])?;
    Ok(Line::Event(Event::LoadWord { view, at, learn }))
}

fn flatten_line(alloc: Global, fields: &[Field]) -> Result<Line, LineFault>
    ensures { GivesLine result (flatten_line_of fields.now) }
{
    if fields.len() < 5 {
        return Err(LineFault::Refused);
    }
    let view = place_in(fields[1])?;
    let id = place_in(fields[2])?;
    let old = form_in(fields[3])?;
    let new = form_in(fields[4])?;
    let learn = names_in(alloc, &fields[5..])?;
    Ok(Line::Event(Event::Flatten {
        view,
        id,
        old,
        new,
        learn,
    }))
}

fn thin_line(alloc: Global, fields: &[Field]) -> Result<Line, LineFault>
    ensures { GivesLine result (thin_line_of fields.now) }
{
    if fields.len() < 5 {
        return Err(LineFault::Refused);
    }
    let view = place_in(fields[1])?;
    let id = place_in(fields[2])?;
    let old = form_in(fields[3])?;
    let target = place_in(fields[4])?;
    let learn = names_in(alloc, &fields[5..])?;
    Ok(Line::Event(Event::Thin {
        view,
        id,
        old,
        target,
        learn,
    }))
}

fn take_line(alloc: Global, fields: &[Field]) -> Result<Line, LineFault>
    ensures { GivesLine result (take_line_of fields.now) }
{
    if fields.len() < 4 {
        return Err(LineFault::Refused);
    }
    let view = place_in(fields[1])?;
    let slot = place_in(fields[2])?;
    let id = place_in(fields[3])?;
    let learn = names_in(alloc, &fields[4..])?;
    Ok(Line::Event(Event::TakeSlot {
        view,
        slot,
        id,
        learn,
    }))
}

fn is_enter(fields: &[Field]) -> bool
    ensures { result ≡ is_enter fields.now }
{
    if fields.len() < 4 {
        return false;
    }
    match fields[3] {
        Field::Keyword(word) => matches!(word, Keyword::Enter),
        Field::Number(_) => false,
    }
}

fn slot_line(alloc: Global, fields: &[Field]) -> Result<Line, LineFault>
    ensures { GivesLine result (slot_line_of fields.now) }
{
    if fields.len() < 3 {
        return Err(LineFault::Refused);
    }
    let view = place_in(fields[1])?;
    let slot = place_in(fields[2])?;
    if is_enter(fields) {
        let learn = names_in(alloc, &fields[4..])?;
        return Ok(Line::Enter { view, slot, learn });
    }
    let learn = names_in(alloc, &fields[3..])?;
    Ok(Line::Event(Event::LoadSlot {
        view,
        slot,
        entry: None,
        learn,
    }))
}

// The line that begins with this word.
fn line_by(alloc: Global, word: Keyword, fields: &[Field]) -> Result<Line, LineFault>
    ensures { GivesLine result (line_by word fields.now) }
{
    match word {
        Keyword::Split => split_line(fields),
        Keyword::Join => join_line(fields),
        Keyword::Counter => counter_line(fields),
        Keyword::Claim => claim_line(fields),
        Keyword::Store => store_line(fields),
        Keyword::Length => length_line(fields),
        Keyword::Birth => birth_line(fields),
        Keyword::Form => form_line(alloc, fields),
        Keyword::Len => len_line(alloc, fields),
        Keyword::Word => word_line(alloc, fields),
        Keyword::Flatten => flatten_line(alloc, fields),
        Keyword::Thin => thin_line(alloc, fields),
        Keyword::Slot => slot_line(alloc, fields),
        Keyword::Take => take_line(alloc, fields),
        Keyword::Heap | Keyword::Enter | Keyword::Learn | Keyword::Ids | Keyword::Words => {
            Err(LineFault::Refused)
        }
    }
}

/// The line of these fields.
pub(crate) fn line_of(alloc: Global, fields: &[Field]) -> Result<Line, LineFault>
    ensures { GivesLine result (line_of fields.now) }
{
    if fields.is_empty() {
        return Err(LineFault::Refused);
    }
    match fields[0] {
        Field::Keyword(word) => line_by(alloc, word, fields),
        Field::Number(_) => Err(LineFault::Refused),
    }
}

/// The sizes and the number of agents of a heap.
#[derive(Clone, Copy, Debug, PartialEq, Eq)]
pub struct Making {
    pub size: HeapSize,
    pub agents: u32,
}

fn is_small(making: &Making) -> bool
    ensures { result ≡ is_small making.now }
{
    if !making.size.is_lawful() {
        return false;
    }
    if making.size.ids + making.size.words + making.size.slots > SIZE_MAX {
        return false;
    }
    1 <= making.agents && making.agents <= 64
}

fn is_heap(field: Field) -> bool
    ensures { result ≡ is_heap field }
{
    match field {
        Field::Keyword(word) => matches!(word, Keyword::Heap),
        Field::Number(_) => false,
    }
}

/// The first line, of these fields.
pub(crate) fn making_of(fields: &[Field]) -> Result<Making, LineFault>
    ensures read { GivesReading (λ m. m) result (making_of fields.now) }
    ensures small { IfOk result (λ m. is_small m ≡ true) }
{
    if fields.len() != 5 {
        return Err(LineFault::Refused);
    }
    if !is_heap(fields[0]) {
        return Err(LineFault::Refused);
    }
    let ids = place_in(fields[1])?;
    let words = place_in(fields[2])?;
    let slots = place_in(fields[3])?;
    let agents = place_in(fields[4])?;
    let making = Making {
        size: HeapSize { ids, words, slots },
        agents,
    };
    if !is_small(&making) {
        return Err(LineFault::Refused);
    }
    Ok(making)
}
