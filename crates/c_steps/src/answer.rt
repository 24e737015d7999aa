// What a call answers.
ghost use Rattle.std.specs.Prelude.{◌≡◌, ◌≢◌};
ghost use Rattle.c_steps.specs.Batches.{batch_answer, no_batch};
ghost use Rattle.c_steps.specs.Reports as reports;
ghost use Rattle.c_steps.specs.Reports.{found_answer, join_answer, no_number, no_order, no_place, no_totals, no_truth, no_words, number_answer, order_number, place_answer, reserve_answer, table_answer, text_answer, words_answer};

use agent_keys::Batch;
use agent_makes::ReserveFault;
use agent_reads::Shown;
use heap_intern::TableFull;
use heap_text::{JoinFault, JsStr, TextFull};
use std::cmp::Ordering;

/// The call is done.
pub const DONE: u32 = 0;

/// Memory runs out.
pub const NO_MEMORY: u32 = 1;

/// A size, the number of agents or the limit is out of its range.
pub const BAD_SIZE: u32 = 2;

const NO_IDS: u32 = 3;

const NO_WORDS: u32 = 4;

const NO_SLOTS: u32 = 5;

pub(crate) const TOO_LONG: u32 = 6;

const NONE: u32 = 7;

/// The bytes are no UTF-8.
pub const NOT_UTF8: u32 = 8;

/// The condition of the call doesn't hold.
pub const BAD_ARGUMENT: u32 = 9;

/// A number that no string has: what is answered where there is none.
pub const NO_STRING: u32 = u32::MAX;

/// How many ids, content words and slots of the string table a heap has.
#[repr(C)]
#[derive(Clone, Copy)]
pub struct JsSize {
    pub ids: u32,
    pub words: u32,
    pub slots: u32,
}

/// How many ids and content words of a heap were used.
#[repr(C)]
#[derive(Clone, Copy)]
pub struct JsUse {
    pub ids: u32,
    pub words: u32,
}

/// A status, and at 0 the string, else `NO_STRING`. Where a counter was full, `at`, `want` and `end` are its report;
/// where two strings would be too long, `at` and `want` are their lengths; where bytes are no UTF-8,
/// `at` is how many of them are.
#[repr(C)]
#[derive(Clone, Copy)]
pub struct JsAnswer {
    pub status: u32,
    pub id: u32,
    pub at: u32,
    pub want: u32,
    pub end: u32,
}

/// A status, and how many lists were interned, with the report of the one behind them.
#[repr(C)]
#[derive(Clone, Copy)]
pub struct JsBatch {
    pub status: u32,
    pub done: u32,
    pub at: u32,
    pub want: u32,
    pub end: u32,
}

/// A status, and at 0 a number.
#[repr(C)]
#[derive(Clone, Copy)]
pub struct JsNumber {
    pub status: u32,
    pub value: u32,
}

/// A status, and at 0 the order of two strings: -1, 0 or 1.
#[repr(C)]
#[derive(Clone, Copy)]
pub struct JsOrder {
    pub status: u32,
    pub order: i32,
}

/// A status, and at 0 whether something holds.
#[repr(C)]
#[derive(Clone, Copy)]
pub struct JsTruth {
    pub status: u32,
    pub holds: bool,
}

/// A status, and at 0 how many ids and content words of a heap were used.
#[repr(C)]
#[derive(Clone, Copy)]
pub struct JsTotals {
    pub status: u32,
    pub ids: u32,
    pub words: u32,
}

/// A status, and at 0 the place; where there is none, `at` is 0.
#[repr(C)]
#[derive(Clone, Copy)]
pub struct JsPlace {
    pub status: u32,
    pub at: u32,
}

/// A status, and at 0 how the content words of a string show its units: unit i is `lane + i` lanes
/// behind the lowest lane of word number 0, a word has 4 lanes where it is wide and else 8, the string
/// has `len` units, and `count` words were written.
#[repr(C)]
#[derive(Clone, Copy)]
pub struct JsWords {
    pub status: u32,
    pub wide: bool,
    pub lane: u32,
    pub len: u32,
    pub count: u32,
}

fn done(s: JsStr) -> JsAnswer
    ensures { result ≡ reports.done s.id }
{
    JsAnswer {
        status: DONE,
        id: s.id,
        at: 0,
        want: 0,
        end: 0,
    }
}

// No string, and the status with its numbers.
pub(crate) fn refusal(status: u32, at: u32, want: u32, end: u32) -> JsAnswer
    ensures { result ≡ reports.refusal status at want end }
{
    JsAnswer {
        status,
        id: NO_STRING,
        at,
        want,
        end,
    }
}

fn report(full: TextFull) -> JsAnswer
    ensures { result ≡ reports.text_report full }
{
    match full {
        TextFull::Ids(full) => refusal(NO_IDS, full.at, full.want, full.end),
        TextFull::Words(full) => refusal(NO_WORDS, full.at, full.want, full.end),
    }
}

/// The string that was made or cut, or the full counter.
pub fn of_text(answer: Result<JsStr, TextFull>) -> JsAnswer
    ensures value { result ≡ text_answer answer }
    ensures told { result.status ≢ reports.BAD_ARGUMENT }
    ensures memory { result.status ≢ reports.NO_MEMORY }
    ensures whole { result.status ≡ reports.DONE → result ≡ reports.done result.id }
{
    match answer {
        Ok(s) => done(s),
        Err(full) => report(full),
    }
}

/// The string that two were joined to, or why they were not.
pub fn of_join(answer: Result<JsStr, JoinFault>) -> JsAnswer
    ensures value { result ≡ join_answer answer }
    ensures told { result.status ≢ reports.BAD_ARGUMENT }
{
    match answer {
        Ok(s) => done(s),
        Err(JoinFault::Full(full)) => report(full),
        Err(JoinFault::TooLong { left, right }) => refusal(TOO_LONG, left, right, 0),
    }
}

/// The interned string, or what was full.
pub fn of_table(answer: Result<u32, TableFull>) -> JsAnswer
    ensures value { result ≡ table_answer answer }
    ensures told { result.status ≢ reports.BAD_ARGUMENT }
{
    match answer {
        Ok(id) => done(JsStr { id }),
        Err(TableFull::Ids(full)) => refusal(NO_IDS, full.at, full.want, full.end),
        Err(TableFull::Words(full)) => refusal(NO_WORDS, full.at, full.want, full.end),
        Err(TableFull::Slots { slots }) => refusal(NO_SLOTS, 0, 0, slots),
    }
}

/// That what was to be claimed in advance was, or what ran out.
pub fn of_reserve(answer: Result<(), ReserveFault>) -> JsAnswer
    ensures value { result ≡ reserve_answer answer }
    ensures told { result.status ≢ reports.BAD_ARGUMENT }
{
    match answer {
        Ok(()) => refusal(DONE, 0, 0, 0),
        Err(ReserveFault::Memory) => no_memory(),
        Err(ReserveFault::Full(full)) => report(full),
    }
}

/// How many lists were interned, and the report of the one behind them.
pub fn of_batch(batch: Batch) -> JsBatch
    ensures value { result ≡ batch_answer batch.done batch.full }
    ensures told { result.status ≢ reports.BAD_ARGUMENT }
{
    match batch.full {
        Some(full) => {
            let report = of_table(Err(full));
            JsBatch {
                status: report.status,
                done: batch.done,
                at: report.at,
                want: report.want,
                end: report.end,
            }
        }
        None => JsBatch {
            status: DONE,
            done: batch.done,
            at: 0,
            want: 0,
            end: 0,
        },
    }
}

/// A refusal, with no list interned.
pub fn without_batch(status: u32) -> JsBatch
    ensures { result ≡ no_batch status }
{
    JsBatch {
        status,
        done: 0,
        at: 0,
        want: 0,
        end: 0,
    }
}

/// The interned string, or that there is none.
pub fn of_found(answer: Option<u32>) -> JsAnswer
    ensures value { result ≡ found_answer answer }
    ensures told { result.status ≢ reports.BAD_ARGUMENT }
{
    match answer {
        Some(id) => done(JsStr { id }),
        None => refusal(NONE, 0, 0, 0),
    }
}

/// That the condition of the call doesn't hold.
pub fn bad_argument() -> JsAnswer
    ensures { result ≡ reports.bad_argument }
{
    refusal(BAD_ARGUMENT, 0, 0, 0)
}

/// That memory runs out.
pub fn no_memory() -> JsAnswer
    ensures { result ≡ reports.no_memory }
{
    refusal(NO_MEMORY, 0, 0, 0)
}

/// The place, or that there is none.
pub fn of_place(answer: Option<u32>) -> JsPlace
    ensures value { result ≡ place_answer answer }
    ensures told { result.status ≢ reports.BAD_ARGUMENT }
    ensures words { result.status ≢ reports.NO_WORDS }
{
    match answer {
        Some(at) => JsPlace { status: DONE, at },
        None => without_place(NONE),
    }
}

/// A refusal, with no place.
pub fn without_place(status: u32) -> JsPlace
    ensures { result ≡ no_place status }
{
    JsPlace { status, at: 0 }
}

/// The number, or that there is none.
pub fn of_number(answer: Option<u32>) -> JsNumber
    ensures value { result ≡ number_answer answer }
    ensures told { result.status ≢ reports.BAD_ARGUMENT }
    ensures words { result.status ≢ reports.NO_WORDS }
{
    match answer {
        Some(value) => JsNumber {
            status: DONE,
            value,
        },
        None => without_number(NONE),
    }
}

/// A refusal, with no number.
pub fn without_number(status: u32) -> JsNumber
    ensures { result ≡ no_number status }
{
    JsNumber { status, value: 0 }
}

/// A refusal, with nothing that holds.
pub fn without_truth(status: u32) -> JsTruth
    ensures { result ≡ no_truth status }
{
    JsTruth {
        status,
        holds: false,
    }
}

/// A refusal, with no order.
pub fn without_order(status: u32) -> JsOrder
    ensures { result ≡ no_order status }
{
    JsOrder { status, order: 0 }
}

/// A refusal, with no counts.
pub fn without_totals(status: u32) -> JsTotals
    ensures { result ≡ no_totals status }
{
    JsTotals {
        status,
        ids: 0,
        words: 0,
    }
}

/// The order as C has it: -1, 0 or 1.
pub fn of_order(answer: Ordering) -> i32
    ensures { result ≡ order_number answer }
{
    match answer {
        Ordering::Less => -1,
        Ordering::Equal => 0,
        Ordering::Greater => 1,
    }
}

/// That the bytes stop to be UTF-8 at this place.
pub fn not_utf8(at: u32) -> JsAnswer
    ensures { result ≡ reports.not_utf8 at }
{
    refusal(NOT_UTF8, at, 0, 0)
}

/// What an answer says of the content words of a string.
pub fn of_words(shown: Shown) -> JsWords
    ensures { result ≡ words_answer shown }
{
    JsWords {
        status: DONE,
        wide: shown.wide,
        lane: shown.lane,
        len: shown.len,
        count: shown.count,
    }
}

/// A refusal, with nothing shown.
pub fn without_words(status: u32) -> JsWords
    ensures { result ≡ no_words status }
{
    JsWords {
        status,
        wide: false,
        lane: 0,
        len: 0,
        count: 0,
    }
}
