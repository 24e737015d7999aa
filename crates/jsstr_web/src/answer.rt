// What a page gives and what it gets.
ghost use Rattle.std.specs.Prelude.{◌≡◌};
ghost use Rattle.jsstr_web.specs.Told.{fault_told, fault_status, kind_number, limit_for, size_given, plain, told};

use eval_values::Kind;
use heap_rule::HeapSize;
use js_eval::End;
use js_parse::ParseFault;
use js_store::{FullReport, Limit};

pub(crate) const TOO_LONG: u32 = 8;

pub(crate) const BAD_SIZE: u32 = 9;

pub(crate) const NO_MEMORY: u32 = 10;

/// How many ids, content words and slots the heap has, the limit of a string's length by 32 or else 64, and how
/// many of the script's statements are run at most.
#[repr(C)]
#[derive(Clone, Copy)]
pub struct WebOptions {
    pub ids: u32,
    pub words: u32,
    pub slots: u32,
    pub limit: u32,
    pub statements: u32,
}

/// A status, and what it comes with. After a run: 0 where the script is done, 1 where it threw an error of that
/// `kind`, 2 at what the profile leaves out, 3, 4 and 5 where ids, words and slots were full, with the report,
/// and 6 where memory ran out; `length` is how many bytes it printed, and `statements` how many statements
/// it has. Without a run: 7 where the text is no script, with the offset `at` and the length of the message,
/// 8 where it is too long, 9 where no heap has the sizes, and 10 where memory ran out.
#[repr(C)]
#[derive(Clone, Copy)]
pub struct WebEnd {
    pub status: u32,
    pub kind: u32,
    pub at: u32,
    pub want: u32,
    pub end: u32,
    pub statements: u64,
    pub length: u64,
}

pub(crate) fn size_of(options: &WebOptions) -> HeapSize
    ensures { result ≡ size_given options.now }
{
    HeapSize {
        ids: options.ids,
        words: options.words,
        slots: options.slots,
    }
}

pub(crate) fn limit_of(options: &WebOptions) -> Limit
    ensures { result ≡ limit_for options.now }
{
    if options.limit == 32 {
        Limit::Bits32
    } else {
        Limit::Bits64
    }
}

/// A status alone.
pub(crate) fn only(status: u32) -> WebEnd
    ensures { result ≡ plain status }
{
    WebEnd {
        status,
        kind: 0,
        at: 0,
        want: 0,
        end: 0,
        statements: 0,
        length: 0,
    }
}

fn number_of(kind: Kind) -> u32
    ensures { result ≡ kind_number kind }
{
    match kind {
        Kind::RangeError => 0,
        Kind::TypeError => 1,
        Kind::ReferenceError => 2,
        Kind::UriError => 3,
    }
}

/// How a run ended.
pub(crate) fn of_end(end: End, statements: u64, length: u64) -> WebEnd
    ensures { result ≡ told end statements length }
{
    let (status, kind, at, want, end) = match end {
        End::Done => (0, 0, 0, 0, 0),
        End::Threw(kind) => (1, number_of(kind), 0, 0, 0),
        End::Unsupported { at } => (2, 0, at, 0, 0),
        End::Full(FullReport::Ids { at, want, end }) => (3, 0, at, want, end),
        End::Full(FullReport::Words { at, want, end }) => (4, 0, at, want, end),
        End::Full(FullReport::Slots { slots }) => (5, 0, 0, 0, slots),
        End::Memory => (6, 0, 0, 0, 0),
    };
    WebEnd {
        status,
        kind,
        at,
        want,
        end,
        statements,
        length,
    }
}

fn status_of(fault: ParseFault) -> u32
    ensures { result ≡ fault_status fault }
{
    match fault {
        ParseFault::Memory => NO_MEMORY,
        _ => 7,
    }
}

/// Why a text is no script, or that memory ran out.
pub(crate) fn of_fault(fault: ParseFault) -> WebEnd
    ensures { result ≡ fault_told fault }
{
    WebEnd {
        status: status_of(fault),
        kind: 0,
        at: fault.offset(),
        want: 0,
        end: 0,
        statements: 0,
        length: fault.words().len() as u64,
    }
}
