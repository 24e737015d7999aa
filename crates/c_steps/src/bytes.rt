// What a call answers that writes a string as bytes.
ghost use Rattle.std.specs.Prelude.{◌≡◌, ◌≢◌, ◌≤◌};
ghost use Rattle.c_steps.specs.Bytes as specs;
ghost use Rattle.c_steps.specs.Reports as reports;

use crate::answer::DONE;
use agent_reads::{Unpaired, WriteFault};

const NO_ROOM: u32 = 10;

const UNMAPPED: u32 = 11;

/// A status, and at 0 how many bytes were written. Where there was no room for them, `size` is how many
/// they are; where a unit has no bytes, `at` is its place.
#[repr(C)]
#[derive(Clone, Copy)]
pub struct JsBytes {
    pub status: u32,
    pub at: u32,
    pub size: u32,
}

/// How many bytes were written, how many are needed, or the place of the unit that has none.
pub fn of_bytes(answer: Result<u32, WriteFault>) -> JsBytes
    ensures value { result ≡ specs.bytes_answer answer }
    ensures told { result.status ≢ reports.BAD_ARGUMENT }
    ensures words { result.status ≢ reports.NO_WORDS }
{
    let (status, at, size) = match answer {
        Ok(size) => (DONE, 0, size),
        Err(WriteFault::NoRoom { size }) => (NO_ROOM, 0, size),
        Err(WriteFault::Unmapped { at }) => (UNMAPPED, at, 0),
    };
    JsBytes { status, at, size }
}

/// A refusal by its status alone.
pub fn without_bytes(status: u32) -> JsBytes
    ensures { result ≡ specs.no_bytes status }
{
    JsBytes {
        status,
        at: 0,
        size: 0,
    }
}

/// What becomes of an unpaired surrogate, by its number in C.
pub fn unpaired_by(number: u32) -> Unpaired
    requires { number ≤ 2 }
    ensures { result ≡ specs.unpaired_by number }
{
    match number {
        0 => Unpaired::Replace,
        1 => Unpaired::Refuse,
        _ => Unpaired::Keep,
    }
}
