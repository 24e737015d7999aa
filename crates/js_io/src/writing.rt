// Lines in pieces, and what is reported where nothing was run.
ghost use Rattle.std.specs.Prelude.{◌≡◌, ◌++◌, codes, decimal};
ghost use Rattle.js_io.specs.SinkState.{SinkState, WritesAll};
ghost use Rattle.js_io.specs.Report.{IsEnd, Refusal, sinks};

use crate::{Failed, Sink, write_all};
use itoa::Buffer;

/// Writes both pieces, or stops at the first write that fails, with a prefix of them received.
pub fn write_both<O: Sink>(sink: &mut O, first: &[u8], second: &[u8]) -> Result<(), Failed>
    ensures { WritesAll result (O.state sink.old) (O.state sink.new) (first.now ++ second.now) }
{
    match write_all(sink, first) {
        Ok(()) => write_all(sink, second),
        Err(Failed) => Err(Failed),
    }
}

/// Writes a number in decimal, and what follows it.
pub fn write_number<O: Sink>(sink: &mut O, number: usize, behind: &[u8]) -> Result<(), Failed>
    ensures { WritesAll result (O.state sink.old) (O.state sink.new) (decimal number ++ behind.now) }
{
    let mut digits = Buffer::new();
    write_both(sink, digits.format(number).as_bytes(), behind)
}

/// Reports why nothing was run, whatever the other sink received, and gives the status. A fault of
/// `err` changes no status.
#[tactic(auto, using(crate::proofs::Told::told))]
pub fn tell_refusal<E: Sink>(err: &mut E, line: &[u8], status: u8) -> u8
    ensures { (out : SinkState) → IsEnd (Refusal status line.now) result
        (sinks out (E.state err.old)) (sinks out (E.state err.new)) }
{
    let _ = write_all(err, line);
    status
}

/// Reports that a file can't be read, as [`tell_refusal`] does.
pub fn tell_unread<E: Sink>(err: &mut E, name: &str) -> u8
    ensures { (out : SinkState) → IsEnd (Refusal 3 (name.now ++ codes ": cannot be read\n")) result
        (sinks out (E.state err.old)) (sinks out (E.state err.new)) }
{
    let _ = write_both(err, name.as_bytes(), b": cannot be read\n");
    3
}

/// Reports that a file is larger than [`crate::FILE_MAX`] bytes, as [`tell_refusal`] does.
pub fn tell_large<E: Sink>(err: &mut E, name: &str) -> u8
    ensures { (out : SinkState) → IsEnd (Refusal 3 (name.now ++ codes ": larger than 1048576 bytes\n")) result
        (sinks out (E.state err.old)) (sinks out (E.state err.new)) }
{
    let _ = write_both(err, name.as_bytes(), b": larger than 1048576 bytes\n");
    3
}
