// The text of a schedule.
ghost use Rattle.std.specs.Prelude.{◌≡◌, true, IfOk};
ghost use Rattle.heap_schedule.specs.Fields.{GivesReading, fields_between};
ghost use Rattle.heap_schedule.specs.Lines.{GivesLine, is_small};
ghost use Rattle.heap_schedule.specs.Text.{GivesLines, GivesSchedule, lines_from, making_in, schedule_of, turn_in};

use crate::field::{LineFault, behind, fields, piece_len};
use crate::line::{Line, Making, line_of, making_of};
use crate::schedule::Schedule;
use std::alloc::Global;

/// Why a text gives no schedule.
#[derive(Clone, Copy, Debug, PartialEq, Eq)]
pub enum TextStop {
    /// The first line that is not of the form, counted from 1.
    Refused(usize),
    Memory,
}

fn read_line(alloc: Global, line: &[u8]) -> Result<Line, LineFault>
    ensures { GivesLine result (turn_in line.now) }
{
    let fields = fields(alloc, line)?;
    line_of(alloc, &fields)
}

fn read_making(alloc: Global, line: &[u8]) -> Result<Making, LineFault>
    ensures read { GivesReading (λ m. m) result (making_in line.now) }
    ensures small { IfOk result (λ m. is_small m ≡ true) }
{
    let fields = fields(alloc, line)?;
    making_of(&fields)
}

// The lines behind the first.
fn read_lines(alloc: Global, text: &[u8]) -> Result<Vec<Line>, TextStop>
    ensures { GivesLines result (lines_from 2 (fields_between 10 text.now)) }
{
    let mut lines = Vec::new(alloc);
    let mut rest = text;
    'lines: while !rest.is_empty() {
        let end = piece_len(rest, b'\n');
        if end == rest.len() {
            return Err(TextStop::Refused(lines.len() + 2));
        }
        match read_line(alloc, &rest[..end]) {
            Ok(line) => {
                if lines.push(line).is_err() {
                    return Err(TextStop::Memory);
                }
            }
            Err(stop) => match stop {
                LineFault::Refused => return Err(TextStop::Refused(lines.len() + 2)),
                LineFault::Memory => return Err(TextStop::Memory),
            },
        }
        rest = behind(rest, end);
    }
    Ok(lines)
}

/// Reads the text of a schedule. A refusal names the first line that is not of the form.
pub fn read_schedule(alloc: Global, text: &[u8]) -> Result<Schedule, TextStop>
    ensures { GivesSchedule result (schedule_of text.now) }
{
    let end = piece_len(text, b'\n');
    if end == text.len() {
        return Err(TextStop::Refused(1));
    }
    match read_making(alloc, &text[..end]) {
        Ok(making) => match read_lines(alloc, behind(text, end)) {
            Ok(lines) => Ok(Schedule { making, lines }),
            Err(stop) => Err(stop),
        },
        Err(stop) => match stop {
            LineFault::Refused => Err(TextStop::Refused(1)),
            LineFault::Memory => Err(TextStop::Memory),
        },
    }
}
