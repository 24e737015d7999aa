// What is shown of a play.
ghost use Rattle.std.specs.Prelude.{◌≡◌, ◌<◌, ◌++◌, length, codes, decimal, IfOk, OnOk};
ghost use Rattle.heap_core.specs.Events.{IsSoundCore};
ghost use Rattle.heap_schedule.specs.Shown.{found_line, found_lines, hex_digit, line_of_id, shown_lines, string_line, string_lines, unit_text, unit_texts};

use heap_core::CoreState;
use itoa::Buffer;
use js_units::NoMemory;
use std::alloc::Global;

fn add(out: &mut Vec<u8>, bytes: &[u8]) -> Result<(), NoMemory>
    ensures { OnOk result (out.new.items ≡ out.old.items ++ bytes.now) }
{
    out.extend_from_slice(bytes)?;
    Ok(())
}

fn add_number(out: &mut Vec<u8>, number: u64) -> Result<(), NoMemory>
    ensures { OnOk result (out.new.items ≡ out.old.items ++ decimal number) }
{
    let mut digits = Buffer::new();
    add(out, digits.format(number).as_bytes())
}

fn add_found(out: &mut Vec<u8>, line: u64, word: u64) -> Result<(), NoMemory>
    ensures { OnOk result (out.new.items ≡ out.old.items ++ found_line line word) }
{
    add_number(out, line)?;
    add(out, b" found ")?;
    add_number(out, word)?;
    add(out, b"\n")
}

// A line for each word; the first denotes line 2 of the schedule.
#[tactic(auto, using(crate::proofs::Written::found_more))]
fn add_found_lines(out: &mut Vec<u8>, found: &[u64]) -> Result<(), NoMemory>
    ensures { OnOk result (out.new.items ≡ out.old.items ++ found_lines found.now (length found.now)) }
{
    for k in 0..found.len() {
        add_found(out, k as u64 + 2, found[k])?;
    }
    Ok(())
}

fn hex_digit(n: u16) -> u8
    requires { n < 16 }
    ensures { result ≡ hex_digit n }
{
    if n < 10 {
        return 48 + n as u8;
    }
    87 + n as u8
}

fn add_unit(out: &mut Vec<u8>, unit: u16) -> Result<(), NoMemory>
    ensures { OnOk result (out.new.items ≡ out.old.items ++ unit_text unit) }
{
    let text = [
        b' ',
        hex_digit(unit / 4096),
        hex_digit(unit / 256 % 16),
        hex_digit(unit / 16 % 16),
        hex_digit(unit % 16),
    ];
    add(out, &text)
}

#[tactic(auto, using(crate::proofs::Written::units_more))]
fn add_units(out: &mut Vec<u8>, units: &[u16]) -> Result<(), NoMemory>
    ensures { OnOk result (out.new.items ≡ out.old.items ++ unit_texts units.now) }
{
    for unit in units {
        add_unit(out, *unit)?;
    }
    Ok(())
}

fn add_string(out: &mut Vec<u8>, id: u32, units: &[u16]) -> Result<(), NoMemory>
    ensures { OnOk result (out.new.items ≡ out.old.items ++ string_line id units.now) }
{
    add(out, b"id ")?;
    add_number(out, u64::from(id))?;
    add(out, b":")?;
    add_units(out, units)?;
    add(out, b"\n")
}

// The line of an id that is born.
fn add_id(alloc: Global, state: &CoreState, id: u32, out: &mut Vec<u8>) -> Result<(), NoMemory>
    requires sound { IsSoundCore state.now }
    requires within { id < state.now.size.ids }
    ensures { OnOk result (out.new.items ≡ out.old.items ++ line_of_id state.now id) }
{
    let form = state.words()[state.size().form_place(id)];
    if form == 0 {
        return Ok(());
    }
    let units = state.units_of(alloc, id)?;
    add_string(out, id, units.as_slice())
}

#[tactic(auto, using(crate::proofs::Written::strings_more))]
fn add_strings(alloc: Global, state: &CoreState, out: &mut Vec<u8>) -> Result<(), NoMemory>
    requires { IsSoundCore state.now }
    ensures { OnOk result (out.new.items ≡ out.old.items ++ string_lines state.now state.now.size.ids) }
{
    for id in 0..state.size().ids {
        add_id(alloc, state, id, out)?;
    }
    Ok(())
}

/// All that is shown of a play that found these words and led to this machine.
pub(crate) fn show(alloc: Global, state: &CoreState, found: &[u64]) -> Result<Vec<u8>, NoMemory>
    requires { IsSoundCore state.now }
    ensures { IfOk result (λ bytes. bytes.items ≡ shown_lines state.now found.now) }
{
    let mut out = Vec::new(alloc);
    add_found_lines(&mut out, found)?;
    add_strings(alloc, state, &mut out)?;
    Ok(out)
}
