// What is added to a text.
ghost use Rattle.std.specs.Prelude.{◌≡◌, [], ℕ, List, ◌≤◌, length, Ok};
ghost use Rattle.std.specs.Str.{chars};
ghost use Rattle.heap_rule.specs.Layout.{MAX};
ghost use Rattle.js_number.specs.Arith.{text_of};
ghost use Rattle.js_number.specs.declared.Num.TheVariants.{Int};
ghost use Rattle.heap_build.specs.Built.{AddsUnits, AddsSpelled, room_in, units_so_far};
ghost use Rattle.heap_bytes.specs.Points.{IsMeasured};
ghost use Rattle.heap_build.specs.Spells.{spells};
ghost use Rattle.heap_build.specs.Room.{HasRoom};
ghost use Rattle.heap_build.specs.Spelled.{SpellsUtf8, SpellsWtf8};
ghost use Rattle.heap_bytes.specs.Points.{utf16};

use crate::builder::Builder;
use crate::decoding::{fill_latin1, fill_points};
use crate::faults::{BuildFault, DecodeFault};
use heap_bytes::{Encoding, measure};
use heap_rule::MAX;
use itoa::Buffer;
use std::alloc::Global;

// More bytes than these spell more units than a string may have.
const MOST_BYTES: usize = 3 * MAX as usize;

impl Builder {
    /// The empty text. It allocates nothing.
    pub fn new(alloc: Global) -> Builder
        ensures empty { units_so_far result ≡ [] }
        ensures nothing { room_in result ≡ 0 }
    {
        Builder {
            units: Vec::new(alloc),
        }
    }

    /// The units so far.
    pub fn as_slice(&self) -> &[u16]
        ensures units { result.now ≡ units_so_far self.now }
        ensures short { length result.now ≤ MAX }
    {
        self.units.as_slice()
    }

    /// Empties the text, and keeps its memory for the next one.
    pub fn clear(&mut self)
        ensures empty { units_so_far self.new ≡ [] }
        ensures room { room_in self.new ≡ room_in self.old }
    {
        self.units.clear();
    }

    // Sees to it that there is room for so many units more.
    pub(crate) fn make_room(&mut self, count: usize) -> Result<(), BuildFault>
        ensures units { units_so_far self.new ≡ units_so_far self.old }
        ensures room { room_in self.old ≤ room_in self.new }
        ensures answer { HasRoom self.old self.new count result }
    {
        if count > MAX as usize - self.units.len() {
            return Err(BuildFault::TooLong);
        }
        match self.units.reserve(count) {
            Ok(()) => Ok(()),
            Err(_) => Err(BuildFault::NoMemory),
        }
    }

    /// Adds units, all or none.
    pub fn push_units(&mut self, units: &[u16]) -> Result<(), BuildFault>
        ensures added { AddsUnits self.old self.new units.now result }
        ensures room { room_in self.old ≤ room_in self.new }
    {
        if units.len() > MAX as usize - self.units.len() {
            return Err(BuildFault::TooLong);
        }
        match self.units.extend_from_slice(units) {
            Ok(()) => Ok(()),
            Err(_) => Err(BuildFault::NoMemory),
        }
    }

    /// Adds a unit for each byte, all or none, as Latin-1 has it.
    pub fn push_latin1(&mut self, bytes: &[u8]) -> Result<(), BuildFault>
        ensures added { AddsUnits self.old self.new bytes.now result }
        ensures room { room_in self.old ≤ room_in self.new }
    {
        match self.make_room(bytes.len()) {
            Ok(()) => {
                fill_latin1(&mut self.units, bytes);
                Ok(())
            }
            Err(fault) => Err(fault),
        }
    }

    /// Adds the decimal digits of a number, with a sign where it is negative (ECMA-262, "Number::toString", of whole
    /// numbers below 2^53).
    pub fn push_number(&mut self, number: i64) -> Result<(), BuildFault>
        ensures added { AddsUnits self.old self.new (text_of (Int number)) result }
        ensures room { room_in self.old ≤ room_in self.new }
    {
        let mut buffer = Buffer::new();
        self.push_latin1(buffer.format(number).as_bytes())
    }

    /// Adds the units that bytes of UTF-8 spell.
    pub fn push_utf8(&mut self, bytes: &[u8]) -> Result<(), DecodeFault>
        ensures added { AddsSpelled SpellsUtf8 self.old self.new bytes.now result }
        ensures room { room_in self.old ≤ room_in self.new }
    {
        self.push_spelled(Encoding::Utf8, bytes)
    }

    /// Adds the units that bytes of WTF-8 spell, unpaired surrogates among them; they spell no others.
    pub fn push_wtf8(&mut self, bytes: &[u8]) -> Result<(), DecodeFault>
        ensures added { AddsSpelled SpellsWtf8 self.old self.new bytes.now result }
        ensures room { room_in self.old ≤ room_in self.new }
        ensures one { (us vs : List ℕ) → SpellsWtf8 bytes.now us → SpellsWtf8 bytes.now vs → us ≡ vs }
    {
        self.push_spelled(Encoding::Wtf8, bytes)
    }

    // Adds the units that bytes spell.
    fn push_spelled(&mut self, encoding: Encoding, bytes: &[u8]) -> Result<(), DecodeFault>
        ensures added { AddsSpelled (spells encoding) self.old self.new bytes.now result }
        ensures room { room_in self.old ≤ room_in self.new }
    {
        if bytes.len() > MOST_BYTES {
            return Err(DecodeFault::NotAdded(BuildFault::TooLong));
        }
        match measure(encoding, bytes) {
            Ok(count) => match self.push_measured(encoding, bytes, count) {
                Ok(()) => Ok(()),
                Err(fault) => Err(DecodeFault::NotAdded(fault)),
            },
            Err(at) => Err(DecodeFault::Malformed { at: at as u32 }),
        }
    }

    // Adds the units that bytes spell, which are so many.
    fn push_measured(
        &mut self,
        encoding: Encoding,
        bytes: &[u8],
        count: usize,
    ) -> Result<(), BuildFault>
        requires { IsMeasured encoding bytes.now (Ok count) }
        ensures added { AddsUnits self.old self.new (utf16 (chars bytes.now)) result }
        ensures room { room_in self.old ≤ room_in self.new }
    {
        match self.make_room(count) {
            Ok(()) => {
                fill_points(&mut self.units, bytes);
                Ok(())
            }
            Err(fault) => Err(fault),
        }
    }
}
