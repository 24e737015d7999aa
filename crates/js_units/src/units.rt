// The growing list of code units.
ghost use Rattle.std.specs.Prelude.{◌≡◌, [], ◌∷◌, ◌++◌, OnOk, OnErr};
ghost use Rattle.js_units.specs.Text.{utf16_of};

use std::alloc::{AllocError, AllocFailed, Global};
use std::marker::Model;

/// Out of memory: a growth was refused.
#[derive(Clone, Copy, Debug, PartialEq, Eq)]
pub struct NoMemory;

impl From<AllocError> for NoMemory {
    fn from(_e: AllocError) -> NoMemory {
        NoMemory
    }
}

impl<T: Drop> From<AllocFailed<T>> for NoMemory {
    fn from(_e: AllocFailed<T>) -> NoMemory {
        NoMemory
    }
}

/// A list of UTF-16 code units, a value of the String type (ECMA-262, "The String Type").
/// Contracts see it as the list of its units. Any units may be in it, unpaired surrogates
/// among them.
#[derive(Debug, Drop)]
pub struct Units {
    items: Vec<u16>,
}

impl Model for Units {
    ghost use Rattle.std.specs.Prelude.{List, ℕ};

    ghost Value = { List ℕ };

    ghost view = { λ u. u.items.items };
}

impl Units {
    /// The empty list. It allocates nothing.
    pub fn new(alloc: Global) -> Units
        ensures { result ≡ [] }
    {
        Units {
            items: Vec::new(alloc),
        }
    }

    /// Adds a unit at the end.
    pub fn push(&mut self, unit: u16) -> Result<(), NoMemory>
        ensures added { OnOk result (self.new ≡ self.old ++ unit ∷ []) }
        ensures unchanged { OnErr result (self.new ≡ self.old) }
    {
        self.items.push(unit)?;
        Ok(())
    }

    /// Adds the one or two units of a character (ECMA-262, "UTF16EncodeCodePoint").
    pub fn push_code_point(&mut self, c: char) -> Result<(), NoMemory>
        ensures added { OnOk result (self.new ≡ self.old ++ utf16_of c) }
        ensures unchanged { OnErr result (self.new ≡ self.old) }
    {
        if let Ok(unit) = u16::try_from(c as u32) {
            return self.push(unit);
        }
        let mut room = [0; 2];
        let units = c.encode_utf16(&mut room);
        self.items.extend_from_slice(units)?;
        Ok(())
    }

    /// Adds units at the end, all or none.
    pub fn extend_from_slice(&mut self, units: &[u16]) -> Result<(), NoMemory>
        ensures added { OnOk result (self.new ≡ self.old ++ units.now) }
        ensures unchanged { OnErr result (self.new ≡ self.old) }
    {
        self.items.extend_from_slice(units)?;
        Ok(())
    }

    /// Adds a unit for each byte, all or none: a string of Latin-1, ASCII among them.
    pub fn extend_from_latin1(&mut self, bytes: &[u8]) -> Result<(), NoMemory>
        ensures added { OnOk result (self.new ≡ self.old ++ bytes.now) }
        ensures unchanged { OnErr result (self.new ≡ self.old) }
    {
        self.items.reserve(bytes.len())?;
        for byte in bytes {
            self.items.push_reserved(u16::from(*byte));
        }
        Ok(())
    }

    /// Makes room for `more` further units, so that adding them moves none. The list stays.
    pub fn reserve(&mut self, more: usize) -> Result<(), NoMemory>
        ensures { self.new ≡ self.old }
    {
        self.items.reserve(more)?;
        Ok(())
    }

    /// The units in order.
    pub fn as_slice(&self) -> &[u16]
        ensures { result.now ≡ self.now }
    {
        self.items.as_slice()
    }
}
