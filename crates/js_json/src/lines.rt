// The lines of a run.
ghost use Rattle.std.specs.Prelude.{◌≡◌, ◌++◌, [], OnOk, OnErr};
ghost use Rattle.js_store.specs.Faults.{Uses};
ghost use Rattle.js_texts.specs.Texts.{known_texts as texts_seen, AllKnown, AllSettled, settle_most, full_fault_of};
ghost use Rattle.js_json.specs.Printing.{line};

use crate::printing::append_line;
use js_store::{StoreFault, Strings};
use std::alloc::Global;
use std::marker::Model;

/// The bytes that scripts printed, whole lines alone. Contracts see them as a list.
#[derive(Drop)]
pub struct Lines {
    bytes: Vec<u8>,
}

impl Model for Lines {
    ghost use Rattle.std.specs.Prelude.{List, ℕ};

    ghost Value = { List ℕ };

    ghost view = { λ l. l.bytes.items };
}

impl Lines {
    /// No line. It allocates nothing.
    pub fn new(alloc: Global) -> Lines
        ensures { result ≡ [] }
    {
        Lines {
            bytes: Vec::new(alloc),
        }
    }

    /// The bytes in order.
    pub fn bytes(&self) -> &[u8]
        ensures { result.now ≡ self.now }
    {
        self.bytes.as_slice()
    }

    /// Adds the line of some strings, as [`print_line`] does to bytes.
    pub fn print_line<S: Strings>(
        &mut self,
        alloc: Global,
        store: &mut S,
        parts: &[S::Ref],
    ) -> Result<(), StoreFault>
        requires { AllKnown (S.state store.old) S.number parts.now }
        ensures added { OnOk result (self.new ≡ self.old ++ line
            (texts_seen (S.state store.old) S.number parts.now)) }
        ensures settled { OnOk result (AllSettled (S.state store.new) S.number parts.now) }
        ensures unchanged { OnErr result (self.new ≡ self.old) }
        ensures uses { Uses (S.state store.old) (S.state store.new) (full_fault_of result)
            0 (settle_most (S.state store.old) S.number parts.now) }
    {
        print_line(alloc, store, parts, &mut self.bytes)
    }
}

/// Adds the line of some strings, whole or not at all: the UTF-8 of each with U+FFFD for an unpaired
/// surrogate, one space between two, and a line feed. It settles the strings, in their order.
pub fn print_line<S: Strings>(
    alloc: Global,
    store: &mut S,
    parts: &[S::Ref],
    out: &mut Vec<u8>,
) -> Result<(), StoreFault>
    requires { AllKnown (S.state store.old) S.number parts.now }
    ensures added { OnOk result (out.new.items ≡ out.old.items ++ line
        (texts_seen (S.state store.old) S.number parts.now)) }
    ensures settled { OnOk result (AllSettled (S.state store.new) S.number parts.now) }
    ensures unchanged { OnErr result (out.new.items ≡ out.old.items) }
    ensures uses { Uses (S.state store.old) (S.state store.new) (full_fault_of result) 0
        (settle_most (S.state store.old) S.number parts.now) }
{
    let before = out.len();
    match append_line(alloc, store, parts, out) {
        Ok(()) => Ok(()),
        Err(fault) => {
            out.truncate(before);
            Err(fault)
        }
    }
}
