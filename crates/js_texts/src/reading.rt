// The units of a string of a store.
ghost use Rattle.std.specs.Prelude.{◌≡◌, length, IfOk, OnOk, None};
ghost use Rattle.js_store.specs.State.{IsKnown, IsSettled, text};
ghost use Rattle.js_store.specs.Rows.{settle_words};
ghost use Rattle.js_store.specs.Faults.{Uses};
ghost use Rattle.js_texts.specs.Texts.{full_fault_of};

use js_store::{StoreFault, Strings};
use js_units::{NoMemory, Units};
use std::alloc::Global;

// Units of a block.
const SIZE: u32 = 256;

/// A copy of the units of a settled string.
#[tactic(auto, using(crate::proofs::Runs::take_run))]
pub fn copied<S: Strings>(alloc: Global, store: &mut S, s: S::Ref) -> Result<Units, NoMemory>
    requires known { IsKnown (S.state store.old) (S.number s) }
    requires settled { IsSettled (S.state store.old) (S.number s) }
    ensures value { IfOk result (λ u. u ≡ text (S.state store.old) (S.number s)) }
    ensures uses { Uses (S.state store.old) (S.state store.new) None 0 0 }
{
    let len = store.len(s);
    let mut units = Units::new(alloc);
    units.reserve(len as usize)?;
    let mut block = [0; 256];
    let mut done = 0;
    while done < len {
        let count = SIZE.min(len - done);
        let part = &mut block[..count as usize];
        store.read(s, done, part);
        units.extend_from_slice(part)?;
        done += count;
    }
    Ok(units)
}

/// Settles a string and copies its units.
pub fn read<S: Strings>(alloc: Global, store: &mut S, s: S::Ref) -> Result<Units, StoreFault>
    requires { IsKnown (S.state store.old) (S.number s) }
    ensures value { IfOk result (λ u. u ≡ text (S.state store.old) (S.number s)) }
    ensures settled { OnOk result (IsSettled (S.state store.new) (S.number s)) }
    ensures uses { Uses (S.state store.old) (S.state store.new) (full_fault_of result) 0
        (settle_words ((S.state store.old).settled (S.number s))
        (length (text (S.state store.old) (S.number s)))) }
{
    store.settle(s)?;
    Ok(copied(alloc, store, s)?)
}
