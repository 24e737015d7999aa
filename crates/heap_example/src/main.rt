//! The program `heap_example`: two threads make strings on one heap, and one agent reads both.
//!
//! It is short enough to be copied by whoever builds the heap into an engine; `docs/EMBEDDING.md`
//! goes through it call by call. A refusal is printed, and the program ends with 1.
#![tactic(auto)]

mod fault;
mod greeting;

use anyhow::Result;
use greeting::greetings;

fn main(rt: HostRuntime) -> Result<()> {
    let hello = b"Hello, ".map(u16::from);
    let ada = b"Ada".map(u16::from);
    let world = [0x4E16, 0x754C];
    let (first, second) = greetings(&rt, rt.alloc(), &hello, &ada, &world)?;
    for units in [first, second] {
        let line = String::from_utf16_lossy(rt.alloc(), &units)?;
        println!(rt; "{line}")?;
    }
    Ok(())
}
