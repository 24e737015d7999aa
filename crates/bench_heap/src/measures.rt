// What is timed.
use crate::flat::{copy_lists, copy_long, make_heap, make_zeros, on_heap, read_list};
use crate::readers::read_rope;
use crate::ropes::{cut_parts, grow_rope, join_ropes};
use std::alloc::Global;
use std::thread::Threads;

/// What is done as often as the count says, on the heap or with the plain lists beside it.
#[derive(Clone, Copy)]
pub enum Measure {
    /// A flat string of 64 units is made.
    Make,
    /// A flat string of 13 units is made.
    Short,
    /// A unit of a flat string is read.
    Read,
    /// A list of 64 units is copied and kept.
    Copy,
    /// A unit of a list is read.
    Index,
    /// A list of 1,000,000 units is copied.
    Lists,
    /// A heap of so many content words, a sixteenth as many ids and a quarter of these slots is made.
    Heap,
    /// A list of as many zeros as that heap has words is made.
    Zeros,
    /// A rope of 13 units is joined behind a rope.
    Right,
    /// A rope of 13 units is joined in front of a rope.
    Left,
    /// A unit is joined behind a string of 12.
    Grow,
    /// The same, and the rope is settled at the end.
    Behind,
    /// The same in front of it.
    Front,
    /// 1,000,000 units are cut out of a flat string of one more.
    Slice,
    /// A rope of so many units is settled and read.
    Reader,
    /// The same by four agents at once.
    Readers,
}

/// The heap or the store has no room for so many strings, or there is no memory for it.
pub struct NoRoom;

/// Does it, and answers how many were made, the sum of the units that were read, or the length of
/// the rope.
pub fn run<R: Threads + Sync>(
    rt: &R,
    alloc: Global,
    measure: Measure,
    count: u32,
) -> Result<u64, NoRoom> {
    match measure {
        Measure::Make => on_heap(alloc, 64, count, true),
        Measure::Short => on_heap(alloc, 13, count, true),
        Measure::Read => on_heap(alloc, 64, count, false),
        Measure::Copy => copy_lists(alloc, count),
        Measure::Index => read_list(alloc, count),
        Measure::Lists => copy_long(alloc, count),
        Measure::Heap => make_heap(alloc, count),
        Measure::Zeros => make_zeros(alloc, count),
        Measure::Right => join_ropes(alloc, count, false),
        Measure::Left => join_ropes(alloc, count, true),
        Measure::Grow => grow_rope(alloc, count, false, false),
        Measure::Behind => grow_rope(alloc, count, false, true),
        Measure::Front => grow_rope(alloc, count, true, true),
        Measure::Slice => cut_parts(alloc, count),
        Measure::Reader => read_rope(rt, alloc, count, false),
        Measure::Readers => read_rope(rt, alloc, count, true),
    }
}
