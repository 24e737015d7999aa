// A sink in memory.
ghost use Rattle.std.specs.Prelude.{◌≡◌, ◌≤◌};
ghost use Rattle.std.specs.Vec.{vec_len, vec_capacity};

use crate::{Failed, Sink};
use js_units::NoMemory;
use std::alloc::Global;

/// A sink in memory, which reports what it received. It reserves its room when it is made, so no write
/// allocates.
#[derive(Debug, Drop)]
pub struct MemSink {
    bytes: Vec<u8>,
    most: u32,
    room: u32,
    faults: u64,
    ghost takes_some: { 1 ≤ most },
    ghost in_room: { vec_len bytes ≤ room },
    ghost reserved: { room ≤ vec_capacity bytes },
}

impl MemSink {
    ghost use Rattle.std.specs.Prelude.{[], IfOk};
    ghost use Rattle.js_io.specs.MemSink.{sink_bytes, sink_faults, sink_left, sink_most};

    /// A sink that accepts at most `most` bytes a write, and `room` bytes in all.
    pub fn new(alloc: Global, most: u32, room: u32) -> Result<Self, NoMemory>
        requires { 1 ≤ most }
        ensures bytes { IfOk result (λ sink. sink_bytes sink ≡ []) }
        ensures most { IfOk result (λ sink. sink_most sink ≡ most) }
        ensures left { IfOk result (λ sink. sink_left sink ≡ room) }
        ensures faults { IfOk result (λ sink. sink_faults sink ≡ 0) }
    {
        match Vec::with_capacity(alloc, room as usize) {
            Ok(bytes) => Ok(MemSink {
                bytes,
                most,
                room,
                faults: 0,
            }),
            Err(_) => Err(NoMemory),
        }
    }

    /// All bytes that it received.
    pub fn taken(&self) -> &[u8]
        ensures { result.now ≡ sink_bytes self.now }
    {
        &self.bytes
    }
}

impl Sink for MemSink {
    ghost use Rattle.std.specs.Prelude.{◌≡◌, ◌≤◌, ◌<◌, ◌-◌, ℕ, Some, length, min, IfOk, OnErr};
    ghost use Rattle.std.specs.Io.KnownBytes.{WriteAppends};
    ghost use Rattle.js_io.specs.Counts.{next_count};
    ghost use Rattle.js_io.specs.SinkState.{told_sink};
    ghost use Rattle.js_io.specs.MemSink.{sink_bytes, sink_faults, sink_left, sink_most};

    ghost state = { λ sink. told_sink sink.bytes.items sink.faults };

    /// Accepts as many bytes as the piece, `most` and the room left allow. It fails exactly where
    /// the piece isn't empty and no room is left.
    fn write(&mut self, piece: &[u8]) -> Result<usize, Failed>
        ensures bound { IfOk result (λ count. count ≤ length piece.now) }
        ensures some { IfOk result (λ count. 0 < length piece.now → 0 < count) }
        ensures bytes { WriteAppends (Some (sink_bytes self.old)) (Some (sink_bytes self.new))
            result piece.now }

        ensures empty { length piece.now ≡ 0 → OnErr result ⊥ }
        ensures failed { OnErr result (sink_faults self.new ≡ next_count (sink_faults self.old)) }
        ensures calm { IfOk result (λ _. sink_faults self.new ≡ sink_faults self.old) }
        ensures counted { sink_faults self.old ≤ sink_faults self.new }

        ensures takes { IfOk result (λ count.
            count ≡ min (min (length piece.now) (sink_most self.old)) (sink_left self.old)) }
        ensures full { OnErr result (sink_left self.old ≡ 0) }
        ensures most { sink_most self.new ≡ sink_most self.old }
        ensures left { IfOk result (λ count. sink_left self.new ≡ sink_left self.old - count) }
        ensures left_kept { OnErr result (sink_left self.new ≡ sink_left self.old) }
    {
        let left = self.room as usize - self.bytes.len();
        let count = piece.len().min(self.most as usize).min(left);
        if count == 0 && !piece.is_empty() {
            self.faults = self.faults.saturating_add(1);
            return Err(Failed);
        }
        match self.bytes.extend_from_slice(&piece[..count]) {
            Ok(()) => Ok(count),
            Err(_) => unreachable!(),
        }
    }
}
