// Where bytes are written to.
ghost use Rattle.std.specs.Prelude.{◌≡◌, ◌≤◌, ◌<◌, length, IfOk, OnErr};
ghost use Rattle.std.specs.Io.KnownBytes.{WriteAppends};
ghost use Rattle.js_io.specs.Counts.{next_count};
ghost use Rattle.js_io.specs.SinkState.{SinkState, WritesAll};

/// A write failed.
#[derive(Clone, Copy, Debug, PartialEq, Eq)]
pub struct Failed;

/// A taker of bytes.
pub trait Sink {
    // All that callers see of a sink: the bytes that it received, where they are reported, and how many
    // writes failed.
    ghost state: { Self → SinkState };

    /// Accepts some bytes from the front of the piece, and says how many: at least one, unless the
    /// piece is empty. A write that fails accepts none.
    fn write(&mut self, piece: &[u8]) -> Result<usize, Failed>
        ensures bound { IfOk result (λ count. count ≤ length piece.now) }
        ensures some { IfOk result (λ count. 0 < length piece.now → 0 < count) }
        ensures bytes { WriteAppends (state self.old).taken (state self.new).taken result piece.now }

        ensures empty { length piece.now ≡ 0 → OnErr result ⊥ }
        ensures failed { OnErr result ((state self.new).faults ≡ next_count (state self.old).faults) }
        ensures calm { IfOk result (λ _. (state self.new).faults ≡ (state self.old).faults) }
        ensures counted { (state self.old).faults ≤ (state self.new).faults };
}

/// Writes all of the bytes, or stops at the first write that fails, with a prefix of them received.
pub fn write_all<O: Sink>(sink: &mut O, bytes: &[u8]) -> Result<(), Failed>
    ensures { WritesAll result (O.state sink.old) (O.state sink.new) bytes.now }
{
    let mut rest = bytes;
    while !rest.is_empty() {
        let count = sink.write(rest)?;
        rest = &rest[count..];
    }
    Ok(())
}
