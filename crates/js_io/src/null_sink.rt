// A sink that keeps nothing.
ghost use Rattle.std.specs.Prelude.{◌≡◌, Ok, length};
ghost use Rattle.js_io.specs.SinkState.{untold_sink};

use crate::{Failed, Sink};

/// A sink that accepts every piece whole, and keeps and reports nothing of it. No write to it fails.
#[derive(Clone, Copy, Debug)]
pub struct NullSink;

impl NullSink {
    /// It allocates nothing.
    pub fn new() -> Self
        ensures { ⟦<NullSink as Sink>⟧.state result ≡ untold_sink 0 }
    {
        NullSink
    }
}

impl Sink for NullSink {
    ghost state = { λ sink. untold_sink 0 };

    fn write(&mut self, piece: &[u8]) -> Result<usize, Failed>
        ensures { result ≡ Ok (length piece.now) }
    {
        Ok(piece.len())
    }
}
