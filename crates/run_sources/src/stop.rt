// Why there are no scripts.
ghost use Rattle.std.specs.Prelude.{◌≡◌};
ghost use Rattle.run_sources.specs.declared.stop.ScriptsFault.TheVariants as stop;

use js_parse::ParseFault;
use std::alloc::{AllocError, AllocFailed};

/// Why there are no scripts, with the argument that names the file.
#[derive(Clone, Copy, Debug)]
pub enum ScriptsFault<'a> {
    /// The file can't be read.
    NotRead(&'a str),
    /// It has more than [`js_io::FILE_MAX`] bytes.
    TooLarge(&'a str),
    /// It spells no script. The fault is never out of memory.
    Refused(&'a str, ParseFault),
    NoMemory,
}

impl From<AllocError> for ScriptsFault<'_> {
    ghost from_gives = { λ _ e. e ≡ stop.NoMemory };

    fn from(_: AllocError) -> Self {
        ScriptsFault::NoMemory
    }
}

impl<T: Drop> From<AllocFailed<T>> for ScriptsFault<'_> {
    ghost from_gives = { λ _ e. e ≡ stop.NoMemory };

    fn from(_: AllocFailed<T>) -> Self {
        ScriptsFault::NoMemory
    }
}
