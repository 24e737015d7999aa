// Why less was claimed than requested.
use heap_text::TextFull;

/// Why a reserve got less than was requested.
#[derive(Clone, Copy, Debug, PartialEq, Eq)]
pub enum ReserveFault {
    /// No memory for the list of ids.
    Memory,
    /// The heap has not that many content words, or no further id.
    Full(TextFull),
}
