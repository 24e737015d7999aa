// Why no string was made.
use heap_table::CounterFull;

/// The heap has no id, or not enough content words, left for a call.
#[derive(Clone, Copy, Debug, PartialEq, Eq)]
pub enum TextFull {
    Ids(CounterFull),
    Words(CounterFull),
}

/// Why two strings were not joined.
#[derive(Clone, Copy, Debug, PartialEq, Eq)]
pub enum JoinFault {
    /// Together they are longer than the limit of the `Text`. These are their lengths.
    TooLong { left: u32, right: u32 },
    Full(TextFull),
}
