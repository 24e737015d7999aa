// Why nothing was added to a text.

/// Why units weren't added to a text.
#[derive(Clone, Copy, Debug, PartialEq, Eq)]
pub enum BuildFault {
    /// Memory runs out.
    NoMemory,
    /// The text would have more units than a string may have.
    TooLong,
}

/// Why the units that bytes spell weren't added to a text.
#[derive(Clone, Copy, Debug, PartialEq, Eq)]
pub enum DecodeFault {
    /// The first `at` bytes are the longest front that spells units, and more bytes follow.
    Malformed { at: u32 },
    /// The units weren't added.
    NotAdded(BuildFault),
}
