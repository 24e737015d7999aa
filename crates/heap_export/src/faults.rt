// What becomes of units that have no bytes, and why nothing was written.

/// What becomes of an unpaired surrogate, which UTF-8 can't say.
#[derive(Clone, Copy, Debug, PartialEq, Eq)]
pub enum Unpaired {
    /// U+FFFD is written for it (ECMA-262, "String.prototype.toWellFormed").
    Replace,
    /// The call is refused.
    Refuse,
    /// It is written in three bytes, as WTF-8 has it.
    Keep,
}

/// Why nothing was written.
#[derive(Clone, Copy, Debug, PartialEq, Eq)]
pub enum WriteFault {
    /// So many bytes are needed.
    NoRoom { size: u32 },
    /// The unit at this place has no bytes.
    Unmapped { at: u32 },
}
