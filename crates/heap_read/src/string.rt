// A string by its number, and a part of one by its content words.

/// A string of a heap: the number of its header.
#[derive(Clone, Copy, Debug, PartialEq, Eq)]
pub struct JsStr {
    pub id: u32,
}

/// Some units in a run of content words: `len` of them, from lane `offset` on, counted from the
/// content word `start`. The lanes are two-byte ones where it is wide, else one-byte ones.
#[derive(Clone, Copy, Debug, PartialEq, Eq)]
pub struct Window {
    pub wide: bool,
    pub start: u32,
    pub offset: u32,
    pub len: u32,
}
