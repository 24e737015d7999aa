// How bytes spell code points.

/// Whether surrogates are spelled too: as WTF-8 has it, but for those of a pair, or as UTF-8 has it.
#[derive(Clone, Copy, Debug, PartialEq, Eq)]
pub enum Encoding {
    Utf8,
    Wtf8,
}
