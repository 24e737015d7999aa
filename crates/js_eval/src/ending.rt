// How a script ends.
use eval_values::Kind;
use js_store::FullReport;

/// How a script ended.
#[derive(Clone, Copy, Debug, PartialEq, Eq)]
pub enum End {
    /// All statements ran.
    Done,
    /// An error was thrown.
    Threw(Kind),
    /// What is at this byte offset (an operator, a method's or a property's word, an index, or the
    /// brace of an object literal) would need what the profile leaves out: the meaning has this end
    /// there (`meaning` of `specs/Script.antt`). Among it are the number of a string or an array, a
    /// comparison of objects or arrays, a method of arrays besides `join`, a name that objects inherit,
    /// a key or an element by what is no number, and a number past 2^53 - 1.
    Unsupported { at: u32 },
    /// The store was full.
    Full(FullReport),
    /// Memory ran out.
    Memory,
}
