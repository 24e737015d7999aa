// Identifiers that can't be names, by their length.
ghost use Rattle.std.specs.Prelude.{◌≡◌, ℕ, List, length, true};
ghost use Rattle.std.specs.List.{list_any};
ghost use Rattle.std.specs.Str.{bytes_eq};
ghost use Rattle.parse_tokens.specs.Reserved.{is_reserved};
ghost use Rattle.parse_tokens.specs.Lengths.{of_length, spaced, all_have};

/// Whether the identifier can't be a name.
pub(crate) fn is_reserved(letters: &[u8]) -> bool
    ensures { result ≡ is_reserved letters.now }
{
    is_one_of(letters, words_of(letters.len()))
}

// Whether the letters are one of the identifiers, of which each has as many letters and a blank behind it.
fn is_one_of(letters: &[u8], words: &[u8]) -> bool
    ensures { (ws : List (List ℕ)) → all_have (length letters.now) ws ≡ true → words.now ≡ spaced ws
        → result ≡ list_any (bytes_eq letters.now) ws }
{
    if words.len() <= letters.len() {
        return false;
    }
    let (word, behind) = words.split_at(letters.len());
    letters == word || is_one_of(letters, &behind[1..])
}

// The identifiers of so many letters, with a blank behind each.
fn words_of(count: usize) -> &'static [u8]
    ensures { result.now ≡ spaced (of_length count) }
{
    match count {
        2 => b"do if in ",
        3 => b"for let new try var NaN Map Set ",
        4 => b"case else enum null this true void with JSON eval Date Math ",
        5 =>
            b"break catch class const false super throw while yield await print isNaN Array Error Proxy ",
        6 =>
            b"delete export import public return static switch typeof String Symbol escape BigInt Number Object RegExp ",
        7 =>
            b"default extends finally package private Atomics Boolean Promise Reflect WeakMap WeakRef WeakSet valueOf ",
        8 =>
            b"continue debugger function Infinity isFinite parseInt unescape DataView Function URIError toString ",
        9 =>
            b"interface protected undefined arguments decodeURI encodeURI EvalError Int8Array TypeError __proto__ ",
        10 =>
            b"implements instanceof globalThis parseFloat Int16Array Int32Array RangeError Uint8Array ",
        11 => b"ArrayBuffer SyntaxError Uint16Array Uint32Array constructor ",
        12 => b"Float32Array Float64Array ",
        13 => b"BigInt64Array isPrototypeOf ",
        14 => b"AggregateError BigUint64Array ReferenceError hasOwnProperty toLocaleString ",
        16 => b"__defineGetter__ __defineSetter__ __lookupGetter__ __lookupSetter__ ",
        17 => b"SharedArrayBuffer Uint8ClampedArray ",
        18 => b"decodeURIComponent encodeURIComponent ",
        20 => b"FinalizationRegistry propertyIsEnumerable ",
        _ => b"",
    }
}
