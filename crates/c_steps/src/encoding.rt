// How bytes that C gives spell units.
ghost use Rattle.std.specs.Prelude.{◌≡◌, ◌↔◌, ◌≤◌, length, IsTrue};
ghost use Rattle.c_steps.specs.Encodings as specs;
ghost use Rattle.c_steps.specs.Encodings.{IsDecodable, IsDecodedAs, MayDecode};

use heap_bytes::{Encoding, Spelling};
use heap_rule::MAX;

/// How bytes spell units: each is one, or they spell characters, and in WTF-8 unpaired surrogates too.
#[derive(Clone, Copy)]
pub enum TextEncoding {
    Latin1,
    Utf8,
    Wtf8,
}

/// The encoding, by its number in C.
pub fn encoding_by(number: u32) -> TextEncoding
    requires { number ≤ 2 }
    ensures { result ≡ specs.encoding_by number }
{
    match number {
        0 => TextEncoding::Latin1,
        1 => TextEncoding::Utf8,
        _ => TextEncoding::Wtf8,
    }
}

/// Whether there is an encoding with this number, and so many bytes of it may be decoded.
pub fn is_decodable(number: u32, len: usize) -> bool
    ensures { IsTrue result ↔ IsDecodable number len }
{
    number == 0 || (number <= 2 && len <= MAX as usize)
}

/// What bytes spell, or the length of the longest front that spells some units.
pub fn decode(encoding: TextEncoding, bytes: &[u8]) -> Result<Spelling, usize>
    requires { MayDecode encoding (length bytes.now) }
    ensures { IsDecodedAs encoding bytes.now result }
{
    match encoding {
        TextEncoding::Latin1 => Ok(Spelling::Latin1(bytes)),
        TextEncoding::Utf8 => Spelling::read(Encoding::Utf8, bytes),
        TextEncoding::Wtf8 => Spelling::read(Encoding::Wtf8, bytes),
    }
}
