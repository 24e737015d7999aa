// The sets of characters of the URI functions.
ghost use Rattle.std.specs.Prelude.{◌≡◌};
ghost use Rattle.js_uri.specs.Sets;
ghost use Rattle.js_uri.specs.Calls.{keep_of, hold_of};

// Whether a code point is one of ; / ? : @ & = + $ , #
fn is_reserved(point: u32) -> bool
    ensures { result ≡ Sets.is_uri_reserved point }
{
    match point {
        0x3B | 0x2F | 0x3F | 0x3A | 0x40 | 0x26 | 0x3D | 0x2B | 0x24 | 0x2C | 0x23 => true,
        _ => false,
    }
}

// Whether a code point is one of - _ . ! ~ * ' ( )
fn is_mark(point: u32) -> bool
    ensures { result ≡ Sets.is_uri_mark point }
{
    match point {
        0x2D | 0x5F | 0x2E | 0x21 | 0x7E | 0x2A | 0x27 | 0x28 | 0x29 => true,
        _ => false,
    }
}

// Whether a code point is an ASCII letter or digit.
fn is_alphanumeric(point: u32) -> bool
    ensures { result ≡ Sets.is_alphanumeric point }
{
    match point {
        0x41..=0x5A | 0x61..=0x7A | 0x30..=0x39 => true,
        _ => false,
    }
}

// What a string is for a function: a URI, whose reserved characters part its components, or one
// component.
#[derive(Clone, Copy)]
pub enum UriPart {
    Whole,
    Component,
}

impl UriPart {
    // Whether encoding leaves a code point as it is.
    pub fn keeps(self, point: u32) -> bool
        ensures { result ≡ keep_of self point }
    {
        match self {
            UriPart::Whole => is_alphanumeric(point) || is_mark(point) || is_reserved(point),
            UriPart::Component => is_alphanumeric(point) || is_mark(point),
        }
    }

    // Whether decoding leaves the escape of a byte below 80 as it is.
    pub fn holds(self, byte: u32) -> bool
        ensures { result ≡ hold_of self byte }
    {
        match self {
            UriPart::Whole => is_reserved(byte),
            UriPart::Component => false,
        }
    }
}
