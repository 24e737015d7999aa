// Which form a string has, and its one word.
ghost use Rattle.std.specs.Prelude.{◌≡◌, ◌≢◌, ◌<◌, ◌^◌, ◌↔◌, Some, IfSome, IsNone};
ghost use Rattle.js_header.specs.declared.form.Form as form;
ghost use Rattle.js_header.specs.Form.{IsInRange, word_of, form_of, packed, form_by_tag};

/// One more than the greatest number in a field of a form word: 2^29.
pub const FIELD_END: u32 = 536870912;
// What one of the second field counts for in a form word: 2^34.
const SECOND_UNIT: u64 = 17179869184;

/// The representation of a string. Each number in it is below 2^29: a content word, an id of a
/// string, or a number of code units.
///
/// | Bits | Meaning |
/// |---|---|
/// | 0 to 2 | tag: 0 Unborn, 1 Flat, 2 Cons, 3 Sliced, 4 Thin |
/// | 3 | wide |
/// | 4 | fixed |
/// | 5 to 33 | start, left, parent or target |
/// | 34 to 62 | right or offset |
/// | 63 | 0 |
///
/// Bits that a form does not use are 0.
#[derive(Clone, Copy, Debug, PartialEq, Eq)]
pub enum Form {
    /// No string yet: the word 0.
    Unborn,
    /// The code units lie in content words from `start` on, two-byte where wide, else one-byte.
    /// A fixed one never becomes a Thin.
    Flat {
        wide: bool,
        start: u32,
        fixed: bool,
    },
    /// The code units of `left` and then those of `right` (V8's ConsString).
    Cons {
        wide: bool,
        left: u32,
        right: u32,
    },
    /// A part of the code units of `parent`, from `offset` on (V8's SlicedString).
    Sliced {
        wide: bool,
        parent: u32,
        offset: u32,
    },
    /// The code units of `target`, which is internalized (V8's ThinString).
    Thin {
        target: u32,
    },
}

/// The word of a form.
pub fn encode(form: Form) -> u64
    requires { IsInRange form }
    ensures word { result ≡ word_of form }
    ensures decodes { form_of result ≡ Some form }
{
    match form {
        Form::Unborn => 0,
        Form::Flat { wide, start, fixed } => pack(1, wide, fixed, start, 0),
        Form::Cons { wide, left, right } => pack(2, wide, false, left, right),
        Form::Sliced {
            wide,
            parent,
            offset,
        } => pack(3, wide, false, parent, offset),
        Form::Thin { target } => pack(4, false, false, target, 0),
    }
}

/// The form whose word this is; None exactly where it is the word of no form.
pub fn decode(word: u64) -> Option<Form>
    ensures form { result ≡ form_of word }
    ensures some { IfSome result (λ f. IsInRange f × (word_of f ≡ word)) }
    ensures none { IsNone result ↔ ((f : form.Form) → IsInRange f → word_of f ≢ word) }
{
    // a Flat uses each bit below 34, so that its fields need no second look
    if word % 8 == 1 && word < SECOND_UNIT {
        return Some(fields(word));
    }
    decode_any(word)
}

// The same, whatever the form: it is packed again, and the words are compared.
#[inline(never)]
fn decode_any(word: u64) -> Option<Form>
    ensures { result ≡ form_of word }
{
    let form = fields(word);
    if encode(form) == word {
        Some(form)
    } else {
        None
    }
}

fn pack(tag: u64, wide: bool, fixed: bool, first: u32, second: u32) -> u64
    requires tag { tag < 8 }
    requires first { first < 2 ^ 29 }
    requires second { second < 2 ^ 29 }
    ensures { result ≡ packed tag wide fixed first second }
{
    tag + 8 * u64::from(wide)
        + 16 * u64::from(fixed)
        + 32 * u64::from(first)
        + SECOND_UNIT * u64::from(second)
}

// The form that a tag names, with what the word has in that form's fields.
fn fields(word: u64) -> Form
    ensures same { result ≡ form_by_tag word }
    ensures range { IsInRange result }
{
    let wide = word / 8 % 2 == 1;
    let fixed = word / 16 % 2 == 1;
    let first = (word / 32 % u64::from(FIELD_END)) as u32;
    let second = (word / SECOND_UNIT % u64::from(FIELD_END)) as u32;
    match word % 8 {
        1 => Form::Flat {
            wide,
            start: first,
            fixed,
        },
        2 => Form::Cons {
            wide,
            left: first,
            right: second,
        },
        3 => Form::Sliced {
            wide,
            parent: first,
            offset: second,
        },
        4 => Form::Thin { target: first },
        _ => Form::Unborn,
    }
}
