// String literals (ECMA-262, "String Literals").
ghost use Rattle.std.specs.Prelude.{IsUtf8, ◌≡◌, ◌++◌, ◌<◌, ◌^◌, ◌⊎◌, ◌∷◌, ◌+◌, ◌≤◌, ℕ, List, true, length, slice_index, encode_utf8_all, IfOk, IfErr, OnOk, OnErr};
ghost use Rattle.std.specs.Str.{chars};
ghost use Rattle.js_literal.specs.Literal.{is_quote, Closed, IsBroken, LiteralOf, LiteralFaultOf, BeginsString, fault_at};
ghost use Rattle.js_literal.specs.declared.fault.LiteralFault.{LiteralFault};
ghost use Rattle.js_literal.specs.declared.fault.LiteralFault.TheVariants.{Memory};
ghost use Rattle.js_literal.specs.Reader.{value_units, kind_of};
ghost use Rattle.js_literal.specs.Stops.{IsStop};
ghost use Rattle.js_literal.specs.Place.{StandsAt};

use crate::fault::LiteralFault;
use crate::front::{LiteralFront, PieceFault, PieceUnits, read_front, split_plain};
use crate::text::byte_len;
use js_units::{NoMemory, Units};
use std::alloc::Global;

/// Why the inside of a literal isn't read. Of a fault also how many bytes are left where it shows.
pub enum StringStop {
    Broken(PieceFault, usize),
    Memory,
}

/// Adds the units of a piece.
fn push_value(units: &mut Units, value: PieceUnits) -> Result<(), NoMemory>
    ensures ok { OnOk result (units.new ≡ units.old ++ value_units value) }
{
    match value {
        PieceUnits::Nothing => Ok(()),
        PieceUnits::Char(c) => units.push_code_point(c),
        PieceUnits::Unit(unit) => units.push(unit),
    }
}

/// The units up to the closing quote, and the number of bytes behind it.
fn inside(alloc: Global, quote: char, text: &str) -> Result<(Units, usize), StringStop>
    requires { is_quote quote ≡ true }
    ensures ok { IfOk result (λ p. (rest : List ℕ) × Closed quote (chars text.now) p.0 rest
        × (length (encode_utf8_all rest) ≡ p.1)) }
    ensures err { IfErr result (IsStop quote (chars text.now)) }
{
    let mut units = Units::new(alloc);
    let mut rest = text;
    'pieces: loop {
        let (run, behind) = split_plain(quote, rest);
        if units.extend_from_latin1(run).is_err() {
            return Err(StringStop::Memory);
        }
        match read_front(quote, behind) {
            LiteralFront::Piece(value, after) => {
                if push_value(&mut units, value).is_err() {
                    return Err(StringStop::Memory);
                }
                rest = after;
            }
            LiteralFront::Close(after) => return Ok((units, byte_len(after))),
            LiteralFront::Refused(refusal) => return Err(StringStop::Broken(
                refusal,
                byte_len(behind),
            )),
        }
    }
}

/// The fault of a literal that begins at `at`, where it shows at `here`.
fn placed(refusal: PieceFault, at: u32, here: u32) -> LiteralFault
    ensures { result ≡ fault_at (kind_of refusal) at here }
{
    match refusal {
        PieceFault::Unclosed => LiteralFault::Unclosed { at },
        PieceFault::RawLineEnd => LiteralFault::RawLineEnd { at: here },
        PieceFault::BadEscape => LiteralFault::BadEscape { at: here },
        PieceFault::CodePointTooLarge => LiteralFault::CodePointTooLarge { at: here },
        PieceFault::LegacyOctal => LiteralFault::LegacyOctal { at: here },
    }
}

/// The opening quote at byte `at`, and what follows it.
fn open(text: &str, at: u32) -> (char, &str)
    requires { BeginsString text.now at }
    ensures starts { StandsAt text.now at (result.0 ∷ chars result.1.now) }
    ensures quote { is_quote result.0 ≡ true }
{
    let start = at as usize;
    let quote = char::from(text.as_bytes()[start]);
    (quote, &text[start + 1..])
}

/// What `read_string` answers, against the relations alone.
fn literal(alloc: Global, text: &str, at: u32) -> Result<(Units, u32), LiteralFault>
    requires size { length text.now < 2 ^ 32 }
    requires quote { BeginsString text.now at }
    ensures ok { IfOk result (λ p. LiteralOf text.now at p.0 p.1) }
    ensures err { IfErr result (λ e. (e ≡ Memory) ⊎ LiteralFaultOf text.now at e) }
{
    let (quote, rest) = open(text, at);
    match inside(alloc, quote, rest) {
        Ok((units, left)) => Ok((units, (text.len() - left) as u32)),
        Err(StringStop::Broken(refusal, left)) => Err(placed(
            refusal,
            at,
            (text.len() - left) as u32,
        )),
        Err(StringStop::Memory) => Err(LiteralFault::Memory),
    }
}

/// The string literal that begins at byte `at`: its units, and the byte behind its closing quote.
/// Its fault where there is none: the first that shows from the left.
pub fn read_string(alloc: Global, text: &str, at: u32) -> Result<(Units, u32), LiteralFault>
    requires size { length text.now < 2 ^ 32 }
    requires quote { BeginsString text.now at }
    ensures ok { IfOk result (λ p. LiteralOf text.now at p.0 p.1) }
    ensures err { IfErr result (λ e. (e ≡ Memory) ⊎ LiteralFaultOf text.now at e) }
    ensures found { (us : List ℕ) (end : ℕ) → LiteralOf text.now at us end
        → (result ≡ Ok (us, end)) ⊎ (result ≡ Err Memory) }
    ensures faults { (f : LiteralFault) → LiteralFaultOf text.now at f
        → (result ≡ Err f) ⊎ (result ≡ Err Memory) }
{
    literal(alloc, text, at)
}

/// A place with a quote has one string literal or one fault, and not both.
pub fn one_string_answer()
    ensures one_literal { (text : List ℕ) (at : ℕ) (us vs : List ℕ) (a b : ℕ) → IsUtf8 text
        → LiteralOf text at us a → LiteralOf text at vs b → (us ≡ vs) × (a ≡ b) }
    ensures one_fault_of { (text : List ℕ) (at : ℕ) (f e : LiteralFault) → IsUtf8 text
        → LiteralFaultOf text at f → LiteralFaultOf text at e → f ≡ e }
    ensures never_both { (text : List ℕ) (at : ℕ) (us : List ℕ) (a : ℕ) (f : LiteralFault)
        → LiteralOf text at us a → LiteralFaultOf text at f → ⊥ }
    ensures some_answer { (text : List ℕ) (at : ℕ) → IsUtf8 text → BeginsString text at
        → ((us : List ℕ) × (end : ℕ) × LiteralOf text at us end)
        ⊎ ((f : LiteralFault) × LiteralFaultOf text at f) }
{}
