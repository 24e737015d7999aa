// Tables of tests, and what their rows spell.
use js_units::append_utf8;
use std::alloc::Global;
use std::process::Abort;
use std::test::Fail;

/// What a table says of what its rows give.
pub(crate) trait Table {
    fn told(alloc: Global, given: &str) -> Result<String, Fail>;
}

/// Whether the report on each row is what it expects. A row has its input, an arrow, and what is expected.
pub(crate) fn check<T: Table>(rt: &impl Abort, alloc: Global, rows: &str) -> Result<(), Fail> {
    for row in rows.lines() {
        let (given, want) = parted(row, " -> ")?;
        let found = T::told(alloc, given)?;
        assert_eq!(rt; found.as_str(), want, "{row}");
    }
    Ok(())
}

/// The two strings with this between them.
pub(crate) fn parted<'a>(text: &'a str, mark: &str) -> Result<(&'a str, &'a str), Fail> {
    Ok(text.split_once(mark).ok_or("a part is missing")?)
}

/// Units in hexadecimal digits, one blank apart; `-` is none.
pub(crate) fn units_of(alloc: Global, text: &str) -> Result<Vec<u16>, Fail> {
    let mut units = Vec::new(alloc);
    if text != "-" {
        for digits in text.split(' ') {
            units.push(u16::from_str_radix(digits, 16)?)?;
        }
    }
    Ok(units)
}

/// The bytes of a string, or those that it spells behind `#` in hexadecimal digits, one blank apart.
pub(crate) fn bytes_of(alloc: Global, text: &str) -> Result<Vec<u8>, Fail> {
    let Some(spelled) = text.strip_prefix('#') else {
        return Ok(text.as_bytes().to_vec(alloc)?);
    };
    let mut bytes = Vec::new(alloc);
    for digits in spelled.split(' ') {
        bytes.push(u8::from_str_radix(digits, 16)?)?;
    }
    Ok(bytes)
}

/// The string of units, none of which is a surrogate alone.
pub(crate) fn text_of(alloc: Global, units: &[u16]) -> Result<String, Fail> {
    let mut bytes = Vec::new(alloc);
    append_utf8(units, &mut bytes)?;
    Ok(String::from_utf8(bytes)?)
}
