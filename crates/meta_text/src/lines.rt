//! Lines cut from a text, and bytes that are clean text.

ghost use Rattle.std.specs.Prelude.{◌≡◌, ◌<◌, ◌==◌, ◌∷◌, [], length, Some, None, IfOk, IfErr, IfSome, IfNone, position, true, false};
ghost use Rattle.meta_text.specs.Text.{IsName, IsValue, is_name, is_clean, trimmed};
ghost use Rattle.meta_text.specs.Lines.{lines_of, without_return, name_in, value_in};
ghost use Rattle.meta_text.specs.Reading.{fault_of};

use crate::fault::FieldFault;
use crate::text;
use std::str;

/// The first line of a text that isn't empty, without its end, and what follows it. A line ends with a line feed,
/// or with a carriage return and a line feed (RFC 7230, section 3.5); the last one may do without.
pub fn split_line(bytes: &[u8]) -> (&[u8], &[u8])
    requires { 0 < length bytes.now }
    ensures lines { lines_of bytes.now ≡ result.0.now ∷ lines_of result.1.now }
    ensures shorter { length result.1.now < length bytes.now }
{
    match place_of(bytes, b'\n') {
        Some(at) => (without_return(&bytes[..at]), &bytes[at + 1..]),
        None => (without_return(bytes), &bytes[bytes.len()..]),
    }
}

/// The first place at which a byte stands.
pub fn place_of(bytes: &[u8], byte: u8) -> Option<usize>
    ensures { result ≡ position (λ b. b == byte) bytes.now }
{
    bytes.iter().position(|b| *b == byte)
}

/// A line without one carriage return at its end.
pub fn without_return(line: &[u8]) -> &[u8]
    ensures { result.now ≡ without_return line.now }
{
    match line {
        [front @ .., b'\r'] => front,
        _ => line,
    }
}

/// The name and the value that a line says.
pub(crate) fn pair_in(line: &[u8], number: u64) -> Result<(&str, &str), FieldFault>
    ensures sound { IfOk result (λ p. fault_of (number, line.now) ≡ None) }
    ensures name { IfOk result (λ p. p.0.now ≡ name_in line.now) }
    ensures value { IfOk result (λ p. p.1.now ≡ value_in line.now) }
    ensures is_name { IfOk result (λ p. IsName p.0.now) }
    ensures is_value { IfOk result (λ p. IsValue p.1.now) }
    ensures fault { IfErr result (λ e. fault_of (number, line.now) ≡ Some e) }
{
    let Some(colon) = place_of(line, b':') else {
        return Err(FieldFault::NoColon { line: number });
    };
    let Some(name) = name_from(&line[..colon]) else {
        return Err(FieldFault::BadName { line: number });
    };
    let Some(value) = clean_text(text::trimmed(&line[colon + 1..])) else {
        return Err(FieldFault::BadValue { line: number });
    };
    Ok((name, value))
}

fn name_from(bytes: &[u8]) -> Option<&str>
    ensures text { IfSome result (λ t. t.now ≡ bytes.now) }
    ensures name { IfSome result (λ t. is_name bytes.now ≡ true) }
    ensures none { IfNone result (is_name bytes.now ≡ false) }
{
    match str::from_utf8(bytes) {
        Ok(name) if text::is_name(name) => Some(name),
        _ => None,
    }
}

/// Bytes as a text, where they are UTF-8 without control characters other than the tab.
pub fn clean_text(bytes: &[u8]) -> Option<&str>
    ensures text { IfSome result (λ t. t.now ≡ bytes.now) }
    ensures clean { IfSome result (λ t. is_clean bytes.now ≡ true) }
    ensures none { IfNone result (is_clean bytes.now ≡ false) }
{
    match str::from_utf8(bytes) {
        Ok(value) if text::is_clean(value) => Some(value),
        _ => None,
    }
}
