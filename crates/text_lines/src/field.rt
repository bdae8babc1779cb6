//! The fields of a line, and their numbers.
ghost use Rattle.std.specs.Prelude.{◌≡◌, ◌<◌, ◌≤◌, ◌^◌, ◌∷◌, [], true, MatchOption, IfOk, IfErr};
ghost use Rattle.std.specs.List.{list_all};
ghost use Rattle.std.specs.Option.{SomeIff};
ghost use Rattle.std.specs.Char.{is_ascii_digit};
ghost use Rattle.std.specs.Str.Parse.{digits_value};
ghost use Rattle.text_lines.specs.Lines as wanted;
ghost use Rattle.text_lines.specs.Lines.{IsLineFault, fields_of};

use crate::fault::TextFault;

/// Returns whether the field is the digit 0, or digits that begin with another one.
fn is_number(field: &[u8]) -> bool
    ensures { result ≡ wanted.is_number field.now }
{
    !field.is_empty() && all_digits(field) && (field.len() < 2 || field[0] != b'0')
}

fn all_digits(field: &[u8]) -> bool
    ensures { result ≡ list_all is_ascii_digit field.now }
{
    field.iter().all(|b| b.is_ascii_digit())
}

/// Returns the number that the digits spell, if it has at most 64 bits.
fn value_of(digits: &[u8]) -> Option<u64>
    requires { list_all is_ascii_digit digits.now ≡ true }
    ensures { SomeIff result (digits_value 10 digits.now < 2 ^ 64) (digits_value 10 digits.now) }
{
    let mut value = 0u64;
    for digit in digits {
        if !digit.is_ascii_digit() {
            unreachable!();
        }
        let last = u64::from(*digit - b'0');
        if value > (u64::MAX - last) / 10 {
            return None;
        }
        value = value * 10 + last;
    }
    Some(value)
}

/// Parses a number field, whose number is at most `greatest`. `line` is the number of the line, for the fault.
pub fn number_in(line: u64, greatest: u64, field: &[u8]) -> Result<u64, TextFault>
    ensures value { result ≡ wanted.number_in line greatest field.now }
    ensures of_line { IfErr result IsLineFault }
    ensures within { IfOk result (λ n. n ≤ greatest) }
{
    if !is_number(field) {
        return Err(TextFault::Number(line));
    }
    match value_of(field) {
        Some(value) if value <= greatest => Ok(value),
        _ => Err(TextFault::Limit(line)),
    }
}

/// Parses a number field, whose number is from `least` to `greatest`.
pub(crate) fn number_between(
    line: u64,
    least: u64,
    greatest: u64,
    field: &[u8],
) -> Result<u64, TextFault>
    ensures value { result ≡ wanted.number_between line least greatest field.now }
    ensures of_line { IfErr result IsLineFault }
    ensures within { IfOk result (λ n. n ≤ greatest) }
{
    let value = number_in(line, greatest, field)?;
    if value < least {
        return Err(TextFault::Limit(line));
    }
    Ok(value)
}

/// Splits bytes at their first space.
pub fn split_field(bytes: &[u8]) -> Option<(&[u8], &[u8])>
    ensures { MatchOption result (fields_of bytes.now ≡ bytes.now ∷ [])
        (λ p. fields_of bytes.now ≡ p.0.now ∷ fields_of p.1.now) }
{
    for (i, b) in bytes.iter().enumerate() {
        if *b == b' ' {
            return Some((&bytes[..i], &bytes[i + 1..]));
        }
    }
    None
}

/// Checks the last line of a text, which counts the lines before it.
pub fn end_in(line: u64, count: usize, field: &[u8]) -> Result<(), TextFault>
    ensures value { result ≡ wanted.end_in line count field.now }
    ensures of_line { IfErr result IsLineFault }
{
    if !is_number(field) {
        return Err(TextFault::Number(line));
    }
    match value_of(field) {
        Some(value) if value == count as u64 => Ok(()),
        _ => Err(TextFault::Count),
    }
}
