//! Lines parsed by a table of their forms.
ghost use Rattle.std.specs.Prelude.{◌≡◌, ◌<◌, ◌≤◌, ◌++◌, ◌∷◌, ℕ, List, [], length, map, slice_index, true, IfErr};
ghost use Rattle.text_lines.specs.Forms as wanted;
ghost use Rattle.text_lines.specs.Forms.{form_of, row_of, fields_left, has_short_forms};
ghost use Rattle.text_lines.specs.Lines.{fields_of, IsLineFault};

use crate::fault::TextFault;
use crate::field::{number_between, split_field};
use std::marker::Model;

/// The maximum number of fields of a form.
const MOST_FIELDS: usize = 5;

/// The form of a field.
#[derive(Clone, Copy, Drop)]
pub enum Field {
    /// This word.
    Word(&'static [u8]),
    /// A number in this range.
    Number { least: u64, greatest: u64 },
}

/// The numbers of a line, seen as a list. They are held in place, so it takes no memory.
#[derive(Drop)]
pub struct NumberFields {
    values: [u64; MOST_FIELDS],
    len: usize,
}

impl Model for NumberFields {
    ghost use Rattle.std.specs.Prelude.{ℕ, List, ◌≤◌, take};

    ghost Value = { List ℕ };

    ghost view = { λ s. take s.len s.values };

    ghost invariant = { λ s. s.len ≤ 5 };
}

impl NumberFields {
    /// Makes an empty list of numbers.
    fn new() -> Self
        ensures { result ≡ [] }
    {
        NumberFields {
            values: [0; MOST_FIELDS],
            len: 0,
        }
    }

    /// Adds a number. Fewer than five are there.
    fn push(&mut self, number: u64)
        requires { length self.old < 5 }
        ensures { self.new ≡ self.old ++ number ∷ [] }
    {
        self.values[self.len] = number;
        self.len += 1;
    }

    /// Returns the number at `place`, or 0 if there is none.
    pub fn at(&self, place: usize) -> u64
        ensures { result ≡ slice_index self.now place }
    {
        if place < self.len {
            self.values[place]
        } else {
            0
        }
    }
}

/// Returns the first field, and the bytes after it, if there are any.
fn first_field(bytes: &[u8]) -> (&[u8], Option<&[u8]>)
    ensures { fields_of bytes.now ≡ result.0.now ∷ fields_left result.1 }
{
    match split_field(bytes) {
        Some((field, others)) => (field, Some(others)),
        None => (bytes, None),
    }
}

/// Returns whether the field is of this form.
fn is_field_of(form: Field, field: &[u8]) -> bool
    ensures { result ≡ wanted.is_field_of (form_of form) field.now }
{
    match form {
        Field::Word(word) => field == word,
        Field::Number { .. } => true,
    }
}

/// Returns whether the line has one field for each of these forms.
fn fits(forms: &[Field], bytes: &[u8]) -> bool
    ensures { result ≡ wanted.fits (map form_of forms.now) (fields_of bytes.now) }
{
    let mut left = Some(bytes);
    for form in forms {
        let Some(rest) = left else {
            return false;
        };
        let (field, others) = first_field(rest);
        if !is_field_of(*form, field) {
            return false;
        }
        left = others;
    }
    left.is_none()
}

/// Parses the number fields of a line, or returns their first fault.
fn numbers_in(line: u64, forms: &[Field], bytes: &[u8]) -> Result<NumberFields, TextFault>
    requires { length forms.now ≤ 5 }
    ensures value { result ≡ wanted.numbers_in line (map form_of forms.now) (fields_of bytes.now) }
    ensures of_line { IfErr result IsLineFault }
{
    let mut numbers = NumberFields::new();
    let mut left = Some(bytes);
    for form in forms {
        let Some(rest) = left else {
            break;
        };
        let (field, others) = first_field(rest);
        if let Field::Number { least, greatest } = form {
            numbers.push(number_between(line, *least, *greatest, field)?);
        }
        left = others;
    }
    Ok(numbers)
}

/// Parses a line by the first form of a table that its fields fit. Returns the row's item and the line's numbers, or
/// the first fault of its fields.
///
/// If no form fits, the line is at fault. Otherwise its numbers are judged from left to right.
pub fn parse_line<T: Copy>(
    line: u64,
    table: &[(T, &[Field])],
    bytes: &[u8],
) -> Result<(T, NumberFields), TextFault>
    requires { has_short_forms (map row_of table.now) ≡ true }
    ensures value { result ≡ wanted.parse_line line (map row_of table.now) (fields_of bytes.now) }
    ensures of_line { IfErr result IsLineFault }
{
    for row in table {
        if fits(row.1, bytes) {
            let numbers = numbers_in(line, row.1, bytes)?;
            return Ok((row.0, numbers));
        }
    }
    Err(TextFault::Line(line))
}
