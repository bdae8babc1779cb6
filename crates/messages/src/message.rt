//! Messages before they are written.
use crate::quoting::push_shown;
use std::alloc::{AllocError, Global};
use std::fmt::Write;

/// The filling of a blank in a sentence.
#[derive(Clone, Copy)]
pub(crate) enum Blank<'a> {
    /// Words.
    Words(&'a str),
    /// A number, in digits.
    Number(u64),
    /// Bytes of the input, shown in printable ASCII.
    Shown(&'a [u8]),
}

/// A sentence that says what is wrong, and one that says what to do, which may be empty.
#[derive(Drop)]
pub(crate) struct Message {
    pub said: String,
    pub hint: String,
}

/// Appends a number, in digits.
fn push_number(text: &mut String, number: u64) -> Result<(), AllocError> {
    write!(text, "{number}").map_err(|_| AllocError)
}

/// Appends the filling of a blank.
fn push_blank(text: &mut String, blank: &Blank<'_>) -> Result<(), AllocError> {
    match blank {
        Blank::Words(words) => text.push_str(words),
        Blank::Number(number) => push_number(text, *number),
        Blank::Shown(bytes) => push_shown(text, bytes),
    }
}

/// Fills the blanks of a sentence in their order. Each `{}` is a blank.
pub(crate) fn filled(
    alloc: Global,
    sentence: &str,
    blanks: &[Blank<'_>],
) -> Result<String, AllocError> {
    let mut text = String::new(alloc);
    for (place, words) in sentence.split("{}").enumerate() {
        text.push_str(words)?;
        if let Some(blank) = blanks.get(place) {
            push_blank(&mut text, blank)?;
        }
    }
    Ok(text)
}

impl Message {
    /// Builds a message of a sentence, the fillings of its blanks, and the advice, which may be empty.
    pub(crate) fn of(
        alloc: Global,
        sentence: &str,
        blanks: &[Blank<'_>],
        hint: &str,
    ) -> Result<Self, AllocError> {
        let said = filled(alloc, sentence, blanks)?;
        let hint = String::from_str(alloc, hint)?;
        Ok(Message { said, hint })
    }
}
