//! Text made of pieces, and lines of words at columns.
ghost use Rattle.std.specs.Prelude.{◌≡◌, ◌++◌, OnOk, decimal};
ghost use Rattle.text_lines.specs.Lines.{line};
ghost use Rattle.drawing.specs.Words.{placed};
ghost use Rattle.drawing.specs.Captions.{moment_text};

use itoa::Buffer;
use std::alloc::AllocError;

/// The result of adding to a text. The only error is out of memory.
pub type Added = Result<(), AllocError>;

/// Appends a word at a column of a line, after blanks up to it. An empty word adds nothing.
pub(crate) fn place(line: &mut Vec<u8>, column: usize, word: &[u8]) -> Added
    ensures { OnOk result (line.new.items ≡ placed line.old.items (record { column = column; bytes = word.now })) }
{
    if word.is_empty() {
        return Ok(());
    }
    let from = line.len();
    line.resize(column.max(from), b' ')?;
    line.extend_from_slice(word)
}

/// Appends the digits of a number.
pub(crate) fn push_number(text: &mut Vec<u8>, number: u64) -> Added
    ensures { OnOk result (text.new.items ≡ text.old.items ++ decimal number) }
{
    let mut buffer = Buffer::new();
    text.extend_from_slice(buffer.format(number).as_bytes())
}

/// Appends the moment of this ticket, or the one before all tickets.
pub(crate) fn push_moment(text: &mut Vec<u8>, ticket: Option<u64>) -> Added
    ensures { OnOk result (text.new.items ≡ text.old.items ++ moment_text ticket) }
{
    match ticket {
        None => text.extend_from_slice(b"the start"),
        Some(ticket) => {
            text.extend_from_slice(b"ticket ")?;
            push_number(text, ticket)
        }
    }
}

/// Appends a line to a text: these bytes, and a line feed.
pub fn push_line(text: &mut Vec<u8>, bytes: &[u8]) -> Added
    ensures { OnOk result (text.new.items ≡ text.old.items ++ line bytes.now) }
{
    text.extend_from_slice(bytes)?;
    text.push(b'\n')?;
    Ok(())
}
