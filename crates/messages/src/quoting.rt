//! Bytes in printable ASCII.
ghost use Rattle.std.specs.Prelude.{◌≡◌, ◌≤◌, ◌<◌, ◌++◌, All, IfOk, OnOk, string_bytes};
ghost use Rattle.messages.specs.Quoting.{IsPrintable, hex_digit, shown_byte};

use std::alloc::{AllocError, Global};

/// The maximum number of bytes of a line that a message shows.
pub const MOST_QUOTED: usize = 60;

/// Returns the hexadecimal digit of a number below 16.
fn hex_digit(number: u8) -> char
    requires { number < 16 }
    ensures digit { result ≡ hex_digit number }
    ensures printable { IsPrintable result }
{
    char::from(if number < 10 {
        b'0' + number
    } else {
        b'a' + (number - 10)
    })
}

/// Appends a byte: itself if it is printable, else its escape.
fn push_quoted(text: &mut String, byte: u8) -> Result<(), AllocError>
    ensures shown { OnOk result (string_bytes text.new ≡ string_bytes text.old ++ shown_byte byte) }
    ensures printable { All IsPrintable (string_bytes text.old)
        → OnOk result (All IsPrintable (string_bytes text.new)) }
{
    match byte {
        b'\r' => text.push_str("\\r"),
        b'\t' => text.push_str("\\t"),
        b' '..=b'~' => text.push(char::from(byte)),
        _ => {
            text.push_str("\\x")?;
            text.push(hex_digit(byte / 16))?;
            text.push(hex_digit(byte % 16))
        }
    }
}

/// Appends bytes in printable ASCII, others escaped.
fn push_printable(text: &mut String, bytes: &[u8]) -> Result<(), AllocError>
    ensures { All IsPrintable (string_bytes text.old) → OnOk result (All IsPrintable (string_bytes text.new)) }
{
    for byte in bytes {
        push_quoted(text, *byte)?;
    }
    Ok(())
}

/// Appends at most 60 bytes in printable ASCII, followed by three dots if there are more.
pub(crate) fn push_shown(text: &mut String, bytes: &[u8]) -> Result<(), AllocError>
    ensures { All IsPrintable (string_bytes text.old) → OnOk result (All IsPrintable (string_bytes text.new)) }
{
    let shown = &bytes[..bytes.len().min(MOST_QUOTED)];
    push_printable(text, shown)?;
    if shown.len() < bytes.len() {
        text.push_str("...")?;
    }
    Ok(())
}

/// Returns bytes in printable ASCII, others escaped.
pub(crate) fn printable(alloc: Global, bytes: &[u8]) -> Result<String, AllocError>
    ensures { IfOk result (λ text. All IsPrintable (string_bytes text)) }
{
    let mut text = String::new(alloc);
    push_printable(&mut text, bytes)?;
    Ok(text)
}

/// Returns at most 60 bytes in printable ASCII, followed by three dots if there are more.
pub fn quoted(alloc: Global, bytes: &[u8]) -> Result<String, AllocError>
    ensures { IfOk result (λ text. All IsPrintable (string_bytes text)) }
{
    let mut text = String::new(alloc);
    push_shown(&mut text, bytes)?;
    Ok(text)
}
