//! The lines of a text.
ghost use Rattle.std.specs.Prelude.{◌≡◌, ◌<◌, ◌∷◌, [], IfSome, MatchOption, length, map, IfOk};
ghost use Rattle.drawing.specs.Bands.{head_text};
ghost use Rattle.svg_picture.specs.Layout.{line_count, longest, parts};

use drawing::{Band, head_words};
use std::alloc::{AllocError, Global};

/// Returns the bytes before the first line feed, and those after it.
pub(crate) fn split_line(bytes: &[u8]) -> Option<(&[u8], &[u8])>
    ensures parts { MatchOption result (parts bytes.now ≡ bytes.now ∷ [])
        (λ p. parts bytes.now ≡ p.0.now ∷ parts p.1.now) }
    ensures less { IfSome result (λ p. length p.1.now < length bytes.now) }
{
    for (i, b) in bytes.iter().enumerate() {
        if *b == b'\n' {
            return Some((&bytes[..i], &bytes[i + 1..]));
        }
    }
    None
}

/// Returns the number of lines of a text.
pub(crate) fn line_count(text: &[u8]) -> usize
    ensures { result ≡ line_count text.now }
{
    text.iter().filter(|b| **b == b'\n').count()
}

/// Returns the length of the longest line of a text.
pub(crate) fn longest_line(text: &[u8]) -> usize
    ensures { result ≡ longest (parts text.now) }
{
    match split_line(text) {
        None => text.len(),
        Some((line, rest)) => line.len().max(longest_line(rest)),
    }
}

/// Returns the length of the longest head of these bands.
pub(crate) fn longest_head(alloc: Global, bands: &[Band]) -> Result<usize, AllocError>
    ensures { IfOk result (λ longest_head. longest_head ≡ longest (map (λ band. head_text band.head) bands.now)) }
{
    match bands {
        [] => Ok(0),
        [band, rest @ ..] => {
            let words = head_words(alloc, band.head)?;
            let later = longest_head(alloc, rest)?;
            Ok(words.len().max(later))
        }
    }
}
