//! The lines before the events: the first one, the count of the initial values, and each of these.
ghost use Rattle.std.specs.Prelude.{◌≡◌, MatchOption};
ghost use Rattle.std.proofs.Common.{lit≤};
ghost use Rattle.text_lines.specs.Lines.{fields_of};
ghost use Rattle.history_text.specs.Inner.Taking.{count_format};
ghost use Rattle.history_text.specs.Versions as wanted;
ghost use Rattle.history_text.specs.Versions.{value_format, header_of};

use crate::event_line::VALUE;
use crate::item::Item;
use crate::version::Version;
use event_records::MAX_INITIAL;
use text_lines::{Field, TextFault, after_word_at, number_at};

/// Returns the version that begins with this line.
pub(crate) fn version_in(bytes: &[u8]) -> Option<Version>
    ensures { MatchOption result ((version : Version) → bytes.now ≡ header_of version → ⊥)
        (λ version. bytes.now ≡ header_of version) }
{
    if bytes == b"fifo-history 1".as_slice() {
        Some(Version::One)
    } else if bytes == b"fifo-history 2".as_slice() {
        Some(Version::Two)
    } else {
        None
    }
}

/// The form of the line that counts the initial values.
const COUNT_FORMS: [((), &[Field]); 1] = [(
    (),
    &[
        Field::Word(b"initial"),
        Field::Number {
            least: 0,
            greatest: MAX_INITIAL as u64,
        },
    ],
)];

/// The form of the line of an initial value.
const VALUE_FORMS: [((), &[Field]); 1] = [((), &[VALUE])];

/// Returns whether the line is empty.
#[tactic(auto, using(crate::proofs::FormLines::blank_line))]
fn is_blank(bytes: &[u8]) -> bool
    ensures { result ≡ wanted.is_blank (fields_of bytes.now) }
{
    bytes.is_empty()
}

impl Item for usize {
    ghost format = { count_format };

    fn from_line(line: u64, bytes: &[u8]) -> Result<usize, TextFault> {
        let (_, numbers) = text_lines::parse_line(line, &COUNT_FORMS, bytes)?;
        Ok(numbers.at(0) as usize)
    }

    ghost few = { lit≤ tt };

    fn limits() -> (usize, bool) {
        (1, false)
    }
}

impl Item for u64 {
    ghost format = { value_format };

    fn from_line(line: u64, bytes: &[u8]) -> Result<u64, TextFault> {
        if is_blank(bytes) {
            return Err(TextFault::Line(line));
        }
        let (_, numbers) = text_lines::parse_line(line, &VALUE_FORMS, bytes)?;
        Ok(numbers.at(0))
    }

    #[inline(always)]
    fn at_front(bytes: &[u8], _digits: &mut usize) -> Option<(u64, usize)> {
        let (value, at) = number_at(bytes, 0)?;
        let at = after_word_at(bytes, at, b"\n")?;
        Some((value, at))
    }

    ghost few = { lit≤ tt };

    fn limits() -> (usize, bool) {
        (MAX_INITIAL, false)
    }
}
