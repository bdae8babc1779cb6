//! Items of texts: events, steps or operations, one to a line.
ghost use Rattle.std.specs.Prelude.{◌≡◌, ◌≤◌, ◌&&◌, ◌++◌, length, drop, IfOk, IfErr, IfSome};
ghost use Rattle.event_records.specs.declared.limits.TheConstants.{MAX_EVENTS};
ghost use Rattle.text_lines.specs.Lines.{IsLineFault, fields_of, begins_as_end};
ghost use Rattle.history_text.specs.Items as wanted;
ghost use Rattle.history_text.specs.Items.{Format, line_of};
ghost use Rattle.history_text.specs.Inner.Taking.{IsSpelled, IsItemLine};

use text_lines::{TextFault, end_in};

/// The longest prefix of a line that the fast path reads.
pub(crate) const ROOM: usize = 64;

/// An item of a text, which has a line of its own.
pub(crate) trait Item: Drop {
    /// The format of texts that list these items.
    ghost format: { Format Self };

    /// Returns the maximum number of items of a text, and whether a last line counts them. Otherwise the items
    /// continue to the end of the input.
    fn limits() -> (usize, bool)
        ensures most { result.0 ≡ format.most }
        ensures is_counted { result.1 ≡ format.is_counted };

    /// Parses the item of a whole line, or returns the first fault of its fields.
    fn from_line(line: u64, bytes: &[u8]) -> Result<Self, TextFault>
        ensures value { result ≡ format.read line (fields_of bytes.now) }
        ensures of_line { IfErr result IsLineFault }
        ensures spelled { IfOk result (IsSpelled format (fields_of bytes.now)) };

    /// Fast path: parses the item whose line is whole at the front of `bytes`. Returns it with the place after the
    /// line.
    ///
    /// It need not parse each valid line, since `from_line` parses the others, but it parses no invalid one. It may
    /// parse only lines whose first number has as many digits as that of the previous line, so that it doesn't depend
    /// on finding their length.
    fn at_front(bytes: &[u8], digits: &mut usize) -> Option<(Self, usize)>
        requires { ROOM ≤ length bytes.now }
        ensures { IfSome result (λ p. (bytes.now ≡ line_of format p.0 ++ drop p.1 bytes.now) × format.HasLine p.0) }
    {
        let _ = bytes;
        let _ = *digits;
        None
    }

    /// No text has more items than this, so its lines can be counted.
    ghost few: { format.most ≤ MAX_EVENTS };
}

/// Returns whether this is a last line, which counts the lines before it.
fn is_last<T: Item>(bytes: &[u8]) -> bool
    ensures { result ≡ (T.format.is_counted && begins_as_end bytes.now) }
{
    let (_, is_counted) = T::limits();
    is_counted && bytes.starts_with(b"end ")
}

/// Parses a whole line after this many items. Returns its item, or none if it is the last line.
pub(crate) fn item_in<T: Item>(
    line: u64,
    count: usize,
    bytes: &[u8],
) -> Result<Option<T>, TextFault>
    ensures value { result ≡ wanted.item_in T.format line count bytes.now }
    ensures of_line { IfErr result IsLineFault }
    ensures spelled { IfOk result (IsItemLine T.format count bytes.now) }
{
    if is_last::<T>(bytes) {
        return match end_in(line, count, &bytes[4..]) {
            Ok(()) => Ok(None),
            Err(fault) => Err(fault),
        };
    }
    let (most, _) = T::limits();
    if count >= most {
        return Err(TextFault::Limit(line));
    }
    match T::from_line(line, bytes) {
        Ok(item) => Ok(Some(item)),
        Err(fault) => Err(fault),
    }
}
