//! A history with each of its bytes changed.
use super::outcomes::known;
use history_text::{MemorySource, TextReader, Version, at_end, read_history};
use std::alloc::{AllocError, Global};
use std::test::Fail;

/// A history with a false empty dequeue: the queue was never empty during it.
const TEXT: &[u8] =
    b"fifo-history 1\n0 0 call-enq 7\n1 0 ret-enq\n2 1 call-deq\n3 0 call-enq 9\n4 0 ret-enq\n\
    5 0 call-deq\n6 0 ret-deq 7\n9 1 ret-empty\n10 0 call-deq\n11 0 ret-deq 9\nend 10\n";

/// The text with `#` in place of any digit, and `+` in place of any digit but 0. The text with one byte changed is
/// that of a history if and only if this form allows the byte. The last line counts the events, so its digits are
/// fixed.
const FORMS: &[u8] =
    b"fifo-history 1\n# # call-enq #\n# # ret-enq\n# # call-deq\n# # call-enq #\n# # ret-enq\n\
    # # call-deq\n# # ret-deq #\n# # ret-empty\n+# # call-deq\n+# # ret-deq #\nend 10\n";

/// Returns whether the form allows the byte.
fn is_allowed(form: u8, byte: u8) -> bool {
    match form {
        b'#' => byte.is_ascii_digit(),
        b'+' => byte.is_ascii_digit() && byte != b'0',
        _ => byte == form,
    }
}

/// Returns whether a text is that of a single history, of version 1.
fn is_history(alloc: Global, text: &[u8]) -> Result<bool, AllocError> {
    let mut reader = TextReader::new(MemorySource::new(text));
    match known(read_history(alloc, &mut reader))? {
        Ok((version, _)) => Ok(version == Version::One && at_end(&mut reader).is_ok()),
        Err(_) => Ok(false),
    }
}

/// Returns the number of bytes at this place for which the form is wrong: the text is a history's though the form
/// doesn't allow the byte, or isn't though it does.
fn mistakes_at(alloc: Global, place: usize, form: u8) -> Result<usize, AllocError> {
    let mut changed = Vec::from_slice(alloc, TEXT)?;
    let mut mistakes: usize = 0;
    for byte in 0..=u8::MAX {
        if let Some(there) = changed.get_mut(place) {
            *there = byte;
        }
        if is_history(alloc, &changed)? != is_allowed(form, byte) {
            mistakes = mistakes.saturating_add(1);
        }
    }
    Ok(mistakes)
}

#[test]
fn changed_bytes_are_digits_or_faults(rt: HostRuntime) -> Result<(), Fail> {
    assert!(rt; FORMS.len() == TEXT.len());
    for (place, form) in FORMS.iter().enumerate() {
        assert!(rt; mistakes_at(rt.alloc(), place, *form)? == 0, "at {place}");
    }
    Ok(())
}
