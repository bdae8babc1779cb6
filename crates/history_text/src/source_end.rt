//! Reads from a source, up to its end.
ghost use Rattle.std.specs.Prelude.{◌≡◌, ◌+◌, ◌≤◌, [], IfOk, OnErr, length, drop, take};
ghost use Rattle.text_lines.specs.Input.{EndOfInput, Exactly, Failure, Gives, over};
ghost use Rattle.history_text.specs.Inner.Taking.{behind};

use text_lines::{ReadFailed, TextSource};

/// The maximum number of bytes that one read asks a source for.
pub(crate) const BUFFER_LEN: usize = 4096;

/// The state of a source: its end was seen or not. After the end it isn't asked again.
#[derive(Clone, Copy)]
pub(crate) enum SourceEnd {
    NotSeen,
    /// A read gave nothing.
    Over,
    /// A read failed.
    Failed,
}

/// Reads bytes into a buffer at `at`, unless the end of the source was seen. Returns their number.
pub(crate) fn read_at<R: TextSource>(
    source: &mut R,
    end: &mut SourceEnd,
    buffer: &mut [u8],
    at: usize,
) -> Result<usize, ReadFailed>
    requires room { at + BUFFER_LEN ≤ length buffer.old }
    ensures bound { IfOk result (λ n. n ≤ BUFFER_LEN) }
    ensures bytes { IfOk result (λ n. Gives (behind end.old (R.ahead source.old)) (behind end.new (R.ahead source.new))
        (take n (drop at buffer.new))) }
    ensures over { IfOk result (λ n. n ≡ 0 → behind end.new (R.ahead source.new) ≡ Exactly (over EndOfInput)) }
    ensures failed { OnErr result (Gives (behind end.old (R.ahead source.old)) (behind end.new (R.ahead source.new)) []
        × (behind end.new (R.ahead source.new) ≡ Exactly (over Failure))) }
    ensures before { take at buffer.new ≡ take at buffer.old }
    ensures len { length buffer.new ≡ length buffer.old }
{
    match *end {
        SourceEnd::NotSeen => {}
        SourceEnd::Over => return Ok(0),
        SourceEnd::Failed => return Err(ReadFailed),
    }
    let read = source.read(&mut buffer[at..at + BUFFER_LEN]);
    *end = match read {
        Ok(0) => SourceEnd::Over,
        Ok(_) => SourceEnd::NotSeen,
        Err(ReadFailed) => SourceEnd::Failed,
    };
    read
}
