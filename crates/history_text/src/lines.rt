//! Writing lines one after another, while the end of the text is held back.
ghost use Rattle.std.specs.Prelude.{◌≡◌, ◌+◌, ◌≤◌, ◌++◌, List, ℕ, length, OnOk, All};
ghost use Rattle.std.specs.List.{flat_map};
ghost use Rattle.text_lines.specs.Writing.{Puts, PutsText};

use text_lines::{TextSink, WriteBuffer, WriteFault, make_room};

/// A writer of items, one to a line.
pub(crate) trait WritesLine<T> {
    /// The line of an item, if it has one.
    ghost line: { Self → T → List ℕ };

    /// Holds if an item whose line was written may be in a text.
    ghost Fits: { Self → T → Type 0 };

    /// Appends the item's line to the bytes that are held back.
    fn push(&self, item: &T, kept: &mut WriteBuffer)
        requires { length kept.old + 96 ≤ 4096 }
        ensures line { kept.new ≡ kept.old ++ line self.now item.now }
        ensures fits { Fits self.now item.now };
}

/// Writes the line of an item.
#[inline(always)]
pub(crate) fn put_one<T, L: WritesLine<T>, W: TextSink>(
    lines: &L,
    item: &T,
    kept: &mut WriteBuffer,
    writer: &mut W,
) -> Result<(), WriteFault>
    ensures text { PutsText W.contents W.has_refused W.transition kept.old kept.new
        (L.line lines.now item.now) writer.old writer.new result }
    ensures fits { OnOk result (L.Fits lines.now item.now) }
{
    make_room(kept, writer)?;
    lines.push(item, kept);
    Ok(())
}

/// Writes the lines of the items, in order.
pub(crate) fn put_each<T, L: WritesLine<T>, W: TextSink>(
    lines: &L,
    items: &[T],
    kept: &mut WriteBuffer,
    writer: &mut W,
) -> Result<(), WriteFault>
    ensures text { PutsText W.contents W.has_refused W.transition kept.old kept.new
        (flat_map (L.line lines.now) items.now) writer.old writer.new result }
    ensures fits { OnOk result (All (L.Fits lines.now) items.now) }
{
    for item in items {
        put_one(lines, item, kept, writer)?;
    }
    Ok(())
}
