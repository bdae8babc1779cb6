ghost use Rattle.std.specs.Prelude.{◌≡◌, ◌+◌, ◌≤◌, ◌∷◌, ◌++◌, [], length, decimal, OnOk};
ghost use Rattle.text_lines.specs.Writing.{PutsText};

use crate::in_place::InPlace;
use crate::sink::{TextSink, WriteFault, write_piece};

/// The maximum number of bytes held back before they are written.
pub(crate) const BUFFER_LEN: usize = 4096;

/// Room for a line of four numbers of 64 bits and a word.
const LINE_ROOM: usize = 96;

/// The bytes of a text that are held back, so that many lines are written at once. Contracts see the list of them.
pub type WriteBuffer = InPlace<BUFFER_LEN>;

impl InPlace<BUFFER_LEN> {
    /// Appends a number in decimal digits, at most 20.
    #[inline(always)]
    pub fn push_number(&mut self, number: u64)
        requires { length self.old + 20 ≤ 4096 }
        ensures digits { self.new ≡ self.old ++ decimal number }
        ensures short { length self.new ≤ length self.old + 20 }
    {
        self.push_decimal(number);
    }

    /// Appends a number field, and the space after it.
    #[inline(always)]
    pub fn push_field(&mut self, number: u64)
        requires { length self.old + 21 ≤ 4096 }
        ensures field { self.new ≡ self.old ++ (decimal number ++ 32 ∷ []) }
        ensures short { length self.new ≤ length self.old + 21 }
    {
        self.push_number(number);
        self.push(b" ");
    }
}

/// Makes room for one more line among the bytes that are held back. If there is none, these are written.
pub fn make_room<W: TextSink>(kept: &mut WriteBuffer, writer: &mut W) -> Result<(), WriteFault>
    ensures text { PutsText W.contents W.has_refused W.transition kept.old kept.new [] writer.old writer.new result }
    ensures room { OnOk result (length kept.new + 96 ≤ 4096) }
{
    if kept.len() + LINE_ROOM <= BUFFER_LEN {
        return Ok(());
    }
    write_piece(kept.as_slice(), writer)?;
    kept.clear();
    Ok(())
}
