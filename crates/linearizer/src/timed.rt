ghost use Rattle.std.specs.Prelude.{◌≡◌, ◌+◌, ◌*◌, ◌<◌, All, length, take};
ghost use Rattle.history_merge.specs.declared.packed.TheConstants.{PACKED_LIMIT};
ghost use Rattle.linearizer.specs.declared.timed.TheConstants.{PLACES};
ghost use Rattle.linearizer.specs.Inner.Sweep.{IsFirstLeft, IsTaken};

use std::marker::Model;

/// The number of places that fit into a packed word: it gives a place 24 bits, and leaves 40 for the time.
pub(crate) const PLACES: u64 = 1 << 24;

/// A value or an operation by its place, with one of its times.
#[derive(Clone, Copy)]
pub(crate) struct Timed {
    pub(crate) time: u64,
    pub(crate) place: usize,
}

/// A time and a place packed into one word, seen as both.
#[derive(Clone, Copy)]
pub(crate) struct PackedTimed {
    // The time in the upper bits, the place in the lower ones.
    word: u64,
}

impl Model for PackedTimed {
    ghost use Rattle.std.specs.Prelude.{◌+◌, ◌*◌, ◌/◌, ◌%◌};
    ghost use Rattle.linearizer.specs.declared.timed.Timed.{Timed};
    ghost use Rattle.linearizer.specs.declared.timed.TheConstants.{PLACES};
    ghost use Rattle.linearizer.specs.Inner.Sweep.{back_joined};

    ghost Value = { Timed };

    ghost view = { λ a. record { time = a.word / PLACES; place = a.word % PLACES } };

    ghost inverse = { λ timed. record { word = PLACES * timed.time + timed.place } };

    ghost inverse_ok = { λ a h t. record { word = back_joined a.word t } };
}

impl PackedTimed {
    #[inline(always)]
    pub(crate) fn new(timed: Timed) -> PackedTimed
        requires time { timed.time < PACKED_LIMIT }
        requires place { timed.place < PLACES }
        ensures { result ≡ timed }
    {
        PackedTimed {
            word: PLACES * timed.time + timed.place as u64,
        }
    }

    /// Returns the packed word. Words compare by time, then by place.
    #[inline(always)]
    pub(crate) fn word(self) -> u64
        ensures { result ≡ PLACES * self.time + self.place }
    {
        self.word
    }

    /// Returns the place alone.
    #[inline(always)]
    pub(crate) fn place(self) -> u32
        ensures { result ≡ self.place }
    {
        (self.word % PLACES) as u32
    }

    #[inline(always)]
    pub(crate) fn unpack(self) -> Timed
        ensures { result ≡ self }
    {
        Timed {
            time: self.word / PLACES,
            place: (self.word % PLACES) as usize,
        }
    }
}

/// Returns the index of the first entry whose value is left, or the number of entries if none is. All entries before
/// `from` are taken.
pub(crate) fn first_left(entries: &[PackedTimed], taken: &[bool], from: usize) -> usize
    requires flagged { All (λ entry. entry.place < length taken.now) entries.now }
    requires before { All (IsTaken taken.now) (take from entries.now) }
    ensures { IsFirstLeft entries.now taken.now result }
{
    let mut first = from;
    while first < entries.len() && taken[entries[first].unpack().place] {
        first += 1;
    }
    first
}
