ghost use Rattle.std.specs.Prelude.{◌≡◌, ◌↔◌, if◌then◌else◌, nat_lt, IsTrue, MatchOption, false};
ghost use Rattle.linearizer.specs.Order.{StandsBefore, earlier_dequeues, enqueues, other_dequeues};
ghost use Rattle.linearizer.specs.Inner.Placement.{position_of};

/// The classes of operations within one gap, in their order.
#[derive(Clone, Copy, PartialEq, PartialOrd)]
pub(crate) enum Class {
    /// A dequeue of a value that was enqueued at an earlier gap.
    EarlierDequeue,
    /// An empty dequeue or a failed enqueue.
    Noop,
    /// A successful enqueue.
    Enqueue,
    /// A dequeue of a value that was enqueued at this gap.
    OtherDequeue,
}

/// The position of an operation: its gap, its class within the gap, and its rank within the class.
#[derive(Clone, Copy, PartialEq, PartialOrd)]
pub(crate) struct Position {
    pub(crate) gap: u64,
    pub(crate) class: Class,
    pub(crate) rank: u64,
}

impl Position {
    ghost use Rattle.linearizer.specs.Inner.Placement.{position_of};

    /// Returns the position of the enqueue of the value at `place` in the order of values.
    pub(crate) fn of_enqueue(gap: u64, place: usize) -> Position
        ensures { position_of result ≡ record { gap = gap; class = enqueues; rank = place } }
    {
        Position {
            gap,
            class: Class::Enqueue,
            rank: place as u64,
        }
    }

    /// Returns the position of the dequeue of the value at `place` in the order of values.
    pub(crate) fn of_dequeue(enqueue_gap: u64, gap: u64, place: usize) -> Position
        ensures { position_of result ≡ record {
          gap = gap;
          class = (if nat_lt enqueue_gap gap then earlier_dequeues else other_dequeues);
          rank = place;
        } }
    {
        let class = if enqueue_gap < gap {
            Class::EarlierDequeue
        } else {
            Class::OtherDequeue
        };
        Position {
            gap,
            class,
            rank: place as u64,
        }
    }

    /// Returns whether this position comes after another; false if none is given.
    pub(crate) fn stands_after(self, other: Option<Position>) -> bool
        ensures { MatchOption other (result ≡ false) (λ p. IsTrue result
            ↔ StandsBefore (position_of p) (position_of self)) }
    {
        match other {
            Some(other) => other < self,
            None => false,
        }
    }
}
