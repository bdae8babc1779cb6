ghost use Rattle.std.specs.Prelude.{◌≡◌, ◌<◌, SomeIff};
ghost use Rattle.event_records.specs.declared.limits.TheConstants.{MAX_THREADS};

use crate::limits::MAX_THREADS;
use std::marker::Model;

/// The number of a thread: 0 to 63.
#[derive(Clone, Copy, Debug, PartialEq, Eq)]
pub struct ThreadNo {
    number: u8,
}

impl Model for ThreadNo {
    ghost use Rattle.std.specs.Prelude.{ℕ, ◌<◌};
    ghost use Rattle.event_records.specs.declared.limits.TheConstants.{MAX_THREADS};

    ghost Value = { ℕ };

    ghost view = { λ a. a.number };

    ghost invariant = { λ a. a.number < MAX_THREADS };

    ghost inverse = { λ n. record { number = n } };
}

impl ThreadNo {
    /// Returns the thread of this number, or none if the number is above 63.
    pub fn new(number: u8) -> Option<ThreadNo>
        ensures { SomeIff result (number < MAX_THREADS) number }
    {
        if usize::from(number) < MAX_THREADS {
            Some(ThreadNo { number })
        } else {
            None
        }
    }

    /// Returns the number.
    pub fn get(self) -> u8
        ensures number { result ≡ self }
        ensures in_range { result < MAX_THREADS }
    {
        self.number
    }
}
