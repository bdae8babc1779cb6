// Events noted by a question or a stamp.
ghost use Rattle.std.specs.Prelude.{◌≡◌};

use crate::event::Event;
use std::marker::Model;

/// One event that a question or a stamp noted, to be pushed once.
///
/// It isn't `Clone`, and only a question or a stamp makes one. So a return that it holds was answered.
#[derive(Debug, Drop)]
pub struct Noted {
    event: Event,
}

impl Model for Noted {
    ghost use Rattle.event_records.specs.declared.event.Event.{Event};

    ghost Value = { Event };

    ghost view = { λ n. n.event };
}

impl Noted {
    pub(crate) fn of(event: Event) -> Noted
        ensures { result ≡ event }
    {
        Noted { event }
    }

    /// Returns the event.
    pub fn event(&self) -> Event
        ensures { result ≡ self.now }
    {
        self.event
    }
}
