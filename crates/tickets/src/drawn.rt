// A ticket, which is used at most once.
use crate::source::Tickets;
use std::marker::Model;
use std::snapshot::Snapshot;

/// A ticket that a pass drew. The first one is 0.
///
/// It is not `Clone`, so a function that takes it by value uses it up. It may be dropped unused; then no event has its
/// number. Contracts also see the word that it was drawn from, by the key of that word's `Tickets`.
#[derive(Drop)]
pub struct Drawn {
    pub(crate) ticket: u64,
    pub(crate) tickets: Snapshot<Tickets>,
}

impl Model for Drawn {
    ghost use Rattle.tickets.specs.Views.{DrawnView};

    ghost Value = { DrawnView };

    ghost view = { λ d. record { key = d.tickets.value.key; ticket = d.ticket } };
}

impl Drawn {
    ghost use Rattle.std.specs.Prelude.{◌≡◌};

    /// Returns the number of the ticket.
    pub fn ticket(&self) -> u64
        ensures { result ≡ self.now.ticket }
    {
        self.ticket
    }
}
