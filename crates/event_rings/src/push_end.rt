// The end of a ring that a worker pushes into, and the token that closes the ring.
ghost use Rattle.std.specs.Prelude.{◌≡◌};

use event_records::{Event, Noted, ThreadNo};
use rtrb::{Finished, Producer, PushError};
use std::marker::Model;
use thiserror::Error;

/// The end of a thread's ring that pushes events. The thread itself holds it.
#[derive(Drop)]
pub struct PushEnd {
    thread: ThreadNo,
    producer: Producer<Event>,
}

impl Model for PushEnd {
    ghost use Rattle.std.specs.Prelude.{◌≤◌, ◌+◌, length};
    ghost use Rattle.event_rings.specs.Ring.{PushView, ring_of_producer};
    ghost use Rattle.rtrb.specs.Ring.{sent, known_free, producer_capacity};

    ghost Value = { PushView };

    ghost view = { λ p. record {
      ring = ring_of_producer p.producer;
      thread = p.thread;
      capacity = producer_capacity p.producer;
      sent = sent p.producer;
      room = known_free p.producer;
    } };

    ghost invariant = { λ p. producer_capacity p.producer ≤ known_free p.producer + length (sent p.producer) };
}

/// A token that shows all events that a thread pushed. The push end of its ring is gone, so nothing is pushed any
/// more.
#[derive(Drop)]
pub struct CloseToken {
    thread: ThreadNo,
    finished: Finished<Event>,
}

impl Model for CloseToken {
    ghost use Rattle.event_rings.specs.Ring.{TokenView, ring_of_finished};
    ghost use Rattle.rtrb.specs.Ring.{all_sent};

    ghost Value = { TokenView };

    ghost view = { λ t. record { ring = ring_of_finished t.finished; thread = t.thread; sent = all_sent t.finished } };
}

/// The error of a ring that gave no close token. The events pushed are lost.
///
/// The ring below gives none if its drain end was dropped before. No contract says so.
#[derive(Debug, Drop, Error)]
#[error("CloseLost")]
pub struct CloseLost;

impl CloseToken {
    ghost use Rattle.event_rings.specs.Ring.{ring_of_finished};
    ghost use Rattle.rtrb.specs.Ring.{all_sent};

    pub(crate) fn into_parts(self) -> (ThreadNo, Finished<Event>)
        ensures { self ≡ record { ring = ring_of_finished result.1; thread = result.0; sent = all_sent result.1 } }
    {
        let CloseToken { thread, finished } = self;
        (thread, finished)
    }
}

impl PushEnd {
    ghost use Rattle.std.specs.Prelude.{◌≡◌, ◌∷◌, ◌++◌, [], ◌+◌, ◌<◌, ◌≤◌, length, IfOk, IfErr, IsOk, OnOk, OnErr};
    ghost use Rattle.event_rings.specs.Ring.{ring_of_producer};
    ghost use Rattle.rtrb.specs.Ring.{sent, known_free, producer_capacity};

    pub(crate) fn over(thread: ThreadNo, producer: Producer<Event>) -> PushEnd
        requires { producer_capacity producer ≤ known_free producer + length (sent producer) }
        ensures { result ≡ record {
          ring = ring_of_producer producer;
          thread = thread;
          capacity = producer_capacity producer;
          sent = sent producer;
          room = known_free producer;
        } }
    {
        PushEnd { thread, producer }
    }

    /// Returns the thread of the ring.
    pub fn thread(&self) -> ThreadNo
        ensures { result ≡ self.now.thread }
    {
        self.thread
    }

    /// Pushes an event of this thread, or gives it back if it sees no room. Takes no memory.
    ///
    /// The end looks for room that the other end made only if it knows of none itself. So a push fails only after as
    /// many events were sent as the ring has room for.
    pub fn push(&mut self, noted: Noted) -> Result<(), Noted>
        requires { noted.thread ≡ self.old.thread }
        ensures pushed { OnOk result
            (self.new ≡ record self.old { sent = self.old.sent ++ noted ∷ []; room = self.new.room }) }
        ensures room { OnOk result (self.old.room ≤ self.new.room + 1) }
        ensures full { IfErr result (λ back. (back ≡ noted) × (self.new ≡ self.old)) }
        ensures succeeds { 0 < self.old.room → IsOk result }
        ensures filled { OnErr result (self.old.capacity ≤ length self.old.sent) }
    {
        match self.producer.push(noted.event()) {
            Ok(()) => Ok(()),
            Err(PushError::Full(_)) => Err(noted),
        }
    }

    /// Closes the ring. The token shows all events that were sent.
    ///
    /// Takes no memory.
    pub fn close(self) -> Result<CloseToken, CloseLost>
        ensures { IfOk result
            (λ token. (token.ring ≡ self.ring) × (token.thread ≡ self.thread) × (token.sent ≡ self.sent)) }
    {
        let PushEnd { thread, producer } = self;
        match producer.finish() {
            Some(finished) => Ok(CloseToken { thread, finished }),
            None => Err(CloseLost),
        }
    }
}
