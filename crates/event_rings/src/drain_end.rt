// The end of a ring that the collector drains, and seals with the close token.
ghost use Rattle.std.specs.Prelude.{◌≡◌, ◌≤◌, ◌++◌, length, take, OnOk, OnErr};
ghost use Rattle.rtrb.specs.Ring.{received, known_items, SameConsumer};

use crate::push_end::CloseToken;
use event_records::{Event, ThreadNo, What};
use rtrb::Consumer;
use std::alloc::{AllocError, Global};
use std::marker::Model;
use thiserror::Error;

// The event at a place of a list until another is moved there.
const BLANK: Event = Event {
    ticket: 0,
    thread: 0,
    what: What::CallDeq,
};

/// The end of a thread's ring that drains events. A collector holds it.
#[derive(Drop)]
pub struct DrainEnd {
    thread: ThreadNo,
    consumer: Consumer<Event>,
    alloc: Global,
}

impl Model for DrainEnd {
    ghost use Rattle.event_rings.specs.Ring.{DrainView, ring_of_consumer};
    ghost use Rattle.rtrb.specs.Ring.{received};

    ghost Value = { DrainView };

    ghost view = { λ d. record {
      ring = ring_of_consumer d.consumer;
      thread = d.thread;
      received = received d.consumer;
    } };
}

/// All events that were sent through a closed ring and not drained before, oldest first.
#[derive(Drop)]
pub struct Sealed {
    events: Vec<Event>,
}

impl Model for Sealed {
    ghost use Rattle.std.specs.Prelude.{List};
    ghost use Rattle.event_records.specs.declared.event.Event.{Event};

    ghost Value = { List Event };

    ghost view = { λ s. s.events.items };
}

/// The reason why a ring was not sealed. Events left in it are lost.
#[derive(Debug, Drop, Error)]
pub enum FinishFault {
    /// The token is of another thread's ring.
    #[error("Uncertified")]
    Uncertified,
    /// There was no memory for the events that are left.
    #[error("Memory")]
    Memory,
}

impl Sealed {
    /// Returns the events, oldest first.
    pub fn into_events(self) -> Vec<Event>
        ensures { result.items ≡ self }
    {
        let Sealed { events } = self;
        events
    }
}

impl DrainEnd {
    ghost use Rattle.std.specs.Prelude.{◌≡◌, ◌≤◌, ◌++◌, vec_len, IfOk, IfErr, OnErr, length, ◌≢◌};
    ghost use Rattle.event_rings.specs.Ring.{ring_of_consumer, DrainsInto};
    ghost use Rattle.event_rings.specs.declared.drain_end.FinishFault.TheVariants.{Uncertified, Memory};
    ghost use Rattle.event_records.specs.declared.limits.TheConstants.{MAX_RING};
    ghost use Rattle.rtrb.specs.Ring.{received};

    pub(crate) fn over(alloc: Global, thread: ThreadNo, consumer: Consumer<Event>) -> DrainEnd
        ensures { result ≡ record { ring = ring_of_consumer consumer; thread = thread; received = received consumer } }
    {
        DrainEnd {
            alloc,
            thread,
            consumer,
        }
    }

    /// Returns the thread of the ring.
    pub fn thread(&self) -> ThreadNo
        ensures { result ≡ self.now.thread }
    {
        self.thread
    }

    /// Takes all events that it sees in the ring out of it, but at most `max`, oldest first.
    ///
    /// Memory for them is reserved first. If it runs out, the events are all still in the ring.
    pub fn drain(&mut self, max: usize) -> Result<Vec<Event>, AllocError>
        requires { max ≤ MAX_RING }
        ensures drained { IfOk result
            (λ events. self.new ≡ record self.old { received = self.old.received ++ events.items }) }
        ensures most { IfOk result (λ events. vec_len events ≤ max) }
        ensures refused { OnErr result (self.new ≡ self.old) }
    {
        let mut events = Vec::new(self.alloc);
        self.drain_into(&mut events, max)?;
        Ok(events)
    }

    /// Takes events out of the ring as `drain` does, appends them to a list, and returns their number.
    ///
    /// Memory for the events that it sees in the ring is reserved first. If it runs out, the events are all still in
    /// the ring. An empty ring takes no memory.
    pub fn drain_into(&mut self, events: &mut Vec<Event>, max: usize) -> Result<usize, AllocError>
        requires { max ≤ MAX_RING }
        ensures drained { IfOk result (λ n. DrainsInto n self.old self.new events.old.items events.new.items) }
        ensures most { IfOk result (λ n. n ≤ max) }
        ensures refused { OnErr result (self.new ≡ self.old) }
        ensures kept { OnErr result (events.new.items ≡ events.old.items) }
    {
        let count = self.consumer.slots().min(max);
        pop_into(&mut self.consumer, events, count)?;
        Ok(count)
    }

    /// Takes all events that are left, certified by the token that closed the ring.
    ///
    /// `Uncertified` comes if and only if the token is of another thread's ring, and `Memory` if memory for the
    /// events that are left runs out. After either the end is gone.
    pub fn finish(self, token: CloseToken) -> Result<Sealed, FinishFault>
        requires { token.thread ≡ self.thread → token.ring ≡ self.ring }
        ensures sealed { IfOk result (λ sealed. self.received ++ sealed ≡ token.sent) }
        ensures certified { IfOk result (λ _. token.thread ≡ self.thread) }
        ensures uncertified { IfErr result (λ fault. fault ≡ Uncertified → token.thread ≢ self.thread) }
        ensures memory { IfErr result (λ fault. fault ≡ Memory → token.thread ≡ self.thread) }
    {
        let DrainEnd {
            alloc,
            thread,
            mut consumer,
        } = self;
        let (closed, mut finished) = token.into_parts();
        if closed.get() != thread.get() {
            return Err(FinishFault::Uncertified);
        }
        let count = consumer.slots_after(&mut finished);
        let mut events = Vec::new(alloc);
        match pop_into(&mut consumer, &mut events, count) {
            Ok(()) => Ok(Sealed { events }),
            Err(_) => Err(FinishFault::Memory),
        }
    }
}

// Moves the next `count` events from the ring to the end of the list. Memory for them is reserved before any leaves
// the ring, and all their places become free for the other end at once.
fn pop_into(
    consumer: &mut Consumer<Event>,
    events: &mut Vec<Event>,
    count: usize,
) -> Result<(), AllocError>
    requires known { count ≤ length (known_items consumer.old) }
    ensures ring { SameConsumer consumer.old consumer.new }
    ensures moved { OnOk result (events.new.items ≡ events.old.items ++ take count (known_items consumer.old)) }
    ensures received { OnOk result
        (received consumer.new ≡ received consumer.old ++ take count (known_items consumer.old)) }
    ensures refused { OnErr result ((consumer.new ≡ consumer.old) × (events.new.items ≡ events.old.items)) }
{
    let start = events.len();
    events.resize(start + count, BLANK)?;
    consumer.pop_entire_slice(&mut events[start..]).unwrap();
    Ok(())
}
