// The ring of one thread, with the events drained from it.
ghost use Rattle.std.specs.Prelude.{◌≡◌, ◌≢◌, ◌≤◌, ◌<◌, ◌+◌, IfOk, IfErr, OnErr, [], length};
ghost use Rattle.collector.specs.Ends.{Fits, Drains};
ghost use Rattle.event_rings.specs.declared.drain_end.FinishFault.TheVariants.{Uncertified, Memory};
ghost use Rattle.event_records.specs.declared.limits.TheConstants.{MAX_RING, MAX_THREADS};

use event_records::Event;
use event_rings::{CloseToken, DrainEnd, FinishFault};
use std::alloc::{AllocError, Global};
use std::marker::Model;

/// The ring of one thread, with all events drained from it, oldest first.
#[derive(Drop)]
pub(crate) struct Drained {
    end: DrainEnd,
    events: Vec<Event>,
}

impl Model for Drained {
    ghost use Rattle.std.specs.Prelude.{◌≡◌};
    ghost use Rattle.event_rings.specs.Ring.{DrainView};

    ghost Value = { DrainView };

    ghost view = { λ d. d.end };

    ghost invariant = { λ d. d.events.items ≡ d.end.received };
}

impl Drained {
    // Makes the ring of an end, and a list with room for this many events.
    pub(crate) fn with_room(
        alloc: Global,
        end: DrainEnd,
        room: usize,
    ) -> Result<Drained, AllocError>
        requires { end.received ≡ [] }
        ensures { IfOk result (λ ring. ring ≡ end) }
    {
        let events = Vec::with_capacity(alloc, room)?;
        Ok(Drained { end, events })
    }

    // Returns the thread of the ring.
    pub(crate) fn thread(&self) -> u8
        ensures value { result ≡ self.now.thread }
        ensures small { result < MAX_THREADS }
    {
        self.end.thread().get()
    }

    // Drains at most `max` events, and returns their number. Memory for them is reserved before any leaves the ring.
    pub(crate) fn drain(&mut self, max: usize) -> Result<u64, AllocError>
        requires { max ≤ MAX_RING }
        ensures drains { Drains max self.old self.new }
        ensures count { IfOk result (λ n. length self.new.received ≡ length self.old.received + n) }
        ensures few { IfOk result (λ n. n ≤ MAX_RING) }
        ensures refused { OnErr result (self.new ≡ self.old) }
    {
        let drained = self.end.drain_into(&mut self.events, max)?;
        Ok(drained as u64)
    }

    // Returns all events that the thread pushed, certified by its close token.
    pub(crate) fn seal(self, token: CloseToken) -> Result<Vec<Event>, FinishFault>
        requires { Fits self token }
        ensures sealed { IfOk result (λ events. events.items ≡ token.sent) }
        ensures certified { IfOk result (λ _. token.thread ≡ self.thread) }
        ensures uncertified { IfErr result (λ fault. fault ≡ Uncertified → token.thread ≢ self.thread) }
        ensures memory { IfErr result (λ fault. fault ≡ Memory → token.thread ≡ self.thread) }
    {
        let Drained { end, mut events } = self;
        let sealed = end.finish(token)?;
        let mut rest = sealed.into_events();
        match events.append(&mut rest) {
            Ok(()) => Ok(events),
            Err(_) => Err(FinishFault::Memory),
        }
    }
}
