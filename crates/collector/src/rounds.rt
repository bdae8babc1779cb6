// All rings together: rounds of draining, and the seal.
ghost use Rattle.std.specs.Prelude.{◌≡◌, ◌≢◌, ◌≤◌, ◌+◌, IfOk, IfErr, OnOk, OnErr, map, ℕ, true, false};
ghost use Rattle.std.specs.List.{AllZip};
ghost use Rattle.collector.specs.Ends.{AreInOrder, AreFresh, AreOwnUpTo, Drains, Fits, IsFirstForeign};
ghost use Rattle.collector.specs.Ends.{StopsAt, count_received, rings_of, threads_of, threads_of_tokens};
ghost use Rattle.collector.specs.declared.rounds.CollectError.TheVariants.{Memory, Uncertified};
ghost use Rattle.event_records.specs.declared.limits.TheConstants.{MAX_RING};

use crate::drained::Drained;
use event_records::{Event, Lists};
use event_rings::{CloseToken, DrainEnd, FinishFault};
use std::alloc::{AllocError, Global};
use std::marker::Model;
use thiserror::Error;

/// A collector of the events in the rings of threads 0, 1, 2 and so on.
///
/// Contracts see the list of the drain ends, each with all that was received from it, and whether a round ran out of
/// memory.
#[derive(Drop)]
pub struct Collector {
    alloc: Global,
    rings: Vec<Drained>,
    refused: bool,
}

impl Model for Collector {
    ghost use Rattle.collector.specs.Ends.{AreInOrder, CollectorView};

    ghost Value = { CollectorView };

    ghost view = { λ c. record { rings = c.rings.items; refused = c.refused } };

    ghost invariant = { λ c. AreInOrder c.rings.items };
}

/// The reason why the rings were not sealed. There are no lists then, and the rings are gone.
#[derive(Debug, Drop, Error)]
pub enum CollectError {
    /// There was no memory for the list of some thread. The tokens up to that thread's are of the threads of their
    /// places.
    #[error("Memory")]
    Memory,
    /// The token at this thread's place is of another thread's ring, and no token before it is.
    #[error("Uncertified {0}")]
    Uncertified(u8),
}

impl Collector {
    /// Makes a collector of the rings of threads 0, 1, 2 and so on, from which nothing was drained yet.
    pub fn new(alloc: Global, ends: Vec<DrainEnd>) -> Result<Collector, AllocError>
        requires order { AreInOrder ends.items }
        requires fresh { AreFresh ends.items }
        ensures { IfOk result (λ collector. collector ≡ record { rings = ends.items; refused = false }) }
    {
        Collector::with_room(alloc, ends, 0)
    }

    /// Makes a collector with room for `room` events in the list of each ring. Rounds that drain no more than that
    /// take no memory.
    pub fn with_room(
        alloc: Global,
        ends: Vec<DrainEnd>,
        room: usize,
    ) -> Result<Collector, AllocError>
        requires order { AreInOrder ends.items }
        requires fresh { AreFresh ends.items }
        ensures { IfOk result (λ collector. collector ≡ record { rings = ends.items; refused = false }) }
    {
        let rings = all_drained(alloc, ends, room)?;
        Ok(Collector {
            alloc,
            rings,
            refused: false,
        })
    }

    /// Drains at most `max` events from each ring, in order of thread, and returns their number.
    ///
    /// If memory for a ring's events runs out, the round ends there. Events drained before are kept, and that ring
    /// and those after it are unchanged: no event is lost. A later round may succeed.
    pub fn drain_round(&mut self, max: usize) -> Result<u64, AllocError>
        requires { max ≤ MAX_RING }
        ensures rings { rings_of self.new.rings ≡ rings_of self.old.rings }
        ensures drains { AllZip (Drains max) self.old.rings self.new.rings }
        ensures count { IfOk result (λ n. count_received self.new.rings ≡ count_received self.old.rings + n) }
        ensures granted { OnOk result (self.new.refused ≡ self.old.refused) }
        ensures refused { OnErr result (self.new.refused ≡ true) }
        ensures stops { OnErr result (StopsAt max self.old.rings self.new.rings) }
    {
        let drained = drain_each(&mut self.rings, max);
        self.refused |= drained.is_err();
        drained
    }

    /// Returns whether a round ran out of memory. No event was lost by it.
    pub fn was_refused(&self) -> bool
        ensures { result ≡ self.now.refused }
    {
        self.refused
    }

    /// Returns all events that each thread pushed, certified by the close tokens of the rings in order of thread.
    ///
    /// Each list has the events drained before, and then those left in the ring.
    pub fn seal(self, tokens: Vec<CloseToken>) -> Result<Lists, CollectError>
        requires { AllZip Fits self.rings tokens.items }
        ensures sealed { IfOk result (λ lists. lists ≡ map (λ token. token.sent) tokens.items) }
        ensures certified { IfOk result (λ _. threads_of_tokens tokens.items ≡ threads_of self.rings) }
        ensures uncertified { IfErr result
            (λ fault. (thread : ℕ) → fault ≡ Uncertified thread → IsFirstForeign tokens.items thread) }
        ensures memory { IfErr result (λ fault. fault ≡ Memory → AreOwnUpTo tokens.items) }
    {
        let Collector {
            alloc,
            rings,
            refused: _,
        } = self;
        let lists = seal_each(alloc, rings, tokens)?;
        Ok(Lists::from_vec(lists))
    }
}

// Makes the ring of each end, with nothing drained from it yet, and room for this many events.
fn all_drained(alloc: Global, ends: Vec<DrainEnd>, room: usize) -> Result<Vec<Drained>, AllocError>
    requires { AreFresh ends.items }
    ensures { IfOk result (λ rings. rings.items ≡ ends.items) }
{
    let mut rings = Vec::new(alloc);
    for end in ends {
        let ring = Drained::with_room(alloc, end, room)?;
        rings.push(ring)?;
    }
    Ok(rings)
}

// Drains at most `max` events from each ring.
fn drain_each(rings: &mut Vec<Drained>, max: usize) -> Result<u64, AllocError>
    requires few { max ≤ MAX_RING }
    requires order { AreInOrder rings.old.items }
    ensures drains { AllZip (Drains max) rings.old.items rings.new.items }
    ensures order { AreInOrder rings.new.items }
    ensures count { IfOk result (λ n. count_received rings.new.items ≡ count_received rings.old.items + n) }
    ensures stops { OnErr result (StopsAt max rings.old.items rings.new.items) }
{
    let mut total = 0;
    for place in 0..rings.len() {
        // Shows the proof that the place is that of a thread, below `MAX_THREADS`, so that the sum fits.
        let _thread = rings[place].thread();
        total += rings[place].drain(max)?;
    }
    Ok(total)
}

// Seals each ring with the token at its place, up to the first that fails.
fn seal_each(
    alloc: Global,
    rings: Vec<Drained>,
    tokens: Vec<CloseToken>,
) -> Result<Vec<Vec<Event>>, CollectError>
    requires fits { AllZip Fits rings.items tokens.items }
    requires order { AreInOrder rings.items }
    ensures sealed { IfOk result
        (λ lists. map (λ list. list.items) lists.items ≡ map (λ token. token.sent) tokens.items) }
    ensures certified { IfOk result (λ _. threads_of_tokens tokens.items ≡ threads_of rings.items) }
    ensures uncertified { IfErr result
        (λ fault. (thread : ℕ) → fault ≡ Uncertified thread → IsFirstForeign tokens.items thread) }
    ensures memory { IfErr result (λ fault. fault ≡ Memory → AreOwnUpTo tokens.items) }
{
    let mut lists = Vec::new(alloc);
    let mut left = tokens.into_iter();
    for ring in rings {
        let Some(token) = left.next() else {
            break;
        };
        let events = match seal_one(ring, token) {
            Ok(events) => events,
            Err(fault) => return Err(fault),
        };
        lists.push(events).map_err(|_| CollectError::Memory)?;
    }
    Ok(lists)
}

// Returns all events that the ring's thread pushed, certified by its close token.
fn seal_one(ring: Drained, token: CloseToken) -> Result<Vec<Event>, CollectError>
    requires { Fits ring token }
    ensures sealed { IfOk result (λ events. events.items ≡ token.sent) }
    ensures certified { IfOk result (λ _. token.thread ≡ ring.thread) }
    ensures uncertified { IfErr result
        (λ fault. (thread : ℕ) → fault ≡ Uncertified thread → (thread ≡ ring.thread) × (token.thread ≢ ring.thread)) }
    ensures memory { IfErr result (λ fault. fault ≡ Memory → token.thread ≡ ring.thread) }
{
    let thread = ring.thread();
    match ring.seal(token) {
        Ok(events) => Ok(events),
        Err(FinishFault::Memory) => Err(CollectError::Memory),
        Err(FinishFault::Uncertified) => Err(CollectError::Uncertified(thread)),
    }
}
