// A ring beside the ticket word: a bounded queue with two ends, each of which one thread has at a time.
//
// It is the queue of Lamport (1983): a ring with one cell more than values have room for, and two positions. The tail
// end writes a value into its next cell, and then the next position; the head end reads a value, and then writes the
// next position, which frees the cell. So the queue is empty if both positions are the same, and full if the tail's
// next one is the head's.
ghost use Rattle.std.specs.Prelude.{◌≡◌, ◌≢◌, ◌+◌, ◌%◌, ◌<◌, ◌≤◌, [], ◌∷◌, ◌++◌, Contains, ℕ, Bool, Option};
ghost use Rattle.std.specs.Prelude.{Some, None, IfNone, IfSome, false};
ghost use Rattle.atomic_table.specs.Table.{Step};
ghost use Rattle.tickets.specs.declared.TheConstants.{TICKET_LIMIT};
ghost use Rattle.tickets.specs.declared.account.Holding.{Holding};
ghost use Rattle.tickets.specs.declared.account.Next.TheVariants.{Unknown, There, Holds};
ghost use Rattle.tickets.specs.Inner.Ring.{ends, with_ends, position, IsTailAt, IsHeadAt, stages, reads};
ghost use Rattle.tickets.specs.Inner.Ring.{Glances, Publishes, HasRoom, FindsOne, Frees, PutsOne, TakesOne};

use crate::account::{EndsApart, Holding, Reads, Stages, TakesEnds};
use crate::pass::Pass;
use crate::source::Tickets;
use atomic_table::{Play, Seat};
use std::marker::{Brand, Model};

// The word of the tail's position, after the ticket word.
const PUT: usize = 1;

// The word of the head's position.
const TAKEN: usize = 2;

// The word of the first cell.
const CELLS: usize = 3;

/// The right to enqueue values in the ring beside a ticket word.
///
/// One thread at a time can use it. Its view is the key of that word.
#[derive(Drop)]
pub struct TailEnd {
    seat: Seat<(), Holding>,
    place: TailPlace,
}

impl Model for TailEnd {
    ghost use Rattle.std.specs.Prelude.{◌≡◌, ◌+◌, ◌≤◌, [], None};
    ghost use Rattle.tickets.specs.declared.TheConstants.{TICKET_LIMIT};
    ghost use Rattle.atomic_table.specs.Seated.{TableId};
    ghost use Rattle.tickets.specs.Inner.Ring.{ends, IsTailAt};

    ghost Value = { TableId };

    ghost view = { λ t. t.seat.table_id };

    ghost invariant = { λ t. (t.seat.me ≡ (ends t.seat.me.0.tail None, []))
        × (t.seat.table_id.words ≡ t.place.room + 4)
        × IsTailAt t.place.at t.place.seen t.place.room None t.seat.me.0.tail
        × (t.place.at ≤ t.place.room) × (t.place.seen ≤ t.place.room) × (t.place.room ≤ TICKET_LIMIT) };
}

/// The right to dequeue values from the ring beside a ticket word.
///
/// One thread at a time can use it. Its view is the key of that word.
#[derive(Drop)]
pub struct HeadEnd {
    seat: Seat<(), Holding>,
    place: HeadPlace,
}

impl Model for HeadEnd {
    ghost use Rattle.std.specs.Prelude.{◌≡◌, ◌+◌, ◌≤◌, [], None};
    ghost use Rattle.tickets.specs.declared.TheConstants.{TICKET_LIMIT};
    ghost use Rattle.atomic_table.specs.Seated.{TableId};
    ghost use Rattle.tickets.specs.declared.account.Next.TheVariants.{Unknown};
    ghost use Rattle.tickets.specs.Inner.Ring.{ends, IsHeadAt};

    ghost Value = { TableId };

    ghost view = { λ h. h.seat.table_id };

    ghost invariant = { λ h. (h.seat.me ≡ (ends None h.seat.me.0.head, []))
        × (h.seat.table_id.words ≡ h.place.room + 4)
        × IsHeadAt h.place.at h.place.room Unknown h.seat.me.0.head
        × (h.place.at ≤ h.place.room) × (h.place.room ≤ TICKET_LIMIT) };
}

// The position of the tail's next cell, the position at which it saw the head, and the number of values that there is
// room for.
#[derive(Clone, Copy)]
pub(crate) struct TailPlace {
    pub(crate) at: usize,
    pub(crate) seen: usize,
    pub(crate) room: usize,
}

// The position of the head's next cell, and the number of values that there is room for.
#[derive(Clone, Copy)]
pub(crate) struct HeadPlace {
    pub(crate) at: usize,
    pub(crate) room: usize,
}

// Returns the position after this one.
fn next_position(at: usize, room: usize) -> usize
    requires { (at ≤ room) × (room ≤ TICKET_LIMIT) }
    ensures next { result ≡ position room (at + 1) }
    ensures within { result ≤ room }
{
    (at + 1) % (room + 1)
}

impl TailEnd {
    ghost use Rattle.std.specs.Prelude.{◌≡◌, ◌+◌, ◌≤◌, [], None};
    ghost use Rattle.tickets.specs.declared.TheConstants.{TICKET_LIMIT};
    ghost use Rattle.tickets.specs.Inner.Ring.{ends, IsTailAt};

    // Makes the tail end of a seat that holds nothing else, which saw no value dequeued.
    pub(crate) fn of_seat(seat: Seat<(), Holding>, at: usize, room: usize) -> TailEnd
        requires seat { seat.me ≡ (ends seat.me.0.tail None, []) }
        requires words { seat.table_id.words ≡ room + 4 }
        requires room { (at ≤ room) × (room ≤ TICKET_LIMIT) }
        requires place { IsTailAt at 0 room None seat.me.0.tail }
        ensures { result ≡ seat.table_id }
    {
        let place = TailPlace { at, seen: 0, room };
        TailEnd { seat, place }
    }
}

impl HeadEnd {
    ghost use Rattle.std.specs.Prelude.{◌≡◌, ◌+◌, ◌≤◌, [], None};
    ghost use Rattle.tickets.specs.declared.TheConstants.{TICKET_LIMIT};
    ghost use Rattle.tickets.specs.declared.account.Next.TheVariants.{Unknown};
    ghost use Rattle.tickets.specs.Inner.Ring.{ends, IsHeadAt};

    // Makes the head end of a seat that holds nothing else, of which no value was dequeued.
    pub(crate) fn of_seat(seat: Seat<(), Holding>, room: usize) -> HeadEnd
        requires seat { seat.me ≡ (ends None seat.me.0.head, []) }
        requires words { seat.table_id.words ≡ room + 4 }
        requires room { room ≤ TICKET_LIMIT }
        requires place { IsHeadAt 0 room Unknown seat.me.0.head }
        ensures { result ≡ seat.table_id }
    {
        let place = HeadPlace { at: 0, room };
        HeadEnd { seat, place }
    }
}

// Looks where the head is, and notes that the queue is full if it is behind the tail's next cell. The caller picks
// `M`.
fn glance_by<M: Play<(), Holding>>(
    tickets: &Tickets,
    seat: &mut Seat<(), Holding>,
    place: TailPlace,
    call: u64,
    value: u64,
) -> u64
    requires key { (seat.old.table_id ≡ tickets.now.key) × (tickets.now.key.words ≡ place.room + 4) }
    requires drew { Contains seat.old.me.0.drawn call }
    requires asks { IsTailAt place.at place.seen place.room None seat.old.me.0.tail }
    requires tells { (s : Step (Unit {0})) (found : ℕ) (after : Holding)
        → Glances call value (position place.room (place.at + 1)) place.room seat.old.me.0 found after
        → M.then s seat.old.me found (after, seat.old.me.1) }
    ensures key { seat.new.table_id ≡ tickets.now.key }
    ensures told { (s : Step (Unit {0})) × M.then s seat.old.me result seat.new.me }
{
    let _ = (place, call, value);
    tickets.table.shared.load::<M>(seat, TAKEN)
}

// Counts the staged value, and notes its enqueue. The caller picks `M` for its note.
fn publish_by<M: Play<(), Holding>>(
    tickets: &Tickets,
    seat: &mut Seat<(), Holding>,
    place: TailPlace,
    call: u64,
    value: u64,
)
    requires key { (seat.old.table_id ≡ tickets.now.key) × (tickets.now.key.words ≡ place.room + 4) }
    requires room { (place.at ≤ place.room) × (place.room ≤ TICKET_LIMIT) }
    requires drew { Contains seat.old.me.0.drawn call }
    requires staged { IsTailAt place.at place.seen place.room (Some value) seat.old.me.0.tail }
    requires tells { (s : Step (Unit {0})) (found : ℕ) (after : Holding) → Publishes call value seat.old.me.0 after
        → M.then s seat.old.me found (after, seat.old.me.1) }
    ensures key { seat.new.table_id ≡ tickets.now.key }
    ensures told { (s : Step (Unit {0})) × (found : ℕ) × M.then s seat.old.me found seat.new.me }
{
    let _ = (call, value);
    let next = next_position(place.at, place.room);
    tickets.table.shared.store::<M>(seat, PUT, next as u64);
}

// Looks where the tail is, and notes that the queue is empty if that is the head's next cell. The caller picks `M`.
fn find_by<M: Play<(), Holding>>(
    tickets: &Tickets,
    seat: &mut Seat<(), Holding>,
    place: HeadPlace,
    call: u64,
) -> u64
    requires key { (seat.old.table_id ≡ tickets.now.key) × (tickets.now.key.words ≡ place.room + 4) }
    requires drew { Contains seat.old.me.0.drawn call }
    requires asks { IsHeadAt place.at place.room Unknown seat.old.me.0.head }
    requires tells { (s : Step (Unit {0})) (found : ℕ) (after : Holding)
        → FindsOne call place.at seat.old.me.0 found after
        → M.then s seat.old.me found (after, seat.old.me.1) }
    ensures key { seat.new.table_id ≡ tickets.now.key }
    ensures told { (s : Step (Unit {0})) × M.then s seat.old.me result seat.new.me }
{
    let _ = (place, call);
    tickets.table.shared.load::<M>(seat, PUT)
}

// Frees the cell whose value was read, and notes its dequeue. The caller picks `M` for its note.
fn free_by<M: Play<(), Holding>>(
    tickets: &Tickets,
    seat: &mut Seat<(), Holding>,
    place: HeadPlace,
    call: u64,
    value: u64,
)
    requires key { (seat.old.table_id ≡ tickets.now.key) × (tickets.now.key.words ≡ place.room + 4) }
    requires room { (place.at ≤ place.room) × (place.room ≤ TICKET_LIMIT) }
    requires drew { Contains seat.old.me.0.drawn call }
    requires read { IsHeadAt place.at place.room (Holds value) seat.old.me.0.head }
    requires tells { (s : Step (Unit {0})) (found : ℕ) (after : Holding) → Frees call value seat.old.me.0 after
        → M.then s seat.old.me found (after, seat.old.me.1) }
    ensures key { seat.new.table_id ≡ tickets.now.key }
    ensures told { (s : Step (Unit {0})) × (found : ℕ) × M.then s seat.old.me found seat.new.me }
{
    let _ = (call, value);
    let next = next_position(place.at, place.room);
    tickets.table.shared.store::<M>(seat, TAKEN, next as u64);
}

// Returns the tail end's positions if there is room for one more value, and notes that the queue is full if not. It
// looks where the head is only if there was no room when it looked last.
fn with_room(
    tickets: &Tickets,
    seat: &mut Seat<(), Holding>,
    place: TailPlace,
    call: u64,
    value: u64,
) -> Option<TailPlace>
    requires key { (seat.old.table_id ≡ tickets.now.key) × (tickets.now.key.words ≡ place.room + 4) }
    requires room { (place.at ≤ place.room) × (place.seen ≤ place.room) × (place.room ≤ TICKET_LIMIT) }
    requires drew { Contains seat.old.me.0.drawn call }
    requires asks { IsTailAt place.at place.seen place.room None seat.old.me.0.tail }
    ensures key { seat.new.table_id ≡ tickets.now.key }
    ensures full { IfNone result (PutsOne call value place.at place.seen place.room false seat.old.me seat.new.me) }
    ensures free { IfSome result (λ p. HasRoom p.at p.seen p.room seat.old.me seat.new.me) }
    ensures room { IfSome result (λ p. (p.at ≤ place.room) × (p.seen ≤ place.room) × (p.room ≡ place.room)) }
{
    let next = next_position(place.at, place.room);
    if next != place.seen {
        return Some(place);
    }
    let seen = glance_by::<Brand>(tickets, seat, place, call, value);
    if seen == next as u64 {
        return None;
    }
    Some(TailPlace {
        at: place.at,
        seen: seen as usize,
        room: place.room,
    })
}

// Writes the value into the next cell, counts it and notes its enqueue, or notes that the queue is full. Returns
// whether it did, and the tail end's positions then.
fn put_on(
    tickets: &Tickets,
    seat: &mut Seat<(), Holding>,
    place: TailPlace,
    call: u64,
    value: u64,
) -> (bool, TailPlace)
    requires key { (seat.old.table_id ≡ tickets.now.key) × (tickets.now.key.words ≡ place.room + 4) }
    requires room { (place.at ≤ place.room) × (place.seen ≤ place.room) × (place.room ≤ TICKET_LIMIT) }
    requires drew { Contains seat.old.me.0.drawn call }
    requires asks { IsTailAt place.at place.seen place.room None seat.old.me.0.tail }
    ensures key { seat.new.table_id ≡ tickets.now.key }
    ensures put { PutsOne call value result.1.at result.1.seen result.1.room result.0 seat.old.me seat.new.me }
    ensures room { (result.1.at ≤ place.room) × (result.1.seen ≤ place.room) × (result.1.room ≡ place.room) }
{
    let Some(mut free) = with_room(tickets, seat, place, call, value) else {
        return (false, place);
    };
    let table = &tickets.table.shared;
    table.store::<Stages>(seat, free.at + CELLS, value);
    publish_by::<Brand>(tickets, seat, free, call, value);
    free.at = next_position(free.at, free.room);
    (true, free)
}

// Reads the value of the next cell, frees the cell and notes the dequeue, or notes that the queue is empty. Returns
// the value, and the head end's position then.
fn take_on(
    tickets: &Tickets,
    seat: &mut Seat<(), Holding>,
    place: HeadPlace,
    call: u64,
) -> (Option<u64>, HeadPlace)
    requires key { (seat.old.table_id ≡ tickets.now.key) × (tickets.now.key.words ≡ place.room + 4) }
    requires room { (place.at ≤ place.room) × (place.room ≤ TICKET_LIMIT) }
    requires drew { Contains seat.old.me.0.drawn call }
    requires asks { IsHeadAt place.at place.room Unknown seat.old.me.0.head }
    ensures key { seat.new.table_id ≡ tickets.now.key }
    ensures took { TakesOne call result.1.at result.1.room result.0 seat.old.me seat.new.me }
    ensures room { (result.1.at ≤ place.room) × (result.1.room ≡ place.room) }
{
    let tail = find_by::<Brand>(tickets, seat, place, call);
    if tail == place.at as u64 {
        return (None, place);
    }
    let table = &tickets.table.shared;
    let value = table.load::<Reads>(seat, place.at + CELLS);
    free_by::<Brand>(tickets, seat, place, call, value);
    let at = next_position(place.at, place.room);
    let room = place.room;
    (Some(value), HeadPlace { at, room })
}

// Gives the ends that a seat has, and nothing else, to another seat, which has none.
fn lend_ends(tickets: &Tickets, from: &mut Seat<(), Holding>, to: &mut Seat<(), Holding>)
    requires key { (from.old.table_id ≡ tickets.now.key) × (to.old.table_id ≡ tickets.now.key) }
    requires carried { from.old.me.1 ≡ [] }
    requires apart { (to.old.me.0.tail ≡ None) × (to.old.me.0.head ≡ None) }
    ensures key { (from.new.table_id ≡ tickets.now.key) × (to.new.table_id ≡ tickets.now.key) }
    ensures lent { to.new.me ≡ (with_ends to.old.me.0 from.old.me.0, to.old.me.1) }
{
    let table = &tickets.table.shared;
    let right = table.split_seat::<EndsApart>(from);
    table.join_seat::<TakesEnds>(to, right);
}

impl Pass {
    ghost use Rattle.std.specs.Prelude.{◌≡◌, ◌≤◌, [], ◌∷◌, ◌++◌, ℕ, Contains};
    ghost use Rattle.tickets.specs.Log.{note_at};
    ghost use Rattle.tickets.specs.Queue.{effect_of_put, effect_of_take};

    /// Enqueues a value in the ring, and returns whether it did: false if the queue is full. The pass, which drew the
    /// call ticket, notes the operation.
    ///
    /// It looks where the head is only if the queue was full when it last looked, as far as it knows. It makes two
    /// stores and at most one load of the ring, four loads of the ticket word, waits for nobody, and takes no memory.
    pub fn put(&mut self, tickets: &Tickets, end: &mut TailEnd, call: u64, value: u64) -> bool
        requires key { (self.old.key ≡ tickets.now.key) × (end.old ≡ tickets.now.key) }
        requires drew { Contains self.old.drawn call }
        ensures noted { (look : ℕ)
            × (self.new ≡ record self.old {
              noted = self.old.noted ++ note_at call (effect_of_put value result) look ∷ [];
            }) }
        ensures same { end.new ≡ end.old }
    {
        lend_ends(tickets, &mut end.seat, &mut self.seat);
        let (put, place) = put_on(tickets, &mut self.seat, end.place, call, value);
        end.seat = tickets.table.shared.split_seat::<EndsApart>(&mut self.seat);
        end.place = place;
        put
    }

    /// Dequeues the first value of the ring, or returns none if the queue is empty. The pass, which drew the call
    /// ticket, notes the operation.
    ///
    /// It makes two loads and one store of the ring, four loads of the ticket word, waits for nobody, and takes no
    /// memory.
    pub fn take(&mut self, tickets: &Tickets, end: &mut HeadEnd, call: u64) -> Option<u64>
        requires key { (self.old.key ≡ tickets.now.key) × (end.old ≡ tickets.now.key) }
        requires drew { Contains self.old.drawn call }
        ensures noted { (look : ℕ)
            × (self.new ≡ record self.old {
              noted = self.old.noted ++ note_at call (effect_of_take result) look ∷ [];
            }) }
        ensures same { end.new ≡ end.old }
    {
        lend_ends(tickets, &mut end.seat, &mut self.seat);
        let (taken, place) = take_on(tickets, &mut self.seat, end.place, call);
        end.seat = tickets.table.shared.split_seat::<EndsApart>(&mut self.seat);
        end.place = place;
        taken
    }
}
