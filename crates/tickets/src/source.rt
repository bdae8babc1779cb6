// The word that all passes draw from.
ghost use Rattle.std.specs.Prelude.{◌≡◌, ◌≤◌, IfOk, length};
ghost use Rattle.tickets.specs.declared.TheConstants.{TICKET_LIMIT};
ghost use Rattle.tickets.specs.Inner.Shared.{row_words};

use crate::NO_VALUE;
use crate::account::{Account, EndsApart, HeadApart, Holding, LogApart, Setup, TakesLog};
use crate::log::Log;
use crate::pass::Pass;
use crate::ring::{HeadEnd, TailEnd};
use atomic_table::Table;
use std::alloc::{AllocError, Global};
use std::marker::Model;
use std::snapshot::Snapshot;

/// The word that tickets are drawn from. It holds the next ticket; the first one is 0.
///
/// Threads share it by reference. Contracts see its key, which says which word it is, and its budget: the number of
/// tickets that may be drawn in all. They also see whether a ring with two ends or nodes that all passes share stand
/// beside it, the number of values that these have room for, and the values that they held at first.
#[derive(Drop)]
pub struct Tickets {
    pub(crate) table: Table<(), Holding, Setup, Account, Global>,
    // Number of values that the ring or the shared nodes have room for; 0 if there are neither.
    pub(crate) room: usize,
}

impl Model for Tickets {
    ghost use Rattle.tickets.specs.Views.{TicketsView};

    ghost Value = { TicketsView };

    ghost use Rattle.std.specs.Prelude.{◌≡◌, ◌+◌, ◌<◌, ◌≤◌, length, true, false};
    ghost use Rattle.tickets.specs.declared.TheConstants.{TICKET_LIMIT};
    ghost use Rattle.tickets.specs.Inner.Account.{initial_of};

    ghost view = { λ t. record {
      key = t.table.shared.table_id;
      budget = t.table.shared.key.budget;
      ended = t.table.shared.key.has_ring;
      shared = t.table.shared.key.is_shared;
      room = t.room;
      initial = initial_of t.table.shared.key;
    } };

    ghost invariant = { λ t. (0 < t.table.shared.table_id.words) × (t.table.shared.table_id.slots ≡ 0)
        × (t.table.shared.key.is_shared ≡ true → (t.table.shared.table_id.words ≡ t.room + 4)
        × (length t.table.shared.key.words.value.items ≡ t.room + 4) × (t.room ≤ TICKET_LIMIT))
        × (t.table.shared.key.has_ring ≡ true → (t.table.shared.key.is_shared ≡ false)
        × (length t.table.shared.key.words.value.items ≡ t.room + 4)) };
}

impl Tickets {
    ghost use Rattle.std.specs.Prelude.{◌≡◌, ◌≢◌, ◌≤◌, [], All, IfOk, IsPermutation, List, IsSome, length, true};
    ghost use Rattle.tickets.specs.declared.note.Note.{Note};
    ghost use Rattle.tickets.specs.Queue.{bounded_after, queue_after};
    ghost use Rattle.tickets.specs.declared.TheConstants.{NO_VALUE, TICKET_LIMIT};
    ghost use Rattle.tickets.specs.Log.{LooksRise};
    ghost use Rattle.tickets.specs.Views.{fresh_pass, share_of, numbers_below};

    /// Makes a new word, and a pass whose share is the whole budget.
    ///
    /// It takes one block of memory, of the same size for every budget, and fails only if it is out of memory.
    pub fn new(alloc: Global, budget: u64) -> Result<(Tickets, Pass), AllocError>
        requires { budget ≤ TICKET_LIMIT }
        ensures budget { IfOk result (λ t. t.0.budget ≡ budget) }
        ensures key { IfOk result (λ t. t.1.key ≡ t.0.key) }
        ensures left { IfOk result (λ t. t.1.left ≡ budget) }
        ensures drawn { IfOk result (λ t. t.1.drawn ≡ []) }
        ensures noted { IfOk result (λ t. t.1.noted ≡ []) }
    {
        let (tickets, pass, _) = Tickets::with_log(alloc, budget)?;
        Ok((tickets, pass))
    }

    /// Makes a new word, a pass whose share is the whole budget, and the empty log. It takes memory and fails as `new`
    /// does.
    pub fn with_log(alloc: Global, budget: u64) -> Result<(Tickets, Pass, Log), AllocError>
        requires { budget ≤ TICKET_LIMIT }
        ensures budget { IfOk result (λ t. t.0.budget ≡ budget) }
        ensures pass { IfOk result (λ t. t.1 ≡ fresh_pass t.0.key budget) }
        ensures log { IfOk result (λ t. t.2 ≡ record { key = t.0.key; notes = [] }) }
    {
        let setup = Setup {
            budget,
            has_ring: false,
            is_shared: false,
            filled: 0,
            words: Snapshot::of(&Vec::new(alloc)),
        };
        let (table, mut seat) = Table::of_words(alloc, &[0], &setup)?;
        let log = table.shared.split_seat::<LogApart>(&mut seat);
        Ok((
            Tickets { table, room: 0 },
            Pass::of_seat(seat, budget),
            Log::of_seat(log),
        ))
    }

    /// Makes a new word with a ring beside it, a pass whose share is the whole budget, and the two ends of the ring.
    /// The ring holds the values of `initial` at first, and has room for `room` values.
    ///
    /// It takes memory for each cell, and fails only if it is out of memory.
    pub fn with_ring(
        alloc: Global,
        budget: u64,
        initial: &[u64],
        room: usize,
    ) -> Result<(Tickets, Pass, TailEnd, HeadEnd), AllocError>
        requires budget { budget ≤ TICKET_LIMIT }
        requires fits { length initial.now ≤ room }
        requires room { room ≤ TICKET_LIMIT }
        ensures budget { IfOk result (λ t. t.0.budget ≡ budget) }
        ensures ended { IfOk result (λ t. t.0.ended ≡ true) }
        ensures room { IfOk result (λ t. t.0.room ≡ room) }
        ensures initial { IfOk result (λ t. t.0.initial ≡ initial.now) }
        ensures pass { IfOk result (λ t. t.1 ≡ fresh_pass t.0.key budget) }
        ensures tail { IfOk result (λ t. t.2 ≡ t.0.key) }
        ensures head { IfOk result (λ t. t.3 ≡ t.0.key) }
    {
        let words = row_of(alloc, initial, room)?;
        let setup = Setup {
            budget,
            has_ring: true,
            is_shared: false,
            filled: initial.len(),
            words: Snapshot::of(&words),
        };
        let (table, mut seat) = Table::of_words(alloc, words.as_slice(), &setup)?;
        let mut ends = table.shared.split_seat::<EndsApart>(&mut seat);
        let head = table.shared.split_seat::<HeadApart>(&mut ends);
        Ok((
            Tickets { table, room },
            Pass::of_seat(seat, budget),
            TailEnd::of_seat(ends, initial.len(), room),
            HeadEnd::of_seat(head, room),
        ))
    }

    /// Makes a new word with a row of nodes beside it that all passes share, and a pass whose share is the whole
    /// budget. The nodes hold the values of `initial` at first, and have room for `room` values in all.
    ///
    /// It takes memory for each node, and fails only if it is out of memory.
    pub fn with_shared_nodes(
        alloc: Global,
        budget: u64,
        initial: &[u64],
        room: usize,
    ) -> Result<(Tickets, Pass), AllocError>
        requires budget { budget ≤ TICKET_LIMIT }
        requires fits { length initial.now ≤ room }
        requires room { room ≤ TICKET_LIMIT }
        requires values { All (λ v. v ≢ NO_VALUE) initial.now }
        ensures budget { IfOk result (λ t. t.0.budget ≡ budget) }
        ensures shared { IfOk result (λ t. t.0.shared ≡ true) }
        ensures initial { IfOk result (λ t. t.0.initial ≡ initial.now) }
        ensures pass { IfOk result (λ t. t.1 ≡ fresh_pass t.0.key budget) }
    {
        let words = row_of(alloc, initial, room)?;
        let setup = Setup {
            budget,
            has_ring: false,
            is_shared: true,
            filled: initial.len(),
            words: Snapshot::of(&words),
        };
        let (table, seat) = Table::of_words(alloc, words.as_slice(), &setup)?;
        Ok((Tickets { table, room }, Pass::of_seat(seat, budget)))
    }

    /// Closes the word, and returns the number of tickets that were drawn.
    ///
    /// The share of `pass` is the whole budget, so no other pass can draw afterwards. It takes no memory.
    pub fn close(self, pass: Pass) -> u64
        requires key { pass.key ≡ self.key }
        requires whole { share_of pass ≡ self.budget }
        ensures { pass.drawn ≡ numbers_below result }
    {
        self.settle(pass)
    }

    /// Closes the word, and returns the number of tickets that were drawn, as `close` does. The share of `pass` is the
    /// whole budget, so it noted all that is in the log, whose looks rise. It takes no memory.
    pub fn close_with_log(self, pass: Pass, log: Log) -> u64
        requires key { pass.key ≡ self.key }
        requires log_key { log.key ≡ self.key }
        requires whole { share_of pass ≡ self.budget }
        ensures drawn { pass.drawn ≡ numbers_below result }
        ensures noted { IsPermutation pass.noted log.notes }
        ensures rise { LooksRise 0 log.notes result }
    {
        let Tickets { table, room: _ } = self;
        let (mut seat, _, _) = pass.into_parts();
        table
            .shared
            .join_seat::<TakesLog>(&mut seat, log.into_seat());
        let closed = table.close_with(seat);
        let total = closed.word(0);
        closed.free();
        total
    }

    /// Closes the word, and returns the number of tickets that were drawn, as `close` does. The share of `pass` is the
    /// whole budget, so it noted each operation at both ends of the ring: its notes are those of a log whose looks
    /// rise, and which a bounded queue accepts that held the ring's first values. In that log an enqueue fails if the
    /// queue is full, and only then. It takes no memory.
    pub fn close_with_ring(self, pass: Pass) -> u64
        requires key { (pass.key ≡ self.key) × (self.ended ≡ true) }
        requires whole { share_of pass ≡ self.budget }
        ensures drawn { pass.drawn ≡ numbers_below result }
        ensures log { (log : List Note) × IsPermutation pass.noted log × LooksRise 0 log result
            × IsSome (queue_after self.initial log)
            × IsSome (bounded_after self.room self.initial log) }
    {
        self.settle(pass)
    }

    /// Closes the word, and returns the number of tickets that were drawn, as `close` does. The share of `pass` is the
    /// whole budget, so it noted each operation on the shared nodes: its notes are those of a log whose looks rise,
    /// and a queue that held the nodes' first values accepts that log. It takes no memory.
    pub fn close_with_shared_nodes(self, pass: Pass) -> u64
        requires key { (pass.key ≡ self.key) × (self.shared ≡ true) }
        requires whole { share_of pass ≡ self.budget }
        ensures drawn { pass.drawn ≡ numbers_below result }
        ensures log { (log : List Note) × IsPermutation pass.noted log × LooksRise 0 log result
            × IsSome (queue_after self.initial log) }
    {
        self.settle(pass)
    }

    // Closes the word by the pass with the whole budget, and returns the number of tickets that were drawn.
    fn settle(self, pass: Pass) -> u64
        requires key { pass.key ≡ self.key }
        requires whole { share_of pass ≡ self.budget }
        ensures drawn { pass.drawn ≡ numbers_below result }
        ensures ring { self.ended ≡ true → (log : List Note) × IsPermutation pass.noted log × LooksRise 0 log result
            × IsSome (queue_after self.initial log) × IsSome (bounded_after self.room self.initial log) }
        ensures nodes { self.shared ≡ true → (log : List Note) × IsPermutation pass.noted log × LooksRise 0 log result
            × IsSome (queue_after self.initial log) }
    {
        let Tickets { table, room: _ } = self;
        let (seat, _, _) = pass.into_parts();
        let closed = table.close_with(seat);
        let next = closed.word(0);
        closed.free();
        next
    }
}

// Returns the words of a table with a ring or with shared nodes: the next ticket, two numbers, and the cells or nodes.
// One cell more than values have room for stays empty: a ring is full then, and a dequeue from shared nodes finds an
// empty one after all others.
fn row_of(alloc: Global, initial: &[u64], room: usize) -> Result<Vec<u64>, AllocError>
    requires fits { length initial.now ≤ room }
    requires room { room ≤ TICKET_LIMIT }
    ensures { IfOk result (λ words. words.items ≡ row_words initial.now room) }
{
    let mut words = vec![in alloc; 0, initial.len() as u64, 0]?;
    words.extend_from_slice(initial)?;
    words.resize(room + 4, NO_VALUE)?;
    Ok(words)
}
