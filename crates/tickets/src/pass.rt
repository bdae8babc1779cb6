// The right of one thread to draw.
ghost use Rattle.std.specs.Prelude.{◌≡◌, ◌-◌, ◌≤◌, []};
ghost use Rattle.tickets.specs.Inner.Account.{holding};

use crate::account::{Draws, Holding, Loads, Together};
use crate::drawn::Drawn;
use crate::source::Tickets;
use atomic_table::{Seat, Split};
use std::marker::{Brand, Model};
use std::snapshot::Snapshot;

/// A share of the budget, and the tickets that were drawn from it.
///
/// Each thread draws with a pass of its own. Contracts see the list of its tickets, which takes no memory. A dropped
/// pass takes its share with it: no other pass can have the whole budget afterwards.
#[derive(Drop)]
pub struct Pass {
    pub(crate) seat: Seat<(), Holding>,
    pub(crate) share: u64,
    pub(crate) left: u64,
}

impl Model for Pass {
    ghost use Rattle.tickets.specs.Views.{PassView};

    ghost Value = { PassView };

    ghost use Rattle.std.specs.Prelude.{◌≡◌, ◌+◌, length, [], None};

    ghost view = { λ p. record {
      key = p.seat.table_id;
      left = p.left;
      drawn = p.seat.me.0.drawn;
      noted = p.seat.me.0.noted;
    } };

    ghost invariant = { λ p. (p.seat.me.0.left ≡ p.left) × (p.left + length p.seat.me.0.drawn ≡ p.share)
        × (p.seat.me.1 ≡ []) × (p.seat.me.0.log ≡ None) × (p.seat.me.0.tail ≡ None) × (p.seat.me.0.head ≡ None)
        × (p.seat.me.0.walk ≡ None) };
}

// Moves `n` tickets from the seat's share to a new seat. The caller chooses `M` for its `n`.
fn cut_off<M: Split<Holding>>(
    tickets: &Tickets,
    seat: &mut Seat<(), Holding>,
    n: u64,
) -> Seat<(), Holding>
    requires key { seat.old.table_id ≡ tickets.now.key }
    requires room { n ≤ seat.old.me.0.left }
    requires left { M.left seat.old.me.0 ≡ record seat.old.me.0 { left = seat.old.me.0.left - n } }
    requires right { M.right seat.old.me.0 ≡ holding n [] [] }
    ensures key { seat.new.table_id ≡ tickets.now.key }
    ensures left { seat.new.me ≡ (record seat.old.me.0 { left = seat.old.me.0.left - n }, seat.old.me.1) }
    ensures new_key { result.table_id ≡ tickets.now.key }
    ensures right { result.me ≡ (holding n [] [], []) }
{
    tickets.table.shared.split_seat::<M>(seat)
}

impl Pass {
    ghost use Rattle.std.specs.Prelude.{◌≡◌, ◌+◌, ◌-◌, ◌<◌, ◌≤◌, [], ◌++◌, IsPermutation};
    ghost use Rattle.std.specs.List.Sorted.{IsStrictlyIncreasing};
    ghost use Rattle.tickets.specs.Views.{share_of, fresh_pass, DrawsOne};
    ghost use Rattle.tickets.specs.Inner.Account.{holding};

    // Makes the pass of a seat that has this share, and has drawn and noted nothing.
    pub(crate) fn of_seat(seat: Seat<(), Holding>, share: u64) -> Pass
        requires { seat.me ≡ (holding share [] [], []) }
        ensures { result ≡ fresh_pass seat.table_id share }
    {
        Pass {
            seat,
            share,
            left: share,
        }
    }

    // Returns the pass's seat, its share, and the number of tickets that it may still draw.
    pub(crate) fn into_parts(self) -> (Seat<(), Holding>, u64, u64)
        ensures key { result.0.table_id ≡ self.key }
        ensures seat { result.0.me ≡ (holding self.left self.drawn self.noted, []) }
        ensures share { result.1 ≡ share_of self }
        ensures left { result.2 ≡ self.left }
    {
        let Pass { seat, share, left } = self;
        (seat, share, left)
    }

    /// Returns the number of tickets that the pass may draw in all, including those that it has drawn.
    pub fn share(&self) -> u64
        ensures { result ≡ share_of self.now }
    {
        self.share
    }

    /// Returns the number of tickets that the pass may still draw.
    pub fn left(&self) -> u64
        ensures { result ≡ self.now.left }
    {
        self.left
    }

    /// Draws the next ticket, by one `fetch_add` on the word that all passes share.
    pub fn draw(&mut self, tickets: &Tickets) -> Drawn
        requires pass_key { self.old.key ≡ tickets.now.key }
        requires some_left { 0 < self.old.left }
        ensures drawn { DrawsOne self.old result.ticket self.new }
        ensures key { result.key ≡ tickets.now.key }
    {
        let word = &tickets.table.shared;
        let ticket = word.fetch_add::<Draws>(&mut self.seat, 0, 1);
        self.left -= 1;
        Drawn {
            ticket,
            tickets: Snapshot::of(tickets),
        }
    }

    /// Moves `n` tickets of the share to a second pass, usually for another thread. It takes no memory.
    pub fn split(self, tickets: &Tickets, n: u64) -> (Pass, Pass)
        requires key { self.key ≡ tickets.now.key }
        requires room { n ≤ self.left }
        ensures first { result.0 ≡ record self { left = self.left - n } }
        ensures second { result.1 ≡ fresh_pass self.key n }
    {
        let (mut seat, share, left) = self.into_parts();
        let cut = cut_off::<Brand>(tickets, &mut seat, n);
        let first = Pass {
            seat,
            share: share - n,
            left: left - n,
        };
        (first, Pass::of_seat(cut, n))
    }

    /// Joins two passes: adds their shares, and puts their tickets and notes together. It takes no memory.
    pub fn join(self, tickets: &Tickets, other: Pass) -> Pass
        requires key { self.key ≡ tickets.now.key }
        requires other_key { other.key ≡ tickets.now.key }
        ensures same { result.key ≡ self.key }
        ensures left { result.left ≡ self.left + other.left }
        ensures drawn { IsPermutation (self.drawn ++ other.drawn) result.drawn }
        ensures rising { IsStrictlyIncreasing result.drawn }
        ensures noted { result.noted ≡ self.noted ++ other.noted }
    {
        let (mut seat, share, left) = self.into_parts();
        let (other_seat, other_share, other_left) = other.into_parts();
        let table = &tickets.table.shared;
        table.join_seat::<Together>(&mut seat, other_seat);
        table.load::<Loads>(&mut seat, 0);
        Pass {
            seat,
            share: share + other_share,
            left: left + other_left,
        }
    }
}
