//! The operation in a row, and its number in the claim.
ghost use Rattle.std.specs.Prelude.{◌≡◌, ◌<◌, IfSome, length, map};
ghost use Rattle.std.specs.List.{find};
ghost use Rattle.drawing.specs.Layout.{is_under_way, under_way, called_at, stands_in, place_in, place_of};
ghost use Rattle.drawing.specs.Claim.{count_of_lines};

use crate::pending::is_pending;
use crate::scene::Row;
use claims::{ClaimLine, Claimed};
use history_merge::Operation;

/// Returns whether an operation is of this thread, was called by this ticket, and hasn't returned before it, or never
/// returned.
fn is_under_way(added_from: Option<u64>, thread: u8, ticket: u64, operation: Operation) -> bool
    ensures { result ≡ is_under_way added_from thread ticket operation }
{
    operation.thread == thread
        && operation.call <= ticket
        && (ticket <= operation.ret || is_pending(added_from, operation))
}

/// Returns the operation of this thread that is under way at this ticket.
pub(crate) fn under_way(
    added_from: Option<u64>,
    operations: &[Operation],
    thread: u8,
    ticket: u64,
) -> Option<Operation>
    ensures { result ≡ under_way added_from operations.now thread ticket }
{
    operations
        .iter()
        .copied()
        .find(|o| is_under_way(added_from, thread, ticket, *o))
}

/// Returns the operation that is called at this ticket.
pub(crate) fn called_at(operations: &[Operation], ticket: u64) -> Option<Operation>
    ensures { result ≡ called_at operations.now ticket }
{
    operations.iter().copied().find(|o| o.call == ticket)
}

/// Returns whether a line of a claim belongs to a row: an operation to the row of its call, an initial value to its
/// own.
fn stands_in(row: Row, line: ClaimLine) -> bool
    ensures { result ≡ stands_in row line }
{
    match (row, line) {
        (Row::Ticket(ticket), ClaimLine::Op(listed)) => listed.call == ticket,
        (Row::Initial(_, value), ClaimLine::Initial(listed)) => listed == value,
        _ => false,
    }
}

/// Returns the line that belongs to a row.
pub(crate) fn line_in(lines: &[ClaimLine], row: Row) -> Option<ClaimLine>
    ensures { result ≡ find (stands_in row) lines.now }
{
    lines.iter().copied().find(|line| stands_in(row, *line))
}

/// Returns the place of a row's line among these lines, from 0.
pub fn place_in(lines: &[ClaimLine], row: Row) -> Option<usize>
    ensures value { result ≡ place_in lines.now row }
    ensures within { IfSome result (λ place. place < length lines.now) }
{
    lines.iter().position(|line| stands_in(row, *line))
}

fn place_in_order(order: &[Operation], row: Row) -> Option<usize>
    ensures value { result ≡ place_in (map ClaimLine.Op order.now) row }
    ensures within { IfSome result (λ place. place < length order.now) }
{
    let mut lines = order.iter().map(|listed| ClaimLine::Op(*listed));
    lines.position(|line| stands_in(row, line))
}

/// Returns the place of a row's line in a claim, from 0.
pub fn place_of(claimed: &Claimed, row: Row) -> Option<usize>
    ensures value { result ≡ place_of claimed.now row }
    ensures within { IfSome result (λ place. place < count_of_lines claimed.now) }
{
    match claimed {
        Claimed::Yes(order) => place_in_order(order.as_slice(), row),
        Claimed::No(_, lines) => place_in(lines.as_slice(), row),
    }
}
