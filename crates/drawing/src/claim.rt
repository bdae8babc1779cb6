//! The lines of a claim.
ghost use Rattle.std.specs.Prelude.{◌≡◌, ◌≤◌, length};
ghost use Rattle.drawing.specs.Claim.{count_of_lines, order_of, shown_by, line_kind, line_call, line_return};

use claims::{ClaimLine, Claimed};
use history_merge::{OpKind, Operation};

/// Returns the number of lines of a claim.
pub fn count_of_lines(claimed: &Claimed) -> usize
    ensures { result ≡ count_of_lines claimed.now }
{
    match claimed {
        Claimed::Yes(order) => order.as_slice().len(),
        Claimed::No(_, lines) => lines.as_slice().len(),
    }
}

/// Returns the order of a `YES`.
pub(crate) fn order_of(claimed: &Claimed) -> &[Operation]
    ensures { result.now ≡ order_of claimed.now }
{
    match claimed {
        Claimed::Yes(order) => order.as_slice(),
        Claimed::No(_, _) => &[],
    }
}

/// Returns the lines that show a `NO`.
pub fn shown_by(claimed: &Claimed) -> &[ClaimLine]
    ensures value { result.now ≡ shown_by claimed.now }
    ensures few { length result.now ≤ count_of_lines claimed.now }
{
    match claimed {
        Claimed::Yes(_) => &[],
        Claimed::No(_, lines) => lines.as_slice(),
    }
}

/// Returns the kind of a line's operation. An initial value counts as enqueued.
pub(crate) fn line_kind(line: ClaimLine) -> OpKind
    ensures { result ≡ line_kind line }
{
    match line {
        ClaimLine::Op(operation) => operation.kind,
        ClaimLine::Initial(value) => OpKind::Enqueue(value),
    }
}

/// Returns the ticket of a line's call; none for an initial value.
pub(crate) fn line_call(line: ClaimLine) -> Option<u64>
    ensures { result ≡ line_call line }
{
    match line {
        ClaimLine::Op(operation) => Some(operation.call),
        ClaimLine::Initial(_) => None,
    }
}

/// Returns the ticket of a line's return; none for an initial value.
pub(crate) fn line_return(line: ClaimLine) -> Option<u64>
    ensures { result ≡ line_return line }
{
    match line {
        ClaimLine::Op(operation) => Some(operation.ret),
        ClaimLine::Initial(_) => None,
    }
}
