ghost use Rattle.std.specs.Prelude.{◌≡◌, ◌↔◌, IsTrue, IfOk, IsPermutation};
ghost use Rattle.std.specs.Prelude.{AllPairs, map, MatchBool, Some, None, length};
ghost use Rattle.history_merge.specs.Operations.{Precedes};
ghost use Rattle.history_merge.specs.Queue.{IsAccepted, accept};
ghost use Rattle.history_merge.specs.Legal.{IsLegalOrder};
ghost use Rattle.history_merge.specs.Operations.{operations_of};
ghost use Rattle.verdicts.specs.Inner.Claims.{CallsRise};

use history_merge::{History, OpKind, Operation, Operations};
use std::alloc::{AllocError, Global};
use std::collections::VecDeque;

/// Returns whether the lines are a linearization of the history's operations, for a queue that holds its initial
/// values first.
pub(crate) fn is_legal_order(
    alloc: Global,
    history: &History,
    lines: &[Operation],
) -> Result<bool, AllocError>
    ensures { IfOk result
        (λ legal. IsTrue legal ↔ IsLegalOrder history.now.initial (operations_of history.now.events) lines.now) }
{
    if !extends_precedence(lines) {
        return Ok(false);
    }
    if !holds_each_once(alloc, &history.operations(), lines)? {
        return Ok(false);
    }
    is_accepted(alloc, history.initial(), lines)
}

/// Returns whether the lines are the operations, each once: sorted by call, they are the same list.
fn holds_each_once(
    alloc: Global,
    operations: &Operations<'_>,
    lines: &[Operation],
) -> Result<bool, AllocError>
    requires { CallsRise operations.now }
    ensures { IfOk result (λ whole. IsTrue whole ↔ IsPermutation operations.now lines.now) }
{
    if lines.len() != operations.len() {
        return Ok(false);
    }
    let mut by_call = Vec::from_slice(alloc, lines)?;
    by_call.sort_unstable_by_key(|line| line.call);
    Ok(are_same(by_call.as_slice(), operations))
}

/// Returns whether the lines are the operations, one by one. There are as many of both.
fn are_same(lines: &[Operation], operations: &Operations<'_>) -> bool
    requires { length lines.now ≡ length operations.now }
    ensures { IsTrue result ↔ (lines.now ≡ operations.now) }
{
    let mut others = operations.iter();
    for line in lines {
        let Some(operation) = others.next() else {
            return false;
        };
        if !is_same(&operation, line) {
            return false;
        }
    }
    true
}

fn is_same(operation: &Operation, line: &Operation) -> bool
    ensures { IsTrue result ↔ (operation.now ≡ line.now) }
{
    *operation == *line
}

/// Returns whether the lines extend precedence: none returned before an earlier one was called. It suffices to compare
/// each return with the greatest call so far.
fn extends_precedence(lines: &[Operation]) -> bool
    ensures { IsTrue result ↔ AllPairs (λ earlier later. ¬ (Precedes later earlier)) lines.now }
{
    let mut greatest_call = 0;
    for line in lines {
        if line.ret < greatest_call {
            return false;
        }
        greatest_call = greatest_call.max(line.call);
    }
    true
}

/// Returns whether the sequential specification, which holds the values `first_held` at first, accepts the lines in
/// turn.
fn is_accepted(alloc: Global, first_held: &[u64], lines: &[Operation]) -> Result<bool, AllocError>
    ensures { IfOk result (λ accepted. IsTrue accepted ↔ IsAccepted first_held.now (map (λ o. o.kind) lines.now)) }
{
    let mut queue = VecDeque::from(Vec::from_slice(alloc, first_held)?);
    for line in lines {
        if !takes(&mut queue, line.kind)? {
            return Ok(false);
        }
    }
    Ok(true)
}

/// Applies one operation to the queue. Returns false if the queue doesn't accept it.
fn takes(queue: &mut VecDeque<u64>, kind: OpKind) -> Result<bool, AllocError>
    ensures { IfOk result (λ taken. MatchBool taken (accept queue.old.items kind ≡ Some queue.new.items)
        (accept queue.old.items kind ≡ None)) }
{
    match kind {
        OpKind::Enqueue(value) => queue.push_back(value)?,
        OpKind::EnqueueFailed(_) => {}
        OpKind::Dequeue(value) => return Ok(queue.pop_front() == Some(value)),
        OpKind::DequeueEmpty => return Ok(queue.is_empty()),
    }
    Ok(true)
}
