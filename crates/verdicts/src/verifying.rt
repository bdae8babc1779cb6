ghost use Rattle.std.specs.Prelude.{◌≡◌, ◌↔◌, IfOk, IsOk, IsTrue, List};
ghost use Rattle.history_merge.specs.Operations.{operations_of};
ghost use Rattle.claims.specs.declared.claimed.ClaimLine.{ClaimLine};
ghost use Rattle.claims.specs.declared.claimed.ViolationKind.{ViolationKind};
ghost use Rattle.claims.specs.Claims.{IsTrueClaim};

use crate::claimed_order::is_legal_order;
use crate::claimed_violation::shows_violation;
use claims::Claimed;
use history_merge::History;
use std::alloc::{AllocError, Global};

/// Returns whether a claim is evidence in this history: a `YES` that lists a linearization (Herlihy and Wing 1990)
/// for a queue that holds the initial values first, or a `NO` whose lines have the shape of their kind and show a
/// violation. It need not be the linearization or the violation that `decide` chooses.
///
/// The claim is checked by itself, without a search for violations and without making an order. Takes O(n + m log n)
/// time for a history of n operations and a claim of m lines, and a walk over the initial values for each line of
/// one. For a `YES` it takes memory for a copy of its lines and for the values in the queue. For a `NO` it takes
/// none, so it doesn't run out of memory.
///
/// The `history` dequeues 7, which was never enqueued:
///
/// ```rust
/// let text = b"NO VFresh\n0 1 0 deq 7\n";
/// let claimed = read_verdict(alloc, &mut TextReader::new(MemorySource::new(text)))?;
/// assert!(rt; verify(alloc, &history, &claimed)?);
/// ```
pub fn verify(alloc: Global, history: &History, claimed: &Claimed) -> Result<bool, AllocError>
    ensures exact { IfOk result
        (λ valid. IsTrue valid ↔ IsTrueClaim history.now.initial (operations_of history.now.events) claimed.now) }
    ensures no { (kind : ViolationKind) (lines : List ClaimLine) → claimed.now ≡ Claimed.No kind lines → IsOk result }
{
    match claimed {
        Claimed::Yes(lines) => is_legal_order(alloc, history, lines.as_slice()),
        Claimed::No(kind, lines) => Ok(shows_violation(history, *kind, lines.as_slice())),
    }
}
