//! A ring of events for each thread: one end pushes, the other drains, and a token closes it.
//!
//! Nothing here takes a lock or waits: each step on a ring belongs to one of its two ends. The events received are
//! always a prefix of those sent. A close token shows all events that were sent, and nothing can be sent after it.
#![tactic(auto)]

ghost use Rattle.std.specs.Prelude.{◌≡◌, ◌≤◌, [], IfOk};

mod drain_end;
mod push_end;

pub use drain_end::{DrainEnd, FinishFault, Sealed};
use event_records::ThreadNo;
pub use event_records::{MAX_RING, MIN_RING};
pub use push_end::{CloseLost, CloseToken, PushEnd};
use rtrb::RingBuffer;
use std::alloc::{AllocError, Global};

/// Makes a ring of a thread, with room for `capacity` events.
///
/// Takes memory for that many events at once. The only error is out of memory. Pushing takes none.
pub fn ring(
    alloc: Global,
    thread: ThreadNo,
    capacity: usize,
) -> Result<(PushEnd, DrainEnd), AllocError>
    requires { (MIN_RING ≤ capacity) × (capacity ≤ MAX_RING) }
    ensures pair { IfOk result (λ ends. ends.1.ring ≡ ends.0.ring) }
    ensures threads { IfOk result (λ ends. (ends.0.thread ≡ thread) × (ends.1.thread ≡ thread)) }
    ensures empty { IfOk result (λ ends. (ends.0.sent ≡ []) × (ends.1.received ≡ [])) }
    ensures room { IfOk result (λ ends. (ends.0.capacity ≡ capacity) × (ends.0.room ≡ capacity)) }
{
    let (producer, consumer) = RingBuffer::new(alloc, capacity)?;
    let push = PushEnd::over(thread, producer);
    let drain = DrainEnd::over(alloc, thread, consumer);
    Ok((push, drain))
}
