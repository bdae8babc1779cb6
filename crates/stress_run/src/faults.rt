// The faults of a run, and which of several counts.
ghost use Rattle.std.specs.Prelude.{◌≡◌, ◌≤◌, ◌⊎◌, ◌↔◌, [], length, All, Contains, IfSome, IsNone, true, false};
ghost use Rattle.stress_run.specs.declared.faults.RunFault.TheVariants as made;
ghost use Rattle.stress_run.specs.Faults.{number_of, place_of, name_of, place_in, IsNotAfter};

use collector::CollectError;
use std::alloc::AllocError;
use std::error::Error;
use std::fmt;

/// The reason why a run gave no history.
///
/// If there are several faults, the one that comes first in this list counts, and among those of one kind the one with
/// the least thread.
#[derive(Clone, Copy, Debug, PartialEq, Eq)]
pub enum RunFault {
    /// The capacity of the rings or the number of tries is out of range, or a queue may not hold these values before a
    /// run. No thread was started.
    Limit,
    /// The queue has one producer and one consumer, and the plan has more. No thread was started.
    Roles,
    /// Out of memory, perhaps in the collector while the workers ran.
    Memory,
    /// A push of this thread found no room in all its tries.
    Stalled(u8),
    /// The ring of this thread gave no close token.
    CloseLost(u8),
    /// The token at its place didn't certify the ring of this thread.
    Uncertified(u8),
    /// The enqueue of the initial value at this place, counted from 0, failed: the queue was full or out of memory. No
    /// thread was started.
    Preload(usize),
}

impl RunFault {
    /// Returns the name of the fault, which is printed before its thread or place.
    pub fn name(self) -> &'static str
        ensures short { length result.now ≤ 20 }
        ensures name { result.now ≡ name_of self }
    {
        match self {
            RunFault::Stalled(_) => "Stalled",
            RunFault::CloseLost(_) => "CloseLost",
            RunFault::Uncertified(_) => "Uncertified",
            RunFault::Preload(_) => "Preload",
            RunFault::Limit => "Limit",
            RunFault::Roles => "Roles",
            RunFault::Memory => "Memory",
        }
    }

    /// Returns the thread that the fault names, or the place of an initial value; none if it names neither.
    pub fn place(self) -> Option<u64>
        ensures { result ≡ place_in self }
    {
        match self {
            RunFault::Limit | RunFault::Roles | RunFault::Memory => None,
            RunFault::Stalled(thread)
            | RunFault::CloseLost(thread)
            | RunFault::Uncertified(thread) => Some(u64::from(thread)),
            RunFault::Preload(place) => Some(place as u64),
        }
    }

    // Returns the number of the fault in the order of faults.
    fn number(self) -> u8
        ensures { result ≡ number_of self }
    {
        match self {
            RunFault::Limit => 1,
            RunFault::Roles => 2,
            RunFault::Memory => 3,
            RunFault::Stalled(_) => 4,
            RunFault::CloseLost(_) => 5,
            RunFault::Uncertified(_) => 6,
            RunFault::Preload(_) => 7,
        }
    }

    // Returns the thread or place that the fault names, or 0.
    fn place_or_zero(self) -> u64
        ensures { result ≡ place_of self }
    {
        self.place().unwrap_or(0)
    }

    // Returns whether this fault counts if `other` stands too.
    fn is_not_after(self, other: RunFault) -> bool
        ensures yes { result ≡ true → IsNotAfter self other }
        ensures no { result ≡ false → IsNotAfter other self }
    {
        let (number, others) = (self.number(), other.number());
        number < others || (number == others && self.place_or_zero() <= other.place_or_zero())
    }
}

impl fmt::Display for RunFault {
    fn fmt<W: fmt::Write>(&self, f: &mut fmt::Formatter<W>) -> fmt::Result {
        f.write_str(self.name())?;
        match self.place() {
            Some(place) => write!(f, " {place}"),
            None => Ok(()),
        }
    }
}

impl Error for RunFault {}

impl From<AllocError> for RunFault {
    ghost from_gives = { λ _ fault. fault ≡ made.Memory };

    fn from(_: AllocError) -> RunFault {
        RunFault::Memory
    }
}

impl From<CollectError> for RunFault {
    ghost use Rattle.stress_run.specs.Faults.{IsFaultOf};

    ghost from_gives = { λ error fault. IsFaultOf error fault };

    fn from(error: CollectError) -> RunFault {
        match error {
            CollectError::Memory => RunFault::Memory,
            CollectError::Uncertified(thread) => RunFault::Uncertified(thread),
        }
    }
}

// Returns the one of two faults that counts.
fn earlier(one: RunFault, other: RunFault) -> RunFault
    ensures either { (result ≡ one) ⊎ (result ≡ other) }
    ensures first { IsNotAfter result one }
    ensures second { IsNotAfter result other }
{
    if one.is_not_after(other) { one } else { other }
}

/// Returns the fault that a run reports if all of these stand: the one with the least number, and among several with
/// this number the one with the least thread or place. Returns none if and only if there is no fault.
///
/// Takes no memory, and time in proportion to the number of faults.
pub fn least_fault(faults: &[RunFault]) -> Option<RunFault>
    ensures none { IsNone result ↔ (faults.now ≡ []) }
    ensures stands { IfSome result (λ fault. Contains faults.now fault) }
    ensures least { IfSome result (λ fault. All (IsNotAfter fault) faults.now) }
{
    let mut least = *faults.first()?;
    for fault in faults {
        least = earlier(least, *fault);
    }
    Some(least)
}
