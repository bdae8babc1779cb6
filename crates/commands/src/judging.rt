//! Decisions and claims under the condition of a command.
ghost use Rattle.std.specs.Prelude.{◌≡◌, ◌↔◌, IfOk, IsTrue};
ghost use Rattle.commands.specs.Conditions.{IsDecidedUnder, IsTrueUnder, emptiness_if};
ghost use Rattle.history_merge.specs.Operations.{operations_of};
ghost use Rattle.claims.specs.Claiming.{IsWithin};

use command_words::Condition;
use conditions::{
    Emptiness, decide_local_by, decide_weakly_empty_by, verify_local, verify_weakly_empty,
};
use history_merge::History;
use parallel_finders::WitnessSearch;
use std::alloc::{AllocError, Global};
use verdicts::{Claimed, Verdict, decide_by, verify};

/// Returns what empty dequeues promise under the condition.
pub(crate) fn emptiness_of(condition: Condition) -> Emptiness
    ensures { result ≡ emptiness_if condition.is_weakly_empty }
{
    if condition.is_weakly_empty {
        Emptiness::Weak
    } else {
        Emptiness::Strict
    }
}

/// Decides whether a history meets the condition, by this search for covers.
pub(crate) fn decide_under<S: WitnessSearch>(
    search: &S,
    alloc: Global,
    history: &History,
    condition: Condition,
) -> Result<Verdict, AllocError>
    requires { S.is_ready search.now }
    ensures decided { IfOk result (IsDecidedUnder condition history.now) }
    ensures places { IfOk result (IsWithin history.now.initial (operations_of history.now.events)) }
{
    if condition.is_local {
        let found = decide_local_by(search, alloc, history, emptiness_of(condition))?;
        found.into_verdict(alloc)
    } else if condition.is_weakly_empty {
        decide_weakly_empty_by(search, alloc, history)
    } else {
        decide_by(search, alloc, history)
    }
}

/// Returns whether a claim is evidence in a history under the condition.
pub(crate) fn verify_under(
    alloc: Global,
    history: &History,
    claimed: &Claimed,
    condition: Condition,
) -> Result<bool, AllocError>
    ensures exact { IfOk result (λ valid. IsTrue valid ↔ IsTrueUnder condition history.now claimed.now) }
{
    if condition.is_local {
        verify_local(alloc, history, emptiness_of(condition), claimed)
    } else if condition.is_weakly_empty {
        verify_weakly_empty(alloc, history, claimed)
    } else {
        verify(alloc, history, claimed)
    }
}
