//! Operations that never returned.
ghost use Rattle.std.specs.Prelude.{◌≡◌};
ghost use Rattle.std.specs.List.{list_any};
ghost use Rattle.drawing.specs.Pending.{is_added, is_pending};

use history_merge::Operation;

/// Returns whether the event of this ticket was added to a history by a completion, which added those from
/// `added_from` on.
pub(crate) fn is_added(added_from: Option<u64>, ticket: u64) -> bool
    ensures { result ≡ is_added added_from ticket }
{
    match added_from {
        None => false,
        Some(first) => first <= ticket,
    }
}

/// Returns whether the call of an operation is pending: its return was added by a completion, which added those from
/// `added_from` on.
pub fn is_pending(added_from: Option<u64>, operation: Operation) -> bool
    ensures { result ≡ is_pending added_from operation }
{
    is_added(added_from, operation.ret)
}

/// Returns whether the call of one of these operations is pending.
pub(crate) fn is_any_pending(added_from: Option<u64>, operations: &[Operation]) -> bool
    ensures { result ≡ list_any (is_pending added_from) operations.now }
{
    operations
        .iter()
        .any(|operation| is_pending(added_from, *operation))
}
