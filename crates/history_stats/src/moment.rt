//! The two moments of an operation.
ghost use Rattle.std.specs.Prelude.{◌≡◌};
ghost use Rattle.history_stats.specs.Inner.AtOnce.{ticket_at};

use history_merge::Operation;

/// A moment of an operation: its call or its return.
#[derive(Clone, Copy)]
pub(crate) enum Moment {
    Call,
    Return,
}

impl Moment {
    /// Returns the ticket of this moment of an operation.
    pub(crate) fn ticket(self, operation: Operation) -> u64
        ensures { result ≡ ticket_at self operation }
    {
        match self {
            Moment::Call => operation.call,
            Moment::Return => operation.ret,
        }
    }
}
