// A law of the account of all passes.
ghost use Rattle.std.specs.Prelude.{ℕ, List};
ghost use Rattle.tickets.specs.declared.account.Holding.{Holding};
ghost use Rattle.tickets.specs.Account.{IsAccount, DrawnOnce};

/// Proves that between any two steps no ticket is in two passes, each ticket is below the next one, and the next
/// ticket is the count of those that were drawn.
pub fn each_ticket_is_drawn_once()
    ensures { (budget next : ℕ) (passes : List Holding) → IsAccount budget next passes → DrawnOnce next passes }
{}
