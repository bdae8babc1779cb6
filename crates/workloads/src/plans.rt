// Rows of operations, and plans of them within the limits of a run.
ghost use Rattle.std.specs.Prelude.{◌≡◌, ◌+◌, ◌^◌, ◌<◌, ◌≤◌, ◌↔◌, length, sum_by, IsSome, IsTrue, IfSome};
ghost use Rattle.event_records.specs.declared.limits.TheConstants.{MAX_OPERATIONS};
ghost use Rattle.workloads.specs.Plans.{AreShort, IsPlan};

use event_records::{Kind, MAX_OPERATIONS, MAX_THREAD_OPERATIONS, MAX_WORKERS, OwnedSlice};
use std::marker::Model;

/// The operations of one worker, in order, seen as the list of their kinds.
pub type Row = OwnedSlice<Kind>;

/// One row for each worker, row 0 for worker 0, within the limits of a run: 1 to 32 workers, at most 100,000
/// operations of one worker, and at most 1,000,000 of all together.
#[derive(Debug, Drop)]
pub struct Plan {
    rows: Vec<Row>,
}

impl Model for Plan {
    ghost use Rattle.std.specs.Prelude.{List};
    ghost use Rattle.event_records.specs.declared.kind.Kind.{Kind};
    ghost use Rattle.workloads.specs.Plans.{IsPlan};

    ghost Value = { List (List Kind) };

    ghost view = { λ p. p.rows.items };

    ghost invariant = { λ p. IsPlan p.rows.items };
}

impl Plan {
    /// Makes the plan of these rows, or none if they are beyond the limits. Takes no memory.
    pub fn of_rows(rows: Vec<Row>) -> Option<Plan>
        ensures limits { IsSome result ↔ IsPlan rows.items }
        ensures plan { IfSome result (λ plan. plan ≡ rows.items) }
    {
        if are_within_limits(&rows) {
            Some(Plan { rows })
        } else {
            None
        }
    }

    /// Makes the plan of rows that are within the limits.
    pub(crate) fn within_limits(rows: Vec<Row>) -> Plan
        requires { IsPlan rows.items }
        ensures { result ≡ rows.items }
    {
        Plan { rows }
    }

    /// Returns the rows, one for each worker.
    pub fn rows(&self) -> &[Row]
        ensures rows { result.now ≡ self.now }
        ensures limits { IsPlan self.now }
    {
        self.rows.as_slice()
    }

    /// Returns the number of operations of all workers together.
    pub fn operations(&self) -> u64
        ensures count { result ≡ sum_by length self.now }
        ensures small { result ≤ MAX_OPERATIONS }
    {
        operations_of(&self.rows)
    }
}

// Returns whether a plan may have these rows.
#[tactic(auto, using(crate::proofs::Limits::sum_of_short))]
fn are_within_limits(rows: &[Row]) -> bool
    ensures { IsTrue result ↔ IsPlan rows.now }
{
    (1..=MAX_WORKERS).contains(&rows.len())
        && are_short(rows)
        && operations_of(rows) <= MAX_OPERATIONS
}

fn are_short(rows: &[Row]) -> bool
    ensures { IsTrue result ↔ AreShort rows.now }
{
    rows.iter()
        .all(|row| row.len() as u64 <= MAX_THREAD_OPERATIONS)
}

fn operations_of(rows: &[Row]) -> u64
    requires { sum_by length rows.now < 2 ^ 64 }
    ensures { result ≡ sum_by length rows.now }
{
    rows.iter().map(|row| row.len() as u64).sum()
}
