// Plans with one producer and one consumer.
ghost use Rattle.std.specs.Prelude.{◌↔◌, IsTrue, Contains};
ghost use Rattle.stress_run.specs.Roles.{AtMostOneHas, HasOneOfEach};

use event_records::Kind;
use workloads::Row;

// Returns whether a row has an operation of this kind.
pub(crate) fn has_kind(row: &Row, kind: Kind) -> bool
    ensures { IsTrue result ↔ Contains row.now kind }
{
    row.as_slice().contains(&kind)
}

// Returns whether at most one row has an operation of this kind.
fn at_most_one_has(kind: Kind, rows: &[Row]) -> bool
    ensures { IsTrue result ↔ AtMostOneHas kind rows.now }
{
    let mut found = false;
    for row in rows {
        if has_kind(row, kind) {
            if found {
                return false;
            }
            found = true;
        }
    }
    true
}

// Returns whether no two rows both have an enqueue, and no two both have a dequeue.
pub(crate) fn has_one_of_each(rows: &[Row]) -> bool
    ensures { IsTrue result ↔ HasOneOfEach rows.now }
{
    at_most_one_has(Kind::Enq, rows) && at_most_one_has(Kind::Deq, rows)
}
