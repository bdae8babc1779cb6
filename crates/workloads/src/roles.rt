// Plans of producers and consumers.
ghost use Rattle.std.specs.Prelude.{◌≡◌, ◌*◌, ◌≤◌, ◌++◌, IfOk, OnOk, replicate};
ghost use Rattle.event_records.specs.declared.limits.TheConstants.{MAX_OPERATIONS, MAX_THREAD_OPERATIONS};
ghost use Rattle.event_records.specs.declared.limits.TheConstants.{MAX_WORKERS};
ghost use Rattle.workloads.specs.Roles.{IsOfRoles};

use crate::plans::{Plan, Row};
use event_records::Kind;
use std::alloc::{AllocError, Global};

impl Plan {
    /// Makes a plan of `workers` workers with `operations` operations each, in which the first `producers` workers
    /// only enqueue and the others only dequeue.
    ///
    /// Takes time and memory in proportion to the operations. The only error is out of memory.
    ///
    /// One producer and one consumer, each with 1,000 operations:
    ///
    /// ```rust
    /// let plan = Plan::of_roles(alloc, 2, 1, 1000)?;
    /// assert_eq!(rt; plan.rows().len(), 2);
    /// assert_eq!(rt; plan.operations(), 2000);
    /// ```
    pub fn of_roles(
        alloc: Global,
        workers: usize,
        producers: usize,
        operations: usize,
    ) -> Result<Plan, AllocError>
        requires workers { (1 ≤ workers) × (workers ≤ MAX_WORKERS) }
        requires producers { producers ≤ workers }
        requires operations { operations ≤ MAX_THREAD_OPERATIONS }
        requires together { workers * operations ≤ MAX_OPERATIONS }
        ensures { IfOk result (IsOfRoles workers producers operations) }
    {
        let mut rows = Vec::with_capacity(alloc, workers)?;
        push_rows(alloc, &mut rows, producers, Kind::Enq, operations)?;
        push_rows(alloc, &mut rows, workers - producers, Kind::Deq, operations)?;
        Ok(Plan::within_limits(rows))
    }
}

// Appends `count` rows, each of `operations` operations of this kind.
fn push_rows(
    alloc: Global,
    rows: &mut Vec<Row>,
    count: usize,
    kind: Kind,
    operations: usize,
) -> Result<(), AllocError>
    ensures { OnOk result (rows.new.items ≡ rows.old.items ++ replicate count (replicate operations kind)) }
{
    for _ in 0..count {
        rows.push(Row::from_vec(vec![in alloc; kind; operations]?))?;
    }
    Ok(())
}
