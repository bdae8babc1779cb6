// Plans determined by a seed.
ghost use Rattle.std.specs.Prelude.{◌≡◌, ◌*◌, ◌≤◌, length, IfOk};
ghost use Rattle.event_records.specs.declared.limits.TheConstants.{MAX_OPERATIONS, MAX_THREAD_OPERATIONS};
ghost use Rattle.event_records.specs.declared.limits.TheConstants.{MAX_WORKERS};
ghost use Rattle.workloads.specs.Seeds.{IsSeeded, kind_of_word};
ghost use Rattle.workloads.specs.Inner.Seeds.{GivesKinds};

use crate::plans::{Plan, Row};
use event_records::Kind;
use rand_core::SeedableRng;
use rand_core::utils::NextWord;
use rand_pcg::Pcg64;
use std::alloc::{AllocError, Global};

impl Plan {
    /// Makes a plan of `workers` workers with `operations` operations each, about `percent` of a hundred of them
    /// enqueues.
    ///
    /// One `Pcg64` from `seed_from_u64(seed)` gives one word for each operation, worker by worker, so one seed always
    /// gives one plan. Takes time and memory in proportion to the operations. The only error is out of memory.
    ///
    /// Four workers, each with 1,000 operations, about half of them enqueues:
    ///
    /// ```rust
    /// let plan = Plan::from_seed(alloc, 1, 4, 1000, 50)?;
    /// assert_eq!(rt; plan.rows().len(), 4);
    /// assert_eq!(rt; plan.operations(), 4000);
    /// ```
    pub fn from_seed(
        alloc: Global,
        seed: u64,
        workers: usize,
        operations: usize,
        percent: u8,
    ) -> Result<Plan, AllocError>
        requires workers { (1 ≤ workers) × (workers ≤ MAX_WORKERS) }
        requires operations { operations ≤ MAX_THREAD_OPERATIONS }
        requires together { workers * operations ≤ MAX_OPERATIONS }
        requires percent { percent ≤ 100 }
        ensures { IfOk result (IsSeeded seed workers operations percent) }
    {
        let mut words = Pcg64::seed_from_u64(seed);
        let mut rows = Vec::with_capacity(alloc, workers)?;
        for _ in 0..workers {
            rows.push(next_row(alloc, &mut words, operations, percent)?)?;
        }
        Ok(Plan::within_limits(rows))
    }
}

// Makes the row of the next words.
fn next_row(
    alloc: Global,
    words: &mut Pcg64,
    operations: usize,
    percent: u8,
) -> Result<Row, AllocError>
    ensures len { IfOk result (λ row. length row ≡ operations) }
    ensures kinds { IfOk result (λ row. GivesKinds percent words.old row words.new) }
{
    let mut kinds = Vec::with_capacity(alloc, operations)?;
    for _ in 0..operations {
        kinds.push(kind_of(words.next_word(), percent))?;
    }
    Ok(Row::from_vec(kinds))
}

fn kind_of(word: u64, percent: u8) -> Kind
    ensures { result ≡ kind_of_word percent word }
{
    if word % 100 < u64::from(percent) {
        Kind::Enq
    } else {
        Kind::Deq
    }
}
