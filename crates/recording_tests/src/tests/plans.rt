ghost use Rattle.std.specs.Prelude.{◌≤◌};

use rand_core::{Rng, SeedableRng};
use rand_pcg::Pcg64;
use std::alloc::{AllocError, Global};
use std::test::Fail;
use workloads::{Kind, Plan, PlanFault, Row};

// The first words of the generator after some seeds, as other implementations of it give them.
const FIRST_WORDS: [(u64, u64); 3] = [
    (0, 2_354_861_276_966_075_475),
    (1, 15_492_934_433_077_865_799),
    (42, 4_178_418_447_715_145_737),
];

// Returns the text of a plan.
fn written(alloc: Global, plan: &Plan) -> Result<String, AllocError> {
    let mut text = String::new(alloc);
    for row in plan.rows() {
        for kind in row.as_slice() {
            text.push(match kind {
                Kind::Enq => 'E',
                Kind::Deq => 'D',
            })?;
        }
        text.push('\n')?;
    }
    Ok(text)
}

// Returns the numbers of workers and operations in the plan of a text, and whether its text is this one again.
fn read(alloc: Global, text: &str) -> Result<(usize, u64, bool), PlanFault> {
    let plan = Plan::from_text(alloc, text)?;
    let is_again = written(alloc, &plan)?.as_str() == text;
    Ok((plan.rows().len(), plan.operations(), is_again))
}

// A text, and the result of reading it.
const TEXTS: [(&str, Result<(usize, u64, bool), PlanFault>); 11] = [
    ("EDE\nD\n", Ok((2, 4, true))),
    ("\n", Ok((1, 0, true))),
    ("E\n\nDD\n", Ok((3, 3, true))),
    ("", Err(PlanFault::Limit)),
    ("ED", Err(PlanFault::Cut)),
    ("EX", Err(PlanFault::Cut)),
    ("EX\n", Err(PlanFault::Letter(0))),
    ("E\n\nD D\nX\n", Err(PlanFault::Letter(2))),
    ("ED\r\n", Err(PlanFault::Letter(0))),
    (
        "\n\n\n\n\n\n\n\n\n\n\n\n\n\n\n\n\n\n\n\n\n\n\n\n\n\n\n\n\n\n\n\n\n",
        Err(PlanFault::Limit),
    ),
    (
        "\n\n\n\n\n\n\n\n\n\n\n\n\n\n\n\n\n\n\n\n\n\n\n\n\n\n\n\n\n\n\n\n\nX\n",
        Err(PlanFault::Letter(33)),
    ),
];

#[test]
fn texts_are_read_or_refused(rt: HostRuntime) {
    for (text, expected) in TEXTS {
        let found = read(rt.alloc(), text);
        assert!(rt; found == expected, "at {text:?}: {found:?}");
    }
}

#[test]
fn first_words_are_the_published_ones(rt: HostRuntime) {
    for (seed, word) in FIRST_WORDS {
        assert!(rt;
            Pcg64::seed_from_u64(seed).next_u64() == word,
            "after {seed}"
        );
    }
}

// Returns the text of the plan of this many workers with one dequeue each, if there is such a plan.
fn planned(alloc: Global, workers: usize) -> Result<Option<String>, AllocError> {
    let mut rows = Vec::new(alloc);
    for _ in 0..workers {
        rows.push(Row::from_vec(vec![in alloc; Kind::Deq]?))?;
    }
    match Plan::of_rows(rows) {
        Some(plan) => Ok(Some(written(alloc, &plan)?)),
        None => Ok(None),
    }
}

// The number of workers, and the text of their plan if they have one.
const PLANNED: [(usize, Option<&str>); 4] = [
    (0, None),
    (2, Some("D\nD\n")),
    (
        32,
        Some(
            "D\nD\nD\nD\nD\nD\nD\nD\nD\nD\nD\nD\nD\nD\nD\nD\nD\nD\nD\nD\nD\nD\nD\nD\nD\nD\nD\nD\nD\nD\nD\nD\n",
        ),
    ),
    (33, None),
];

#[test]
fn rows_within_the_limits_are_a_plan(rt: HostRuntime) -> Result<(), Fail> {
    for (workers, expected) in PLANNED {
        let found = planned(rt.alloc(), workers)?;
        assert!(rt; found.as_deref() == expected, "{workers} workers");
    }
    Ok(())
}

// Returns the text of a plan in which each of this many workers makes 100,000 enqueues.
fn enqueues(alloc: Global, workers: usize) -> Result<String, AllocError>
    requires { workers ≤ 32 }
{
    let mut text = String::new(alloc);
    for n in 1..=workers * 100_001 {
        text.push(if n % 100_001 == 0 { '\n' } else { 'E' })?;
    }
    Ok(text)
}

// Returns the number of operations in the plan of that text.
fn operations_of(alloc: Global, workers: usize) -> Result<u64, PlanFault>
    requires { workers ≤ 32 }
{
    let text = enqueues(alloc, workers)?;
    Ok(Plan::from_text(alloc, &text)?.operations())
}

#[test]
fn the_longest_text_is_read(rt: HostRuntime) -> Result<(), Fail> {
    assert!(rt; operations_of(rt.alloc(), 10)? == 1_000_000);
    Ok(())
}
