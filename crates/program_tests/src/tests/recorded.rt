//! The output of `check` for runs of queues in this process.
use super::run;
use Entry::{Empty, Got, Taken};
use commands::built_ins;
use history_text::{MemorySource, Version, Watched, write_history};
use queue_interface::{Entry, ScriptQueue, TestQueue};
use std::alloc::Global;
use std::sync::Wait;
use std::test::Fail;
use std::thread::Threads;
use workloads::Plan;

/// Returns the text of the history of a run of this plan, if there is one.
fn recorded<R: AllocGlobal + Threads + Wait + Sync>(
    rt: &R,
    queue: &dyn TestQueue,
    plan: &str,
) -> Option<Vec<u8>> {
    let alloc = rt.alloc();
    let plan = Plan::from_text(alloc, plan).ok()?;
    let recorded = stress_run::run(rt, alloc, queue, &plan, 64, 1_000_000).ok()?;
    let history = recorded.history(alloc).ok()?;
    let mut text = Watched::new(Vec::new(alloc));
    write_history(Version::One, &history, &mut text).ok()?;
    Some(text.into_inner())
}

/// Returns the output of `check` for it.
fn judged<R: AllocGlobal + Threads + Wait + Sync>(
    rt: &R,
    queue: &dyn TestQueue,
    plan: &str,
) -> Option<Vec<u8>> {
    let text = recorded(rt, queue, plan)?;
    let source = MemorySource::new(text.as_slice());
    let (written, _) = run(rt, "fifobench check", source, &[]).ok()?;
    Some(written)
}

/// Returns whether this is the output of `check` for it.
fn is_judged<R: AllocGlobal + Threads + Wait + Sync>(
    rt: &R,
    queue: &dyn TestQueue,
    plan: &str,
    verdict: &str,
) -> bool {
    match judged(rt, queue, plan) {
        Some(written) => written.as_slice() == verdict.as_bytes(),
        None => false,
    }
}

const OVERTAKEN: &str = "NO VOrd\n0 1 0 enq 0\n2 3 0 enq 1\n4 5 0 deq 1\n6 7 0 deq 0\n";

const DOUBLED: &str = "NO VRepeat\n6 7 0 enq 3\n14 15 0 deq 3\n16 17 0 deq 3\n";

const LOST: &str = "NO VOrd\n6 7 0 enq 3\n8 9 0 enq 4\n16 17 0 deq 4\n";

const UNSEEN: &str = "NO VWit\n8 9 0 empty\n6 7 0 enq 3\n";

const INVENTED: &str = "NO VFresh\n6 7 0 deq 9223372036854775808\n";

const KEPT_IN_ORDER: &str = "YES\n0 1 0 enq 0\n2 3 0 deq 0\n";

// Each faulty queue but the first counts its calls, so a call that the recorder doesn't record would change its
// answers.
const FOUND: [(&str, &str, &str); 9] = [
    ("locked", "ED\n", KEPT_IN_ORDER),
    ("two-lock", "ED\n", KEPT_IN_ORDER),
    ("array", "ED\n", KEPT_IN_ORDER),
    ("seg", "ED\n", KEPT_IN_ORDER),
    ("lifo", "EEDD\n", OVERTAKEN),
    ("doubling", "EEEEDDDDD\n", DOUBLED),
    ("inventing", "DDDD\n", INVENTED),
    ("shy", "DDDED\n", UNSEEN),
    ("losing", "EEEEEDDDDD\n", LOST),
];

#[test]
fn queues_of_the_shelf_are_what_they_are_called(rt: HostRuntime) -> Result<(), Fail> {
    let queues = built_ins(rt, rt.alloc())?;
    assert!(rt; queues.len() == FOUND.len());
    for (queue, (name, plan, text)) in queues.iter().zip(FOUND) {
        let right = queue.name() == name && is_judged(&rt, queue, plan, text);
        assert!(rt; right, "{name}");
    }
    Ok(())
}

/// Returns a queue that answers each thread by its row.
fn script(alloc: Global, rows: &[&[Entry]]) -> Result<ScriptQueue, Fail> {
    let mut script = Vec::new(alloc);
    for row in rows {
        script.push(Vec::from_slice(alloc, row)?)?;
    }
    Ok(ScriptQueue::new(script))
}

const LIES: [(&[Entry], &str, &str); 5] = [
    (
        &[Got(u64::MAX)],
        "D\n",
        "NO VFresh\n0 1 0 deq 18446744073709551615\n",
    ),
    (
        &[Taken, Got(0), Got(0)],
        "EDD\n",
        "NO VRepeat\n0 1 0 enq 0\n2 3 0 deq 0\n4 5 0 deq 0\n",
    ),
    (
        &[Taken, Taken, Got(1)],
        "EED\n",
        "NO VOrd\n0 1 0 enq 0\n2 3 0 enq 1\n4 5 0 deq 1\n",
    ),
    (
        &[Taken, Empty],
        "ED\n",
        "NO VWit\n2 3 0 empty\n0 1 0 enq 0\n",
    ),
    (
        &[Got(0), Got(0)],
        "ED\n",
        "NO VFresh\n2 3 0 deq 0\n0 1 0 not 0\n",
    ),
];

#[test]
fn scripts_that_lie_are_caught(rt: HostRuntime) -> Result<(), Fail> {
    for (row, plan, text) in LIES {
        let queue = script(rt.alloc(), &[row])?;
        assert!(rt; is_judged(&rt, &queue, plan, text), "{plan}");
    }
    Ok(())
}

/// Returns whether a verdict reports one of two violations: a value dequeued before it was enqueued, by the first
/// operation, or a value dequeued twice, but not by the first operation.
fn is_caught(verdict: &[u8]) -> bool {
    match str::from_utf8(verdict) {
        Ok(text) if text.contains("\n0 1 1 deq 0\n") => text.starts_with("NO VFresh\n"),
        Ok(text) => text.starts_with("NO VRepeat\n"),
        Err(_) => false,
    }
}

// Both threads dequeue the one value. Whichever comes first, the answer is `NO`.
#[test]
fn a_value_given_to_two_threads_is_caught(rt: HostRuntime) -> Result<(), Fail> {
    let queue = script(rt.alloc(), &[&[Taken, Got(0)], &[Got(0)]])?;
    let verdict = judged(&rt, &queue, "ED\nD\n").ok_or("no verdict")?;
    assert!(rt; is_caught(verdict.as_slice()));
    Ok(())
}
