// Plans as texts of letters.
ghost use Rattle.std.specs.Prelude.{◌≡◌, ◌≢◌, ℕ, ◌≤◌, ◌↔◌, List, count_by, IfOk};
ghost use Rattle.std.specs.Prelude.{IfErr, IsTrue, MatchOption, MatchResult};
ghost use Rattle.std.specs.List.{list_all, slice_split};
ghost use Rattle.event_records.specs.declared.kind.Kind.{Kind};
ghost use Rattle.workloads.specs.declared.texts.PlanFault.TheVariants as made;
ghost use Rattle.workloads.specs.Plans.{IsPlan};
ghost use Rattle.workloads.specs.Texts.{letter, text_of, IsCut, HasLines, HasStray, IsPlanText, IsFaultOf};
ghost use Rattle.workloads.specs.Inner.Texts.{ends_line, is_short_line};

use crate::plans::{Plan, Row};
use event_records::{Kind, MAX_OPERATIONS, MAX_THREAD_OPERATIONS, MAX_WORKERS};
use std::alloc::{AllocError, Global};
use std::mem;
use thiserror::Error;

const ENQUEUE: u8 = b'E';

const DEQUEUE: u8 = b'D';

const LINE_FEED: u8 = b'\n';

/// The reason why a text isn't a plan. If it has several faults, it is the one that comes first here.
#[derive(Clone, Copy, Debug, PartialEq, Eq, Error)]
pub enum PlanFault {
    /// The text isn't empty and doesn't end with LF.
    #[error("the last line does not end with LF")]
    Cut,
    /// The line of this worker, from 0, is the first that has a byte other than `E` and `D`.
    #[error("the line of worker {0} has another byte than E and D")]
    Letter(usize),
    /// The lines are too few, too many or too long for a plan. The empty text has no line.
    #[error("the plan is beyond the limits of a run")]
    Limit,
    /// The text is that of a plan, but memory ran out.
    #[error("out of memory")]
    Memory,
}

impl From<AllocError> for PlanFault {
    ghost from_gives = { λ _ fault. fault ≡ made.Memory };

    fn from(_: AllocError) -> PlanFault {
        PlanFault::Memory
    }
}

impl Plan {
    /// Parses a plan: one line for each worker, of the letters `E` for an enqueue and `D` for a dequeue, with LF
    /// after each line. The line of a worker without operations is empty.
    ///
    /// Takes time in proportion to the text, and memory in proportion to the plan.
    pub fn from_text(alloc: Global, text: &str) -> Result<Plan, PlanFault>
        ensures plan { IfOk result (λ plan. text.now ≡ text_of plan) }
        ensures fault { IfErr result (IsFaultOf text.now) }

        // The fault is one that the text has. `Memory` comes only for the text of a plan, which may also be parsed.
        ensures exact { (fault : PlanFault) → IsFaultOf text.now fault
            → MatchResult result (λ _. fault ≡ PlanFault.Memory) (λ answer. answer ≡ fault) }
    {
        let text = text.as_bytes();
        if let Some(fault) = fault_of(text) {
            return Err(fault);
        }
        let rows = read_rows(alloc, text)?;
        Ok(Plan::within_limits(rows))
    }
}

// Returns the fault of this text, if it isn't that of a plan.
fn fault_of(text: &[u8]) -> Option<PlanFault>
    ensures { MatchOption result (IsPlanText text.now) (IsFaultOf text.now) }
{
    if is_cut(text) {
        return Some(PlanFault::Cut);
    }
    if let Some(worker) = stray_worker(text) {
        return Some(PlanFault::Letter(worker));
    }
    if is_within_limits(text) {
        None
    } else {
        Some(PlanFault::Limit)
    }
}

fn is_cut(text: &[u8]) -> bool
    ensures { IsTrue result ↔ IsCut text.now }
{
    text.last().is_some_and(|last| *last != LINE_FEED)
}

// Returns the worker of the first byte that is neither a letter nor the end of a line.
fn stray_worker(text: &[u8]) -> Option<usize>
    ensures { MatchOption result ((workers : ℕ) × HasLines text.now workers) (HasStray text.now) }
{
    let mut worker = 0;
    for byte in text {
        match kind_of_letter(*byte) {
            Some(_) => {}
            None if *byte == LINE_FEED => worker += 1,
            None => return Some(worker),
        }
    }
    None
}

fn kind_of_letter(byte: u8) -> Option<Kind>
    ensures { MatchOption result ((kind : Kind) → byte ≢ letter kind) (λ kind. byte ≡ letter kind) }
{
    match byte {
        ENQUEUE => Some(Kind::Enq),
        DEQUEUE => Some(Kind::Deq),
        _ => None,
    }
}

// Returns whether the rows of a text are those of a plan.
fn is_within_limits(text: &[u8]) -> bool
    ensures { (rows : List (List Kind)) → text.now ≡ text_of rows → (IsTrue result ↔ IsPlan rows) }
{
    let workers = line_count(text);
    has_plan_size(workers, text.len() - workers) && has_short_lines(text)
}

fn line_count(text: &[u8]) -> usize
    ensures { result ≡ count_by ends_line text.now }
{
    text.iter().filter(|byte| **byte == LINE_FEED).count()
}

fn has_plan_size(workers: usize, operations: usize) -> bool
    ensures { IsTrue result ↔ (1 ≤ workers) × (workers ≤ MAX_WORKERS) × (operations ≤ MAX_OPERATIONS) }
{
    (1..=MAX_WORKERS).contains(&workers) && operations as u64 <= MAX_OPERATIONS
}

fn has_short_lines(text: &[u8]) -> bool
    ensures { result ≡ list_all is_short_line (slice_split ends_line text.now) }
{
    text.split(|byte| *byte == LINE_FEED)
        .all(|line| line.len() as u64 <= MAX_THREAD_OPERATIONS)
}

// Parses the rows of a text.
fn read_rows(alloc: Global, text: &[u8]) -> Result<Vec<Row>, AllocError>
    requires { (rows : List (List Kind)) × (text.now ≡ text_of rows) }
    ensures { IfOk result (λ rows. text.now ≡ text_of rows.items) }
{
    let mut rows = Vec::new(alloc);
    let mut kinds = Vec::new(alloc);
    for byte in text {
        match kind_of_letter(*byte) {
            Some(kind) => kinds.push(kind)?,
            None => rows.push(Row::from_vec(mem::replace(&mut kinds, Vec::new(alloc))))?,
        }
    }
    Ok(rows)
}
