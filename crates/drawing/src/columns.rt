//! The columns of a picture, and their widths.
ghost use Rattle.std.specs.Prelude.{◌≡◌, ◌+◌, ◌*◌, ◌≤◌, IfOk, length, vec_len};
ghost use Rattle.drawing.specs.Layout.{digits, label, has_operations, threads_of, label_width};
ghost use Rattle.drawing.specs.Terminal.{lane_place, columns_of};
ghost use Rattle.drawing.specs.Scene.{scene_on};
ghost use Rattle.drawing.specs.Claim.{count_of_lines};

use crate::canvas::{Canvas, Scene};
use crate::claim::count_of_lines;
use crate::names::{initial_label_len, value_len};
use crate::scene::ticket_width;
use claims::Claimed;
use event_records::{Event, MAX_THREAD, MAX_THREADS};
use history_merge::{History, OpKind, Operation};
use itoa::Buffer;
use std::alloc::{AllocError, Global};

/// The maximum number of operations of a history, and of lines of a claim, that are drawn.
pub const MOST_DRAWN: usize = 400;

/// The number of rows after which the heads are repeated.
pub(crate) const ROWS_UNDER_HEADS: usize = 40;

/// Returns the events of a history in a list of their own.
pub(crate) fn events_of(alloc: Global, history: &History) -> Result<Vec<Event>, AllocError>
    ensures { IfOk result (λ events. events.items ≡ history.now.events) }
{
    history.events().collect(alloc)
}

/// The maximum number of lanes that have room for a number. If there are more, a lane is one character wide.
pub(crate) const WIDE_LANES: usize = 16;

/// An upper bound of the column at which lanes begin.
pub(crate) const MAX_LANES: usize = 257 + 5 * (MOST_DRAWN + 2);

/// The columns of a picture of characters, counted from 0.
#[derive(Clone, Copy)]
pub struct Columns {
    /// The width of the column of tickets, which is the first.
    pub ticket: usize,
    /// The column of the bands, or of the order of a `YES`.
    pub beside: usize,
    /// The column of the first lane.
    pub lanes: usize,
    /// The width of a lane.
    pub lane: usize,
    /// The column of the labels of calls.
    pub label: usize,
}

/// Returns the number of digits of a number.
pub fn digits(number: u64) -> u8
    ensures value { result ≡ digits number }
    ensures few { result ≤ 20 }
{
    let mut buffer = Buffer::new();
    buffer.format(number).as_bytes().len() as u8
}

fn has_operations(operations: &[Operation], thread: u8) -> bool
    ensures { result ≡ has_operations operations.now thread }
{
    operations
        .iter()
        .any(|operation| operation.thread == thread)
}

/// Returns the threads that have operations, the least first.
pub(crate) fn threads_of(alloc: Global, operations: &[Operation]) -> Result<Vec<u8>, AllocError>
    ensures threads { IfOk result (λ threads. threads.items ≡ threads_of operations.now) }
    ensures few { IfOk result (λ threads. vec_len threads ≤ MAX_THREADS) }
{
    (0..MAX_THREAD + 1)
        .filter(|thread| has_operations(operations, *thread))
        .collect(alloc)
}

fn label_len(kind: OpKind) -> u8
    ensures { result ≡ length (label kind) }
{
    match kind {
        OpKind::Enqueue(value) | OpKind::Dequeue(value) | OpKind::EnqueueFailed(value) => 4
            + value_len(value),
        OpKind::DequeueEmpty => 5,
    }
}

/// Returns the length of the longest label of these initial values and operations, or of `empty`.
pub fn label_width(initial: &[u64], operations: &[Operation]) -> u8
    ensures { result ≡ label_width initial.now operations.now }
{
    let initial = initial.iter().map(|value| initial_label_len(*value));
    let labels = operations.iter().map(|operation| label_len(operation.kind));
    initial.chain(labels).fold(5, |widest, len| widest.max(len))
}

/// Returns the place of a lane of this width, to the right of `before` others. Lanes of one character are in groups
/// of four.
pub(crate) fn lane_place(lane: usize, before: usize) -> usize
    requires lane { lane ≤ 22 }
    requires few { before ≤ MAX_THREADS }
    ensures value { result ≡ lane_place lane before }
    ensures few { result ≤ 22 * MAX_THREADS }
{
    if lane == 1 {
        before + before / 4
    } else {
        lane * before
    }
}

/// Lays out a scene in columns.
pub(crate) fn canvas_of<'a>(alloc: Global, scene: &'a Scene<'a>) -> Canvas<'a>
    requires { count_of_lines scene.now.claimed.now ≤ MOST_DRAWN }
    ensures columns { result.columns ≡ columns_of (scene_on scene.now) }
    ensures scene { result.scene.now ≡ scene.now }
{
    let ticket = usize::from(ticket_width(scene.added_from, scene.rows.as_slice()));
    let widest_label = label_width(scene.initial.as_slice(), scene.operations.as_slice());
    let room = match scene.claimed {
        Claimed::Yes(order) => {
            usize::from(digits(order.as_slice().len() as u64)) + usize::from(widest_label) + 3
        }
        Claimed::No(_, _) => 5 * scene.bands.len(),
    };
    let lanes = scene.threads.len();
    let lane = if lanes > WIDE_LANES {
        1
    } else {
        usize::from(digits(count_of_lines(scene.claimed) as u64).max(2) + 2)
    };
    let columns = Columns {
        ticket,
        beside: ticket + 2,
        lanes: ticket + 2 + room,
        lane,
        label: ticket + 2 + room + 2 + lane_place(lane, lanes).max(6),
    };
    Canvas {
        alloc,
        columns,
        scene,
    }
}
