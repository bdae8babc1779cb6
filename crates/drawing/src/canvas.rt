//! The parts of pictures.
ghost use Rattle.std.specs.Prelude.{◌+◌, ◌≤◌, vec_len};
ghost use Rattle.drawing.specs.Claim.{count_of_lines};
ghost use Rattle.drawing.specs.declared.columns.TheConstants.{MAX_LANES, MOST_DRAWN};
ghost use Rattle.event_records.specs.declared.limits.TheConstants.{MAX_THREADS};

use crate::bands::Band;
use crate::columns::Columns;
use crate::scene::Row;
use claims::Claimed;
use history_merge::Operation;
use std::alloc::Global;

/// The content of a picture of a history and a claim.
#[derive(Drop)]
pub struct Scene<'a> {
    /// The drawn initial values, front first.
    pub initial: Vec<u64>,
    /// The drawn operations.
    pub operations: Vec<Operation>,
    pub claimed: &'a Claimed,
    /// The threads of these operations, the least first.
    pub threads: Vec<u8>,
    /// The bands of a `NO`, left to right.
    pub bands: Vec<Band>,
    /// The rows, from top to bottom.
    pub rows: Vec<Row>,
    /// The ticket of the first return that a completion added, or none if nothing was added.
    pub added_from: Option<u64>,
    ghost few_threads: { vec_len threads ≤ MAX_THREADS },
    ghost few_bands: { vec_len bands ≤ count_of_lines claimed.now + 2 },
}

/// A scene, and its columns.
#[derive(Clone, Copy)]
pub(crate) struct Canvas<'a> {
    /// The allocator of its words.
    pub alloc: Global,
    pub columns: Columns,
    pub scene: &'a Scene<'a>,
    ghost few_lines: { count_of_lines scene.now.claimed.now ≤ MOST_DRAWN },
    ghost beside: { columns.beside ≤ columns.lanes },
    ghost lanes_begin: { columns.lanes ≤ MAX_LANES },
    ghost lane: { columns.lane ≤ 22 },
}
