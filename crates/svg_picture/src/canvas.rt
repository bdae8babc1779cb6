//! The parts of a picture.
ghost use Rattle.std.specs.Prelude.{◌≤◌, vec_len};
ghost use Rattle.drawing.specs.Claim.{count_of_lines};
ghost use Rattle.drawing.specs.declared.columns.TheConstants.{MOST_DRAWN};
ghost use Rattle.event_records.specs.declared.limits.TheConstants.{MAX_THREADS};

use drawing::Scene;
use std::alloc::Global;

/// The measures of a picture: how wide its parts are, in characters, and how many there are.
#[derive(Clone, Copy)]
pub(crate) struct Measures {
    /// The width of the widest ticket, or of the word above it.
    pub ticket: u8,
    /// The width of the greatest number of the claim.
    pub number: u8,
    /// The width of the longest label.
    pub label: u8,
    /// The number of threads that have events.
    pub lanes: usize,
    /// The number of rows.
    pub rows: usize,
    /// The number of bands of a `NO` that have a head.
    pub heads: usize,
    /// The width of the longest head.
    pub head: usize,
    /// The number of lines of the caption.
    pub captions: usize,
    /// The width of the longest of these lines.
    pub caption: usize,
    /// The number of lines of the legend.
    pub legend: usize,
    /// Whether the picture is of a `YES`.
    pub is_yes: bool,
}

/// A scene, and its measures.
#[derive(Clone, Copy)]
pub(crate) struct Canvas<'a> {
    /// The allocator of its words.
    pub alloc: Global,
    pub measures: Measures,
    pub scene: &'a Scene<'a>,
    ghost few_lines: { count_of_lines scene.now.claimed.now ≤ MOST_DRAWN },
    ghost few_threads: { vec_len scene.now.threads ≤ MAX_THREADS },
}
