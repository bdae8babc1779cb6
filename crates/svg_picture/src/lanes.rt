//! Lanes, and the background.
ghost use Rattle.std.specs.Prelude.{◌≡◌, ◌++◌, OnOk};
ghost use Rattle.svg_picture.specs.Markup.{text_of};
ghost use Rattle.svg_picture.specs.Layout.{page_on};
ghost use Rattle.svg_picture.specs.Picture.{lane_names, threads, row_pattern, background};

use crate::canvas::{Canvas, Measures};
use crate::elements::{push_hatch, push_pattern, push_rect, push_text_at};
use crate::layout::{bottom, height, thread_x, top, width};
use crate::markup::{push_end, push_number, push_start};
use drawing::Added;

#[tactic(auto, unfolding(crate::specs::Picture::lane_names))]
fn push_lane_names(text: &mut Vec<u8>, canvas: &Canvas<'_>, thread: u8) -> Added
    ensures { OnOk result (text.new.items ≡ text.old.items ++ text_of (lane_names (page_on canvas.now) thread)) }
{
    let m = canvas.measures;
    let mut name = Vec::from_slice(canvas.alloc, b"thread ")?;
    push_number(&mut name, u128::from(thread))?;
    let x = thread_x(canvas, thread) + 3;
    push_text_at(text, 7, b"name", x, top(m) - 8, name.as_slice())?;
    push_text_at(text, 7, b"name", x, bottom(m) + 14, name.as_slice())
}

/// Adds the names of the threads, above and below their lanes.
#[tactic(auto, using(crate::proofs::Each::steps), unfolding(crate::specs::Picture::threads))]
pub(crate) fn push_threads(text: &mut Vec<u8>, canvas: &Canvas<'_>) -> Added
    ensures { OnOk result (text.new.items ≡ text.old.items ++ text_of (threads (page_on canvas.now))) }
{
    let threads = canvas.scene.threads.as_slice();
    for thread in threads {
        push_lane_names(text, canvas, *thread)?;
    }
    Ok(())
}

#[tactic(auto, unfolding(crate::specs::Picture::row_pattern))]
fn push_row_pattern(text: &mut Vec<u8>, m: Measures) -> Added
    ensures { OnOk result (text.new.items ≡ text.old.items ++ text_of (row_pattern m)) }
{
    push_pattern(text, b"rows", top(m), width(m), 40)?;
    push_rect(text, b"row", 0, (0, 0), (width(m), 20))?;
    push_end(text, b"pattern")
}

/// Adds the background, and the rows.
#[tactic(auto, unfolding(crate::specs::Picture::background))]
pub(crate) fn push_background(text: &mut Vec<u8>, m: Measures) -> Added
    ensures { OnOk result (text.new.items ≡ text.old.items ++ text_of (background m)) }
{
    let (width, top) = (width(m), top(m));
    push_start(text, b"defs", &[])?;
    push_hatch(text)?;
    push_row_pattern(text, m)?;
    push_end(text, b"defs")?;
    push_rect(text, b"page", 0, (0, 0), (width, height(m)))?;
    push_rect(
        text,
        b"rows",
        0,
        (0, top),
        (width, bottom(m).saturating_sub(top)),
    )
}
