//! The layout of a picture, in pixels.
ghost use Rattle.std.specs.Prelude.{◌≡◌, ◌≤◌, ◌^◌};
ghost use Rattle.svg_picture.specs.Layout.{page_on, shown, band_x, left, number_x, bar_width, lane_x, thread_x, width};
ghost use Rattle.svg_picture.specs.Layout.{legend_y, top, row_y, bottom, bar_end, height};

use crate::canvas::{Canvas, Measures};
use drawing::{Row, is_pending, lanes_before, row_number};
use history_merge::Operation;

/// Returns the right edge of the tickets, with a gap.
pub(crate) fn shown(m: Measures) -> u128
    ensures value { result ≡ shown m }
    ensures small { result ≤ 10000 }
{
    18 + 7 * u128::from(m.ticket)
}

/// Returns the left edge of band i.
pub(crate) fn band_x(m: Measures, i: usize) -> u128
    ensures value { result ≡ band_x m i }
    ensures small { result ≤ 2 ^ 85 }
{
    shown(m) + 36 * i as u128
}

/// Returns the left edge of the first lane.
pub(crate) fn left(m: Measures) -> u128
    ensures value { result ≡ left m }
    ensures small { result ≤ 2 ^ 86 }
    ensures room { 12 ≤ result }
{
    let room = if m.is_yes {
        7 * (u128::from(m.number) + 1 + u128::from(m.label))
    } else {
        36 * m.heads as u128
    };
    shown(m) + 12 + room
}

/// Returns the distance of an operation's number from the left edge of its lane; it is to the right of the label.
pub(crate) fn number_x(m: Measures) -> u128
    ensures value { result ≡ number_x m }
    ensures small { result ≤ 10000 }
{
    15 + 7 * u128::from(m.label)
}

/// Returns the width of a bar.
pub(crate) fn bar_width(m: Measures) -> u128
    ensures value { result ≡ bar_width m }
    ensures small { result ≤ 10000 }
{
    28 + 7 * (u128::from(m.label) + u128::from(m.number))
}

fn lane_x(m: Measures, before: usize) -> u128
    ensures value { result ≡ lane_x m before }
    ensures small { result ≤ 2 ^ 90 }
{
    let lane = bar_width(m) + 6;
    left(m) + lane * before as u128
}

/// Returns the left edge of a thread's lane.
#[tactic(auto, unfolding(crate::specs::Layout::thread_x))]
pub(crate) fn thread_x(canvas: &Canvas<'_>, thread: u8) -> u128
    ensures value { result ≡ thread_x (page_on canvas.now) thread }
    ensures small { result ≤ 2 ^ 90 }
{
    let before = lanes_before(canvas.scene.threads.as_slice(), thread);
    lane_x(canvas.measures, before)
}

/// Returns the width of the picture.
#[tactic(auto, unfolding(crate::specs::Layout::width))]
pub(crate) fn width(m: Measures) -> u128
    ensures value { result ≡ width m }
    ensures small { result ≤ 2 ^ 93 }
{
    let words = (6 + 8 * m.caption as u128).max(582);
    let heads = band_x(m, m.heads) + 7 * m.head as u128;
    6 + words.max((lane_x(m, m.lanes) + 12).max(heads))
}

/// Returns the upper edge of the samples of bars.
pub(crate) fn legend_y(m: Measures) -> u128
    ensures value { result ≡ legend_y m }
    ensures small { result ≤ 2 ^ 80 }
{
    40 + 20 * m.captions as u128
}

/// Returns the upper edge of the first row.
#[tactic(auto, unfolding(crate::specs::Layout::top))]
pub(crate) fn top(m: Measures) -> u128
    ensures value { result ≡ top m }
    ensures small { result ≤ 2 ^ 90 }
    ensures room { 92 ≤ result }
{
    legend_y(m) + 32 + 20 * (m.legend as u128 + m.heads as u128 + 1)
}

/// Returns the upper edge of a row.
pub(crate) fn row_y(canvas: &Canvas<'_>, row: Row) -> u128
    ensures value { result ≡ row_y (page_on canvas.now) row }
    ensures small { result ≤ 2 ^ 91 }
{
    let number = row_number(canvas.scene.rows.as_slice(), row);
    top(canvas.measures) + 20 * number as u128
}

/// Returns the lower edge of the last row.
#[tactic(auto, unfolding(crate::specs::Layout::bottom))]
pub(crate) fn bottom(m: Measures) -> u128
    ensures value { result ≡ bottom m }
    ensures small { result ≤ 2 ^ 91 }
    ensures room { top m ≤ result }
    ensures below { 112 ≤ result }
{
    top(m) + 20 * (m.rows as u128 + 1)
}

/// Returns the lower edge of the bar of an operation: in the row of its return, or at the end of its lane if it is
/// pending.
pub(crate) fn bar_end(canvas: &Canvas<'_>, operation: Operation) -> u128
    ensures value { result ≡ bar_end (page_on canvas.now) operation }
    ensures small { result ≤ 2 ^ 92 }
{
    if is_pending(canvas.scene.added_from, operation) {
        bottom(canvas.measures)
    } else {
        row_y(canvas, Row::Ticket(operation.ret)) + 17
    }
}

/// Returns the height of the picture.
pub(crate) fn height(m: Measures) -> u128
    ensures { result ≡ height m }
{
    bottom(m) + 26
}
