//! The bands of a `NO` beside the lanes.
ghost use Rattle.std.specs.Prelude.{◌≡◌, ◌++◌, ◌≤◌, ◌^◌, OnOk};
ghost use Rattle.svg_picture.specs.Markup.{text_of};
ghost use Rattle.svg_picture.specs.Layout.{page_on};
ghost use Rattle.svg_picture.specs.Picture.{form_class, edge_y, guide, formed_band, head_y, band_at, bands};

use crate::canvas::{Canvas, Measures};
use crate::elements::{push_rect, push_stroke, push_text_at};
use crate::layout::{band_x, bottom, left, row_y, top};
use drawing::{Added, Band, Head, Row, form_words, head_words};

/// Returns an edge of a band: in the row of a call or of a return, or at `here` if no event makes it.
fn edge_y(canvas: &Canvas<'_>, is_call: bool, here: u128, edge: Option<u64>) -> u128
    ensures { result ≡ edge_y (page_on canvas.now) is_call here edge }
{
    match edge {
        None => here,
        Some(ticket) if is_call => row_y(canvas, Row::Ticket(ticket)) + 3,
        Some(ticket) => row_y(canvas, Row::Ticket(ticket)) + 17,
    }
}

/// Adds a dotted line from a band to the lanes, if an event makes its edge.
#[tactic(auto, unfolding(crate::specs::Picture::guide))]
fn push_guide(
    text: &mut Vec<u8>,
    m: Measures,
    class: &[u8],
    x: u128,
    y: u128,
    edge: Option<u64>,
) -> Added
    ensures { OnOk result (text.new.items ≡ text.old.items ++ text_of (guide m class.now x y edge)) }
{
    match edge {
        None => Ok(()),
        Some(_) => push_stroke(text, class, (x, y), (left(m), y)),
    }
}

/// Adds a band with its dotted lines, if its head has a form.
#[tactic(auto, unfolding(crate::specs::Picture::formed_band))]
fn push_formed_band(text: &mut Vec<u8>, canvas: &Canvas<'_>, x: u128, y: u128, band: Band) -> Added
    requires { x ≤ 2 ^ 92 }
    ensures { OnOk result (text.new.items ≡ text.old.items
        ++ text_of (formed_band (page_on canvas.now) (form_class band.head) x y band)) }
{
    let class = form_words(band.head, b"sure", b"none", b"time");
    match class {
        [] => Ok(()),
        [_, ..] => {
            let time = matches!(
                band.head,
                Head::Dequeued(_) | Head::InAndOut(_) | Head::SaidEmpty
            );
            let first = edge_y(canvas, time, top(canvas.measures), band.first);
            let last = edge_y(canvas, !time, bottom(canvas.measures), band.last);
            push_guide(text, canvas.measures, class, x + 28, first, band.first)?;
            push_guide(text, canvas.measures, class, x + 28, last, band.last)?;
            push_stroke(text, b"lead", (x, y), (x, first))?;
            push_rect(text, class, 0, (x, first), (28, last.saturating_sub(first)))
        }
    }
}

fn head_y(m: Measures, i: usize) -> u128
    ensures value { result ≡ head_y m i }
    ensures small { result ≤ 2 ^ 92 }
{
    let later = (m.heads as u128).saturating_sub(i as u128 + 1);
    top(m).saturating_sub(28 + 20 * later)
}

#[tactic(auto, unfolding(crate::specs::Picture::band_at))]
fn push_band_at(text: &mut Vec<u8>, canvas: &Canvas<'_>, i: usize, band: Band) -> Added
    ensures { OnOk result (text.new.items ≡ text.old.items ++ text_of (band_at (page_on canvas.now) (i, band))) }
{
    let x = band_x(canvas.measures, i);
    let y = head_y(canvas.measures, i);
    let words = head_words(canvas.alloc, band.head)?;
    push_text_at(text, 7, b"name", x, y, words.as_slice())?;
    push_formed_band(text, canvas, x + 3, y + 4, band)
}

/// Adds the bands of a `NO`, with their heads.
#[tactic(auto, using(crate::proofs::Each::steps), unfolding(crate::specs::Picture::bands))]
pub(crate) fn push_bands(text: &mut Vec<u8>, canvas: &Canvas<'_>) -> Added
    ensures { OnOk result (text.new.items ≡ text.old.items ++ text_of (bands (page_on canvas.now))) }
{
    let bands = canvas.scene.bands.as_slice();
    for (i, band) in bands.iter().enumerate() {
        push_band_at(text, canvas, i, *band)?;
    }
    Ok(())
}
