//! The rows of the scene.
ghost use Rattle.std.specs.Prelude.{◌≡◌, ◌++◌, ◌≤◌, ◌^◌, OnOk, IfOk};
ghost use Rattle.svg_picture.specs.Markup.{text_of};
ghost use Rattle.svg_picture.specs.Layout.{page_on};
ghost use Rattle.svg_picture.specs.Picture.{initial_words, placed_initial, way_at, in_tickets};
ghost use Rattle.svg_picture.specs.Picture.{effect, row_own, row_parts, rows, names};

use crate::bars::{Bar, mark, push_marked_bar, push_number_words, push_pill};
use crate::canvas::{Canvas, Measures};
use crate::elements::{push_stroke, push_text_at};
use crate::layout::{bottom, left, number_x, row_y, shown, thread_x, top};
use crate::markup::push_number;
use drawing::{
    Added, Row, digits, initial_label, label_of, numbered, place_in, shown_by, ticket_words, way_in,
};
use history_merge::{OpKind, Operation};
use itoa::Buffer;
use std::alloc::{AllocError, Global};

/// Returns the title of an initial value.
#[tactic(auto, unfolding(crate::specs::Picture::initial_words))]
fn initial_words(alloc: Global, value: u64, place: Option<usize>) -> Result<Vec<u8>, AllocError>
    ensures { IfOk result (λ words. words.items ≡ initial_words value place) }
{
    let mut words = Vec::from_slice(alloc, b"init ")?;
    push_number(&mut words, u128::from(value))?;
    words.extend_from_slice(b", in the queue first")?;
    push_number_words(&mut words, place)?;
    Ok(words)
}

/// Adds the bar of an initial value, in line with the first lane.
#[tactic(auto, unfolding(crate::specs::Picture::placed_initial))]
fn push_initial(text: &mut Vec<u8>, canvas: &Canvas<'_>, y: u128, row: Row, value: u64) -> Added
    requires { y ≤ 2 ^ 91 }
    ensures { OnOk result
        (text.new.items ≡ text.old.items ++ text_of (placed_initial (page_on canvas.now) y row value)) }
{
    let place = place_in(shown_by(canvas.scene.claimed), row);
    let class = mark(canvas.scene.claimed, false, place);
    let title = initial_words(canvas.alloc, value, place)?;
    let label = initial_label(canvas.alloc, value)?;
    let bar = Bar {
        x: left(canvas.measures),
        y: y + 2,
        height: 16,
        base: y + 14,
        kind: OpKind::Enqueue(value),
        place,
        is_pending: false,
    };
    let (m, title, label) = (canvas.measures, title.as_slice(), label.as_slice());
    push_marked_bar(text, m, class, title, label, bar)
}

/// Adds a word at the first band, with a dotted line from it to the lanes.
#[tactic(auto, unfolding(crate::specs::Picture::way_at))]
fn push_way_at(text: &mut Vec<u8>, m: Measures, y: u128, words: &[u8]) -> Added
    requires { y ≤ 2 ^ 92 }
    ensures { OnOk result (text.new.items ≡ text.old.items ++ text_of (way_at m y words.now)) }
{
    match words {
        [] => Ok(()),
        [_, ..] => {
            let x = shown(m);
            push_text_at(text, 7, b"name", x, y + 4, words)?;
            push_stroke(text, b"time", (x + 28, y), (left(m), y))
        }
    }
}

/// Adds words, right-aligned in the column of tickets.
#[tactic(auto, unfolding(crate::specs::Picture::in_tickets))]
fn push_in_tickets(text: &mut Vec<u8>, m: Measures, y: u128, words: &[u8]) -> Added
    ensures { OnOk result (text.new.items ≡ text.old.items ++ text_of (in_tickets m y words.now)) }
{
    match words {
        [] => Ok(()),
        [_, ..] => {
            let x = 6 + 7 * u128::from(m.ticket).saturating_sub(words.len() as u128);
            push_text_at(text, 7, b"dim", x, y, words)
        }
    }
}

#[tactic(auto, unfolding(crate::specs::Picture::effect))]
fn push_effect(
    text: &mut Vec<u8>,
    canvas: &Canvas<'_>,
    y: u128,
    operation: Operation,
    number: u64,
) -> Added
    requires { y ≤ 2 ^ 91 }
    ensures { OnOk result
        (text.new.items ≡ text.old.items ++ text_of (effect (page_on canvas.now) y operation number)) }
{
    let blanks = u128::from(canvas.measures.number.saturating_sub(digits(number)));
    let left = shown(canvas.measures) + 7 * blanks;
    let label = label_of(canvas.alloc, operation.kind)?;
    let mut buffer = Buffer::new();
    let number_text = buffer.format(number).as_bytes();
    let words = numbered(canvas.alloc, 0, number_text, label.as_slice())?;
    push_text_at(text, 7, b"label", left, y + 14, words.as_slice())?;
    let x = thread_x(canvas, operation.thread) + number_x(canvas.measures);
    push_pill(text, x, y + 2, number)
}

/// Adds the parts that only this kind of row has.
fn push_row_own(text: &mut Vec<u8>, canvas: &Canvas<'_>, y: u128, row: Row) -> Added
    requires { y ≤ 2 ^ 91 }
    ensures { OnOk result (text.new.items ≡ text.old.items ++ text_of (row_own (page_on canvas.now) y row)) }
{
    match row {
        Row::Head => {
            let x = left(canvas.measures) + 3;
            push_text_at(text, 7, b"dim", x, y + 14, b"in the queue first")
        }
        Row::Initial(_, value) => push_initial(text, canvas, y, row, value),
        Row::Effect(operation, number, _) => push_effect(text, canvas, y, operation, number),
        _ => Ok(()),
    }
}

/// Adds the parts of a row.
#[tactic(auto, unfolding(crate::specs::Picture::row_parts))]
fn push_row(text: &mut Vec<u8>, canvas: &Canvas<'_>, row: Row) -> Added
    ensures { OnOk result (text.new.items ≡ text.old.items ++ text_of (row_parts (page_on canvas.now) row)) }
{
    let y = row_y(canvas, row);
    let words = ticket_words(canvas.alloc, canvas.scene.added_from, row)?;
    push_in_tickets(text, canvas.measures, y + 14, words.as_slice())?;
    let below = match row {
        Row::Initial(_, _) => 10,
        _ => 20,
    };
    let way = way_in(canvas.scene.claimed, row);
    push_way_at(text, canvas.measures, y + below, way)?;
    push_row_own(text, canvas, y, row)
}

/// Adds the rows.
#[tactic(auto, using(crate::proofs::Each::steps), unfolding(crate::specs::Picture::rows))]
pub(crate) fn push_rows(text: &mut Vec<u8>, canvas: &Canvas<'_>) -> Added
    ensures { OnOk result (text.new.items ≡ text.old.items ++ text_of (rows (page_on canvas.now))) }
{
    let rows = canvas.scene.rows.as_slice();
    for row in rows {
        push_row(text, canvas, *row)?;
    }
    Ok(())
}

/// Adds the words above and below the tickets, and above the order of a `YES`.
#[tactic(auto, unfolding(crate::specs::Picture::names))]
pub(crate) fn push_names(text: &mut Vec<u8>, m: Measures) -> Added
    ensures { OnOk result (text.new.items ≡ text.old.items ++ text_of (names m)) }
{
    push_in_tickets(text, m, top(m) - 8, b"ticket")?;
    push_in_tickets(text, m, bottom(m) - 6, b"end")?;
    if m.is_yes {
        push_text_at(text, 7, b"dim", shown(m), top(m) - 8, b"order")
    } else {
        Ok(())
    }
}
