//! The bars of the operations.
ghost use Rattle.std.specs.Prelude.{◌≡◌, ◌++◌, ◌≤◌, ◌^◌, OnOk, IfOk, IfSome};
ghost use Rattle.svg_picture.specs.Markup.{text_of};
ghost use Rattle.svg_picture.specs.Layout.{page_on};
ghost use Rattle.svg_picture.specs.Picture.{mark, number_words, tickets_words, bar_words, pill};
ghost use Rattle.svg_picture.specs.Picture.{bar_number, bar_frame, marked_bar, bar, bars};

use crate::canvas::{Canvas, Measures};
use crate::elements::{push_open_rect, push_rect, push_text_at};
use crate::layout::{bar_end, bar_width, number_x, row_y, thread_x};
use crate::markup::Attribute::Words;
use crate::markup::{push_element, push_end, push_number, push_start};
use crate::words::corner;
use claims::Claimed;
use drawing::{
    Added, MOST_DRAWN, Row, digits, is_away, is_pending, kind_word, label_of, place_in, place_of,
    push_told, shown_by,
};
use history_merge::{OpKind, Operation};
use itoa::Buffer;
use std::alloc::{AllocError, Global};

/// Returns the class that marks an operation or an initial value.
pub(crate) fn mark(claimed: &Claimed, away: bool, place: Option<usize>) -> &'static [u8]
    ensures { result.now ≡ mark claimed.now away place }
{
    match (claimed, place) {
        (Claimed::Yes(_), _) => b"yes",
        (Claimed::No(_, _), Some(_)) => b"on",
        (Claimed::No(_, _), None) if away => b"away",
        (Claimed::No(_, _), None) => b"off",
    }
}

/// Appends the number of a place, in words.
pub(crate) fn push_number_words(text: &mut Vec<u8>, place: Option<usize>) -> Added
    ensures { OnOk result (text.new.items ≡ text.old.items ++ number_words place) }
{
    match place {
        None => Ok(()),
        Some(place) => {
            text.extend_from_slice(b", number ")?;
            push_number(text, place as u128 + 1)
        }
    }
}

/// Appends the tickets of an operation, in words; for a pending one only that of its call.
fn push_tickets_words(text: &mut Vec<u8>, pending: bool, operation: Operation) -> Added
    ensures { OnOk result (text.new.items ≡ text.old.items ++ tickets_words pending operation) }
{
    if pending {
        text.extend_from_slice(b", ticket ")?;
        push_number(text, u128::from(operation.call))?;
        text.extend_from_slice(b", never returned")
    } else {
        text.extend_from_slice(b", tickets ")?;
        push_number(text, u128::from(operation.call))?;
        text.extend_from_slice(b" to ")?;
        push_number(text, u128::from(operation.ret))
    }
}

/// Returns the title of a bar.
#[tactic(auto, unfolding(crate::specs::Picture::bar_words))]
fn bar_words(
    alloc: Global,
    pending: bool,
    operation: Operation,
    place: Option<usize>,
) -> Result<Vec<u8>, AllocError>
    ensures { IfOk result (λ words. words.items ≡ bar_words pending operation place) }
{
    let mut words = Vec::from_slice(alloc, b"thread ")?;
    push_number(&mut words, u128::from(operation.thread))?;
    words.extend_from_slice(b": ")?;
    push_told(&mut words, true, operation.kind)?;
    push_tickets_words(&mut words, pending, operation)?;
    push_number_words(&mut words, place)?;
    Ok(words)
}

/// Adds a number in a pill.
#[tactic(auto, unfolding(crate::specs::Picture::pill))]
pub(crate) fn push_pill(text: &mut Vec<u8>, x: u128, y: u128, number: u64) -> Added
    requires x { x ≤ 2 ^ 92 }
    requires y { y ≤ 2 ^ 92 }
    ensures { OnOk result (text.new.items ≡ text.old.items ++ text_of (pill x y number)) }
{
    let wide = 10 + 7 * u128::from(digits(number));
    push_rect(text, b"pill", 8, (x, y), (wide, 16))?;
    let mut buffer = Buffer::new();
    let words = buffer.format(number).as_bytes();
    push_text_at(text, 7, b"pick", x + 5, y + 12, words)
}

/// Adds the number of a place in a `NO`, to the right of the label of a bar whose lane begins at `x`.
#[tactic(auto, unfolding(crate::specs::Picture::bar_number))]
fn push_bar_number(text: &mut Vec<u8>, m: Measures, x: u128, y: u128, place: Option<usize>) -> Added
    requires x { x ≤ 2 ^ 91 }
    requires y { y ≤ 2 ^ 92 }
    requires place { IfSome place (λ place. place ≤ MOST_DRAWN) }
    ensures { OnOk result (text.new.items ≡ text.old.items ++ text_of (bar_number m x y place)) }
{
    match place {
        None => Ok(()),
        Some(place) => push_pill(text, x + number_x(m), y, place as u64 + 1),
    }
}

/// A bar: the left edge of its lane, its upper edge, its height, the base line of its label, the kind of its
/// operation, its place in a `NO`, and whether its call is pending.
#[derive(Clone, Copy)]
pub(crate) struct Bar {
    pub x: u128,
    pub y: u128,
    pub height: u128,
    pub base: u128,
    pub kind: OpKind,
    pub place: Option<usize>,
    pub is_pending: bool,
}

/// Adds the frame of a bar.
fn push_bar_frame(text: &mut Vec<u8>, m: Measures, bar: Bar) -> Added
    requires x { bar.x ≤ 2 ^ 91 }
    requires y { bar.y ≤ 2 ^ 92 }
    requires height { bar.height ≤ 2 ^ 92 }
    ensures { OnOk result (text.new.items ≡ text.old.items ++ text_of (bar_frame m bar)) }
{
    let (at, size) = ((bar.x + 3, bar.y), (bar_width(m), bar.height));
    if bar.is_pending {
        push_open_rect(text, kind_word(bar.kind), corner(bar.kind), at, size)
    } else {
        push_rect(text, kind_word(bar.kind), corner(bar.kind), at, size)
    }
}

/// Adds a bar with its mark, its title, its label and its number.
#[tactic(auto, unfolding(crate::specs::Picture::marked_bar))]
pub(crate) fn push_marked_bar(
    text: &mut Vec<u8>,
    m: Measures,
    class: &[u8],
    title: &[u8],
    label: &[u8],
    bar: Bar,
) -> Added
    requires x { bar.x ≤ 2 ^ 91 }
    requires y { bar.y ≤ 2 ^ 92 }
    requires height { bar.height ≤ 2 ^ 92 }
    requires base { bar.base ≤ 2 ^ 92 }
    requires place { IfSome bar.place (λ place. place ≤ MOST_DRAWN) }
    ensures { OnOk result
        (text.new.items ≡ text.old.items ++ text_of (marked_bar m class.now title.now label.now bar)) }
{
    push_start(text, b"g", &[Words(b"class", class)])?;
    push_element(text, b"title", &[], title)?;
    push_bar_frame(text, m, bar)?;
    push_text_at(text, 7, b"label", bar.x + 9, bar.base, label)?;
    push_bar_number(text, m, bar.x, bar.base.saturating_sub(12), bar.place)?;
    push_end(text, b"g")
}

/// Adds the bar of an operation.
#[tactic(auto, unfolding(crate::specs::Picture::bar))]
fn push_bar(text: &mut Vec<u8>, canvas: &Canvas<'_>, operation: Operation) -> Added
    ensures { OnOk result (text.new.items ≡ text.old.items ++ text_of (bar (page_on canvas.now) operation)) }
{
    let claimed = canvas.scene.claimed;
    let row = Row::Ticket(operation.call);
    let place = place_of(claimed, row);
    let class = mark(claimed, is_away(claimed, operation), place);
    let pending = is_pending(canvas.scene.added_from, operation);
    let title = bar_words(canvas.alloc, pending, operation, place)?;
    let label = label_of(canvas.alloc, operation.kind)?;
    let top = row_y(canvas, row);
    let bar = Bar {
        x: thread_x(canvas, operation.thread),
        y: top + 3,
        height: bar_end(canvas, operation).saturating_sub(top + 3),
        base: top + 24,
        kind: operation.kind,
        place: place_in(shown_by(claimed), row),
        is_pending: pending,
    };
    let (m, title, label) = (canvas.measures, title.as_slice(), label.as_slice());
    push_marked_bar(text, m, class, title, label, bar)
}

/// Adds the bars of the operations.
#[tactic(auto, using(crate::proofs::Each::steps), unfolding(crate::specs::Picture::bars))]
pub(crate) fn push_bars(text: &mut Vec<u8>, canvas: &Canvas<'_>) -> Added
    ensures { OnOk result (text.new.items ≡ text.old.items ++ text_of (bars (page_on canvas.now))) }
{
    let operations = canvas.scene.operations.as_slice();
    for operation in operations {
        push_bar(text, canvas, *operation)?;
    }
    Ok(())
}
