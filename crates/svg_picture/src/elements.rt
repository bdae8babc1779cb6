//! The elements of a picture.
ghost use Rattle.std.specs.Prelude.{◌≡◌, ◌+◌, ◌*◌, ◌++◌, ◌≤◌, ◌^◌, OnOk, codes, length};
ghost use Rattle.svg_picture.specs.Markup.{text_of, start_tag, tag_attributes, Pattern};
ghost use Rattle.svg_picture.specs.Elements.{text_at, rect, open_rect, stroke, line_at};
ghost use Rattle.svg_picture.specs.Elements.{lines_at, sample, samples, hatch};

use crate::lines::split_line;
use crate::markup::Attribute::{Number, Words};
use crate::markup::{push_element, push_end, push_start};
use drawing::Added;

/// Adds words of a class, from a point on, with this many pixels for each character.
#[tactic(auto, unfolding(crate::specs::Elements::text_at))]
pub(crate) fn push_text_at(
    text: &mut Vec<u8>,
    char: u8,
    class: &[u8],
    x: u128,
    y: u128,
    words: &[u8],
) -> Added
    ensures { OnOk result (text.new.items ≡ text.old.items ++ text_of (text_at char class.now x y words.now)) }
{
    let wide = char as u128 * words.len() as u128;
    push_element(
        text,
        b"text",
        &[
            Number(b"x", x),
            Number(b"y", y),
            Number(b"textLength", wide),
            Words(b"class", class),
        ],
        words,
    )
}

/// Adds a rectangle of a class with this corner, size and rounding.
#[tactic(auto, unfolding(crate::specs::Elements::rect))]
pub(crate) fn push_rect(
    text: &mut Vec<u8>,
    class: &[u8],
    round: u128,
    at: (u128, u128),
    size: (u128, u128),
) -> Added
    ensures { OnOk result (text.new.items ≡ text.old.items ++ text_of (rect class.now round at.0 at.1 size.0 size.1)) }
{
    push_element(
        text,
        b"rect",
        &[
            Number(b"x", at.0),
            Number(b"y", at.1),
            Number(b"width", size.0),
            Number(b"height", size.1),
            Number(b"rx", round),
            Words(b"class", class),
        ],
        b"",
    )
}

/// Adds a rectangle of a class without its lower edge, of which this size is shown.
#[tactic(auto, unfolding(crate::specs::Elements::open_rect))]
pub(crate) fn push_open_rect(
    text: &mut Vec<u8>,
    class: &[u8],
    round: u128,
    at: (u128, u128),
    shown: (u128, u128),
) -> Added
    requires x { at.0 ≤ 2 ^ 92 }
    requires y { at.1 ≤ 2 ^ 92 }
    requires wide { shown.0 ≤ 2 ^ 92 }
    requires high { shown.1 ≤ 2 ^ 92 }
    ensures { OnOk result
        (text.new.items ≡ text.old.items ++ text_of (open_rect class.now round at.0 at.1 shown.0 shown.1)) }
{
    let window = [
        Number(b"width", at.0 + shown.0 + 6),
        Number(b"height", at.1 + shown.1),
    ];
    push_start(text, b"svg", &window)?;
    push_rect(text, class, round, at, (shown.0, shown.1 + 20))?;
    push_end(text, b"svg")
}

/// Adds a straight line of a class.
#[tactic(auto, unfolding(crate::specs::Elements::stroke))]
pub(crate) fn push_stroke(
    text: &mut Vec<u8>,
    class: &[u8],
    from: (u128, u128),
    to: (u128, u128),
) -> Added
    ensures { OnOk result (text.new.items ≡ text.old.items ++ text_of (stroke class.now from.0 from.1 to.0 to.1)) }
{
    push_element(
        text,
        b"line",
        &[
            Number(b"x1", from.0),
            Number(b"y1", from.1),
            Number(b"x2", to.0),
            Number(b"y2", to.1),
            Words(b"class", class),
        ],
        b"",
    )
}

fn push_line_at(text: &mut Vec<u8>, char: u8, class: &[u8], y: u128, words: &[u8]) -> Added
    ensures { OnOk result (text.new.items ≡ text.old.items ++ text_of (line_at char class.now y words.now)) }
{
    match words {
        [] => Ok(()),
        [_, ..] => push_text_at(text, char, class, 6, y, words),
    }
}

/// Adds the lines of a text, each 20 pixels below the one before.
#[tactic(auto, unfolding(crate::specs::Elements::lines_at))]
pub(crate) fn push_lines_at(
    text: &mut Vec<u8>,
    char: u8,
    class: &[u8],
    y: u128,
    words: &[u8],
) -> Added
    requires { y + 20 * length words.now ≤ 2 ^ 100 }
    ensures { OnOk result (text.new.items ≡ text.old.items ++ text_of (lines_at char class.now y words.now)) }
{
    match split_line(words) {
        None => push_line_at(text, char, class, y, words),
        Some((line, rest)) => {
            push_line_at(text, char, class, y, line)?;
            push_lines_at(text, char, class, y + 20, rest)
        }
    }
}

/// Adds a sample of a bar with its word and its meaning.
#[tactic(auto, unfolding(crate::specs::Elements::sample))]
fn push_sample(
    text: &mut Vec<u8>,
    x: u128,
    y: u128,
    class: &[u8],
    round: u128,
    meaning: &[u8],
) -> Added
    requires x { x ≤ 2 ^ 90 }
    requires y { y ≤ 2 ^ 90 }
    ensures { OnOk result (text.new.items ≡ text.old.items ++ text_of (sample x y class.now round meaning.now)) }
{
    push_rect(text, class, round, (x, y), (47, 18))?;
    push_text_at(text, 7, b"label", x + 6, y + 13, class)?;
    push_text_at(text, 7, b"dim", x + 53, y + 13, meaning)
}

/// Adds the four samples of bars.
#[tactic(auto, unfolding(crate::specs::Elements::samples))]
pub(crate) fn push_samples(text: &mut Vec<u8>, y: u128) -> Added
    requires { y ≤ 2 ^ 90 }
    ensures { OnOk result (text.new.items ≡ text.old.items ++ text_of (samples y)) }
{
    push_sample(text, 6, y, b"enq", 0, b"enqueued")?;
    push_sample(text, 151, y, b"deq", 9, b"dequeued")?;
    push_sample(text, 296, y, b"empty", 9, b"found empty")?;
    push_sample(text, 441, y, b"not", 0, b"not taken")
}

/// Adds the tag that begins a pattern with this name, from this height on.
pub(crate) fn push_pattern(
    text: &mut Vec<u8>,
    id: &[u8],
    y: u128,
    width: u128,
    height: u128,
) -> Added
    ensures { OnOk result (text.new.items ≡ text.old.items
        ++ start_tag (codes "pattern") (tag_attributes (Pattern id.now y width height))) }
{
    push_start(
        text,
        b"pattern",
        &[
            Words(b"id", id),
            Number(b"x", 0),
            Number(b"y", y),
            Number(b"width", width),
            Number(b"height", height),
            Words(b"patternUnits", b"userSpaceOnUse"),
        ],
    )
}

/// Adds the pattern of a hatched band.
#[tactic(auto, unfolding(crate::specs::Elements::hatch))]
pub(crate) fn push_hatch(text: &mut Vec<u8>) -> Added
    ensures { OnOk result (text.new.items ≡ text.old.items ++ text_of hatch) }
{
    push_pattern(text, b"hatch", 0, 8, 8)?;
    push_stroke(text, b"hatch", (0, 8), (8, 0))?;
    push_end(text, b"pattern")
}
