//! The signs of a picture with their meanings.
ghost use Rattle.std.specs.Prelude.{◌≡◌, ◌++◌, OnOk};
ghost use Rattle.svg_picture.specs.Markup.{text_of};
ghost use Rattle.svg_picture.specs.Layout.{page_on};
ghost use Rattle.svg_picture.specs.Picture.{sign_at, signs};

use crate::bars::push_pill;
use crate::canvas::{Canvas, Measures};
use crate::elements::{push_open_rect, push_rect, push_text_at};
use crate::layout::legend_y;
use drawing::{Added, Sign, meaning, signs_of};

/// Adds sign i with its meaning.
#[tactic(auto, unfolding(crate::specs::Picture::sign_at))]
fn push_sign_at(text: &mut Vec<u8>, m: Measures, i: usize, sign: Sign) -> Added
    ensures { OnOk result (text.new.items ≡ text.old.items ++ text_of (sign_at m (i, sign))) }
{
    let y = legend_y(m) + 63 + 20 * i as u128;
    match sign {
        Sign::First => push_text_at(text, 7, b"label", 6, y + 12, b"init")?,
        Sign::InOrder | Sign::OfOperations | Sign::OfValues => push_pill(text, 6, y, 1)?,
        Sign::Present => push_rect(text, b"sure", 0, (6, y + 1), (28, 14))?,
        Sign::Absent => push_rect(text, b"none", 0, (6, y + 1), (28, 14))?,
        Sign::Away => push_rect(text, b"far", 0, (6, y + 1), (28, 14))?,
        Sign::Pending => push_open_rect(text, b"enq", 0, (6, y + 1), (28, 14))?,
        _ => push_rect(text, b"time", 0, (6, y + 1), (28, 14))?,
    }
    push_text_at(text, 7, b"dim", 41, y + 12, meaning(sign))
}

/// Adds the signs of the picture with their meanings, one to a line.
#[tactic(auto, using(crate::proofs::Each::steps), unfolding(crate::specs::Picture::signs))]
pub(crate) fn push_signs(text: &mut Vec<u8>, canvas: &Canvas<'_>) -> Added
    ensures { OnOk result (text.new.items ≡ text.old.items ++ text_of (signs (page_on canvas.now))) }
{
    let signs = signs_of(canvas.alloc, canvas.scene)?;
    for (i, sign) in signs.as_slice().iter().enumerate() {
        push_sign_at(text, canvas.measures, i, *sign)?;
    }
    Ok(())
}
