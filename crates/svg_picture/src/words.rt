//! The words of a picture, and its style.
ghost use Rattle.std.specs.Prelude.{◌≡◌, ◌++◌, OnOk};
ghost use Rattle.svg_picture.specs.Elements.{style_element};
ghost use Rattle.svg_picture.specs.Markup.{text_of};
ghost use Rattle.svg_picture.specs.Picture.{corner};

use crate::markup::{push_end, push_plain, push_start};
use drawing::Added;
use history_merge::OpKind;

/// Returns the rounding of a bar's corners.
pub(crate) fn corner(kind: OpKind) -> u128
    ensures { result ≡ corner kind }
{
    match kind {
        OpKind::Enqueue(_) | OpKind::EnqueueFailed(_) => 0,
        OpKind::Dequeue(_) | OpKind::DequeueEmpty => 9,
    }
}

/// The legend of bars and rows, each line with its line feed.
pub(crate) const READING: &[u8] =
    b"A bar reaches from the call (its top) to the return (its bottom).\n\
Time runs down, one row for each call and each return.\n";

/// The fonts, and the colours on a light background.
pub(crate) const LIGHT: &[u8] = b"svg{background:#ffffff}\n\
text{font-family:DejaVu Sans Mono,Menlo,Consolas,monospace;font-size:11.6px;fill:#1a1a1a}\n\
.page{fill:#ffffff}.row{fill:#f2f4f7}.rows{fill:url(#rows)}.head{font-size:15px;font-weight:bold}.say{font-size:13px}\n\
.dim{fill:#5c6470}.lead{stroke:#5c6470}\n\
.enq{fill:#cfe3ff;stroke:#1f5fbf}.deq{fill:#ffe2bf;stroke:#b35c00}\n\
.not{fill:#ffffff;stroke:#1f5fbf;stroke-dasharray:5 3}.empty{fill:#ffffff;stroke:#b35c00;stroke-dasharray:5 3}\n\
.on rect{stroke-width:3}.off rect{fill:#f7f8fa;stroke:#b4bac4}.off text,.away text{fill:#6b7280}\n\
.away rect,.far{fill:none;stroke:#b4bac4;stroke-dasharray:2 3}\n\
.pill,.pick{pointer-events:none}.pill{fill:#1a1a1a;stroke:none}.pick{fill:#ffffff;font-weight:bold}\n\
.sure{fill:#6b4bb8}.none{fill:url(#hatch);stroke:#6b4bb8}.hatch{stroke:#6b4bb8;stroke-width:2}\n\
.time{fill:none;stroke:#b3261e;stroke-width:2;stroke-dasharray:5 3}\n\
line.sure,line.none{stroke:#6b4bb8;stroke-dasharray:2 4}line.time{stroke-width:1;stroke-dasharray:2 4}\n";

/// The colours on a dark background.
pub(crate) const DARK: &[u8] = b"@media (prefers-color-scheme:dark){\n\
svg{background:#14171c}text{fill:#e6e8eb}.page{fill:#14171c}.row{fill:#1d222a}\n\
.dim{fill:#9aa4b2}.lead{stroke:#9aa4b2}\n\
.enq{fill:#1b3560;stroke:#7fb0ff}.deq{fill:#553710;stroke:#ffb45c}\n\
.not{fill:#14171c;stroke:#7fb0ff}.empty{fill:#14171c;stroke:#ffb45c}\n\
.off rect{fill:#191d23;stroke:#4a5260}.off text,.away text{fill:#8b95a3}.away rect,.far{stroke:#4a5260}\n\
.pill{fill:#e6e8eb}.pick{fill:#14171c}\n\
.sure{fill:#a78bf0}.none,.hatch,line.sure,line.none{stroke:#a78bf0}.time{stroke:#ff7a70}\n\
}\n";

/// Adds the fonts and the colours.
#[tactic(auto, unfolding(crate::specs::Elements::style_element))]
pub(crate) fn push_style(text: &mut Vec<u8>) -> Added
    ensures { OnOk result (text.new.items ≡ text.old.items ++ text_of style_element) }
{
    push_start(text, b"style", &[])?;
    push_plain(text, LIGHT)?;
    push_plain(text, DARK)?;
    push_end(text, b"style")
}
