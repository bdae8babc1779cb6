//! A picture as an SVG document.
ghost use Rattle.std.specs.Prelude.{◌≡◌, ◌++◌, ◌≤◌, OnOk, IfOk};
ghost use Rattle.drawing.specs.Claim.{count_of_lines};
ghost use Rattle.drawing.specs.Scene.{scene_on};
ghost use Rattle.drawing.specs.Captions.{caption};
ghost use Rattle.svg_picture.specs.Markup.{text_of};
ghost use Rattle.svg_picture.specs.Layout.{page_on};
ghost use Rattle.svg_picture.specs.Picture.{about, heading, inside, measures_of};
ghost use Rattle.svg_picture.specs.Picture.{page_content, page_of, svg_picture, view_box};

use crate::bands::push_bands;
use crate::bars::push_bars;
use crate::canvas::{Canvas, Measures};
use crate::elements::{push_lines_at, push_samples, push_text_at};
use crate::lanes::{push_background, push_threads};
use crate::layout::{height, legend_y, width};
use crate::lines::{line_count, longest_head, longest_line};
use crate::markup::Attribute::{Number, Words};
use crate::markup::{push_element, push_end, push_number, push_start};
use crate::rows::{push_names, push_rows};
use crate::signs::push_signs;
use crate::words::{READING, push_style};
use claims::Claimed;
use drawing::{
    Added, MOST_DRAWN, Scene, count_of_lines, digits, headline, label_width, push_caption,
    signs_of, ticket_width,
};
use std::alloc::{AllocError, Global};

fn caption_of(alloc: Global, scene: &Scene<'_>) -> Result<Vec<u8>, AllocError>
    requires { count_of_lines scene.now.claimed.now ≤ MOST_DRAWN }
    ensures { IfOk result (λ words. words.items ≡ caption scene.now.added_from scene.now.claimed.now) }
{
    let mut words = Vec::new(alloc);
    push_caption(&mut words, scene.added_from, scene.claimed)?;
    Ok(words)
}

/// Adds the words above the lanes: the headline, the caption, and the legend.
#[tactic(auto, unfolding(crate::specs::Picture::heading))]
fn push_heading(text: &mut Vec<u8>, canvas: &Canvas<'_>) -> Added
    ensures { OnOk result (text.new.items ≡ text.old.items ++ text_of (heading (page_on canvas.now))) }
{
    let y = legend_y(canvas.measures);
    push_text_at(text, 9, b"head", 6, 26, headline(canvas.scene.claimed))?;
    let caption = caption_of(canvas.alloc, canvas.scene)?;
    push_lines_at(text, 8, b"say", 46, caption.as_slice())?;
    push_samples(text, y)?;
    push_lines_at(text, 7, b"dim", y + 35, READING)?;
    push_signs(text, canvas)
}

/// Adds the words for those who can't see the picture, and its style.
#[tactic(auto, unfolding(crate::specs::Picture::about))]
fn push_about(alloc: Global, text: &mut Vec<u8>, scene: &Scene<'_>) -> Added
    requires { count_of_lines scene.now.claimed.now ≤ MOST_DRAWN }
    ensures { OnOk result (text.new.items ≡ text.old.items ++ text_of (about (scene_on scene.now))) }
{
    push_element(text, b"title", &[], headline(scene.claimed))?;
    let caption = caption_of(alloc, scene)?;
    push_element(text, b"desc", &[], caption.as_slice())?;
    push_style(text)
}

/// Adds all elements between the tags of the picture.
#[tactic(auto, using(crate::proofs::Chains::pieces), unfolding(crate::specs::Picture::inside))]
fn push_inside(text: &mut Vec<u8>, canvas: &Canvas<'_>) -> Added
    ensures { OnOk result (text.new.items ≡ text.old.items ++ text_of (inside (page_on canvas.now))) }
{
    push_about(canvas.alloc, text, canvas.scene)?;
    push_background(text, canvas.measures)?;
    push_heading(text, canvas)?;
    push_names(text, canvas.measures)?;
    push_threads(text, canvas)?;
    push_bands(text, canvas)?;
    push_bars(text, canvas)?;
    push_rows(text, canvas)
}

#[tactic(auto, unfolding(crate::specs::Picture::view_box))]
fn view_box(alloc: Global, m: Measures) -> Result<Vec<u8>, AllocError>
    ensures { IfOk result (λ words. words.items ≡ view_box m) }
{
    let mut words = Vec::from_slice(alloc, b"0 0 ")?;
    push_number(&mut words, width(m))?;
    words.extend_from_slice(b" ")?;
    push_number(&mut words, height(m))?;
    Ok(words)
}

#[tactic(auto, unfolding(crate::specs::Picture::page_content))]
fn push_page(text: &mut Vec<u8>, canvas: &Canvas<'_>) -> Added
    ensures { OnOk result (text.new.items ≡ text.old.items ++ text_of (page_content (page_on canvas.now))) }
{
    let m = canvas.measures;
    let view_box = view_box(canvas.alloc, m)?;
    push_start(
        text,
        b"svg",
        &[
            Words(b"xmlns", b"http://www.w3.org/2000/svg"),
            Words(b"version", b"1.1"),
            Number(b"width", width(m)),
            Number(b"height", height(m)),
            Words(b"viewBox", view_box.as_slice()),
            Words(b"role", b"img"),
        ],
    )?;
    push_inside(text, canvas)?;
    push_end(text, b"svg")
}

/// Returns the measures of a picture: how wide its parts are, and how many there are.
fn measures_of(alloc: Global, scene: &Scene<'_>) -> Result<Measures, AllocError>
    requires { count_of_lines scene.now.claimed.now ≤ MOST_DRAWN }
    ensures { IfOk result (λ m. m ≡ measures_of (scene_on scene.now)) }
{
    let caption = caption_of(alloc, scene)?;
    let signs = signs_of(alloc, scene)?;
    Ok(Measures {
        ticket: ticket_width(scene.added_from, scene.rows.as_slice()),
        number: digits(count_of_lines(scene.claimed) as u64),
        label: label_width(scene.initial.as_slice(), scene.operations.as_slice()),
        lanes: scene.threads.len(),
        rows: scene.rows.len(),
        heads: scene.bands.len(),
        head: longest_head(alloc, scene.bands.as_slice())?,
        captions: line_count(caption.as_slice()),
        caption: longest_line(caption.as_slice()),
        legend: 2 + signs.len(),
        is_yes: matches!(scene.claimed, Claimed::Yes(_)),
    })
}

/// Adds the picture of a scene.
pub(crate) fn push_picture(alloc: Global, text: &mut Vec<u8>, scene: &Scene<'_>) -> Added
    requires { count_of_lines scene.now.claimed.now ≤ MOST_DRAWN }
    ensures { OnOk result (text.new.items ≡ text.old.items ++ text_of (page_content (page_of (scene_on scene.now)))) }
{
    let measures = measures_of(alloc, scene)?;
    let canvas = Canvas {
        alloc,
        measures,
        scene,
    };
    push_page(text, &canvas)
}

/// Draws a scene as an SVG 1.1 document.
///
/// The claim need not be evidence: the picture shows its lines. Takes O(n n) time for n rows, O(k m) for k initial
/// values and m lines, and memory for the text, of O(n + k) bytes. The only error is out of memory.
#[tactic(auto, unfolding(crate::specs::Picture::svg_picture))]
pub fn svg_picture(alloc: Global, scene: &Scene<'_>) -> Result<Vec<u8>, AllocError>
    // The claim has few enough lines to be drawn.
    requires { count_of_lines scene.now.claimed.now ≤ MOST_DRAWN }
    ensures { IfOk result (λ text. text.items ≡ svg_picture (scene_on scene.now)) }
{
    let mut text = Vec::from_slice(alloc, b"<?xml version=\"1.0\" encoding=\"UTF-8\"?>\n")?;
    push_picture(alloc, &mut text, scene)?;
    Ok(text)
}
