//! A picture as a page for a browser.
ghost use Rattle.std.specs.Prelude.{◌≡◌, ◌++◌, ◌≤◌, IfOk, OnOk, flat_map};
ghost use Rattle.drawing.specs.Claim.{count_of_lines};
ghost use Rattle.drawing.specs.Scene.{scene_on};
ghost use Rattle.svg_picture.specs.Html.{page_head, page_middle, page_foot, html_picture};
ghost use Rattle.svg_picture.specs.Html.{pending_word, times_words, operation_line, operation_lines};

use crate::markup::push_number;
use crate::page::{PAGE_FOOT, PAGE_HEAD, PAGE_MIDDLE};
use crate::picture::push_picture;
use drawing::{Added, MOST_DRAWN, Scene, is_pending, push_told};
use history_merge::{History, Operation, Operations};
use std::alloc::{AllocError, Global};

/// The maximum number of operations of a history that its page lists, so that rows can unfold. Their lines take up to
/// 1.3 megabytes.
pub(crate) const MOST_LISTED: usize = 20_000;

#[tactic(auto, unfolding(crate::specs::Html::page_head))]
fn page_head() -> &'static [u8]
    ensures { result.now ≡ page_head }
{
    PAGE_HEAD
}

#[tactic(auto, unfolding(crate::specs::Html::page_middle))]
fn page_middle() -> &'static [u8]
    ensures { result.now ≡ page_middle }
{
    PAGE_MIDDLE
}

#[tactic(auto, unfolding(crate::specs::Html::page_foot))]
fn page_foot() -> &'static [u8]
    ensures { result.now ≡ page_foot }
{
    PAGE_FOOT
}

fn pending_word(pending: bool) -> &'static [u8]
    ensures { result.now ≡ pending_word pending }
{
    if pending { b" pending" } else { b"" }
}

/// Appends the tickets and the thread of an operation.
fn push_times(text: &mut Vec<u8>, operation: Operation) -> Added
    ensures { OnOk result (text.new.items ≡ text.old.items ++ times_words operation) }
{
    push_number(text, u128::from(operation.call))?;
    text.extend_from_slice(b" ")?;
    push_number(text, u128::from(operation.ret))?;
    text.extend_from_slice(b" ")?;
    push_number(text, u128::from(operation.thread))?;
    text.extend_from_slice(b" ")
}

/// Appends an operation in a line.
#[tactic(auto, using(crate::proofs::Chains::pieces), unfolding(crate::specs::Html::operation_line))]
fn push_operation(text: &mut Vec<u8>, added_from: Option<u64>, operation: Operation) -> Added
    ensures { OnOk result (text.new.items ≡ text.old.items ++ operation_line added_from operation) }
{
    push_times(text, operation)?;
    push_told(text, true, operation.kind)?;
    text.extend_from_slice(pending_word(is_pending(added_from, operation)))?;
    text.extend_from_slice(b"\n")
}

/// Appends these operations, one to a line.
#[tactic(auto, using(crate::proofs::Each::steps))]
fn push_operations(
    text: &mut Vec<u8>,
    added_from: Option<u64>,
    operations: &Operations<'_>,
) -> Added
    ensures { OnOk result (text.new.items ≡ text.old.items ++ flat_map (operation_line added_from) operations.now) }
{
    for operation in operations.iter() {
        push_operation(text, added_from, operation)?;
    }
    Ok(())
}

/// Appends the operations of a history, if they are few enough to be listed.
fn push_history(text: &mut Vec<u8>, added_from: Option<u64>, history: &History) -> Added
    ensures { OnOk result (text.new.items ≡ text.old.items ++ operation_lines history.now added_from) }
{
    let operations = history.operations();
    if operations.len() <= MOST_LISTED {
        push_operations(text, added_from, &operations)
    } else {
        Ok(())
    }
}

/// Draws a history's scene as one HTML page that needs nothing else.
///
/// It has the picture of [`svg_picture`](crate::svg_picture), the operations of the history if they are at most
/// 20,000, and around both fixed pieces with a script, which unfolds what the picture leaves out. Without scripts the
/// page is the picture.
///
/// Time and memory are those of the picture, and O(n) for n listed operations. The only error is out of memory.
#[tactic(auto, unfolding(crate::specs::Html::html_picture))]
pub fn html_picture(
    alloc: Global,
    history: &History,
    scene: &Scene<'_>,
) -> Result<Vec<u8>, AllocError>
    // The claim has few enough lines to be drawn.
    requires { count_of_lines scene.now.claimed.now ≤ MOST_DRAWN }
    ensures { IfOk result (λ text. text.items ≡ html_picture history.now (scene_on scene.now)) }
{
    let mut text = Vec::from_slice(alloc, page_head())?;
    push_picture(alloc, &mut text, scene)?;
    text.extend_from_slice(page_middle())?;
    push_history(&mut text, scene.added_from, history)?;
    text.extend_from_slice(page_foot())?;
    Ok(text)
}
