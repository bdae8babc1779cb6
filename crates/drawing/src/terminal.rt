//! Drawing a picture as lines of characters.
ghost use Rattle.std.specs.Prelude.{if◌then◌else◌, ◌==◌, ◌≡◌, ◌≤◌, ◌-◌, ◌++◌};
ghost use Rattle.std.specs.Prelude.{[], IfOk, IfSome, OnOk, length, unwrap_or};
ghost use Rattle.std.specs.List.{flat_map};
ghost use Rattle.drawing.specs.Claim.{count_of_lines, shown_by};
ghost use Rattle.text_lines.specs.Lines.{line};
ghost use Rattle.drawing.specs.Layout.{kind_word, told, label, numbered, number_at};
ghost use Rattle.drawing.specs.Scene.{scene_on};
ghost use Rattle.drawing.specs.Signs.{signs_of};
ghost use Rattle.drawing.specs.Words.{placed, with_words, line_of};
ghost use Rattle.drawing.specs.Terminal.{one_of, returns_at, event_sign, lane_sign, lane_column, lane_words};
ghost use Rattle.drawing.specs.Terminal.{band_words, beside_words, operation_label, call_label, told_word, row_words};
ghost use Rattle.drawing.specs.Terminal.{strokes, under, thread_digits, lane_names, name_words, heads, numbered_row};
ghost use Rattle.drawing.specs.Terminal.{sign_text, sign_line, effect_meaning, legend, words, terminal_picture};

use crate::bands::{form_at, head_words};
use crate::canvas::{Canvas, Scene};
use crate::captions::{headline, push_caption};
use crate::claim::{count_of_lines, shown_by};
use crate::columns::{MOST_DRAWN, ROWS_UNDER_HEADS, canvas_of, digits, lane_place};
use crate::drawn::is_away;
use crate::line::{Added, place, push_line, push_number};
use crate::lookup::{called_at, place_in, under_way};
use crate::names::{initial_label, push_value};
use crate::pending::is_pending;
use crate::scene::{Row, gap_of, lanes_before, ticket_words, way_in};
use crate::signs::{Sign, meaning, signs_of};
use claims::Claimed;
use history_merge::{OpKind, Operation};
use itoa::Buffer;
use std::alloc::{AllocError, Global};

/// The meaning of the forms in the lanes.
pub(crate) const LANE_MEANINGS: &[u8] = b"[    call of an operation\n]    its return\n";

/// Returns the word of a kind of operation.
pub fn kind_word(kind: OpKind) -> &'static [u8]
    ensures { result.now ≡ kind_word kind }
{
    match kind {
        OpKind::Enqueue(_) => b"enq",
        OpKind::Dequeue(_) => b"deq",
        OpKind::EnqueueFailed(_) => b"not",
        OpKind::DequeueEmpty => b"empty",
    }
}

/// Appends a kind of operation and its value, in full or by its name.
pub fn push_told(text: &mut Vec<u8>, full: bool, kind: OpKind) -> Added
    ensures { OnOk result (text.new.items ≡ text.old.items ++ told full kind) }
{
    text.extend_from_slice(kind_word(kind))?;
    match kind {
        OpKind::Enqueue(value) | OpKind::Dequeue(value) | OpKind::EnqueueFailed(value) => {
            text.extend_from_slice(b" ")?;
            if full {
                push_number(text, value)
            } else {
                push_value(text, value)
            }
        }
        OpKind::DequeueEmpty => Ok(()),
    }
}

/// Returns the label of an operation: its kind, and its value by its name.
pub fn label_of(alloc: Global, kind: OpKind) -> Result<Vec<u8>, AllocError>
    ensures { IfOk result (λ word. word.items ≡ label kind) }
{
    let mut word = Vec::new(alloc);
    push_told(&mut word, false, kind)?;
    Ok(word)
}

fn number_at(alloc: Global, place: Option<usize>) -> Result<Vec<u8>, AllocError>
    requires { IfSome place (λ place. place ≤ MOST_DRAWN) }
    ensures { IfOk result (λ word. word.items ≡ number_at place) }
{
    let mut word = Vec::new(alloc);
    if let Some(place) = place {
        push_number(&mut word, place as u64 + 1)?;
    }
    Ok(word)
}

/// Returns words after a number that is right-aligned in a column of this width, or after blanks if there is no
/// number.
pub fn numbered(alloc: Global, wide: u8, number: &[u8], words: &[u8]) -> Result<Vec<u8>, AllocError>
    ensures { IfOk result (λ word. word.items ≡ numbered wide number.now words.now) }
{
    let mut word = Vec::new(alloc);
    word.resize(usize::from(wide).saturating_sub(number.len()), b' ')?;
    word.extend_from_slice(number)?;
    word.extend_from_slice(b" ")?;
    word.extend_from_slice(words)?;
    Ok(word)
}

/// Returns the round sign if the operation is away from those that show a `NO`, else the square one.
fn one_of(away: bool, round: &'static [u8], square: &'static [u8]) -> &'static [u8]
    ensures { result.now ≡ one_of away round.now square.now }
{
    if away { round } else { square }
}

/// Returns whether an operation returns at this ticket; one that is pending never does.
fn returns_at(scene: &Scene<'_>, ticket: u64, operation: Operation) -> bool
    ensures { result ≡ returns_at (scene_on scene.now) ticket operation }
{
    operation.ret == ticket && !is_pending(scene.added_from, operation)
}

/// Returns the sign of an operation in its lane: a call with its number, a return, or a bar in between.
fn event_sign(canvas: &Canvas<'_>, ticket: u64, operation: Operation) -> Result<Vec<u8>, AllocError>
    ensures { IfOk result
        (λ word. word.items ≡ event_sign canvas.now.columns (scene_on canvas.now.scene.now) ticket operation) }
{
    let claimed = canvas.scene.claimed;
    let away = is_away(claimed, operation);
    if operation.call == ticket {
        let narrow = canvas.columns.lane == 1;
        let shown = if narrow { &[] } else { shown_by(claimed) };
        let number = number_at(canvas.alloc, place_in(shown, Row::Ticket(operation.call)))?;
        let mut word = Vec::from_slice(canvas.alloc, one_of(away, b"(", b"["))?;
        word.extend_from_slice(number.as_slice())?;
        Ok(word)
    } else if returns_at(canvas.scene, ticket, operation) {
        Vec::from_slice(canvas.alloc, one_of(away, b")", b"]"))
    } else {
        Vec::from_slice(canvas.alloc, one_of(away, b":", b"|"))
    }
}

/// Returns the sign in a lane in a row, where `under` is the operation that is under way.
fn lane_sign(canvas: &Canvas<'_>, row: Row, under: Option<Operation>) -> Result<Vec<u8>, AllocError>
    ensures { IfOk result
        (λ word. word.items ≡ lane_sign canvas.now.columns (scene_on canvas.now.scene.now) row under) }
{
    match (row, under) {
        (Row::Ticket(ticket), Some(operation)) => event_sign(canvas, ticket, operation),
        (Row::LeftOut(_, _), Some(operation)) => {
            let away = is_away(canvas.scene.claimed, operation);
            Vec::from_slice(canvas.alloc, one_of(away, b":", b"|"))
        }
        (Row::Effect(effect, number, point), Some(operation)) => {
            let mut buffer = Buffer::new();
            let number = buffer.format(number).as_bytes();
            let sign: &[u8] = if operation.call != effect.call {
                if returns_at(canvas.scene, point, operation) {
                    b""
                } else {
                    b"|"
                }
            } else if canvas.columns.lane == 1 {
                b"*"
            } else {
                number
            };
            Vec::from_slice(canvas.alloc, sign)
        }
        _ => Ok(Vec::new(canvas.alloc)),
    }
}

/// Returns the column of a thread's lane.
fn lane_column(canvas: &Canvas<'_>, thread: u8) -> usize
    ensures { result ≡ lane_column canvas.now.columns (scene_on canvas.now.scene.now).threads thread }
{
    let before = lanes_before(canvas.scene.threads.as_slice(), thread);
    canvas.columns.lanes + lane_place(canvas.columns.lane, before)
}

/// Places the signs in the lanes of a row.
fn place_lanes(line: &mut Vec<u8>, canvas: &Canvas<'_>, row: Row) -> Added
    ensures { OnOk result
        (line.new.items
        ≡ with_words line.old.items (lane_words canvas.now.columns (scene_on canvas.now.scene.now) row)) }
{
    let operations = canvas.scene.operations.as_slice();
    let threads = canvas.scene.threads.as_slice();
    let ticket = gap_of(row).unwrap_or(0);
    for thread in threads {
        let operation = under_way(canvas.scene.added_from, operations, *thread, ticket);
        let word = lane_sign(canvas, row, operation)?;
        place(line, lane_column(canvas, *thread), word.as_slice())?;
    }
    Ok(())
}

/// Places the bands that hold a gap: the one just after a ticket, or the one before all tickets.
#[tactic(auto, using(crate::proofs::Loops::steps))]
fn place_bands(line: &mut Vec<u8>, canvas: &Canvas<'_>, gap: Option<u64>) -> Added
    ensures { OnOk result (line.new.items ≡ with_words line.old.items
        (band_words canvas.now.columns (scene_on canvas.now.scene.now).bands gap)) }
{
    let bands = canvas.scene.bands.as_slice();
    for (i, band) in bands.iter().enumerate() {
        place(line, canvas.columns.beside + 5 * i, form_at(*band, gap))?;
    }
    Ok(())
}

/// Returns the words beside the tickets.
fn beside_words(alloc: Global, claimed: &Claimed, row: Row) -> Result<Vec<u8>, AllocError>
    ensures { IfOk result (λ word. word.items ≡ beside_words claimed.now row) }
{
    match row {
        Row::Effect(effect, number, _) => {
            let mut buffer = Buffer::new();
            let label = label_of(alloc, effect.kind)?;
            let number = buffer.format(number).as_bytes();
            let wide = digits(count_of_lines(claimed) as u64);
            numbered(alloc, wide, number, label.as_slice())
        }
        _ => Vec::from_slice(alloc, way_in(claimed, row)),
    }
}

/// Returns the label of an operation, with a word after it if its call is pending.
fn operation_label(canvas: &Canvas<'_>, operation: Operation) -> Result<Vec<u8>, AllocError>
    ensures { IfOk result (λ word. word.items ≡ operation_label (scene_on canvas.now.scene.now) operation) }
{
    let mut word = label_of(canvas.alloc, operation.kind)?;
    if is_pending(canvas.scene.added_from, operation) {
        word.extend_from_slice(b" (pending)")?;
    }
    Ok(word)
}

/// Returns the label of the called operation, if there is one; after its number, if lanes have no room for that.
fn call_label(canvas: &Canvas<'_>, called: Option<Operation>) -> Result<Vec<u8>, AllocError>
    ensures { IfOk result (λ word. word.items ≡ call_label canvas.now.columns (scene_on canvas.now.scene.now) called) }
{
    let Some(operation) = called else {
        return Ok(Vec::new(canvas.alloc));
    };
    let label = operation_label(canvas, operation)?;
    if canvas.columns.lane == 1 {
        let shown = shown_by(canvas.scene.claimed);
        let number = number_at(canvas.alloc, place_in(shown, Row::Ticket(operation.call)))?;
        let wide = digits(shown.len() as u64);
        numbered(canvas.alloc, wide, number.as_slice(), label.as_slice())
    } else {
        Ok(label)
    }
}

/// Places the words to the right of the bands or the lanes.
fn place_told(line: &mut Vec<u8>, canvas: &Canvas<'_>, row: Row) -> Added
    ensures { OnOk result
        (line.new.items ≡ placed line.old.items (told_word canvas.now.columns (scene_on canvas.now.scene.now) row)) }
{
    let claimed = canvas.scene.claimed;
    match row {
        Row::Head => place(line, canvas.columns.lanes, b"in the queue first"),
        Row::Initial(_, value) => {
            let label = initial_label(canvas.alloc, value)?;
            let number = number_at(canvas.alloc, place_in(shown_by(claimed), row))?;
            let wide = digits(count_of_lines(claimed) as u64);
            let word = numbered(canvas.alloc, wide, number.as_slice(), label.as_slice())?;
            place(line, canvas.columns.lanes, word.as_slice())
        }
        Row::Ticket(ticket) => {
            let called = called_at(canvas.scene.operations.as_slice(), ticket);
            let word = call_label(canvas, called)?;
            place(line, canvas.columns.label, word.as_slice())
        }
        _ => Ok(()),
    }
}

/// Places a stroke under the head of each of this many bands.
#[tactic(auto, using(crate::proofs::Loops::steps))]
fn place_strokes(line: &mut Vec<u8>, canvas: &Canvas<'_>, bands: usize) -> Added
    requires { bands ≤ length (scene_on canvas.now.scene.now).bands }
    ensures { OnOk result (line.new.items ≡ with_words line.old.items (strokes canvas.now.columns bands)) }
{
    for i in 0..bands {
        place(line, canvas.columns.beside + 5 * i + 1, b"|")?;
    }
    Ok(())
}

/// Appends a line of these strokes, and of a word at a column.
fn push_under(
    text: &mut Vec<u8>,
    canvas: &Canvas<'_>,
    bands: usize,
    column: usize,
    word: &[u8],
) -> Added
    requires { bands ≤ length (scene_on canvas.now.scene.now).bands }
    ensures { OnOk result (text.new.items ≡ text.old.items ++ under canvas.now.columns bands column word.now) }
{
    let mut bytes = Vec::new(canvas.alloc);
    place_strokes(&mut bytes, canvas, bands)?;
    place(&mut bytes, column, word)?;
    push_line(text, bytes.as_slice())
}

/// Returns the digits of a thread's number in a line above its lane: all of them, or, above narrow lanes, its tens or
/// its units.
fn thread_digits(alloc: Global, narrow: bool, tens: bool, thread: u8) -> Result<Vec<u8>, AllocError>
    ensures { IfOk result (λ word. word.items ≡ thread_digits narrow tens thread) }
{
    let mut word = Vec::new(alloc);
    if !tens {
        let number = if narrow { thread % 10 } else { thread };
        push_number(&mut word, u64::from(number))?;
    } else if thread >= 10 {
        push_number(&mut word, u64::from(thread / 10))?;
    }
    Ok(word)
}

fn place_lane_names(line: &mut Vec<u8>, canvas: &Canvas<'_>, tens: bool) -> Added
    ensures { OnOk result (line.new.items ≡ with_words line.old.items
        (lane_names canvas.now.columns (scene_on canvas.now.scene.now).threads tens
        (scene_on canvas.now.scene.now).threads)) }
{
    let threads = canvas.scene.threads.as_slice();
    let narrow = canvas.columns.lane == 1;
    for thread in threads {
        let word = thread_digits(canvas.alloc, narrow, tens, *thread)?;
        place(line, lane_column(canvas, *thread), word.as_slice())?;
    }
    Ok(())
}

/// Appends the line of the words above the tickets and the order, and of the threads' numbers; or the line of the
/// tens of these alone.
fn push_names(text: &mut Vec<u8>, canvas: &Canvas<'_>, tens: bool) -> Added
    ensures { OnOk result (text.new.items ≡ text.old.items
        ++ line (line_of (name_words canvas.now.columns (scene_on canvas.now.scene.now) tens))) }
{
    let mut bytes = Vec::new(canvas.alloc);
    if !tens {
        let column = canvas.columns.ticket.saturating_sub(6);
        place(&mut bytes, column, b"ticket")?;
        if let Claimed::Yes(_) = canvas.scene.claimed {
            place(&mut bytes, canvas.columns.beside, b"order")?;
        }
    }
    place_strokes(&mut bytes, canvas, canvas.scene.bands.len())?;
    place_lane_names(&mut bytes, canvas, tens)?;
    push_line(text, bytes.as_slice())
}

/// Appends the heads of the bands, and those of the tickets and lanes.
#[tactic(auto, using(crate::proofs::Loops::steps), unfolding(crate::specs::Terminal::heads))]
fn push_heads(text: &mut Vec<u8>, canvas: &Canvas<'_>) -> Added
    ensures { OnOk result
        (text.new.items ≡ text.old.items ++ heads canvas.now.columns (scene_on canvas.now.scene.now)) }
{
    for (i, band) in canvas.scene.bands.as_slice().iter().enumerate() {
        let word = head_words(canvas.alloc, band.head)?;
        push_under(
            text,
            canvas,
            i,
            canvas.columns.beside + 5 * i,
            word.as_slice(),
        )?;
    }
    push_under(
        text,
        canvas,
        canvas.scene.bands.len(),
        canvas.columns.lanes,
        b"thread",
    )?;
    if canvas.columns.lane == 1 {
        push_names(text, canvas, true)?;
    }
    push_names(text, canvas, false)
}

/// Places the words of a row.
#[tactic(auto, unfolding(crate::specs::Terminal::row_words))]
fn place_row(line: &mut Vec<u8>, canvas: &Canvas<'_>, row: Row) -> Added
    ensures { OnOk result
        (line.new.items
        ≡ with_words line.old.items (row_words canvas.now.columns (scene_on canvas.now.scene.now) row)) }
{
    let tickets = ticket_words(canvas.alloc, canvas.scene.added_from, row)?;
    let column = canvas.columns.ticket.saturating_sub(tickets.len());
    place(line, column, tickets.as_slice())?;
    let beside = beside_words(canvas.alloc, canvas.scene.claimed, row)?;
    place(line, canvas.columns.beside, beside.as_slice())?;
    place_bands(line, canvas, gap_of(row))?;
    place_lanes(line, canvas, row)?;
    place_told(line, canvas, row)
}

/// Appends row i.
fn push_numbered(text: &mut Vec<u8>, canvas: &Canvas<'_>, i: usize, row: Row) -> Added
    ensures { OnOk result
        (text.new.items ≡ text.old.items ++ numbered_row canvas.now.columns (scene_on canvas.now.scene.now) (i, row)) }
{
    if i > 0 && i % ROWS_UNDER_HEADS == 0 {
        push_heads(text, canvas)?;
    }
    let mut bytes = Vec::new(canvas.alloc);
    place_row(&mut bytes, canvas, row)?;
    push_line(text, bytes.as_slice())
}

fn sign_text(sign: Sign) -> &'static [u8]
    ensures { result.now ≡ sign_text sign }
{
    match sign {
        Sign::First => b"init ",
        Sign::InOrder | Sign::OfOperations | Sign::OfValues => b"1    ",
        Sign::Present => b"###  ",
        Sign::Absent => b"xxx  ",
        Sign::Away => b"(:)  ",
        Sign::Pending => b"|    ",
        _ => b":::  ",
    }
}

fn effect_meaning(narrow: bool, claimed: &Claimed) -> &'static [u8]
    ensures { result.now ≡ effect_meaning narrow claimed.now }
{
    match claimed {
        Claimed::Yes(_) if narrow =>
            b"*    where the operation of the row takes effect, within its bar\n",
        _ => b"",
    }
}

/// Appends the signs of the picture with their meanings.
fn push_signs(text: &mut Vec<u8>, canvas: &Canvas<'_>) -> Added
    ensures { OnOk result
        (text.new.items ≡ text.old.items ++ flat_map sign_line (signs_of (scene_on canvas.now.scene.now))) }
{
    let signs = signs_of(canvas.alloc, canvas.scene)?;
    for sign in signs.as_slice() {
        text.extend_from_slice(sign_text(*sign))?;
        push_line(text, meaning(*sign))?;
    }
    Ok(())
}

/// Appends the legend of the picture.
#[tactic(auto, unfolding(crate::specs::Terminal::legend))]
fn push_legend(text: &mut Vec<u8>, canvas: &Canvas<'_>) -> Added
    ensures { OnOk result
        (text.new.items ≡ text.old.items ++ legend canvas.now.columns (scene_on canvas.now.scene.now)) }
{
    text.extend_from_slice(LANE_MEANINGS)?;
    text.extend_from_slice(effect_meaning(canvas.columns.lane == 1, canvas.scene.claimed))?;
    push_signs(text, canvas)
}

/// Appends the text above the rows: headline, caption and legend.
#[tactic(auto, unfolding(crate::specs::Terminal::words))]
fn push_words(text: &mut Vec<u8>, canvas: &Canvas<'_>) -> Added
    ensures { OnOk result
        (text.new.items ≡ text.old.items ++ words canvas.now.columns (scene_on canvas.now.scene.now)) }
{
    push_line(text, headline(canvas.scene.claimed))?;
    push_caption(text, canvas.scene.added_from, canvas.scene.claimed)?;
    push_line(text, b"")?;
    push_legend(text, canvas)?;
    push_line(text, b"")
}

/// Draws a scene in lines of ASCII for a terminal.
///
/// The `history` dequeues 7, which was never enqueued:
///
/// ```rust
/// let verdict = decide(alloc, &history)?;
/// let claimed = claim(alloc, &history, &verdict)?;
/// let drawn = drawn_operations(alloc, &history, &claimed, None)?;
/// let scene = scene_of(alloc, &history, &claimed, drawn, None)?;
/// let mut picture = Vec::new(alloc);
/// if count_of_lines(&claimed) <= MOST_DRAWN {
///     picture = terminal_picture(alloc, &scene)?;
/// }
/// assert!(rt; picture.as_slice().starts_with(b"NO: "));
/// ```
///
/// The claim need not be evidence: the picture shows its lines. Takes O(n t n) time for n operations of t threads,
/// O(k m) for k initial values and m lines, and memory for the text, of O(n t + k m) bytes. The only error is out of
/// memory.
#[tactic(auto, using(crate::proofs::Loops::steps), unfolding(crate::specs::Terminal::terminal_picture))]
pub fn terminal_picture(alloc: Global, scene: &Scene<'_>) -> Result<Vec<u8>, AllocError>
    // The claim has few enough lines to be drawn.
    requires { count_of_lines scene.now.claimed.now ≤ MOST_DRAWN }
    ensures { IfOk result (λ text. text.items ≡ terminal_picture (scene_on scene.now)) }
{
    let canvas = canvas_of(alloc, scene);
    let mut text = Vec::new(alloc);
    push_words(&mut text, &canvas)?;
    push_heads(&mut text, &canvas)?;
    for (i, row) in scene.rows.as_slice().iter().enumerate() {
        push_numbered(&mut text, &canvas, i, *row)?;
    }
    Ok(text)
}
