//! The scene of a picture, which characters and SVG draw alike: rows from top to bottom, and lanes side by side.
ghost use Rattle.std.specs.Prelude.{if◌then◌else◌, codes, flat_map, ◌≡◌, ◌==◌, ◌++◌, ◌≤◌, ◌+◌, OnOk, IfOk, length};
ghost use Rattle.std.specs.List.{enumerate_from};
ghost use Rattle.drawing.specs.Scene.{scene_on, initial_row, initial_rows, values_left_out, effect_rows, has_row};
ghost use Rattle.drawing.specs.Scene.{left_out_rows, rows_after, rows_of, scene_of, gap_of, row_turn};
ghost use Rattle.drawing.specs.Scene.{stands_above, row_number, ticket_words, ticket_width, lanes_before, way_in};

use crate::bands::{bands_of, gap_time};
use crate::canvas::Scene;
use crate::claim::{line_kind, order_of};
use crate::columns::{digits, events_of, threads_of};
use crate::drawn::drawn_initial;
use crate::line::{Added, push_number};
use crate::lookup::line_in;
use crate::pending::is_added;
use claims::{Claimed, ViolationKind};
use event_records::{Event, MAX_THREADS};
use history_merge::{History, OpKind, Operation};
use std::alloc::{AllocError, Global};

/// A row of a picture.
#[derive(Clone, Copy)]
pub enum Row {
    /// The head of the initial values.
    Head,
    /// An initial value: its place among the drawn ones, from 0 for the front one, and the value.
    Initial(usize, u64),
    /// A number of initial values that are left out, below this number of drawn ones.
    ValuesLeftOut(usize, usize),
    /// The event with this ticket.
    Ticket(u64),
    /// A number of events that are left out, and the ticket of the last of them.
    LeftOut(usize, u64),
    /// The effect of an operation of a `YES`: its number in the order, and the ticket just before it.
    Effect(Operation, u64, u64),
}

fn push_values_left_out(rows: &mut Vec<Row>, count: usize, drawn: usize) -> Added
    ensures { OnOk result (rows.new.items ≡ rows.old.items ++ values_left_out count drawn) }
{
    if count != 0 {
        rows.push(Row::ValuesLeftOut(count, drawn))?;
    }
    Ok(())
}

/// Adds the rows of the drawn initial values.
#[tactic(auto, using(crate::proofs::Loops::steps))]
fn push_drawn_initial(rows: &mut Vec<Row>, drawn: &[u64]) -> Added
    ensures { OnOk result (rows.new.items ≡ rows.old.items ++ flat_map initial_row (enumerate_from 0 drawn.now)) }
{
    for (place, value) in drawn.iter().enumerate() {
        rows.push(Row::Initial(place, *value))?;
    }
    Ok(())
}

/// Adds the head and the rows of initial values, if there are any: one for each drawn value, and one for all others.
#[tactic(auto, using(crate::proofs::Loops::steps))]
fn push_initial_rows(rows: &mut Vec<Row>, initial: &[u64], drawn: &[u64]) -> Added
    ensures { OnOk result (rows.new.items ≡ rows.old.items ++ initial_rows initial.now drawn.now) }
{
    match initial {
        [] => Ok(()),
        [_, ..] => {
            rows.push(Row::Head)?;
            push_drawn_initial(rows, drawn)?;
            push_values_left_out(rows, initial.len().saturating_sub(drawn.len()), drawn.len())
        }
    }
}

/// Adds the rows of the effects just after a ticket.
#[tactic(auto, using(crate::proofs::Loops::steps, crate::proofs::Loops::point_more), unfolding(crate::specs::Scene::effect_rows))]
fn push_effect_rows(rows: &mut Vec<Row>, order: &[Operation], ticket: u64) -> Added
    ensures { OnOk result (rows.new.items ≡ rows.old.items ++ effect_rows order.now ticket) }
{
    let mut greatest = 0u64;
    for (i, operation) in order.iter().enumerate() {
        greatest = greatest.max(operation.call);
        if greatest == ticket {
            rows.push(Row::Effect(*operation, i as u64 + 1, greatest))?;
        }
    }
    Ok(())
}

fn has_row(drawn: &[Operation], ticket: u64) -> bool
    ensures { result ≡ has_row drawn.now ticket }
{
    drawn.iter().any(|operation| operation.call == ticket || operation.ret == ticket)
}

fn push_left_out(rows: &mut Vec<Row>, count: usize, last: u64) -> Added
    ensures { OnOk result (rows.new.items ≡ rows.old.items ++ left_out_rows count last) }
{
    if count != 0 {
        rows.push(Row::LeftOut(count, last))?;
    }
    Ok(())
}

/// Adds the rows of events: one for each event of a drawn operation, and others for the rest.
fn push_rows_of_events(
    rows: &mut Vec<Row>,
    drawn: &[Operation],
    order: &[Operation],
    events: &[Event],
) -> Added
    ensures { OnOk result (rows.new.items ≡ rows.old.items ++ rows_after drawn.now order.now 0 0 events.now) }
{
    let mut count = 0;
    let mut last = 0;
    for event in events {
        if has_row(drawn, event.ticket) {
            push_left_out(rows, count, last)?;
            rows.push(Row::Ticket(event.ticket))?;
            push_effect_rows(rows, order, event.ticket)?;
            count = 0;
        } else {
            count += 1;
            last = event.ticket;
        }
    }
    push_left_out(rows, count, last)
}

/// Makes the scene of a history, its drawn operations ([`drawn_operations`](crate::drawn_operations)), and a claim
/// about it.
///
/// If the history is the completion of one with pending calls, `added_from` is the ticket of the first added return,
/// and an operation that returns at it or later is drawn as one that never returned. It is `None` if nothing was
/// added.
///
/// Takes O(n d) time for n events of which d have rows, O(k d) for k initial values, and memory for the events. The
/// only error is out of memory.
#[tactic(auto, unfolding(crate::specs::Scene::scene_of, crate::specs::Scene::rows_of))]
pub fn scene_of<'a>(
    alloc: Global,
    history: &'a History,
    claimed: &'a Claimed,
    drawn: Vec<Operation>,
    added_from: Option<u64>,
) -> Result<Scene<'a>, AllocError>
    ensures scene { IfOk result (λ scene. scene_on scene ≡ scene_of history.now claimed.now drawn.items added_from) }
    ensures claimed { IfOk result (λ scene. scene.claimed.now ≡ claimed.now) }
{
    let events = events_of(alloc, history)?;
    let threads = threads_of(alloc, drawn.as_slice())?;
    let bands = bands_of(alloc, claimed)?;
    let initial = drawn_initial(alloc, history, claimed, drawn.as_slice())?;
    let mut rows = Vec::new(alloc);
    push_initial_rows(&mut rows, history.initial(), initial.as_slice())?;
    push_rows_of_events(
        &mut rows,
        drawn.as_slice(),
        order_of(claimed),
        events.as_slice(),
    )?;
    Ok(Scene {
        initial,
        operations: drawn,
        claimed,
        threads,
        bands,
        rows,
        added_from,
    })
}

/// Returns the gap of a row: the one just after this ticket, or none for the one before all tickets.
pub(crate) fn gap_of(row: Row) -> Option<u64>
    ensures { result ≡ gap_of row }
{
    match row {
        Row::Head | Row::Initial(_, _) | Row::ValuesLeftOut(_, _) => None,
        Row::Ticket(ticket) | Row::LeftOut(_, ticket) | Row::Effect(_, _, ticket) => Some(ticket),
    }
}

fn row_turn(row: Row) -> u128
    ensures { result ≡ row_turn row }
{
    match row {
        Row::Head | Row::Ticket(_) | Row::LeftOut(_, _) => 0,
        Row::Initial(place, _) => place as u128 + 1,
        Row::ValuesLeftOut(_, drawn) => drawn as u128 + 1,
        Row::Effect(_, number, _) => u128::from(number),
    }
}

fn stands_above(other: Row, row: Row) -> bool
    ensures { result ≡ stands_above other row }
{
    let (above, time) = (gap_time(gap_of(other)), gap_time(gap_of(row)));
    above < time || (above == time && row_turn(other) < row_turn(row))
}

/// Returns the number of a row, from 0, which is the number of rows above it.
#[tactic(auto, unfolding(crate::specs::Scene::row_number))]
pub fn row_number(rows: &[Row], row: Row) -> usize
    ensures { result ≡ row_number rows.now row }
{
    rows.iter()
        .filter(|other| stands_above(**other, row))
        .count()
}

fn values_word(count: usize) -> &'static [u8]
    ensures { result.now ≡ (if count == 1 then codes " value ..." else codes " values ...") }
{
    if count == 1 {
        b" value ..."
    } else {
        b" values ..."
    }
}

fn events_word(count: usize) -> &'static [u8]
    ensures { result.now ≡ (if count == 1 then codes " event ..." else codes " events ...") }
{
    if count == 1 {
        b" event ..."
    } else {
        b" events ..."
    }
}

/// Returns the words of a row in the column of tickets: its ticket, that its return was added, or the number of
/// events or initial values left out.
pub fn ticket_words(alloc: Global, added_from: Option<u64>, row: Row) -> Result<Vec<u8>, AllocError>
    ensures { IfOk result (λ words. words.items ≡ ticket_words added_from row) }
{
    let mut words = Vec::new(alloc);
    match row {
        Row::Ticket(ticket) if is_added(added_from, ticket) => words.extend_from_slice(b"pending")?,
        Row::Ticket(ticket) => push_number(&mut words, ticket)?,
        Row::LeftOut(count, _) => {
            words.extend_from_slice(b"... ")?;
            push_number(&mut words, count as u64)?;
            words.extend_from_slice(events_word(count))?;
        }
        Row::ValuesLeftOut(count, _) => {
            words.extend_from_slice(b"... ")?;
            push_number(&mut words, count as u64)?;
            words.extend_from_slice(values_word(count))?;
        }
        _ => {}
    }
    Ok(words)
}

fn ticket_words_len(added_from: Option<u64>, row: Row) -> u8
    ensures { result ≡ length (ticket_words added_from row) }
{
    match row {
        Row::Ticket(ticket) if is_added(added_from, ticket) => 7,
        Row::Ticket(ticket) => digits(ticket),
        Row::LeftOut(count, _) => 4 + digits(count as u64) + events_word(count).len() as u8,
        Row::ValuesLeftOut(count, _) => 4 + digits(count as u64) + values_word(count).len() as u8,
        _ => 0,
    }
}

/// Returns the width of the column of tickets, in characters.
pub fn ticket_width(added_from: Option<u64>, rows: &[Row]) -> u8
    ensures { result ≡ ticket_width added_from rows.now }
{
    rows.iter().fold(
        6,
        |widest, row| widest.max(ticket_words_len(added_from, *row)),
    )
}

/// Returns the number of lanes to the left of a thread's.
pub fn lanes_before(threads: &[u8], thread: u8) -> usize
    requires { length threads.now ≤ MAX_THREADS }
    ensures value { result ≡ lanes_before threads.now thread }
    ensures few { result ≤ MAX_THREADS }
{
    threads.iter().filter(|lower| **lower < thread).count()
}

/// Returns the word `in` or `out` for the line of a row, if a value was dequeued twice.
pub fn way_in(claimed: &Claimed, row: Row) -> &'static [u8]
    ensures { result.now ≡ way_in claimed.now row }
{
    match claimed {
        Claimed::No(ViolationKind::VRepeat, lines) => {
            match line_in(lines.as_slice(), row).map(line_kind) {
                None => b"",
                Some(OpKind::Enqueue(_)) => b"in",
                Some(_) => b"out",
            }
        }
        _ => b"",
    }
}
