//! The bands beside the lanes of a `NO`.
ghost use Rattle.std.specs.Prelude.{◌≡◌, ◌++◌, ◌∷◌, ◌+◌, ◌≤◌, [], OnOk, IfOk, length, vec_len};
ghost use Rattle.drawing.specs.Claim.{count_of_lines, line_call, line_return};
ghost use Rattle.drawing.specs.Names.{value_text};
ghost use Rattle.std.specs.List.{concat};
ghost use Rattle.drawing.specs.Bands.{line_value, sure_until, time_of, enqueue_call, cover_bands, order_bands};
ghost use Rattle.drawing.specs.Bands.{bands_by, bands_of, head_text, form_words, gap_time, form_at};

use crate::claim::{line_call, line_kind, line_return};
use crate::line::Added;
use crate::names::push_value;
use claims::{ClaimLine, Claimed, ViolationKind};
use history_merge::OpKind;
use std::alloc::{AllocError, Global};

/// The head of a band, shown above it.
#[derive(Clone, Copy)]
pub enum Head {
    /// This value was definitely in the queue.
    DefinitelyIn(u64),
    /// This value was definitely not in the queue.
    NotIn(u64),
    /// This value was dequeued within the band.
    Dequeued(u64),
    /// This value was enqueued and dequeued within the band.
    InAndOut(u64),
    /// A dequeue found the queue empty within the band.
    SaidEmpty,
    /// A column without a band, for the words `in` and `out` of this value.
    InOrOut(u64),
}

/// A stretch of time, between the tickets of two events.
#[derive(Clone, Copy)]
pub struct Band {
    pub head: Head,
    /// The ticket at which the band begins, or none if it begins at the top.
    pub first: Option<u64>,
    /// The ticket at which the band ends, or none if it ends at the bottom.
    pub last: Option<u64>,
}

/// Returns the value of a line.
pub(crate) fn line_value(line: ClaimLine) -> u64
    ensures { result ≡ line_value line }
{
    match line_kind(line) {
        OpKind::Enqueue(value) | OpKind::Dequeue(value) | OpKind::EnqueueFailed(value) => value,
        OpKind::DequeueEmpty => 0,
    }
}

fn sure_until(enq: ClaimLine, last: Option<u64>) -> Band
    ensures { result ≡ sure_until enq last }
{
    time_of(Head::DefinitelyIn(line_value(enq)), line_return(enq), last)
}

fn time_of(head: Head, first: Option<u64>, last: Option<u64>) -> Band
    ensures { result ≡ time_of head first last }
{
    Band { head, first, last }
}

fn enqueue_call(lines: &[ClaimLine]) -> Option<u64>
    ensures { result ≡ enqueue_call lines.now }
{
    match lines {
        [] => None,
        [enq, ..] => match line_kind(*enq) {
            OpKind::Enqueue(_) => line_call(*enq),
            _ => None,
        },
    }
}

fn push_order_bands(bands: &mut Vec<Band>, enq_a: ClaimLine, later: &[ClaimLine]) -> Added
    ensures bands { OnOk result (bands.new.items ≡ bands.old.items ++ order_bands enq_a later.now) }
    ensures few { OnOk result (vec_len bands.new ≤ vec_len bands.old + 2) }
{
    match later {
        [enq_b, deq_b, rest @ ..] => {
            let head = Head::InAndOut(line_value(*enq_b));
            let time = time_of(head, line_call(*enq_b), line_return(*deq_b));
            let last = rest.first().and_then(|deq_a| line_call(*deq_a));
            bands.extend_from_slice(&[sure_until(enq_a, last), time])
        }
        _ => Ok(()),
    }
}

fn push_cover_bands(bands: &mut Vec<Band>, lines: &[ClaimLine]) -> Added
    ensures bands { OnOk result (bands.new.items ≡ bands.old.items ++ cover_bands lines.now) }
    ensures few { OnOk result (vec_len bands.new ≤ vec_len bands.old + length lines.now) }
{
    match lines {
        [] => Ok(()),
        [enq] => bands.extend_from_slice(&[sure_until(*enq, None)]),
        [enq, deq, rest @ ..] => {
            bands.push(sure_until(*enq, line_call(*deq)))?;
            push_cover_bands(bands, rest)
        }
    }
}

/// Adds the bands of a `NO` of this kind with these lines.
fn push_bands(bands: &mut Vec<Band>, kind: ViolationKind, lines: &[ClaimLine]) -> Added
    ensures bands { OnOk result (bands.new.items ≡ bands.old.items ++ bands_by lines.now kind) }
    ensures few { OnOk result (vec_len bands.new ≤ vec_len bands.old + (length lines.now + 2)) }
{
    match lines {
        [] => Ok(()),
        [first, rest @ ..] => {
            let value = line_value(*first);
            let (call, ret) = (line_call(*first), line_return(*first));
            match kind {
                ViolationKind::VFresh => {
                    let absent = time_of(Head::NotIn(value), None, enqueue_call(rest));
                    bands.extend_from_slice(&[absent, time_of(Head::Dequeued(value), call, ret)])
                }
                ViolationKind::VRepeat => {
                    bands.extend_from_slice(&[time_of(Head::InOrOut(value), None, None)])
                }
                ViolationKind::VOrd => push_order_bands(bands, *first, rest),
                ViolationKind::VWit => {
                    push_cover_bands(bands, rest)?;
                    bands.extend_from_slice(&[time_of(Head::SaidEmpty, call, ret)])
                }
            }
        }
    }
}

/// Returns the bands of a claim, left to right.
pub(crate) fn bands_of(alloc: Global, claimed: &Claimed) -> Result<Vec<Band>, AllocError>
    ensures bands { IfOk result (λ bands. bands.items ≡ bands_of claimed.now) }
    ensures few { IfOk result (λ bands. vec_len bands ≤ count_of_lines claimed.now + 2) }
{
    let mut bands = Vec::new(alloc);
    if let Claimed::No(kind, lines) = claimed {
        push_bands(&mut bands, *kind, lines.as_slice())?;
    }
    Ok(bands)
}

/// Appends a value, and words after it.
pub(crate) fn push_named(text: &mut Vec<u8>, value: u64, words: &[u8]) -> Added
    ensures { OnOk result (text.new.items ≡ text.old.items ++ concat (value_text value ∷ words.now ∷ [])) }
{
    push_value(text, value)?;
    text.extend_from_slice(words)
}

/// Returns the words above a band.
pub fn head_words(alloc: Global, head: Head) -> Result<Vec<u8>, AllocError>
    ensures { IfOk result (λ words. words.items ≡ head_text head) }
{
    let mut words = Vec::new(alloc);
    match head {
        Head::DefinitelyIn(value) => push_named(&mut words, value, b" surely in")?,
        Head::NotIn(value) => push_named(&mut words, value, b" not in")?,
        Head::Dequeued(value) => push_named(&mut words, value, b" dequeued")?,
        Head::InAndOut(value) => push_named(&mut words, value, b" in and out")?,
        Head::SaidEmpty => words.extend_from_slice(b"empty")?,
        Head::InOrOut(value) => push_named(&mut words, value, b" in or out")?,
    }
    Ok(words)
}

/// Returns the form of a band: `sure` for a value definitely in the queue, `absent` for one definitely not in it,
/// `time` for the time beside them. A column without a band has none.
pub fn form_words(
    head: Head,
    sure: &'static [u8],
    absent: &'static [u8],
    time: &'static [u8],
) -> &'static [u8]
    ensures { result.now ≡ form_words head sure.now absent.now time.now }
{
    match head {
        Head::DefinitelyIn(_) => sure,
        Head::NotIn(_) => absent,
        Head::Dequeued(_) | Head::InAndOut(_) | Head::SaidEmpty => time,
        Head::InOrOut(_) => b"",
    }
}

/// Returns the time of a gap; 0 for the gap before all tickets.
pub(crate) fn gap_time(gap: Option<u64>) -> u128
    ensures { result ≡ gap_time gap }
{
    match gap {
        None => 0,
        Some(ticket) => u128::from(ticket) + 1,
    }
}

/// Returns the form of a band in a row of characters at this gap; nothing if the band doesn't hold the gap.
pub(crate) fn form_at(band: Band, gap: Option<u64>) -> &'static [u8]
    ensures { result.now ≡ form_at band gap }
{
    let time = gap_time(gap);
    let goes_on = band.last.is_none() || time < gap_time(band.last);
    if gap_time(band.first) <= time && goes_on {
        form_words(band.head, b"###", b"xxx", b":::")
    } else {
        b""
    }
}
