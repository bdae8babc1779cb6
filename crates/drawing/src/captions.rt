//! The words of a picture.
ghost use Rattle.std.specs.Prelude.{◌≡◌, ◌++◌, ◌+◌, ◌≤◌, OnOk, length};
ghost use Rattle.drawing.specs.Claim.{count_of_lines};
ghost use Rattle.drawing.specs.Captions.{headline, fresh_words, repeat_words, before_words, overtaking_caption};
ghost use Rattle.drawing.specs.Captions.{order_caption, never_returned, between_words, end_words, cover_from};
ghost use Rattle.drawing.specs.Captions.{one_of_cover, cover_caption, witness_words, caption};

use crate::bands::{line_value, push_named};
use crate::claim::{line_call, line_kind, line_return};
use crate::columns::MOST_DRAWN;
use crate::line::{Added, push_moment, push_number};
use crate::pending::is_pending;
use claims::{ClaimLine, Claimed, ViolationKind};
use history_merge::OpKind;

/// The caption of a `YES`.
pub(crate) const YES_CAPTION: &[u8] =
    b"The numbers give one order in which the operations can have taken\n\
effect. They rise from top to bottom, and each stands within its bar.\n";

/// The first lines of the caption of an empty dequeue.
pub(crate) const WITNESS_WORDS: &[u8] =
    b"A dequeue found the queue empty (1), but at each moment of it\n\
some value surely was in the queue:\n";

/// Returns the headline of a picture.
pub fn headline(claimed: &Claimed) -> &'static [u8]
    ensures { result.now ≡ headline claimed.now }
{
    match claimed {
        Claimed::Yes(_) => b"YES: a FIFO queue can have answered so",
        Claimed::No(kind, _) => match kind {
            ViolationKind::VFresh => b"NO: a value was dequeued that was not there",
            ViolationKind::VRepeat => b"NO: a value was dequeued twice",
            ViolationKind::VOrd => b"NO: values were dequeued against the order of their enqueues",
            ViolationKind::VWit => b"NO: an empty answer while the queue was never empty",
        },
    }
}

fn fresh_words(lines: &[ClaimLine]) -> &'static [u8]
    ensures { result.now ≡ fresh_words lines.now }
{
    match lines {
        [] => b" was dequeued (1), but nobody ever enqueued it.\n",
        [enq, ..] => match line_kind(*enq) {
            OpKind::Enqueue(_) => {
                b" was dequeued (1), but its enqueue (2) was called only afterwards.\n"
            }
            _ => b" was dequeued (1), but its enqueue (2) was not taken.\n",
        },
    }
}

fn repeat_words(enq: ClaimLine) -> &'static [u8]
    ensures { result.now ≡ repeat_words enq }
{
    match enq {
        ClaimLine::Op(_) => b" was enqueued once (1), but dequeued twice (2 and 3).\n",
        ClaimLine::Initial(_) => { b" was in the queue first (1), but dequeued twice (2 and 3).\n" }
    }
}

fn before_words(a: ClaimLine) -> &'static [u8]
    ensures { result.now ≡ before_words a }
{
    match a {
        ClaimLine::Op(_) => b" was enqueued (1) before ",
        ClaimLine::Initial(_) => b" was in the queue (1) before ",
    }
}

#[tactic(auto, unfolding(crate::specs::Captions::overtaking_caption))]
fn push_overtaking_caption<'x>(
    text: &mut Vec<u8>,
    a: ClaimLine,
    b: ClaimLine,
    between: &'x [u8],
    end: &'x [u8],
) -> Added
    ensures { OnOk result (text.new.items ≡ text.old.items ++ overtaking_caption a b between.now end.now) }
{
    push_named(text, line_value(a), before_words(a))?;
    push_named(text, line_value(b), b" (2),\nbut ")?;
    push_named(text, line_value(b), between)?;
    push_named(text, line_value(a), end)
}

fn never_returned(added_from: Option<u64>, line: ClaimLine) -> bool
    ensures { result ≡ never_returned added_from line }
{
    match line {
        ClaimLine::Op(operation) => is_pending(added_from, operation),
        ClaimLine::Initial(_) => false,
    }
}

fn between_words(never: bool) -> &'static [u8]
    ensures { result.now ≡ between_words never }
{
    if never {
        b" was dequeued (3), and "
    } else {
        b" was dequeued (3) before "
    }
}

fn end_words(never: bool) -> &'static [u8]
    ensures { result.now ≡ end_words never }
{
    if never {
        b" only by a call that never returned (4).\n"
    } else {
        b" (4).\n"
    }
}

fn push_order_caption(
    text: &mut Vec<u8>,
    added_from: Option<u64>,
    a: ClaimLine,
    later: &[ClaimLine],
) -> Added
    ensures { OnOk result (text.new.items ≡ text.old.items ++ order_caption added_from a later.now) }
{
    match later {
        [b, _] => {
            push_overtaking_caption(text, a, *b, b" was dequeued (3) and ", b" never was.\n")
        }
        [b, _, deq_a, ..] => {
            let never = never_returned(added_from, *deq_a);
            push_overtaking_caption(text, a, *b, between_words(never), end_words(never))
        }
        _ => Ok(()),
    }
}

#[tactic(auto, unfolding(crate::specs::Captions::cover_from))]
fn push_cover_from(text: &mut Vec<u8>, number: u64, enq: ClaimLine) -> Added
    ensures { OnOk result (text.new.items ≡ text.old.items ++ cover_from number enq) }
{
    push_named(text, line_value(enq), b" from ")?;
    push_moment(text, line_return(enq))?;
    text.extend_from_slice(b" (")?;
    push_number(text, number)
}

#[tactic(auto, unfolding(crate::specs::Captions::one_of_cover))]
fn push_one_of_cover(text: &mut Vec<u8>, number: u64, enq: ClaimLine, deq: ClaimLine) -> Added
    requires { number ≤ MOST_DRAWN }
    ensures { OnOk result (text.new.items ≡ text.old.items ++ one_of_cover number enq deq) }
{
    push_cover_from(text, number, enq)?;
    text.extend_from_slice(b") to ")?;
    push_moment(text, line_call(deq))?;
    text.extend_from_slice(b" (")?;
    push_number(text, number + 1)?;
    text.extend_from_slice(b")\n")
}

#[tactic(auto, using(crate::proofs::Loops::covers))]
fn push_cover_caption(text: &mut Vec<u8>, number: u64, lines: &[ClaimLine]) -> Added
    requires { number + length lines.now ≤ MOST_DRAWN + 1 }
    ensures { OnOk result (text.new.items ≡ text.old.items ++ cover_caption number lines.now) }
{
    match lines {
        [] => Ok(()),
        [enq] => {
            push_cover_from(text, number, *enq)?;
            text.extend_from_slice(b") on\n")
        }
        [enq, deq, rest @ ..] => {
            push_one_of_cover(text, number, *enq, *deq)?;
            push_cover_caption(text, number + 2, rest)
        }
    }
}

#[tactic(auto, unfolding(crate::specs::Captions::witness_words))]
fn witness_words() -> &'static [u8]
    ensures { result.now ≡ witness_words }
{
    WITNESS_WORDS
}

/// Appends a claim in sentences, each line with its line feed. Returns from `added_from` on were added by a
/// completion.
#[tactic(auto, using(crate::proofs::Loops::covers), unfolding(crate::specs::Captions::caption))]
pub fn push_caption(text: &mut Vec<u8>, added_from: Option<u64>, claimed: &Claimed) -> Added
    requires { count_of_lines claimed.now ≤ MOST_DRAWN }
    ensures { OnOk result (text.new.items ≡ text.old.items ++ caption added_from claimed.now) }
{
    match claimed {
        Claimed::Yes(_) => text.extend_from_slice(YES_CAPTION),
        Claimed::No(kind, lines) => match lines.as_slice() {
            [] => Ok(()),
            [first, rest @ ..] => match kind {
                ViolationKind::VFresh => push_named(text, line_value(*first), fresh_words(rest)),
                ViolationKind::VRepeat => push_named(
                    text,
                    line_value(*first),
                    repeat_words(*first),
                ),
                ViolationKind::VOrd => push_order_caption(text, added_from, *first, rest),
                ViolationKind::VWit => {
                    text.extend_from_slice(witness_words())?;
                    push_cover_caption(text, 2, rest)
                }
            },
        },
    }
}
