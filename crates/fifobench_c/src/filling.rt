//! Writing of answers into the caller's memory.
ghost use Rattle.std.specs.Prelude.{◌≡◌, ◌⊎◌, List, ℕ, IfOk, length};
ghost use Rattle.commands.specs.Answers.{memory_fault};
ghost use Rattle.commands.specs.Outcomes.{answer_of, NamesPlaces};
ghost use Rattle.fifobench_c.specs.Filling.{Fills, Tells, TellsAnswer};
ghost use Rattle.fifobench_c.specs.Recorded.{bad_what_line};

use commands::{Outcome, status_of, text_of_outcome};
use itoa::Buffer;
use std::alloc::{AllocError, Global};

/// Writes the outcome, or the fault that memory ran out for its text.
pub(crate) fn tell(alloc: Global, outcome: &Outcome, answer: &mut [u8], needed: &mut usize) -> u8
    requires { NamesPlaces outcome.now }
    ensures { TellsAnswer (answer_of outcome.now) answer.old answer.new needed.new result
        ⊎ TellsAnswer memory_fault answer.old answer.new needed.new result }
{
    tell_text(
        text_of_outcome(alloc, outcome),
        status_of(outcome),
        answer,
        needed,
    )
}

/// Writes the fault that the kind of the event at this place is unknown, or that memory ran out for its line.
pub(crate) fn tell_bad_what(
    alloc: Global,
    place: usize,
    answer: &mut [u8],
    needed: &mut usize,
) -> u8
    ensures { Tells (bad_what_line place) 2 answer.old answer.new needed.new result
        ⊎ TellsAnswer memory_fault answer.old answer.new needed.new result }
{
    tell_text(bad_what(alloc, place), 2, answer, needed)
}

/// Builds the line for an event of unknown kind at this place.
fn bad_what(alloc: Global, place: usize) -> Result<Vec<u8>, AllocError>
    ensures { IfOk result (λ text. text.items ≡ bad_what_line place) }
{
    let mut number = Buffer::new();
    let mut text = Vec::from_slice(alloc, b"REFUSED BadWhat ")?;
    text.extend_from_slice(number.format(place).as_bytes())?;
    text.extend_from_slice(b"\n")?;
    Ok(text)
}

/// Writes a text and returns its status. If memory ran out for the text, writes that, which takes no memory.
fn tell_text(
    text: Result<Vec<u8>, AllocError>,
    status: u8,
    answer: &mut [u8],
    needed: &mut usize,
) -> u8
    ensures { (wanted : List ℕ) → IfOk text (λ found. found.items ≡ wanted)
        → Tells wanted status answer.old answer.new needed.new result
        ⊎ TellsAnswer memory_fault answer.old answer.new needed.new result }
{
    match text {
        Ok(text) => {
            fill(text.as_slice(), answer, needed);
            status
        }
        Err(_) => {
            fill(b"FAULT Memory\n", answer, needed);
            3
        }
    }
}

/// Writes the length of the text, and the text if it fits.
fn fill(text: &[u8], answer: &mut [u8], needed: &mut usize)
    ensures filled { Fills text.now answer.old answer.new }
    ensures needed { needed.new ≡ length text.now }
{
    *needed = text.len();
    if text.len() <= answer.len() {
        answer[..text.len()].copy_from_slice(text);
    }
}
