ghost use Rattle.std.specs.Prelude.{◌≡◌, ◌↔◌, IsTrue};
ghost use Rattle.event_records.specs.Turns.{Alternates, TakesTurns, TicketsRise, answers};

use crate::event::{Event, What};

/// Returns whether the events of one thread are complete operations in order: calls and returns alternate, a call
/// first and a return last, each return is of its call's kind, and tickets rise. Returns true if there are no events.
///
/// Takes time in proportion to the events, and no memory.
pub fn alternates(events: &[Event]) -> bool
    ensures { IsTrue result ↔ Alternates events.now }
{
    let in_turn = takes_turns(events);
    let rising = tickets_rise(events);
    in_turn && rising
}

fn takes_turns(events: &[Event]) -> bool
    ensures { IsTrue result ↔ TakesTurns events.now }
{
    let mut rest = events;
    while let [call, answer, tail @ ..] = rest {
        if !is_answer(call.what, answer.what) {
            return false;
        }
        rest = tail;
    }
    rest.is_empty()
}

fn tickets_rise(events: &[Event]) -> bool
    ensures { IsTrue result ↔ TicketsRise events.now }
{
    for i in 1..events.len() {
        if events[i].ticket <= events[i - 1].ticket {
            return false;
        }
    }
    true
}

/// Returns whether the second is a return of the kind of the first, which is a call.
pub(crate) fn is_answer(call: What, answer: What) -> bool
    ensures { result ≡ answers call answer }
{
    match (call, answer) {
        (What::CallEnq(_), What::RetEnq | What::RetNot) => true,
        (What::CallDeq, What::RetDeq(_) | What::RetEmpty) => true,
        _ => false,
    }
}
