// Answers by what happened to a value.
ghost use Rattle.std.specs.Prelude.{◌≡◌, if◌then◌else◌, OnOk, OnErr};
ghost use Rattle.event_records.specs.Question.{dequeued as answer_of};
ghost use Rattle.event_records.specs.declared.kind.Answer.TheVariants.{Taken, Not};
ghost use Rattle.queue_interface.specs.Answers.{AnswersInKind};

use event_records::{AnsweredDeq, AnsweredEnq, AskDeq, AskEnq};

// Returns the answer of an enqueue whose value was taken, or not.
pub(crate) fn enqueued(ask: AskEnq, taken: bool) -> AnsweredEnq
    ensures question { result.question ≡ ask }
    ensures in_kind { AnswersInKind ask result.answer }
    ensures told { result.answer ≡ (if taken then Taken else Not) }
{
    if taken { ask.taken() } else { ask.not_taken() }
}

// Returns the answer of an enqueue whose value was pushed, or was given back.
pub(crate) fn pushed(ask: AskEnq, push: Result<(), u64>) -> AnsweredEnq
    ensures question { result.question ≡ ask }
    ensures in_kind { AnswersInKind ask result.answer }
    ensures taken { OnOk push (result.answer ≡ Taken) }
    ensures refused { OnErr push (result.answer ≡ Not) }
{
    match push {
        Ok(()) => ask.taken(),
        Err(_) => ask.not_taken(),
    }
}

// Returns the answer of a dequeue that got this.
pub(crate) fn dequeued(ask: AskDeq, got: Option<u64>) -> AnsweredDeq
    ensures question { result.question ≡ ask }
    ensures in_kind { AnswersInKind ask result.answer }
    ensures told { result.answer ≡ answer_of got }
{
    match got {
        Some(value) => ask.got(value),
        None => ask.empty(),
    }
}
