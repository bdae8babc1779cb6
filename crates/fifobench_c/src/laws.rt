//! A law of the answers. The law is the contract; the function's body is empty.
ghost use Rattle.std.specs.Prelude.{List};
ghost use Rattle.event_records.specs.declared.event.Event.{Event};
ghost use Rattle.history_text.specs.Histories.{HasHistoryText, history_text};
ghost use Rattle.command_words.specs.Commands.{check};
ghost use Rattle.command_words.specs.Options.{linearizability};
ghost use Rattle.commands.specs.Answers.{Reply};
ghost use Rattle.commands.specs.Evidence.{SameOrNoMemory, input_of};
ghost use Rattle.commands.specs.Running.{AnswersOf};
ghost use Rattle.commands.specs.Judging.{AnswersOrNoMemory, JudgesHistory, from_none};

/// Law: events and their text have the same answer. A reply about the events and a reply of `check` about their text
/// are the same, or one of them is out of memory. The law is the contract; the body is empty.
pub fn events_and_their_text_agree()
    ensures { (events : List Event) (a b : Reply) → HasHistoryText events
        → AnswersOrNoMemory (JudgesHistory linearizability) (from_none events) a
        → AnswersOrNoMemory (AnswersOf (check linearizability)) (input_of (history_text events)) b
        → SameOrNoMemory a b }
{}
