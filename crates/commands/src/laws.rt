//! Laws of the program's answers. The functions do nothing: the law is the contract.
ghost use Rattle.std.specs.Prelude.{◌≡◌, ◌≤◌, Bool, List};
ghost use Rattle.history_merge.specs.declared.operation.Operation.{Operation};
ghost use Rattle.event_records.specs.declared.event.Event.{Event};
ghost use Rattle.event_records.specs.declared.limits.TheConstants.{MAX_THREADS};
ghost use Rattle.recorder_core.specs.Setting.{Setting};
ghost use Rattle.recorder_core.specs.Schedule.{Attempt};
ghost use Rattle.recorder_core.specs.Laws.{IsDone};
ghost use Rattle.recorder_core.specs.Replay.{IsHonest};
ghost use Rattle.simulation.specs.Simulations.{rejections};
ghost use Rattle.claims.specs.declared.claimed.Claimed.TheVariants.{Yes};
ghost use Rattle.command_words.specs.declared.options.Condition.{Condition};
ghost use Rattle.command_words.specs.declared.options.DrawOptions.{DrawOptions};
ghost use Rattle.command_words.specs.Commands.{check, shrink, verify, draw, convert, complete, stats, sim};
ghost use Rattle.command_words.specs.Options.{Settings};
ghost use Rattle.commands.specs.Answers.{Reply, ShowsNoViolation, played};
ghost use Rattle.commands.specs.Evidence.{CompletedIsDecided, CompletedIsHistory, CompletedIsKept};
ghost use Rattle.commands.specs.Evidence.{CheckedIsValid, CheckedIsValidUnder, RefutedIsValid, ConvertedIsChecked};
ghost use Rattle.commands.specs.Evidence.{ConvertedIsCounted, ConvertedIsKept, ConvertedIsSameHistory};
ghost use Rattle.commands.specs.Evidence.{ConvertedIsVerified, DrawnAsChecked, HasOneAnswer, ShrunkIsChecked};
ghost use Rattle.commands.specs.Evidence.{ShrunkIsValid};
ghost use Rattle.commands.specs.Evidence.{SimulatedIsChecked, SimulatedIsValid, StressedIsChecked, StressedIsValid};
ghost use Rattle.commands.specs.Evidence.{StressedIsValidUnder};
ghost use Rattle.commands.specs.Judging.{SimulatesIn};
ghost use Rattle.commands.specs.Stressing.{IsProvedName, StressesUnshelved};

/// No false alarm: the answer to an honest schedule that is done is `YES`.
#[tactic(auto, using(crate::proofs::OneAnswer::honest_gets_a_yes))]
pub fn honest_schedules_get_a_yes()
    ensures { (setting : Setting) (schedule : List Attempt) (answer : Reply)
        → setting.threads ≤ MAX_THREADS → IsHonest setting schedule → IsDone setting schedule
        → SimulatesIn setting schedule answer
        → (events : List Event) × (order : List Operation)
        × (answer ≡ played (rejections setting schedule) events (Yes order)) }
{}

/// An input has one answer: two answers to one input that the contract of a reading command allows are the same, or
/// one of them says that memory ran out.
pub fn one_answer()
    ensures check { (condition : Condition) → HasOneAnswer (check condition) }
    ensures shrink { (condition : Condition) → HasOneAnswer (shrink condition) }
    ensures verify { (condition : Condition) → HasOneAnswer (verify condition) }
    ensures draw { (options : DrawOptions) → HasOneAnswer (draw options) }
    ensures convert { HasOneAnswer convert }
    ensures complete { (takes_cut : Bool) → HasOneAnswer (complete takes_cut) }
    ensures stats { (overtakes : Bool) → HasOneAnswer (stats overtakes) }
    ensures sim { HasOneAnswer sim }
{}

/// No false alarm of threads: if no queue of the shelf has the name of a proved queue, the answer of `stress` for that
/// name shows no violation.
#[tactic(auto, using(crate::proofs::Planned::no_violation))]
pub fn runs_of_proved_queues_are_linearizable()
    ensures { (settings : Settings) (answer : Reply) → IsProvedName settings.queue → StressesUnshelved settings answer
        → ShowsNoViolation answer }
{}

/// Every answer is evidence. `verify` answers an input, followed by the verdict that `check` writes of it, with
/// `VALID`; so it does under each condition, if the verdict has no more lines than it reads, and a `NO` under any
/// condition is evidence without one. What `shrink` writes of a history that doesn't meet a condition is the text of a
/// history and of its verdict: `verify` answers it with `VALID`, and `check` answers the history with that same
/// verdict. `draw` decides a history as `check` does: it answers a history on its own as it answers the history
/// followed by the verdict of `check`. Or memory runs out.
///
/// What `stress` and `sim` write is the text of a history and of its verdict, if the numbers of the history are in the
/// ranges of the text, as those of Rust's types and of a schedule are: `check` answers the history with that very
/// verdict, and `verify` answers both with `VALID`.
pub fn every_answer_is_evidence()
    ensures checked { CheckedIsValid }
    ensures checked_under { (condition : Condition) → CheckedIsValidUnder condition }
    ensures refuted { (condition : Condition) → RefutedIsValid condition }
    ensures shrunk { (condition : Condition) → ShrunkIsValid condition }
    ensures checked_again { (condition : Condition) → ShrunkIsChecked condition }
    ensures drawn { (options : DrawOptions) → DrawnAsChecked options }
    ensures stressed_again { (condition : Condition) → StressedIsChecked condition }
    ensures stressed { StressedIsValid }
    ensures stressed_under { (condition : Condition) → StressedIsValidUnder condition }
    ensures simulated_again { SimulatedIsChecked }
    ensures simulated { SimulatedIsValid }
{}

/// What `complete` writes is the text of a complete history, which every other command reads. `check` answers it with
/// a `YES` if and only if some completion of the history that was read has a linearization. A complete history comes
/// out as it is. Or memory runs out.
pub fn completion_decides()
    ensures history { (takes_cut : Bool) → CompletedIsHistory takes_cut }
    ensures decided { (takes_cut : Bool) → CompletedIsDecided takes_cut }
    ensures kept { (takes_cut : Bool) → CompletedIsKept takes_cut }
{}

/// The text of a history and what `convert` writes of it stand for one history: `check` answers both alike, and so
/// does `stats`; `verify` answers both alike with a verdict after them; or memory runs out. A text of version 2 comes
/// out as it is.
pub fn conversion_keeps_answers()
    ensures same_history { ConvertedIsSameHistory }
    ensures kept { ConvertedIsKept }
    ensures checked { (condition : Condition) → ConvertedIsChecked condition }
    ensures counted { (overtakes : Bool) → ConvertedIsCounted overtakes }
    ensures verified { (condition : Condition) → ConvertedIsVerified condition }
{}
