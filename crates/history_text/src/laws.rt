//! Laws of texts, as contracts of functions that do nothing when they run.
ghost use Rattle.std.specs.Prelude.{◌≡◌, ◌≤◌, ◌++◌, ℕ, Bool, true, List, [], length};
ghost use Rattle.event_records.specs.declared.limits.TheConstants.{MAX_CLAIM_LINES};
ghost use Rattle.history_merge.specs.Operations.{operations_of};
ghost use Rattle.claims.specs.declared.claimed.Claimed.{Claimed};
ghost use Rattle.claims.specs.declared.verdict.Verdict.{Verdict};
ghost use Rattle.text_lines.specs.declared.fault.TextFault.{TextFault};
ghost use Rattle.history_text.specs.declared.schedule.Schedule.{Schedule};
ghost use Rattle.history_text.specs.Verdicts.{claim_of, verdict_places, verdict_text};
ghost use Rattle.history_text.specs.Claims.{HasVerdictText, IsVerdictTextFault};
ghost use Rattle.history_text.specs.Versions.{HasText, HistoryText, text_of, IsTextFault};
ghost use Rattle.history_text.specs.Schedules.{HasScheduleText, schedule_text, IsScheduleTextFault};
ghost use Rattle.history_text.specs.declared.pending_text.PendingText.{PendingText};
ghost use Rattle.history_text.specs.Pending.{HasPendingText, IsCutText, IsPendingTextFault, as_pending, pending_text};
ghost use Rattle.text_lines.specs.Input.{Ahead, Ending, EndOfInput};

/// Proves that the text of a history has only one version, one list of initial values, and one list of events.
pub fn a_text_has_one_history()
    ensures { (first second : HistoryText) → HasText first → HasText second
        → text_of first ≡ text_of second → first ≡ second }
{}

/// Proves that no text of a history is a proper prefix of another, whatever their versions.
pub fn no_text_begins_another()
    ensures { (first second : HistoryText) (more : List ℕ) → HasText first → HasText second
        → text_of first ++ more ≡ text_of second → more ≡ [] }
{}

/// Proves that a text is the text of only one schedule.
pub fn a_text_has_one_schedule()
    ensures { (first second : Schedule) → HasScheduleText first → HasScheduleText second
        → schedule_text first ≡ schedule_text second → first ≡ second }
{}

/// Proves that no text of a schedule is a proper prefix of another.
pub fn no_schedule_text_begins_another()
    ensures { (first second : Schedule) (more : List ℕ) → HasScheduleText first → HasScheduleText second
        → schedule_text first ++ more ≡ schedule_text second → more ≡ [] }
{}

/// Proves that a text is the text of only one claim.
#[tactic(auto, using(crate::proofs::OneVerdict::texts_agree))]
pub fn a_text_has_one_claim()
    ensures { (first second : Claimed) → HasVerdictText first → HasVerdictText second
        → verdict_text first ≡ verdict_text second → first ≡ second }
{}

/// Proves that if a history has a text, the claim of a verdict on it has one too, unless it has more lines than a
/// text may have.
///
/// So `read_verdict` reads back what `write_verdict` wrote.
#[tactic(auto, using(crate::proofs::WrittenClaims::claim_has_text))]
pub fn a_claim_on_a_text_has_a_text()
    ensures { (text : HistoryText) (verdict : Verdict) → HasText text
        → length (verdict_places verdict) ≤ MAX_CLAIM_LINES
        → HasVerdictText (claim_of text.initial (operations_of text.events) verdict) }
{}

/// Proves that an input has only one first fault, as the text of a history, of a schedule or of a verdict.
pub fn one_first_fault()
    ensures history { (lines : ℕ) (ending : Ending) (bytes : List ℕ) (f g : TextFault)
        → IsTextFault lines ending bytes f → IsTextFault lines ending bytes g → f ≡ g }
    ensures schedule { (lines : ℕ) (ending : Ending) (bytes : List ℕ) (f g : TextFault)
        → IsScheduleTextFault lines ending bytes f
        → IsScheduleTextFault lines ending bytes g → f ≡ g }
    ensures verdict { (lines : ℕ) (ending : Ending) (bytes : List ℕ) (f g : TextFault)
        → IsVerdictTextFault lines ending bytes f
        → IsVerdictTextFault lines ending bytes g → f ≡ g }
{}

/// Proves that an input has no fault if it begins with a text; for a verdict, if the text is all of the input. So
/// `read_history`, `read_schedule` and `read_verdict` return a fault if and only if no text is there or memory runs
/// out.
pub fn a_text_has_no_fault()
    ensures history { (lines : ℕ) (ending : Ending) (text : HistoryText) (rest : List ℕ)
        (fault : TextFault) → HasText text
        → IsTextFault lines ending (text_of text ++ rest) fault → ⊥ }
    ensures schedule { (lines : ℕ) (ending : Ending) (schedule : Schedule) (rest : List ℕ) (fault : TextFault)
        → HasScheduleText schedule
        → IsScheduleTextFault lines ending (schedule_text schedule ++ rest) fault → ⊥ }
    ensures verdict { (lines : ℕ) (claimed : Claimed) (fault : TextFault) → HasVerdictText claimed
        → IsVerdictTextFault lines EndOfInput (verdict_text claimed) fault → ⊥ }
{}

/// Proves that an input of pending calls is read in only one way. A text has only one content, and no text is a
/// proper prefix of another. A text that is cut off has only one content too, and then the input begins with no whole
/// text. An input has only one first fault, and none if it is read.
///
/// So `read_pending` returns a fault if and only if the input begins with no text, whole or cut off, or memory runs
/// out.
pub fn one_pending_text()
    ensures whole { (first second : PendingText) (more : List ℕ) → HasPendingText first → HasPendingText second
        → pending_text first ++ more ≡ pending_text second → (first ≡ second) × (more ≡ []) }
    ensures cut { (lines : ℕ) (input : Ahead) (first second : PendingText) → IsCutText lines input first
        → IsCutText lines input second
        → first ≡ second }
    ensures whole_or_cut { (lines : ℕ) (input : Ahead) (first second : PendingText) (rest : List ℕ)
        → HasPendingText first
        → input.bytes ≡ pending_text first ++ rest → IsCutText lines input second → ⊥ }
    ensures whole_or_fault { (takes_cut : Bool) (lines : ℕ) (ending : Ending) (text : PendingText)
        (rest : List ℕ) (fault : TextFault)
        → HasPendingText text → IsPendingTextFault takes_cut lines ending (pending_text text ++ rest) fault → ⊥ }
    ensures cut_or_fault { (lines : ℕ) (input : Ahead) (text : PendingText) (fault : TextFault)
        → IsCutText lines input text
        → IsPendingTextFault true lines input.ending input.bytes fault → ⊥ }
    ensures fault { (takes_cut : Bool) (lines : ℕ) (ending : Ending) (bytes : List ℕ) (f g : TextFault)
        → IsPendingTextFault takes_cut lines ending bytes f
        → IsPendingTextFault takes_cut lines ending bytes g → f ≡ g }
{}

/// Proves that the text of a history, read as one whose calls may be pending, is read as itself.
pub fn a_history_text_is_read_as_itself()
    ensures { (text : HistoryText) → HasText text
        → HasPendingText (as_pending text) × (pending_text (as_pending text) ≡ text_of text) }
{}
