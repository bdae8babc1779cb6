//! Laws of the conditions, as contracts of functions that do nothing when they run.
ghost use Rattle.conditions.specs.ClaimLaws.{FirstRefutedIsOne, LocalEvidenceIsTrueClaim, LocalVerdictIsOne};
ghost use Rattle.conditions.specs.ClaimLaws.{RefutedIsRefutedInTheWhole, TrueLocalClaimDecides};
ghost use Rattle.conditions.specs.ClaimLaws.{TrueWeakClaimDecides, WeakEvidenceIsTrueClaim, WeakVerdictIsOne};
ghost use Rattle.conditions.specs.Laws.{BothAreWeakest, ConditionsAreWeaker, SelectionsStayLinearizable};
ghost use Rattle.conditions.specs.Laws.{StaysLocallyMinimal, StaysWeaklyMinimal, ViolationsAreOfTheWhole};

/// Proves that lines which show a violation in a selection of a history show it in the whole history.
pub fn violations_are_of_the_whole()
    ensures { ViolationsAreOfTheWhole }
{}

/// Proves that each selection of a linearizable history is linearizable, so that the history meets each weaker
/// condition. Also proves that local linearizability with weak emptiness is weaker than with strict emptiness, and
/// weaker than weak emptiness alone.
pub fn conditions_are_weaker()
    ensures selections { SelectionsStayLinearizable }
    ensures conditions { ConditionsAreWeaker }
    ensures both { BothAreWeakest }
{}

/// Proves that a minimal part of a history without its empty dequeues, as [`verdicts::shrink`] returns one, is
/// minimal for weak emptiness, and that a minimal part of a producer's selection is minimal for local
/// linearizability.
pub fn shrunk_selections_are_minimal()
    ensures weak { StaysWeaklyMinimal }
    ensures local { StaysLocallyMinimal }
{}

/// Proves that the claim of a local verdict is evidence under local linearizability, so [`crate::verify_local`]
/// accepts it, and that a `NO` that it accepts is evidence in the whole history, so [`verdicts::verify`] accepts it.
/// Proves the same for weak emptiness.
pub fn evidence_is_a_true_local_claim()
    ensures local { LocalEvidenceIsTrueClaim }
    ensures weak { WeakEvidenceIsTrueClaim }
    ensures refuted { RefutedIsRefutedInTheWhole }
{}

/// Proves that a history with a `YES` that is evidence under a weaker condition meets the condition, and that one
/// with such a `NO` doesn't.
pub fn true_claims_decide_conditions()
    ensures local { TrueLocalClaimDecides }
    ensures weak { TrueWeakClaimDecides }
{}

/// Proves that the claims of two verdicts on one history under one condition are equal.
pub fn one_verdict_under_a_condition()
    ensures local { LocalVerdictIsOne }
    ensures weak { WeakVerdictIsOne }
    ensures refuted { FirstRefutedIsOne }
{}
