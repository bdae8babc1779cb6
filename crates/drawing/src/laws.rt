ghost use Rattle.drawing.specs.Laws.{LanesAreApart, BarsAreOfOperations, NoOtherBars, EffectsAreInBars};
ghost use Rattle.drawing.specs.Laws.{EffectsRise, NumbersAreOfLines, OverlappingAreDrawn, NoOthersAreDrawn};
ghost use Rattle.drawing.specs.Laws.{LinesAreDrawn, EventsAreCounted, RowsRise, InitialValuesHaveRows};
ghost use Rattle.drawing.specs.Laws.{ValuesAreCounted, OperationsHaveRows, EffectsHaveRows, InitialRowsAreFirst};
ghost use Rattle.drawing.specs.Laws.{RowsTellPrecedence, EffectRowsAreInBars, EffectRowsRise};
ghost use Rattle.drawing.specs.Laws.{ValuesHaveTheirNames, InitialValuesHaveTheirNames, LinesHaveNumbers};
ghost use Rattle.drawing.specs.Laws.{InitialNumbersAreOfLines, InitialLinesHaveNumbers, LinesAreOfHistory};

/// Laws: for a `NO` the operations that it lists are drawn, and those that overlap one of these; at distance 0 no
/// others are. The laws are the contract; the body is empty.
pub fn what_matters_is_drawn()
    ensures overlapping { OverlappingAreDrawn }
    ensures none_else { NoOthersAreDrawn }
    ensures listed { LinesAreDrawn }
{}

/// Laws: the bars in the lanes are the drawn operations, each in the lane of its thread, from its call to its return,
/// or to the end of the lane if it is pending. The laws are the contract; the body is empty.
pub fn bars_are_the_operations()
    ensures each { BarsAreOfOperations }
    ensures none_else { NoOtherBars }
{}

/// Laws: the operations of a `YES` take effect within their bars, from top to bottom in its order. The laws are the
/// contract; the body is empty.
pub fn effects_rise_within_bars()
    ensures within { EffectsAreInBars }
    ensures rise { EffectsRise }
{}

/// Laws: rows are in the order of time. First come the initial values, front first, each that matters in a row of its
/// own and all others counted in one. Then come the events by their tickets, each of a drawn operation in a row of
/// its own and all others counted in rows between. For a `YES` the effects are in its order, each within its bar. A
/// return is above a call if and only if its operation precedes the other. The laws are the contract; the body is
/// empty.
pub fn rows_stand_in_time()
    ensures rise { RowsRise }
    ensures initial { InitialValuesHaveRows }
    ensures values_counted { ValuesAreCounted }
    ensures operations { OperationsHaveRows }
    ensures counted { EventsAreCounted }
    ensures effects { EffectsHaveRows }
    ensures first { InitialRowsAreFirst }
    ensures precedence { RowsTellPrecedence }
    ensures within { EffectRowsAreInBars }
    ensures in_order { EffectRowsRise }
{}

/// Law: the lane of a thread ends before that of a higher one begins. The law is the contract; the body is empty.
pub fn lanes_stand_apart()
    ensures { LanesAreApart }
{}

/// Laws: the operations and initial values with a number are those that a claim lists, and the number is that of the
/// line. The laws are the contract; the body is empty.
pub fn numbers_are_those_of_the_claim()
    ensures of_lines { NumbersAreOfLines }
    ensures each { LinesHaveNumbers }
    ensures of_initial_lines { InitialNumbersAreOfLines }
    ensures each_initial { InitialLinesHaveNumbers }
{}

/// Law: the lines of evidence are operations and initial values of the history, so each has its bar or its row. The
/// law is the contract; the body is empty.
pub fn lines_of_evidence_are_drawn()
    ensures { LinesAreOfHistory }
{}

/// Laws: no two values have the same name, and no two initial values the same label. The laws are the contract; the
/// body is empty.
#[tactic(auto, using(crate::proofs::Naming::values_have_their_names, crate::proofs::Naming::initial_values_have_their_names))]
pub fn names_are_of_one_value()
    ensures values { ValuesHaveTheirNames }
    ensures initial { InitialValuesHaveTheirNames }
{}
