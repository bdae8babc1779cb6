//! Selections of a history.
ghost use Rattle.std.specs.Prelude.{◌≤◌, ℕ, Bool, IfOk, vec_len};
ghost use Rattle.event_records.specs.declared.limits.TheConstants.{MAX_INITIAL};
ghost use Rattle.verdicts.specs.Selection.{contents_of, select};
ghost use Rattle.conditions.specs.Inner.Parts.{AreSelected, IsPart};

use history_merge::{History, OpId, part_at};
use std::alloc::{AllocError, Global};

/// A selection of a history, with the places of its operations in the whole.
#[derive(Drop)]
pub(crate) struct Part {
    pub(crate) history: History,
    pub(crate) places: Vec<OpId>,
}

/// Returns the selection of these initial values and of the operations at these places.
pub(crate) fn part_of(
    alloc: Global,
    history: &History,
    initial: Vec<u64>,
    places: Vec<OpId>,
) -> Result<Part, AllocError>
    requires few_initial { vec_len initial ≤ MAX_INITIAL }
    requires selected { (values : ℕ → Bool) × (empties : ℕ → Bool)
        × AreSelected (contents_of history.now) values empties initial.items places.items }
    ensures { IfOk result (λ part. (values empties : ℕ → Bool)
        → AreSelected (contents_of history.now) values empties initial.items places.items
        → IsPart history.now (select values empties (contents_of history.now)) part) }
{
    // Shows the proof that the history is complete and within the limits, as the contract of this call says.
    let _operations = history.operations();
    let history = part_at(alloc, history, initial, places.as_slice())?;
    Ok(Part { history, places })
}
