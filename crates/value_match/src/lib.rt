//! Enqueues matched with dequeues by value, and the violations that this finds.
#![tactic(auto)]

mod accepted;
mod call_table;
mod fresh;
mod history_places;
mod life;
mod matching;
mod maybe_place;
mod others;
mod places;
mod presorting;
mod sources;
mod table;
mod takers;
mod values;
mod violation;

pub use accepted::Values;
pub use call_table::CallTable;
pub use life::{Life, MatchedValue, NEVER, Source, ticket_of};
pub use matching::{MAX_MATCHED, Matched, Matching};
pub use places::Places;
pub use presorting::presort;
pub use table::{Front, LongestTable, fronts_of};
pub use values::match_values;
pub use violation::{Cover, CoverStep, Violation};
