//! Local linearizability.
ghost use Rattle.std.specs.Prelude.{◌≡◌, ◌≤◌, IfOk, flat_map, length};
ghost use Rattle.event_records.specs.declared.limits.TheConstants.{MAX_INITIAL};
ghost use Rattle.history_merge.specs.Initial.{IsCompleteFrom};
ghost use Rattle.history_merge.specs.Legal.{ArePlacesOf};
ghost use Rattle.history_merge.specs.Operations.{operations_of};
ghost use Rattle.verdicts.specs.Selection.{ArePartOf, contents_of};
ghost use Rattle.conditions.specs.declared.producer.Emptiness.{Emptiness};
ghost use Rattle.conditions.specs.Claims.{verdict_of};
ghost use Rattle.conditions.specs.Conditions.{selection_of};
ghost use Rattle.conditions.specs.Decided.{IsDecidedOf, IsLocallyDecided};
ghost use Rattle.conditions.specs.Inner.Parts.{IsPart};
ghost use Rattle.conditions.specs.Inner.Sharing.{AreSharedOut};

use crate::moved::moved_verdict;
use crate::part::{Part, part_of};
use crate::producer::{Emptiness, Producer};
use crate::ranks::{PRODUCERS, ranked};
use crate::selections::{Selections, initial_of, part_at, selections_of};
use crate::sharing::places_selected;
use event_records::OwnedSlice;
use history_merge::{History, OpId};
use parallel_finders::{OnePiece, WitnessSearch};
use std::alloc::{AllocError, Global};
use value_match::Violation;
use verdicts::{Order, Verdict, decide_by};

/// A linearization of a producer's selection.
#[derive(Debug, Drop)]
pub struct LocalOrder {
    /// The producer.
    pub producer: Producer,
    /// The operations of its selection in an order, by their places in the whole history.
    pub order: Order,
}

/// Linearizations of the selections of several producers, seen as the list of them.
pub type LocalOrders = OwnedSlice<LocalOrder>;

/// The answer whether a history is locally linearizable, with evidence.
#[derive(Debug, Drop)]
pub enum LocalVerdict {
    /// It is locally linearizable. These are linearizations of its selections, by producer.
    Yes(LocalOrders),
    /// It isn't. This is the first producer whose selection isn't linearizable, with a violation in it, which is one
    /// of the whole history too.
    No(Producer, Violation),
}

impl LocalVerdict {
    /// Returns a verdict as which the evidence can be written: `Yes` with the linearizations one after another, or
    /// the `No`.
    ///
    /// [`crate::verify_local`] accepts its claim. Takes time and memory in proportion to the linearizations.
    pub fn into_verdict(self, alloc: Global) -> Result<Verdict, AllocError>
        ensures { IfOk result (λ verdict. verdict ≡ verdict_of self) }
    {
        match self {
            LocalVerdict::Yes(orders) => {
                let joined = joined(alloc, orders.as_slice())?;
                Ok(Verdict::Yes(Order::from_vec(joined)))
            }
            LocalVerdict::No(_producer, violation) => Ok(Verdict::No(violation)),
        }
    }
}

/// Returns the places of these orders, one after another.
fn joined(alloc: Global, orders: &[LocalOrder]) -> Result<Vec<OpId>, AllocError>
    ensures { IfOk result (λ places. places.items ≡ flat_map (λ x. x.order) orders.now) }
{
    let mut places = Vec::new(alloc);
    for local in orders {
        places.extend_from_slice(local.order.as_slice())?;
    }
    Ok(places)
}

/// Returns a producer's selection.
fn part_for(
    alloc: Global,
    history: &History,
    producer: Producer,
    emptiness: Emptiness,
) -> Result<Part, AllocError>
    ensures { IfOk result (IsPart history.now (selection_of emptiness producer (contents_of history.now))) }
{
    let places = places_selected(alloc, history, emptiness, producer)?;
    let initial = initial_of(alloc, history.initial(), producer)?;
    part_of(alloc, history, initial, places)
}

/// Returns the selection of a producer: its values, and those that nobody enqueues, with all operations on them, by
/// whatever thread. It also has all empty dequeues with strict emptiness, and none with weak. Operations keep their
/// tickets, and so their order.
///
/// A thread's values are those that it enqueues, successfully or not. Takes O(n log n) time for n events, and memory
/// in proportion.
pub fn selection(
    alloc: Global,
    history: &History,
    producer: Producer,
    emptiness: Emptiness,
) -> Result<History, AllocError>
    ensures selected { IfOk result
        (λ part. contents_of part ≡ selection_of emptiness producer (contents_of history.now)) }
    ensures events { IfOk result (λ part. ArePartOf history.now.events part.events) }
    ensures complete { IfOk result (λ part. IsCompleteFrom part.initial part.events) }
{
    let Part { history, places: _ } = part_for(alloc, history, producer, emptiness)?;
    Ok(history)
}

/// Decides whether a producer's selection is linearizable. The verdict names places of the whole history.
fn decide_selection<S: WitnessSearch>(
    search: &S,
    alloc: Global,
    history: &History,
    producer: Producer,
    places: &[OpId],
) -> Result<Verdict, AllocError>
    requires search { S.is_ready search.now }
    requires places { (emptiness : Emptiness) × ArePlacesOf (operations_of history.now.events) places.now
        (selection_of emptiness producer (contents_of history.now)).operations }
    ensures { IfOk result (λ verdict. (emptiness : Emptiness)
        → ArePlacesOf (operations_of history.now.events) places.now
        (selection_of emptiness producer (contents_of history.now)).operations
        → IsDecidedOf (contents_of history.now) (selection_of emptiness producer (contents_of history.now)) verdict) }
{
    let part = part_at(alloc, history, producer, places)?;
    let verdict = decide_by(search, alloc, &part.history)?;
    moved_verdict(alloc, places, &verdict)
}

/// Decides whether each producer's selection is linearizable, up to the first that isn't.
fn decide_selections<S: WitnessSearch>(
    search: &S,
    alloc: Global,
    history: &History,
    selections: &Selections,
) -> Result<LocalVerdict, AllocError>
    requires search { S.is_ready search.now }
    requires complete { IsCompleteFrom history.now.initial history.now.events }
    requires few { length history.now.initial ≤ MAX_INITIAL }
    requires shared { (emptiness : Emptiness) × AreSharedOut emptiness
        (contents_of history.now) selections.now.used selections.now.buckets.items }
    ensures { IfOk result (λ verdict. (emptiness : Emptiness)
        → AreSharedOut emptiness (contents_of history.now) selections.now.used selections.now.buckets.items
        → IsLocallyDecided emptiness (contents_of history.now) verdict) }
{
    let mut orders = Vec::new(alloc);
    for rank in 0..PRODUCERS {
        if selections.used[rank] {
            let producer = ranked(rank);
            let places = selections.buckets[rank].as_slice();
            match decide_selection(search, alloc, history, producer, places)? {
                Verdict::Yes(order) => orders.push(LocalOrder { producer, order })?,
                Verdict::No(violation) => return Ok(LocalVerdict::No(producer, violation)),
            }
        }
    }
    Ok(LocalVerdict::Yes(LocalOrders::from_vec(orders)))
}

/// Decides whether a history is locally linearizable (Haas, Henzinger, Holzer, Kirsch, Lippautz, Payer, Sezgin,
/// Sokolova and Veith, CONCUR 2016): whether each producer's [`selection`] is linearizable.
///
/// `Yes` has a linearization for each producer of the history: first for the initial values, even if there are none,
/// and then for each thread that enqueues a value, by number. `No` has the first of these whose selection isn't
/// linearizable, with the violation that [`verdicts::decide`] chooses in it. Both name places of the whole history.
/// The violation is one of the whole history, so [`verdicts::verify`] accepts its claim.
///
/// A dequeue of a value that nobody enqueued is in each selection, so the initial values' producer has it.
///
/// The operations are shared out in one pass. Takes O((n + p e) log n) time for n events, p producers and e empty
/// dequeues, and memory in proportion to n + p e.
pub fn decide_local(
    alloc: Global,
    history: &History,
    emptiness: Emptiness,
) -> Result<LocalVerdict, AllocError>
    ensures { IfOk result (IsLocallyDecided emptiness (contents_of history.now)) }
{
    decide_local_by(&OnePiece, alloc, history, emptiness)
}

/// Returns what [`decide_local`] returns, with this search for covers.
pub fn decide_local_by<S: WitnessSearch>(
    search: &S,
    alloc: Global,
    history: &History,
    emptiness: Emptiness,
) -> Result<LocalVerdict, AllocError>
    requires { S.is_ready search.now }
    ensures { IfOk result (IsLocallyDecided emptiness (contents_of history.now)) }
{
    let selections = selections_of(alloc, history, emptiness)?;
    // Shows the proof that the history is complete and within the limits, as the contracts of these calls say.
    let _initial = history.initial();
    decide_selections(search, alloc, history, &selections)
}
