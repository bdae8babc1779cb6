// Queues with faults: each is another list under the one lock of `Locked`.
ghost use Rattle.std.specs.Prelude.{◌≡◌, ◌+◌, ◌%◌, ◌^◌, ◌↔◌, Bool, IsTrue, List, Option, ℕ};
ghost use Rattle.queue_interface.specs.Faulty.{CountedView};

use crate::locked::{Fifo, Locked, ValueList};
use std::alloc::Global;
use std::marker::{Model, PhantomData};

// A counter of calls that finds each fourth one.
#[derive(Drop)]
struct Fourths {
    count: u64,
}

impl Fourths {
    fn new() -> Fourths
        ensures { result.count ≡ 0 }
    {
        Fourths { count: 0 }
    }

    // Counts one more. Returns true at the 4th, the 8th and so on.
    fn is_next_fourth(&mut self) -> bool
        ensures count { self.new.count ≡ (self.old.count + 1) % 2 ^ 64 }
        ensures fourth { IsTrue result ↔ (self.new.count % 4 ≡ 0) }
    {
        self.count = self.count.wrapping_add(1);
        self.count % 4 == 0
    }
}

/// Values that come out last in, first out. Contracts see them as a list.
#[derive(Drop)]
pub struct Stack {
    values: Fifo,
}

impl Model for Stack {
    ghost Value = { List ℕ };

    ghost view = { λ s. s.values };
}

impl ValueList for Stack {
    ghost use Rattle.std.specs.Prelude.{◌≡◌, ◌++◌, [], IfNone};
    ghost use Rattle.std.specs.Option.{option_to_list};
    ghost use Rattle.queue_interface.specs.Faulty.{PutsLast};

    fn empty(alloc: Global) -> Stack
        ensures { result ≡ [] }
    {
        Stack {
            values: Fifo::empty(alloc),
        }
    }

    fn put(&mut self, value: u64) -> bool
        ensures last { PutsLast self.old value result self.new }
    {
        self.values.put(value)
    }

    fn preload(&mut self, value: u64) -> bool
        ensures last { PutsLast self.old value result self.new }
    {
        self.put(value)
    }

    fn take(&mut self) -> Option<u64>
        ensures last { self.old ≡ self.new ++ option_to_list result }
        ensures none { IfNone result (self.old ≡ []) }
    {
        self.values.take_last()
    }
}

/// A queue that dequeues the last value first.
pub type Lifo<R> = Locked<Stack, R>;

/// Values that come out first in, first out, and a count of calls.
#[derive(Drop)]
pub struct CountedList {
    fifo: Fifo,
    calls: Fourths,
}

impl Model for CountedList {
    ghost Value = { CountedView };

    ghost view = { λ l. record { values = l.fifo; count = l.calls.count } };
}

impl CountedList {
    ghost use Rattle.std.specs.Prelude.{◌≡◌, []};

    fn empty(alloc: Global) -> CountedList
        ensures values { result.values ≡ [] }
        ensures count { result.count ≡ 0 }
    {
        CountedList {
            fifo: Fifo::empty(alloc),
            calls: Fourths::new(),
        }
    }
}

/// The fault of a list: what goes wrong in each fourth call that it counts.
pub trait Misstep: Send {
    ghost puts: { CountedView → ℕ → Bool → CountedView → Type 0 };

    ghost takes: { CountedView → Option ℕ → CountedView → Type 0 };

    /// Puts a value in as [`ValueList::put`] does, or claims so.
    fn put(list: &mut CountedList, value: u64) -> bool
        ensures put { puts list.old value result list.new };

    /// Takes a value out as [`ValueList::take`] does, or claims so.
    fn take(list: &mut CountedList) -> Option<u64>
        ensures taken { takes list.old result list.new };
}

/// Values that come out first in, first out, but for a fault in each fourth call.
#[derive(Drop)]
pub struct FaultyList<M: Misstep> {
    list: CountedList,
    misstep: PhantomData<M>,
}

impl<M: Misstep> Model for FaultyList<M> {
    ghost Value = { CountedView };

    ghost view = { λ l. l.list };
}

impl<M: Misstep> ValueList for FaultyList<M> {
    ghost use Rattle.std.specs.Prelude.{◌≡◌, []};
    ghost use Rattle.queue_interface.specs.Faulty.{PutsLast};

    fn empty(alloc: Global) -> FaultyList<M>
        ensures values { result.values ≡ [] }
        ensures count { result.count ≡ 0 }
    {
        FaultyList {
            list: CountedList::empty(alloc),
            misstep: PhantomData,
        }
    }

    fn put(&mut self, value: u64) -> bool
        ensures put { M.puts self.old value result self.new }
    {
        M::put(&mut self.list, value)
    }

    fn preload(&mut self, value: u64) -> bool
        ensures last { PutsLast self.old.values value result self.new.values }
        ensures uncounted { self.new.count ≡ self.old.count }
    {
        // This call isn't counted.
        self.list.fifo.put(value)
    }

    fn take(&mut self) -> Option<u64>
        ensures taken { M.takes self.old result self.new }
    {
        M::take(&mut self.list)
    }
}

/// The fault of a list whose 4th, 8th, .. found value also stays in its place, and so comes out again.
#[derive(Drop)]
pub struct Doubles;

impl Misstep for Doubles {
    ghost use Rattle.queue_interface.specs.Faulty.{PutsUncounted, TakesOrDoubles};

    ghost puts = { PutsUncounted };

    ghost takes = { TakesOrDoubles };

    fn put(list: &mut CountedList, value: u64) -> bool {
        list.fifo.put(value)
    }

    fn take(list: &mut CountedList) -> Option<u64> {
        let first = list.fifo.first()?;
        if list.calls.is_next_fourth() {
            Some(first)
        } else {
            list.fifo.take()
        }
    }
}

/// Values of which each 4th that a dequeue finds also stays in its place.
pub type DoublingList = FaultyList<Doubles>;

/// A queue that dequeues each 4th value twice.
pub type Doubling<R> = Locked<DoublingList, R>;

/// The fault of a list whose 4th, 8th, .. dequeue returns none, without looking.
#[derive(Drop)]
pub struct Shies;

impl Misstep for Shies {
    ghost use Rattle.queue_interface.specs.Faulty.{PutsUncounted, TakesOrShies};

    ghost puts = { PutsUncounted };

    ghost takes = { TakesOrShies };

    fn put(list: &mut CountedList, value: u64) -> bool {
        list.fifo.put(value)
    }

    fn take(list: &mut CountedList) -> Option<u64> {
        if list.calls.is_next_fourth() {
            None
        } else {
            list.fifo.take()
        }
    }
}

/// Values of which each 4th dequeue gets none.
pub type ShyList = FaultyList<Shies>;

/// A queue that answers each 4th dequeue with empty.
pub type Shy<R> = Locked<ShyList, R>;

/// The fault of a list that takes its 4th, 8th, .. value and loses it.
#[derive(Drop)]
pub struct Loses;

impl Misstep for Loses {
    ghost use Rattle.queue_interface.specs.Faulty.{PutsOrLoses, TakesUncounted};

    ghost puts = { PutsOrLoses };

    ghost takes = { TakesUncounted };

    fn put(list: &mut CountedList, value: u64) -> bool {
        list.calls.is_next_fourth() || list.fifo.put(value)
    }

    fn take(list: &mut CountedList) -> Option<u64> {
        list.fifo.take()
    }
}

/// Values of which each 4th is lost.
pub type LosingList = FaultyList<Loses>;

/// A queue that loses each 4th value, and answers that it took it.
pub type Losing<R> = Locked<LosingList, R>;

// The first value that an `InventingList` makes up.
const FIRST_INVENTION: u64 = 1 << 63;

/// Values of which each 4th dequeue gets one that is made up: 2^63 and the number of those made up before.
#[derive(Drop)]
pub struct InventingList {
    list: CountedList,
    inventions: u64,
}

impl Model for InventingList {
    ghost use Rattle.queue_interface.specs.Faulty.{InventingView};

    ghost Value = { InventingView };

    ghost view = { λ l. record { list = l.list; invented = l.inventions } };
}

impl ValueList for InventingList {
    ghost use Rattle.std.specs.Prelude.{◌≡◌, [], Some};
    ghost use Rattle.queue_interface.specs.Faulty.{CountsCall, IsFourth, PutsUncounted, TakesFirst, invention, next};

    fn empty(alloc: Global) -> InventingList
        ensures values { result.list.values ≡ [] }
        ensures count { result.list.count ≡ 0 }
        ensures invented { result.invented ≡ 0 }
    {
        InventingList {
            list: CountedList::empty(alloc),
            inventions: 0,
        }
    }

    fn put(&mut self, value: u64) -> bool
        ensures last { PutsUncounted self.old.list value result self.new.list }
        ensures none { self.new.invented ≡ self.old.invented }
    {
        self.list.fifo.put(value)
    }

    fn preload(&mut self, value: u64) -> bool
        ensures last { PutsUncounted self.old.list value result self.new.list }
        ensures none { self.new.invented ≡ self.old.invented }
    {
        // No value is made up here.
        self.put(value)
    }

    fn take(&mut self) -> Option<u64>
        ensures counted { CountsCall self.old.list self.new.list }
        ensures invented { IsFourth self.new.list
            → (result ≡ Some (invention self.old.invented)) × (self.new.invented ≡ next self.old.invented) }
        ensures kept { IsFourth self.new.list → self.new.list.values ≡ self.old.list.values }
        ensures first { ¬ (IsFourth self.new.list) → TakesFirst self.old.list.values result self.new.list.values }
    {
        if !self.list.calls.is_next_fourth() {
            return self.list.fifo.take();
        }
        let invention = FIRST_INVENTION.wrapping_add(self.inventions);
        self.inventions = self.inventions.wrapping_add(1);
        Some(invention)
    }
}

/// A queue whose every 4th dequeue returns a value that nobody enqueued.
pub type Inventing<R> = Locked<InventingList, R>;
