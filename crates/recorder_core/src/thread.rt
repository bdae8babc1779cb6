//! One thread of the machine.
ghost use Rattle.std.specs.Prelude.{◌≡◌, ◌+◌, ◌<◌, true, false, nat_le, min, IfOk, OnOk, OnErr};
ghost use Rattle.std.specs.Prelude.{None, Some, [], ◌∷◌, ◌++◌, length, find, take, drop};
ghost use Rattle.std.specs.Result.{result_err};
ghost use Rattle.recorder_core.specs.declared.step.StepRefused.TheVariants.{Closed, Held, NothingHeld, RingFull};
ghost use Rattle.recorder_core.specs.declared.step.StepRefused.TheVariants.{Pending as PendingRefused, NotPending};
ghost use Rattle.recorder_core.specs.declared.step.StepRefused.TheVariants.{NoAnswer, AnswerTaken, Memory};
ghost use Rattle.recorder_core.specs.Inner.Seen.{seen, none_other, when_pushing, given_answer, is_thread_done};
ghost use Rattle.recorder_core.specs.After.{is_out_of_memory};
ghost use Rattle.recorder_core.specs.Schedule.{with_last};

use crate::pending::{Pending, Request};
use crate::step::StepRefused;
use event_records::{Answer, Event, MAX_THREAD_OPERATIONS};
use std::alloc::{AllocError, Global};
use std::collections::VecDeque;
use std::marker::Model;

#[derive(Drop)]
pub(crate) struct Thread {
    closed: bool,
    asked: u64,
    pending: Option<Pending>,
    held: Option<Event>,
    ring: VecDeque<Event>,
    collected: Vec<Event>,
}

impl Model for Thread {
    ghost use Rattle.recorder_core.specs.View.{ThreadView};

    ghost Value = { ThreadView };

    ghost view = { λ a. record {
      closed = a.closed;
      asked = a.asked;
      pending = a.pending;
      held = a.held;
      ring = a.ring.items;
      collected = a.collected.items;
    } };
}

impl Thread {
    /// Makes a thread before its first step.
    pub(crate) fn new(alloc: Global) -> Thread
        ensures { result
            ≡ record { closed = false; asked = 0; pending = None; held = None; ring = []; collected = [] } }
    {
        Thread {
            closed: false,
            asked: 0,
            pending: None,
            held: None,
            ring: VecDeque::new(alloc),
            collected: Vec::new(alloc),
        }
    }

    /// Returns the number of operations asked.
    pub(crate) fn asked(&self) -> u64
        ensures { result ≡ self.now.asked }
    {
        self.asked
    }

    pub(crate) fn collected(&self) -> &[Event]
        ensures { result.now ≡ self.now.collected }
    {
        self.collected.as_slice()
    }

    /// Fails if the thread is closed.
    fn open(&self) -> Result<(), StepRefused>
        ensures { result_err result ≡ find (seen self.now none_other) (Closed ∷ []) }
    {
        if self.closed {
            return Err(StepRefused::Closed);
        }
        Ok(())
    }

    /// Fails if the thread holds an event.
    fn empty_handed(&self) -> Result<(), StepRefused>
        ensures { result_err result ≡ find (seen self.now none_other) (Held ∷ []) }
    {
        if self.held.is_some() {
            return Err(StepRefused::Held);
        }
        Ok(())
    }

    /// Fails unless the thread is open and holds no event.
    fn free(&self) -> Result<(), StepRefused>
        ensures { result_err result ≡ find (seen self.now none_other) (Closed ∷ Held ∷ []) }
    {
        self.open().and(self.empty_handed())
    }

    /// Fails unless the thread may begin an operation or be closed.
    pub(crate) fn idle(&self) -> Result<(), StepRefused>
        ensures { result_err result ≡ find (seen self.now none_other) (Closed ∷ Held ∷ PendingRefused ∷ []) }
    {
        self.free()?;
        if self.pending.is_some() {
            return Err(StepRefused::Pending);
        }
        Ok(())
    }

    /// Begins an operation with this call.
    pub(crate) fn begin(&mut self, request: Request, call: Event)
        requires { self.old.asked < MAX_THREAD_OPERATIONS }
        ensures { self.new ≡ record self.old {
          asked = self.old.asked + 1;
          pending = Some (record { request = request; answer = None });
          held = Some call;
        } }
    {
        self.asked += 1;
        self.pending = Some(Pending {
            request,
            answer: None,
        });
        self.held = Some(call);
    }

    /// Appends the held event to the ring.
    pub(crate) fn push(&mut self, capacity: usize) -> Result<(), StepRefused>
        ensures refused { let full = nat_le capacity (length self.old.ring) in result_err result
            ≡ find (seen self.old (when_pushing full (is_out_of_memory result)))
            (Closed ∷ NothingHeld ∷ RingFull ∷ Memory ∷ []) }
        ensures ok { OnOk result
            (self.new ≡ record self.old { held = None; ring = with_last self.old.ring self.old.held }) }
        ensures err { OnErr result (self.new ≡ self.old) }
    {
        self.open()?;
        let Some(event) = self.held else {
            return Err(StepRefused::NothingHeld);
        };
        if self.ring.len() >= capacity {
            return Err(StepRefused::RingFull);
        }
        if self.ring.push_back(event).is_err() {
            return Err(StepRefused::Memory);
        }
        self.held = None;
        Ok(())
    }

    /// Returns the request that has no answer yet.
    pub(crate) fn unanswered(&self) -> Result<Request, StepRefused>
        ensures refused { result_err result ≡ find (seen self.now none_other)
            (Closed ∷ NotPending ∷ AnswerTaken ∷ []) }
        ensures ok { IfOk result (λ request. self.now.pending ≡ Some (record { request = request; answer = None })) }
    {
        self.open()?;
        let Some(pending) = self.pending else {
            return Err(StepRefused::NotPending);
        };
        if pending.answer.is_some() {
            return Err(StepRefused::AnswerTaken);
        }
        Ok(pending.request)
    }

    /// Gives the pending operation its answer.
    pub(crate) fn answer(&mut self, request: Request, answer: Answer)
        ensures { self.new ≡ record self.old { pending = Some (record { request = request; answer = Some answer }) } }
    {
        self.pending = Some(Pending {
            request,
            answer: Some(answer),
        });
    }

    /// Returns the answer with which the pending operation may return.
    pub(crate) fn answered(&self) -> Result<Answer, StepRefused>
        ensures refused { result_err result
            ≡ find (seen self.now none_other) (Closed ∷ Held ∷ NotPending ∷ NoAnswer ∷ []) }
        ensures ok { IfOk result (λ answer. given_answer self.now.pending ≡ Some answer) }
    {
        self.free()?;
        let Some(pending) = self.pending else {
            return Err(StepRefused::NotPending);
        };
        pending.answer.ok_or(StepRefused::NoAnswer)
    }

    /// Ends the pending operation with this return.
    pub(crate) fn end(&mut self, ret: Event)
        ensures { self.new ≡ record self.old { pending = None; held = Some ret } }
    {
        self.pending = None;
        self.held = Some(ret);
    }

    /// Collects the first events of the ring.
    pub(crate) fn drain(&mut self, most: u32) -> Result<u32, AllocError>
        ensures count { IfOk result (λ n. n ≡ min most (length self.old.ring)) }
        ensures ok { IfOk result (λ n. self.new ≡ record self.old {
          ring = drop n self.old.ring;
          collected = self.old.collected ++ take n self.old.ring;
        }) }
        ensures err { OnErr result (self.new ≡ self.old) }
    {
        collect_first(&mut self.ring, &mut self.collected, most)
    }

    /// Closes the thread.
    pub(crate) fn close(&mut self) -> Result<(), StepRefused>
        ensures refused { result_err result ≡ find (seen self.old none_other) (Closed ∷ Held ∷ PendingRefused ∷ []) }
        ensures ok { OnOk result (self.new ≡ record self.old { closed = true }) }
        ensures err { OnErr result (self.new ≡ self.old) }
    {
        self.idle()?;
        self.closed = true;
        Ok(())
    }

    /// Returns whether no more events can come from this thread.
    pub(crate) fn is_done(&self) -> bool
        ensures { result ≡ is_thread_done self.now }
    {
        self.closed && self.ring.is_empty()
    }
}

/// Moves the first events of the ring to the end of the collected ones.
fn collect_first(
    ring: &mut VecDeque<Event>,
    collected: &mut Vec<Event>,
    most: u32,
) -> Result<u32, AllocError>
    ensures count { IfOk result (λ n. n ≡ min most (length ring.old.items)) }
    ensures ring { IfOk result (λ n. ring.new.items ≡ drop n ring.old.items) }
    ensures collected { IfOk result (λ n. collected.new.items ≡ collected.old.items ++ take n ring.old.items) }
    ensures err { OnErr result ((ring.new.items ≡ ring.old.items) × (collected.new.items ≡ collected.old.items)) }
{
    let there = ring.len();
    let count = if (most as usize) < there {
        most
    } else {
        there as u32
    };
    collected.reserve(count as usize)?;
    for _ in 0..count {
        if let Some(event) = ring.pop_front() {
            collected.push_reserved(event);
        }
    }
    Ok(count)
}
