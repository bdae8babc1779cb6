//! The machine of a recorder.
ghost use Rattle.std.specs.Prelude.{◌≡◌, ℕ, ◌+◌, ◌≤◌, ◌<◌, ◌↔◌, IfOk, OnOk, OnErr, IsTrue, [], ◌∷◌, List, Some};
ghost use Rattle.std.specs.Prelude.{length};
ghost use Rattle.std.specs.List.{list_all};
ghost use Rattle.recorder_core.specs.declared.step.Step.TheVariants.{Push, Effect, Say, Ret, Drain, Close};
ghost use Rattle.recorder_core.specs.Setting.{Setting};
ghost use Rattle.recorder_core.specs.Inner.Asked.{ask_of, asked_for, call_of, is_limited};
ghost use Rattle.recorder_core.specs.Inner.Seen.{is_thread_done};
ghost use Rattle.event_records.specs.Question.{return_what};
ghost use Rattle.recorder_core.specs.Schedule.{Attempt, answer_to, queue_answer, queue_after, is_wrong};

use crate::pending::Request;
use crate::step::{Done, Step, StepRefused};
use crate::thread::Thread;
use event_records::{
    Answer, Event, Kind, MAX_OPERATIONS, MAX_RING, MAX_THREAD_OPERATIONS, MAX_THREADS, MIN_RING,
    NAMES_OF_A_THREAD, What,
};
use std::alloc::{AllocError, Global};
use std::collections::VecDeque;
use std::marker::Model;

/// The state of a recorder after a list of steps.
///
/// For each thread it holds whether the thread is closed, the number of operations asked, the pending one, the held
/// event, the events in its ring and those collected. For all threads together it holds the next ticket and the
/// queue, a list of values, front first. The memory is in proportion to what is held.
#[derive(Drop)]
pub struct Machine {
    capacity: usize,
    threads: Vec<Thread>,
    asked: u64,
    next_ticket: u64,
    queue: VecDeque<u64>,
}

impl Model for Machine {
    ghost use Rattle.recorder_core.specs.View.{MachineView};
    ghost use Rattle.recorder_core.specs.After.{IsReachable};

    ghost Value = { MachineView };

    ghost view = { λ a. record {
      capacity = a.capacity;
      threads = a.threads.items;
      asked = a.asked;
      next_ticket = a.next_ticket;
      queue = a.queue.items;
    } };

    ghost invariant = { λ a. IsReachable (record {
      capacity = a.capacity;
      threads = a.threads.items;
      asked = a.asked;
      next_ticket = a.next_ticket;
      queue = a.queue.items;
    }) };
}

impl Machine {
    ghost use Rattle.recorder_core.specs.After.{IsAfter, attempt_at};
    ghost use Rattle.recorder_core.specs.Initial.{AreInitialNames};
    ghost use Rattle.recorder_core.specs.Inner.After.{TakesStep};
    ghost use Rattle.recorder_core.specs.Laws.{collected_in, IsDone};

    /// Makes a machine before its first step, with an empty queue and threads 0, 1, 2 and so on, each with a ring of
    /// this capacity.
    ///
    /// Rings take memory as they are filled, and not here.
    pub fn new(alloc: Global, threads: usize, ring: usize) -> Result<Machine, AllocError>
        requires threads { (1 ≤ threads) × (threads ≤ MAX_THREADS) }
        requires ring { (MIN_RING ≤ ring) × (ring ≤ MAX_RING) }
        ensures { IfOk result
            (λ machine. IsAfter (record { threads = threads; ring = ring; initial = [] }) machine []) }
    {
        Machine::with_initial(alloc, threads, ring, Vec::new(alloc))
    }

    /// Makes a machine whose queue holds these values, front first. They are above the names of the threads' own
    /// values, so no operation enqueues one of them; [`are_initial_names`](crate::are_initial_names) checks this.
    pub fn with_initial(
        alloc: Global,
        threads: usize,
        ring: usize,
        initial: Vec<u64>,
    ) -> Result<Machine, AllocError>
        requires threads { (1 ≤ threads) × (threads ≤ MAX_THREADS) }
        requires ring { (MIN_RING ≤ ring) × (ring ≤ MAX_RING) }
        requires initial { AreInitialNames initial.items }
        ensures { IfOk result
            (λ machine. IsAfter (record { threads = threads; ring = ring; initial = initial.items }) machine []) }
    {
        let mut list = Vec::with_capacity(alloc, threads)?;
        for _ in 0..threads {
            list.push(Thread::new(alloc))?;
        }
        Ok(Machine {
            capacity: ring,
            threads: list,
            asked: 0,
            next_ticket: 0,
            queue: VecDeque::from(initial),
        })
    }

    /// Takes one step. A refused step changes nothing.
    ///
    /// A drain takes time in proportion to the events that it collects, every other step amortised constant time.
    pub fn step(&mut self, step: Step) -> Result<Done, StepRefused>
        // Whichever schedule led to this machine, the result is what that schedule says. `Memory` depends on the
        // result: growth fails at an attempt if and only if the result says so.
        ensures answered { (setting : Setting) (schedule : List Attempt) → IsAfter setting self.old schedule
            → result ≡ answer_to setting schedule (attempt_at step result) }

        // The machine is then as after that schedule with this attempt added.
        ensures goes_on { (setting : Setting) (schedule : List Attempt) → IsAfter setting self.old schedule
            → IsAfter setting self.new (attempt_at step result ∷ schedule) }
        ensures refused { OnErr result (self.new ≡ self.old) }
        ensures threads { length self.new.threads ≡ length self.old.threads }
    {
        self.take(step)
    }

    fn take(&mut self, step: Step) -> Result<Done, StepRefused>
        ensures { TakesStep self.old step result self.new }
    {
        match step {
            Step::AskEnq(thread) => self.ask(thread, Kind::Enq),
            Step::AskDeq(thread) => self.ask(thread, Kind::Deq),
            Step::Push(thread) => self.push(thread),
            Step::Effect(thread) => self.effect(thread),
            Step::Say(thread, answer) => self.say(thread, answer),
            Step::Ret(thread) => self.ret(thread),
            Step::Drain(thread, most) => self.drain(thread, most),
            Step::Close(thread) => self.close(thread),
        }
    }

    fn ask(&mut self, number: u8, kind: Kind) -> Result<Done, StepRefused>
        ensures { TakesStep self.old (ask_of kind number) result self.new }
    {
        let Some(thread) = self.threads.get_mut(usize::from(number)) else {
            return Err(StepRefused::NoThread);
        };
        thread.idle()?;
        if is_limited(thread.asked(), self.asked) {
            return Err(StepRefused::Limit);
        }
        let request = request_of(kind, number, thread.asked());
        let call = take_ticket(&mut self.next_ticket);
        self.asked += 1;
        thread.begin(
            request,
            Event {
                ticket: call,
                thread: number,
                what: call_with(request),
            },
        );
        Ok(Done::Ticket(call))
    }

    fn push(&mut self, number: u8) -> Result<Done, StepRefused>
        ensures { TakesStep self.old (Push number) result self.new }
    {
        let Some(thread) = self.threads.get_mut(usize::from(number)) else {
            return Err(StepRefused::NoThread);
        };
        thread.push(self.capacity)?;
        Ok(Done::Pushed)
    }

    fn effect(&mut self, number: u8) -> Result<Done, StepRefused>
        ensures { TakesStep self.old (Effect number) result self.new }
    {
        let Some(thread) = self.threads.get_mut(usize::from(number)) else {
            return Err(StepRefused::NoThread);
        };
        let request = thread.unanswered()?;
        let Ok(answer) = take_effect(&mut self.queue, request) else {
            return Err(StepRefused::Memory);
        };
        thread.answer(request, answer);
        Ok(Done::Answered(answer))
    }

    fn say(&mut self, number: u8, told: Answer) -> Result<Done, StepRefused>
        ensures { TakesStep self.old (Say number told) result self.new }
    {
        let Some(thread) = self.threads.get_mut(usize::from(number)) else {
            return Err(StepRefused::NoThread);
        };
        let request = thread.unanswered()?;
        if is_of_other_kind(told, request) {
            return Err(StepRefused::WrongAnswer);
        }
        thread.answer(request, told);
        Ok(Done::Answered(told))
    }

    fn ret(&mut self, number: u8) -> Result<Done, StepRefused>
        ensures { TakesStep self.old (Ret number) result self.new }
    {
        let Some(thread) = self.threads.get_mut(usize::from(number)) else {
            return Err(StepRefused::NoThread);
        };
        let answer = thread.answered()?;
        let ret = take_ticket(&mut self.next_ticket);
        thread.end(Event {
            ticket: ret,
            thread: number,
            what: return_with(answer),
        });
        Ok(Done::Ticket(ret))
    }

    fn drain(&mut self, number: u8, most: u32) -> Result<Done, StepRefused>
        ensures { TakesStep self.old (Drain number most) result self.new }
    {
        let Some(thread) = self.threads.get_mut(usize::from(number)) else {
            return Err(StepRefused::NoThread);
        };
        let Ok(count) = thread.drain(most) else {
            return Err(StepRefused::Memory);
        };
        Ok(Done::Drained(count))
    }

    fn close(&mut self, number: u8) -> Result<Done, StepRefused>
        ensures { TakesStep self.old (Close number) result self.new }
    {
        let Some(thread) = self.threads.get_mut(usize::from(number)) else {
            return Err(StepRefused::NoThread);
        };
        thread.close()?;
        Ok(Done::Closed)
    }

    /// Returns the collected events of a thread, oldest first.
    pub fn collected(&self, number: u8) -> &[Event]
        requires { number < length self.now.threads }
        ensures { (setting : Setting) (schedule : List Attempt) → IsAfter setting self.now schedule
            → result.now ≡ collected_in setting schedule number }
    {
        self.threads[usize::from(number)].collected()
    }

    /// Returns whether all threads are closed and all rings are empty. Looks at each thread once.
    pub fn done(&self) -> bool
        ensures { (setting : Setting) (schedule : List Attempt) → IsAfter setting self.now schedule
            → IsTrue result ↔ IsDone setting schedule }
    {
        all_done(&self.threads)
    }
}

/// Returns whether no more events can come from any of these threads.
fn all_done(threads: &[Thread]) -> bool
    ensures { result ≡ list_all is_thread_done threads.now }
{
    threads.iter().all(|thread| thread.is_done())
}

/// Returns whether a thread that asked `asked` operations, of `all` in the machine, may ask no more.
fn is_limited(asked: u64, all: u64) -> bool
    ensures { result ≡ is_limited asked all }
{
    asked >= MAX_THREAD_OPERATIONS || all >= MAX_OPERATIONS
}

/// Takes the next ticket.
fn take_ticket(next: &mut u64) -> u64
    requires { next.old < u64.MAX }
    ensures ticket { result ≡ next.old }
    ensures taken { next.new ≡ next.old + 1 }
{
    let ticket = *next;
    *next += 1;
    ticket
}

/// Returns the request of an operation of this kind, the thread's operation with this number.
fn request_of(kind: Kind, thread: u8, number: u64) -> Request
    requires { number < MAX_THREAD_OPERATIONS }
    ensures { result ≡ asked_for kind thread number }
{
    match kind {
        Kind::Enq => Request::Enqueue(u64::from(thread) * NAMES_OF_A_THREAD + number),
        Kind::Deq => Request::Dequeue,
    }
}

/// Returns the call of an operation with this request.
fn call_with(request: Request) -> What
    ensures { result ≡ call_of request }
{
    match request {
        Request::Enqueue(value) => What::CallEnq(value),
        Request::Dequeue => What::CallDeq,
    }
}

/// Returns the return of an operation with this answer.
fn return_with(answer: Answer) -> What
    ensures { result ≡ return_what answer }
{
    match answer {
        Answer::Taken => What::RetEnq,
        Answer::Not => What::RetNot,
        Answer::Got(value) => What::RetDeq(value),
        Answer::Empty => What::RetEmpty,
    }
}

/// Applies the request to the queue, and returns the queue's answer.
fn take_effect(queue: &mut VecDeque<u64>, request: Request) -> Result<Answer, AllocError>
    ensures ok { IfOk result (λ answer. answer ≡ queue_answer request queue.old.items) }
    ensures after { OnOk result (queue.new.items ≡ queue_after request queue.old.items) }
    ensures err { OnErr result (queue.new.items ≡ queue.old.items) }
{
    match request {
        Request::Enqueue(value) => {
            queue.push_back(value)?;
            Ok(Answer::Taken)
        }
        Request::Dequeue => match queue.pop_front() {
            Some(value) => Ok(Answer::Got(value)),
            None => Ok(Answer::Empty),
        },
    }
}

/// Returns whether an answer is of another kind than its request.
fn is_of_other_kind(answer: Answer, request: Request) -> bool
    ensures { result ≡ is_wrong answer (Some request) }
{
    match (request, answer) {
        (Request::Enqueue(_), Answer::Taken | Answer::Not) => false,
        (Request::Dequeue, Answer::Got(_) | Answer::Empty) => false,
        _ => true,
    }
}
