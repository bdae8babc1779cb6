// A worker, which draws tickets, calls the queue, and pushes what it did into its ring.
ghost use Rattle.std.specs.Prelude.{◌≡◌, ◌+◌, ◌∷◌, ◌++◌, [], ◌≤◌, ◌<◌, Contains, IfOk, OnOk, OnErr, length, true};
ghost use Rattle.std.specs.Prelude.{false};
ghost use Rattle.event_records.specs.Question.{call_event, next_question};
ghost use Rattle.event_records.specs.declared.limits.TheConstants.{NAMES_OF_A_THREAD};
ghost use Rattle.stress_run.specs.Crew.{token_of};
ghost use Rattle.stress_run.specs.Ends.{EndsView, end_for, no_ends};
ghost use Rattle.stress_run.specs.Faults.{AreTries};
ghost use Rattle.stress_run.specs.Noted.{KeepsNotes};
ghost use Rattle.stress_run.specs.Inner.Workers.{IsStamped, end_asked, question_in};
ghost use Rattle.stress_run.specs.Workers.{Works, Stalls};

use crate::asked::Asked;
use crate::ends::Ends;
use event_records::{AskDeq, AskEnq, Kind, Namer, Noted};
use event_rings::{CloseLost, CloseToken, PushEnd};
use queue_interface::TestQueue;
use std::marker::Model;
use std::sync::atomic::{AtomicBool, Ordering};
use std::thread;
use thiserror::Error;
use tickets::{Drawn, Pass, Tickets};

/// The tools with which one thread records: its pass, its namer, and the push end of its ring.
///
/// Contracts see the pass, the ends of the queue that the worker has for itself, the thread, the number of questions
/// that were asked, the ring with its capacity, the number of tries of a push, all events that were pushed, and
/// whether the worker is stopped.
#[derive(Drop)]
pub struct Worker {
    pass: Pass,
    ends: Ends,
    namer: Namer,
    ring: PushEnd,
    tries: u32,
    stopped: bool,
}

impl Model for Worker {
    ghost use Rattle.std.specs.Prelude.{◌≡◌, ◌≤◌, length, true};
    ghost use Rattle.stress_run.specs.Faults.{AreTries};
    ghost use Rattle.stress_run.specs.Workers.{WorkerView};

    ghost Value = { WorkerView };

    ghost view = { λ w. record {
      thread = w.ring.thread;
      pass = w.pass;
      ends = w.ends;
      asked = w.namer.asked;
      ring = w.ring.ring;
      capacity = w.ring.capacity;
      tries = w.tries;
      sent = w.ring.sent;
      stopped = w.stopped;
    } };

    ghost invariant = { λ w. (w.namer.thread ≡ w.ring.thread) × AreTries w.tries
        × (w.stopped ≡ true → w.ring.capacity ≤ length w.ring.sent) };
}

// A question to enqueue or to dequeue.
#[derive(Drop)]
pub(crate) enum AnyAsk {
    Enq(AskEnq),
    Deq(AskDeq),
}

/// The reason why a worker made no operation.
#[derive(Clone, Copy, Debug, PartialEq, Eq, Error)]
pub enum WorkerFault {
    /// A push of this call or of an earlier one found no room in all its tries.
    #[error("Stalled")]
    Stalled,
}

// The number of failed tries after which a pause gets longer by one turn, up to the longest. A million tries take some
// seconds on an idle machine, where a turn takes a tenth of a microsecond, and longer on a busy one. So a collector
// that waits for a processor gets one.
const TRIES_TO_A_TURN: u32 = 512;

// Maximum number of turns of a pause.
const LONGEST_PAUSE: u32 = 32;

// Pauses after this many failed tries: yields to other threads, for longer and longer.
fn pause(tried: u32) {
    let turns = 1 + tried / TRIES_TO_A_TURN;
    for _ in 0..turns.min(LONGEST_PAUSE) {
        thread::yield_now();
    }
}

// Pushes an event in at most `tries` tries, with pauses between them. Gives up early if nobody drains the ring.
fn push_with_tries(
    ring: &mut PushEnd,
    noted: Noted,
    tries: u32,
    is_abandoned: &AtomicBool,
) -> Result<(), WorkerFault>
    requires thread { noted.thread ≡ ring.old.thread }
    requires tries { AreTries tries }
    ensures pushed { OnOk result
        (ring.new ≡ record ring.old { sent = ring.old.sent ++ noted ∷ []; room = ring.new.room }) }
    ensures full { OnErr result (ring.new ≡ ring.old) }
    ensures filled { OnErr result (ring.old.capacity ≤ length ring.old.sent) }
{
    let mut held = noted;
    for tried in 0..tries {
        match ring.push(held) {
            Ok(()) => return Ok(()),
            Err(back) => held = back,
        }
        if is_abandoned.load(Ordering::SeqCst) {
            break;
        }
        pause(tried);
    }
    Err(WorkerFault::Stalled)
}

impl Worker {
    /// Makes a worker that is not stopped and has no end of a queue for itself. The namer and the ring belong to one
    /// thread, and there are 1 to 10,000,000 tries.
    pub fn new(pass: Pass, namer: Namer, ring: PushEnd, tries: u32) -> Worker
        requires thread { namer.thread ≡ ring.thread }
        requires tries { AreTries tries }
        ensures { result ≡ record {
          pass = pass;
          ends = no_ends;
          thread = ring.thread;
          asked = namer.asked;
          ring = ring.ring;
          capacity = ring.capacity;
          tries = tries;
          sent = ring.sent;
          stopped = false;
        } }
    {
        Worker {
            pass,
            ends: Ends::none(),
            namer,
            ring,
            tries,
            stopped: false,
        }
    }

    // Returns the worker with these ends of a queue for itself.
    pub(crate) fn with_ends(self, ends: Ends) -> Worker
        ensures { result ≡ record self { ends = ends } }
    {
        let mut worker = self;
        worker.ends = ends;
        worker
    }

    /// Returns whether a push found no room in all its tries. A stopped worker makes no further operation.
    pub fn is_stopped(&self) -> bool
        ensures { result ≡ self.now.stopped }
    {
        self.stopped
    }

    // Returns the thread of the worker's events.
    pub(crate) fn thread(&self) -> u8
        ensures { result ≡ self.now.thread }
    {
        self.ring.thread().get()
    }

    // Returns the place of the worker's row in a plan, which is its thread.
    pub(crate) fn place(&self) -> usize
        ensures { result ≡ self.now.thread }
    {
        self.ring.thread().get() as usize
    }

    /// Closes the worker's ring, and returns the close token and the worker's pass, even if the worker is stopped.
    ///
    /// Fails with `CloseLost` if the ring gave no token; the pass is then gone. Takes no memory.
    pub fn close(self) -> Result<(CloseToken, Pass), CloseLost>
        ensures token { IfOk result (λ r. r.0 ≡ token_of self) }
        ensures pass { IfOk result (λ r. r.1 ≡ self.pass) }
    {
        let Worker {
            pass,
            ends: _,
            namer: _,
            ring,
            tries: _,
            stopped: _,
        } = self;
        let token = ring.close()?;
        Ok((token, pass))
    }

    // Pushes an event of this worker's thread. If this fails, the worker is stopped.
    fn record(&mut self, noted: Noted, is_abandoned: &AtomicBool) -> Result<(), WorkerFault>
        requires { noted.thread ≡ self.old.thread }
        ensures sent { OnOk result (self.new ≡ record self.old { sent = self.old.sent ++ noted ∷ [] }) }
        ensures stopped { OnErr result ((self.new ≡ record self.old { stopped = true })
            × (self.old.capacity ≤ length self.old.sent)) }
    {
        let pushed = push_with_tries(&mut self.ring, noted, self.tries, is_abandoned);
        if pushed.is_err() {
            self.stopped = true;
        }
        pushed
    }

    // Makes one operation of this kind, from its call ticket to its return event.
    fn operate_once<Q: Asked>(
        &mut self,
        queue: &Q,
        tickets: &Tickets,
        kind: Kind,
        is_abandoned: &AtomicBool,
    ) -> Result<(), WorkerFault>
        requires key { self.old.pass.key ≡ tickets.now.key }
        requires left { 2 ≤ self.old.pass.left }
        requires room { self.old.asked < NAMES_OF_A_THREAD }
        requires running { self.old.stopped ≡ false }
        requires serves { Q.serves queue.now tickets.now (end_for kind self.old.ends) }
        ensures works { OnOk result (Works (Q.may queue.now) (kind ∷ []) self.old self.new) }
        ensures told { OnOk result (KeepsNotes (Q.notes queue.now) self.old self.new) }
        ensures stalls { OnErr result (Stalls kind self.old self.new) }
    {
        let (ask, noted) = ask_next(&mut self.namer, kind, self.pass.draw(tickets));
        self.record(noted, is_abandoned)?;
        let returned = stamped_answer(queue, ask, &mut self.ends, &mut self.pass, tickets);
        self.record(returned, is_abandoned)
    }
}

// Returns the question of the next operation of this kind, and its call event.
fn ask_next(namer: &mut Namer, kind: Kind, drawn: Drawn) -> (AnyAsk, Noted)
    requires { namer.old.asked < NAMES_OF_A_THREAD }
    ensures question { question_in result.0 ≡ next_question namer.old kind drawn }
    ensures end { (ends : EndsView) → end_asked result.0 ends ≡ end_for kind ends }
    ensures noted { result.1 ≡ call_event (question_in result.0) }
    ensures counted { namer.new ≡ record namer.old { asked = namer.old.asked + 1 } }
{
    match kind {
        Kind::Enq => {
            let (ask, noted) = namer.ask_enq(drawn);
            (AnyAsk::Enq(ask), noted)
        }
        Kind::Deq => {
            let (ask, noted) = namer.ask_deq(drawn);
            (AnyAsk::Deq(ask), noted)
        }
    }
}

// Has the queue answer the question, and returns the return event.
fn stamped_answer<Q: Asked>(
    queue: &Q,
    ask: AnyAsk,
    ends: &mut Ends,
    pass: &mut Pass,
    tickets: &Tickets,
) -> Noted
    requires key { (pass.old.key ≡ tickets.now.key) × ((question_in ask).key ≡ tickets.now.key) }
    requires drew { Contains pass.old.drawn (question_in ask).call }
    requires some_left { 0 < pass.old.left }
    requires serves { Q.serves queue.now tickets.now (end_asked ask ends.old) }
    ensures ends { ends.new ≡ ends.old }
    ensures stamped { IsStamped (Q.may queue.now) (Q.notes queue.now) (question_in ask) pass.old pass.new result }
{
    match ask {
        AnyAsk::Enq(ask) => {
            let taken = queue.enq(ends, ask, pass, tickets);
            taken.stamp(pass, tickets)
        }
        AnyAsk::Deq(ask) => {
            let got = queue.deq(ends, ask, pass, tickets);
            got.stamp(pass, tickets)
        }
    }
}

/// Makes one operation on the queue, and pushes its two events into the worker's ring.
///
/// It draws the call ticket before it makes the question, and the return ticket after it has the answer. It pushes the
/// call before it calls the queue, so if that push finds no room the queue is not called; no contract says so. The
/// pass belongs to these `Tickets` and has two tickets left, and the namer has asked fewer questions than a thread has
/// names for.
///
/// Fails with `Stalled` if a push found no room in all tries of the worker, between which the thread yields for longer
/// and longer. Each later call fails with it too, and draws nothing. The call waits only if the queue does, and takes
/// no memory.
pub fn one_call(
    queue: &dyn TestQueue,
    tickets: &Tickets,
    worker: &mut Worker,
    kind: Kind,
) -> Result<(), WorkerFault>
    requires key { worker.old.pass.key ≡ tickets.now.key }
    requires left { 2 ≤ worker.old.pass.left }
    requires room { worker.old.asked < NAMES_OF_A_THREAD }
    ensures works { OnOk result (Works (may queue.now) (kind ∷ []) worker.old worker.new) }
    ensures stalls { OnErr result (Stalls kind worker.old worker.new) }
    ensures running { OnOk result (worker.old.stopped ≡ false) }
{
    call_on(&queue, tickets, worker, kind, &AtomicBool::new(false))
}

// Makes one operation on the queue that the worker calls.
pub(crate) fn call_on<Q: Asked>(
    queue: &Q,
    tickets: &Tickets,
    worker: &mut Worker,
    kind: Kind,
    is_abandoned: &AtomicBool,
) -> Result<(), WorkerFault>
    requires key { worker.old.pass.key ≡ tickets.now.key }
    requires left { 2 ≤ worker.old.pass.left }
    requires room { worker.old.asked < NAMES_OF_A_THREAD }
    requires serves { Q.serves queue.now tickets.now (end_for kind worker.old.ends) }
    ensures works { OnOk result (Works (Q.may queue.now) (kind ∷ []) worker.old worker.new) }
    ensures stalls { OnErr result (Stalls kind worker.old worker.new) }
    ensures running { OnOk result (worker.old.stopped ≡ false) }
    ensures told { OnOk result (KeepsNotes (Q.notes queue.now) worker.old worker.new) }
{
    if worker.stopped {
        return Err(WorkerFault::Stalled);
    }
    worker.operate_once(queue, tickets, kind, is_abandoned)
}
