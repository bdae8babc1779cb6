// The proved queue with one lock: a list, with the log of its answers.
ghost use Rattle.std.specs.Prelude.{◌≡◌, ◌++◌, ◌∷◌, [], ℕ, List, Contains, IfOk, IfErr, IfSome, IfNone, Some, map};
ghost use Rattle.std.specs.Prelude.{if◌then◌else◌};
ghost use Rattle.atomic_table.specs.Seated.{TableId};
ghost use Rattle.event_records.specs.Question.{Question};
ghost use Rattle.history_merge.specs.Queue.{accept_all, IsAccepted};
ghost use Rattle.queue_interface.specs.Answers.{AnswersInKind};
ghost use Rattle.stress_run.specs.Noted.{NotesOne, kinds_noted};

use crate::asked::Asked;
use crate::ends::Ends;
use event_records::{AnsweredDeq, AnsweredEnq, AskDeq, AskEnq};
use queue_interface::{Fifo, ValueList};
use std::alloc::Global;
use std::marker::{Brand, PhantomData};
use std::sync::{Mutex, Wait};
use tickets::{Effect, Log, Pass, Tickets};

// The run that a queue belongs to: its ticket word, and the values that the queue holds at first. Each run chooses its
// own.
pub(crate) trait OfRun {
    ghost word: { TableId };

    ghost initial: { List ℕ };
}

impl OfRun for Brand {
    ghost use Rattle.std.specs.Prelude.{[]};

    ghost word = { record { words = 0; slots = 0; views_name = 0; atom = 0; block = 0; offset = 0; slot_names = [] } };

    ghost initial = { [] };
}

// The data under the lock: the list of values, and the log, which leaves this list of the initial values.
#[derive(Drop)]
pub(crate) struct LockedLog<J: OfRun> {
    list: Fifo,
    log: Log,
    of: PhantomData<J>,
    ghost word: { log.key ≡ J.word },
    ghost legal: { accept_all J.initial (kinds_noted log.notes) ≡ Some list },
}

impl<J: OfRun> LockedLog<J> {
    ghost use Rattle.std.specs.Prelude.{◌≡◌, Contains};
    ghost use Rattle.stress_run.specs.Inner.Proved.{AnswersOne};

    // Enqueues the value of the question, unless out of memory, and notes the answer.
    fn enqueue(&mut self, ask: AskEnq, pass: &mut Pass, tickets: &Tickets) -> AnsweredEnq
        requires key { (pass.old.key ≡ tickets.now.key) × (tickets.now.key ≡ J.word) }
        requires drew { Contains pass.old.drawn ask.call }
        ensures answered { AnswersOne ask pass.old result pass.new }
    {
        let value = ask.value();
        if self.list.put(value) {
            pass.note(tickets, &mut self.log, ask.call(), Effect::Enq(value));
            ask.taken()
        } else {
            pass.note(tickets, &mut self.log, ask.call(), Effect::Not(value));
            ask.not_taken()
        }
    }

    // Dequeues the first value, if there is one, and notes the answer.
    fn dequeue(&mut self, ask: AskDeq, pass: &mut Pass, tickets: &Tickets) -> AnsweredDeq
        requires key { (pass.old.key ≡ tickets.now.key) × (tickets.now.key ≡ J.word) }
        requires drew { Contains pass.old.drawn ask.call }
        ensures answered { AnswersOne ask pass.old result pass.new }
    {
        match self.list.take() {
            Some(value) => {
                pass.note(tickets, &mut self.log, ask.call(), Effect::Deq(value));
                ask.got(value)
            }
            None => {
                pass.note(tickets, &mut self.log, ask.call(), Effect::Empty);
                ask.empty()
            }
        }
    }
}

// A queue that belongs to one run.
#[derive(Drop)]
pub(crate) struct Session<'r, J: OfRun, R: Wait> {
    rt: &'r R,
    locked_log: Mutex<LockedLog<J>>,
}

impl<'r, J: OfRun, R: Wait> Session<'r, J, R> {
    ghost use Rattle.std.specs.Prelude.{◌≡◌, [], Some};
    ghost use Rattle.history_merge.specs.Queue.{IsAccepted};
    ghost use Rattle.stress_run.specs.Noted.{kinds_noted};

    // Makes the queue with these values, and an empty log.
    pub(crate) fn new(rt: &'r R, list: Fifo, log: Log) -> Session<'r, J, R>
        requires log { (log.key ≡ J.word) × (log.notes ≡ []) }
        requires list { list ≡ J.initial }
    {
        Session {
            rt,
            locked_log: Mutex::new(LockedLog {
                list,
                log,
                of: PhantomData,
            }),
        }
    }

    // Returns the log. The queue accepts it from the values that it held at first.
    pub(crate) fn into_log(self) -> Log
        ensures key { result.key ≡ J.word }
        ensures accepted { IsAccepted J.initial (kinds_noted result.notes) }
    {
        let Session { rt: _, locked_log } = self;
        let LockedLog {
            list: _,
            log,
            of: _,
        } = locked_log.into_inner();
        log
    }
}

impl<'r, J: OfRun + Send + Sync, R: Wait> Asked for Session<'r, J, R> {
    ghost use Rattle.std.specs.Prelude.{◌≡◌, true};
    ghost use Rattle.queue_interface.specs.Answers.{AnswersInKind};

    ghost may = { λ _. AnswersInKind };

    ghost notes = { λ _. true };

    ghost serves = { λ _ tickets _. tickets.key ≡ J.word };

    fn enq(&self, _: &mut Ends, ask: AskEnq, pass: &mut Pass, tickets: &Tickets) -> AnsweredEnq {
        self.locked_log.lock(self.rt).enqueue(ask, pass, tickets)
    }

    fn deq(&self, _: &mut Ends, ask: AskDeq, pass: &mut Pass, tickets: &Tickets) -> AnsweredDeq {
        self.locked_log.lock(self.rt).dequeue(ask, pass, tickets)
    }
}
