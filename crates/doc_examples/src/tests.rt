use fifobench_core::{
    AnsweredDeq, AnsweredEnq, AskDeq, AskEnq, Event, History, HistoryBuilder, LEAST_INITIAL_NAME,
    MOST_DRAWN, MemorySource, Plan, TestQueue, TextReader, Verdict, Watched, What, claim,
    count_of_lines, decide, drawn_operations, history, history_from, read_history, read_verdict,
    run, run_from, scene_of, shrink, terminal_picture, verify, write_verdict,
};
use std::alloc::Global;
use std::sync::{Mutex, Wait};
use std::test::Fail;

/// Returns the history of a text.
fn history_in(alloc: Global, text: &[u8]) -> Result<History, Fail> {
    let mut reader = TextReader::new(MemorySource::new(text));
    let (_, builder) = read_history(alloc, &mut reader)?;
    Ok(builder.finish()?)
}

/// A history that dequeues 7, which was never enqueued.
const PHANTOM: &[u8] = b"fifo-history 1\n0 0 call-deq\n1 0 ret-deq 7\nend 2\n";

/// That history after an enqueue of 5.
const LONGER: &[u8] =
    b"fifo-history 1\n0 0 call-enq 5\n1 0 ret-enq\n2 0 call-deq\n3 0 ret-deq 7\nend 4\n";

/// The events of a dequeue of 7.
const DEQUEUE: [Event; 2] = [
    Event {
        ticket: 0,
        thread: 0,
        what: What::CallDeq,
    },
    Event {
        ticket: 1,
        thread: 0,
        what: What::RetDeq(7),
    },
];

#[test]
fn history_example(rt: HostRuntime) -> Result<(), Fail> {
    let alloc = rt.alloc();

    let call = Event {
        ticket: 0,
        thread: 0,
        what: What::CallEnq(7),
    };
    let ret = Event {
        ticket: 1,
        thread: 0,
        what: What::RetEnq,
    };
    let recorded = history(alloc, &[call, ret])?;
    assert_eq!(rt; recorded.operations().len(), 1);
    Ok(())
}

#[test]
fn history_from_example(rt: HostRuntime) -> Result<(), Fail> {
    let (alloc, events) = (rt.alloc(), DEQUEUE);

    let recorded = history_from(alloc, vec![in alloc; 7]?, &events)?;
    assert_eq!(rt; recorded.initial(), [7].as_slice());
    assert_eq!(rt; recorded.operations().len(), 1);
    Ok(())
}

#[test]
fn history_builder_example(rt: HostRuntime) -> Result<(), Fail> {
    let (alloc, events) = (rt.alloc(), DEQUEUE.as_slice());

    let mut builder = HistoryBuilder::new(alloc, Vec::new(alloc));
    for event in events {
        builder.add(*event);
    }
    let recorded = builder.finish()?;
    assert_eq!(rt; recorded.operations().len(), 1);
    Ok(())
}

#[test]
fn read_history_example(rt: HostRuntime) -> Result<(), Fail> {
    let alloc = rt.alloc();

    let text = b"fifo-history 1\n0 0 call-enq 7\n1 0 ret-enq\nend 2\n";
    let mut reader = TextReader::new(MemorySource::new(text));
    let (_version, builder) = read_history(alloc, &mut reader)?;
    let recorded = builder.finish()?;
    assert_eq!(rt; recorded.operations().len(), 1);
    Ok(())
}

#[test]
fn decide_example(rt: HostRuntime) -> Result<(), Fail> {
    let alloc = rt.alloc();
    let history = history_in(alloc, PHANTOM)?;

    let verdict = decide(alloc, &history)?;
    assert!(rt; matches!(&verdict, Verdict::No(_)));
    Ok(())
}

#[test]
fn verify_example(rt: HostRuntime) -> Result<(), Fail> {
    let alloc = rt.alloc();
    let history = history_in(alloc, PHANTOM)?;

    let text = b"NO VFresh\n0 1 0 deq 7\n";
    let claimed = read_verdict(alloc, &mut TextReader::new(MemorySource::new(text)))?;
    assert!(rt; verify(alloc, &history, &claimed)?);
    Ok(())
}

#[test]
fn shrink_example(rt: HostRuntime) -> Result<(), Fail> {
    let alloc = rt.alloc();
    let history = history_in(alloc, LONGER)?;

    let Verdict::No(violation) = decide(alloc, &history)? else {
        return Err(Fail::from("linearizable"));
    };
    let small = shrink(alloc, &history, &violation)?;
    assert_eq!(rt; small.operations().len(), 1);
    Ok(())
}

#[test]
fn write_verdict_example(rt: HostRuntime) -> Result<(), Fail> {
    let alloc = rt.alloc();
    let history = history_in(alloc, PHANTOM)?;

    let verdict = decide(alloc, &history)?;
    let mut output = Watched::new(Vec::new(alloc));
    write_verdict(&history, &verdict, &mut output)?;
    assert_eq!(rt;
        output.into_inner().as_slice(),
        b"NO VFresh\n0 1 0 deq 7\n".as_slice()
    );
    Ok(())
}

#[test]
fn terminal_picture_example(rt: HostRuntime) -> Result<(), Fail> {
    let alloc = rt.alloc();
    let history = history_in(alloc, PHANTOM)?;

    let verdict = decide(alloc, &history)?;
    let claimed = claim(alloc, &history, &verdict)?;
    let drawn = drawn_operations(alloc, &history, &claimed, None)?;
    let scene = scene_of(alloc, &history, &claimed, drawn, None)?;
    let mut picture = Vec::new(alloc);
    if count_of_lines(&claimed) <= MOST_DRAWN {
        picture = terminal_picture(alloc, &scene)?;
    }
    assert!(rt; picture.as_slice().starts_with(b"NO: "));
    Ok(())
}

#[test]
fn from_seed_example(rt: HostRuntime) -> Result<(), Fail> {
    let alloc = rt.alloc();

    let plan = Plan::from_seed(alloc, 1, 4, 1000, 50)?;
    assert_eq!(rt; plan.rows().len(), 4);
    assert_eq!(rt; plan.operations(), 4000);
    Ok(())
}

#[test]
fn of_roles_example(rt: HostRuntime) -> Result<(), Fail> {
    let alloc = rt.alloc();

    let plan = Plan::of_roles(alloc, 2, 1, 1000)?;
    assert_eq!(rt; plan.rows().len(), 2);
    assert_eq!(rt; plan.operations(), 2000);
    Ok(())
}

/// A queue with room for one value.
#[derive(Drop)]
struct OneSlot<R: Wait + Drop> {
    rt: R,
    slot: Mutex<Option<u64>>,
}

impl<R: Wait + Drop + Send + Sync> TestQueue for OneSlot<R> {
    ghost use Rattle.fifobench_core.specs.Answers.{AnswersInKind, TakesOrRefuses};

    ghost may = { λ _. AnswersInKind };

    ghost may_preload = { λ _ _. TakesOrRefuses };

    fn enqueue(&self, ask: AskEnq) -> AnsweredEnq {
        if self.fill(ask.value()) {
            ask.taken()
        } else {
            ask.not_taken()
        }
    }

    fn dequeue(&self, ask: AskDeq) -> AnsweredDeq {
        let taken = self.slot.lock(&self.rt).take();
        match taken {
            Some(value) => ask.got(value),
            None => ask.empty(),
        }
    }

    fn preload(&self, _place: usize, value: u64) -> bool {
        self.fill(value)
    }
}

impl<R: Wait + Drop> OneSlot<R> {
    fn fill(&self, value: u64) -> bool {
        let mut slot = self.slot.lock(&self.rt);
        if slot.is_some() {
            return false;
        }
        *slot = Some(value);
        true
    }
}

/// Returns an empty queue.
fn one_slot<R: Wait + Drop>(rt: R) -> OneSlot<R> {
    OneSlot {
        rt,
        slot: Mutex::new(None),
    }
}

#[test]
fn test_queue_example(rt: HostRuntime) -> Result<(), Fail> {
    let queue = one_slot(rt);
    assert!(rt; queue.preload(0, 5));
    assert!(rt; !queue.preload(1, 6));
    Ok(())
}

#[test]
fn run_example(rt: HostRuntime) -> Result<(), Fail> {
    let (alloc, queue) = (rt.alloc(), one_slot(rt));

    let plan = Plan::from_seed(alloc, 1, 2, 100, 50)?;
    let recorded = run(&rt, alloc, &queue, &plan, 1024, 1_000_000)?;
    let verdict = decide(alloc, &recorded.history(alloc)?)?;
    assert!(rt; matches!(&verdict, Verdict::Yes(_)));
    Ok(())
}

#[test]
fn run_from_example(rt: HostRuntime) -> Result<(), Fail> {
    let (alloc, queue) = (rt.alloc(), one_slot(rt));

    let plan = Plan::from_seed(alloc, 1, 2, 100, 50)?;
    let initial = [LEAST_INITIAL_NAME];
    let recorded = run_from(&rt, alloc, &queue, &initial, &plan, 1024, 1_000_000)?;
    assert_eq!(rt; recorded.initial(), initial.as_slice());
    Ok(())
}
