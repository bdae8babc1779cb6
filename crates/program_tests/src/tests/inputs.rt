//! Inputs that come byte by byte, inputs whose reader fails at their end, and inputs that aren't read.
ghost use Rattle.text_lines.specs.Input.{Unknown};

use super::{answers, run};
use history_text::{MemorySource, ReadFailed, TextSource};
use std::sync::atomic::{AtomicUsize, Ordering};
use std::test::Fail;

/// A value overtakes another one.
const OVERTAKEN: &str =
    "fifo-history 1\n0 0 call-enq 7\n1 0 ret-enq\n2 0 call-enq 9\n3 0 ret-enq\n4 0 call-deq\n5 0 ret-deq 9\nend 6\n";

/// Its picture, as in `examples/overtaken.picture`.
const PICTURE: &str = "\
NO: values were dequeued against the order of their enqueues
7 was enqueued (1) before 9 (2),
but 9 was dequeued (3) and 7 never was.

[    call of an operation
]    its return
1    number 1 of the operations that show it
###  the value surely was in the queue.
:::  within this time the later value went in and out.

        7 surely in
         |   9 in and out
         |    |   thread
ticket   |    |   0
     0            [1      enq 7
     1  ###       ]
     2  ###  :::  [2      enq 9
     3  ###  :::  ]
     4  ###  :::  [3      deq 9
     5  ###       ]
";

const VERDICT: &str = "NO VOrd\n0 1 0 enq 7\n2 3 0 enq 9\n4 5 0 deq 9\n";

/// Three operations of one thread. After the second, two values are in the queue.
const STATISTICS: &str = "events 6
operations 3
threads 1
enqueued 2
refused 0
dequeued 1
empty 0
initial 0
thread-changes 0
overlapping 0
overlapping-percent 0.0
most-pending 1
most-in-queue 2
overtakes 1
overtaken-at-most 1
";

/// 80 bytes, the maximum length of a line.
const LONGEST: &str =
    "xxxxxxxxxxxxxxxxxxxxxxxxxxxxxxxxxxxxxxxxxxxxxxxxxxxxxxxxxxxxxxxxxxxxxxxxxxxxxxxx";

const TOO_LONG: &str =
    "xxxxxxxxxxxxxxxxxxxxxxxxxxxxxxxxxxxxxxxxxxxxxxxxxxxxxxxxxxxxxxxxxxxxxxxxxxxxxxxxx";

const ENQUEUE: &str = "fifo-history 1\n0 0 call-enq 7\n1 0 ret-enq\nend 2\n";

/// An enqueue that never returned, though its value was dequeued.
const PENDING: &str =
    "fifo-pending 1\n0 0 call-enq 7\n1 1 call-deq\n2 1 ret-deq 7\nopen 1\nend 3\n";

const COMPLETED: &str =
    "fifo-history 1\n0 0 call-enq 7\n1 1 call-deq\n2 1 ret-deq 7\n3 0 ret-enq\nend 4\n";

const CUT_OFF: &str = "fifo-pending 1\n0 0 call-deq\n1 1 call";

/// The command line, the input, whether the reader fails after it, the output, and the status.
const CASES: [(&str, &str, bool, &str, u8); 14] = [
    ("fifobench check", OVERTAKEN, false, VERDICT, 1),
    ("fifobench stats", OVERTAKEN, false, STATISTICS, 0),
    ("fifobench draw --text", OVERTAKEN, false, PICTURE, 0),
    ("fifobench draw --text", OVERTAKEN, true, "FAULT Read\n", 3),
    (
        "fifobench check",
        "fifo-history 3\n",
        true,
        "REFUSED Header\n",
        2,
    ),
    (
        "fifobench check",
        "fifo-history 1\n0 0 call-e",
        true,
        "FAULT Read\n",
        3,
    ),
    ("fifobench check", ENQUEUE, true, "FAULT Read\n", 3),
    (
        "fifobench check",
        "fifo-history 1\nend 0\n",
        true,
        "FAULT Read\n",
        3,
    ),
    ("fifobench check", LONGEST, true, "FAULT Read\n", 3),
    ("fifobench check", TOO_LONG, true, "REFUSED Header\n", 2),
    ("fifobench complete", PENDING, false, COMPLETED, 0),
    ("fifobench complete", PENDING, true, "FAULT Read\n", 3),
    (
        "fifobench complete --cut",
        CUT_OFF,
        false,
        "fifo-history 1\nend 0\n",
        0,
    ),
    ("fifobench complete --cut", CUT_OFF, true, "FAULT Read\n", 3),
];

#[test]
fn inputs_are_answered_byte_by_byte(rt: HostRuntime) {
    for (line, input, fails, text, status) in CASES {
        let source = if fails {
            MemorySource::failing(input.as_bytes())
        } else {
            MemorySource::new(input.as_bytes())
        };
        let right = answers(&rt, line, source.in_pieces(1), &[], text, status);
        assert!(rt; right, "{line}: {input}");
    }
}

/// A source without bytes that counts its reads.
#[derive(Drop)]
struct Counted<'a> {
    reads: &'a AtomicUsize,
}

impl TextSource for Counted<'_> {
    ghost ahead = { λ _. Unknown };

    fn read(&mut self, _piece: &mut [u8]) -> Result<usize, ReadFailed> {
        self.reads.fetch_add(1, Ordering::SeqCst);
        Ok(0)
    }
}

#[test]
fn stress_and_help_read_nothing(rt: HostRuntime) -> Result<(), Fail> {
    for line in ["fifobench stress --queue=none", "fifobench help"] {
        let reads = AtomicUsize::new(0);
        let (_, status) = run(&rt, line, Counted { reads: &reads }, &[])?;
        assert!(rt; status != 3 && reads.load(Ordering::SeqCst) == 0, "{line}");
    }
    Ok(())
}
