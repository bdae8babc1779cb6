//! The texts of the help. No line is longer than 80 characters. A command has a short text, printed for `-h`, and a
//! long one for `--help`.

/// The version of the program, as in CHANGELOG.md. The second line names the logic in which its proofs are checked,
/// which the kit's own name doesn't show.
pub(crate) const VERSION: &str = "0.3.0\nproved in the Rattle logic dac8208d650f15bf";

pub(crate) const ABOUT: &str = "Records and judges histories of a concurrent FIFO queue";

pub(crate) const SHORT: &str = "\
A command reads a text from standard input: fifobench check < FILE
`fifobench COMMAND --help` says what a command reads and writes.
";

pub(crate) const LONG: &str = "\
A command reads a text from standard input: fifobench check < FILE. The answer
goes to standard output. If the status is 2 or 3, standard error says why.
`fifobench COMMAND --help` says what a command reads and writes.

Status:
  0  yes, or what was asked for is written
  1  no, or the verdict is no evidence
  2  refused: the input (REFUSED ..), or the arguments
  3  failed: a read, a write, a run, or memory (FAULT ..)
";

pub(crate) const MORE: &str = "`--help` says what it reads and writes, with an example.\n";

pub(crate) const CHECK_ABOUT: &str = "Judges a history: is it linearizable?";

pub(crate) const CHECK_LONG: &str = "\
Input: the text of a history (docs/FORMATS.md). It begins with the line
`fifo-history 1` and ends with the line `end N`, where N is the number of
events. Between them stands a line for each event, by rising ticket; threads
are 0 to 63:
  TICKET THREAD call-enq VALUE   the thread calls to enqueue the value
  TICKET THREAD ret-enq          that call returns: the value is enqueued
  TICKET THREAD ret-not          or: the enqueue failed
  TICKET THREAD call-deq         the thread calls to dequeue
  TICKET THREAD ret-deq VALUE    that call returns the value
  TICKET THREAD ret-empty        or: it found the queue empty
The queue is empty before the first event. If it holds K values instead, the
text begins with the lines `fifo-history 2` and `initial K` and a line for each
of these values, the front one first.

Output: `YES` and all operations in a linearization, or `NO`, the kind of
violation and the operations that show it: VFresh, a value that was not there;
VRepeat, a value dequeued twice; VOrd, two values dequeued against the order of
their enqueues; VWit, a dequeue that found the queue empty although it never was
meanwhile. A line has the tickets of an operation's call and return, its thread,
and what it did; `init VALUE` stands for a value that the queue held first.

With `--local` the values of each producer are judged alone (local
linearizability). For each thread, the operations on the values that it enqueues
and all empty dequeues have to be linearizable, whichever threads make them. The
initial values count as those of one more thread. `YES` lists these
linearizations one after another, that of the initial values first, then by
thread. `NO` shows a violation of the first thread that has none. With
`--weak-empty` an empty dequeue promises nothing: the history without its empty
dequeues is judged. `verify` takes the verdict with the same flags, and takes a
`NO` without them too.

Lines count from 1 and events from 0: event i is in line i + 2, and after K
initial values in line i + K + 3. A text that goes on after its line `end N` is
`REFUSED Trailing`: of what `stress` writes, take the history on its own by
`sed '/^end /q'`.

Status:
  0  yes
  1  no
  2  refused: the input (REFUSED ..), or the arguments
  3  failed: a read, a write, or memory (FAULT ..)

Example:
  $ printf 'fifo-history 1\\n0 0 call-deq\\n1 0 ret-deq 7\\nend 2\\n' |
    fifobench check
  NO VFresh
  0 1 0 deq 7
";

pub(crate) const SHRINK_ABOUT: &str = "Shows the violation of a history, and no more";

pub(crate) const SHRINK_LONG: &str = "\
Input: the text of a history, as for `check`, from its first line to the line
`end N`.

Output: if the history is not linearizable, the text of the shrunk history, in
the version of the input, and then its verdict; otherwise only the verdict, as
`check` prints it.

With `--local` or `--weak-empty` a history is shrunk if it doesn't meet this
condition, as `check` judges it. The shrunk history doesn't meet it either, and
each smaller part does.

A text that goes on after its line `end N` is `REFUSED Trailing`: see `check`.

Status:
  0  yes: the output is the verdict
  1  no: the output is the shrunk history with its verdict
  2  refused: the input (REFUSED ..), or the arguments
  3  failed: a read, a write, or memory (FAULT ..)

Example:
  $ printf '%s\\n' 'fifo-history 1' '0 0 call-enq 5' '1 0 ret-enq' \\
      '2 0 call-deq' '3 0 ret-deq 7' 'end 4' | fifobench shrink
  fifo-history 1
  2 0 call-deq
  3 0 ret-deq 7
  end 2
  NO VFresh
  2 3 0 deq 7
";

pub(crate) const VERIFY_ABOUT: &str = "Checks whether a verdict is evidence in a history";

pub(crate) const VERIFY_LONG: &str = "\
Input: the text of a history, as for `check`, from its first line to the line
`end N`, directly followed by the text of a verdict, from the line `YES` or
`NO ..` on, as `stress` and `shrink` print them.

Output: `VALID` if the verdict's operations are evidence for it in that history,
otherwise `INVALID`. Lines count from 1 through both texts.

With `--local` or `--weak-empty` the verdict is one under that condition, as
`check` writes it with the same flags.

Status:
  0  valid
  1  invalid
  2  refused: the input (REFUSED ..), or the arguments
  3  failed: a read, a write, or memory (FAULT ..)

Example:
  $ printf '%s\\n' 'fifo-history 1' '0 0 call-deq' '1 0 ret-deq 7' 'end 2' \\
      'NO VFresh' '0 1 0 deq 7' | fifobench verify
  VALID
";

pub(crate) const DRAW_ABOUT: &str = "Draws a history, and a verdict if one follows";

pub(crate) const DRAW_LONG: &str = "\
Input: the text of a history, from its first line to the line `end N`, directly
followed by the text of a verdict, from the line `YES` or `NO ..` on, as for
`verify`. If nothing follows, the history is judged as by `check`, and drawn
with that verdict. Or a pending text, as for `complete`: it is drawn as its
completion, with the verdict on that. Or a `YES` alone, as `shrink` prints it:
the history of its operations is drawn.

Output: a picture, as an SVG document, with `--html` as a page for a browser
that shows what precedes an operation and unfolds what is left out, or with
`--text` in lines of ASCII for a terminal. Time runs down: each event has a row,
each thread a lane, and each operation a bar from its call to its return. With
`YES` the linearization stands beside the tickets, and each number where its
operation takes effect. With `NO` the operations that show it are numbered in
the order of the verdict's lines, and bands show when a value was definitely in
the queue, when it was not, and the time that contradicts it. In characters `[`
is a call, `]` its return and `|` stands between, and bands are `###`, `xxx` and
`:::`; a call that never returned has no `]`. If the verdict is no evidence in
the history, the output is `INVALID`, and nothing is drawn. Values that the
queue holds first (texts of `fifo-history 2`) have rows of their own above all
events, the front one first, if a `NO` lists them or a drawn operation has them;
a row `... 298 values ...` stands for the others. They are numbered like
operations. `6:11` is value 11 of thread 6 as recorders name it, 6 * 2^32 + 11,
and `init:3` is 2^38 + 3.

With `NO` only the operations that show it and those that overlap one of them
are drawn; a row `... 250 events ...` stands for what is left out between them.
With `--around 20` the 20 events before and after each operation that shows it
are drawn too, with all that is pending meanwhile; in characters an operation
that overlaps no numbered one has `(`, `)` and `:`. With `--all` every operation
is drawn.

With `--local` or `--weak-empty` the verdict is one under that condition, as for
`check`. With `--weak-empty` empty dequeues aren't drawn. A `YES` with `--local`
is `REFUSED Orders`: it has a linearization for each producer, so there is no
single one to draw. With these flags the verdict on a pending text is that of
its completion, and says nothing about other completions.

A page unfolds the whole history if it has at most 20,000 operations; of a
longer one it shows only what the picture has.

More than 400 operations to draw, or lines of a verdict, are `REFUSED Size`:
shrink the history first. Lines count from 1 through both texts.

Status:
  0  drawn
  1  invalid
  2  refused: the input (REFUSED ..), or the arguments
  3  failed: a read, a write, or memory (FAULT ..)

Example:
  $ printf '%s\\n' 'fifo-history 1' '0 0 call-deq' '1 0 ret-deq 7' 'end 2' \\
      'NO VFresh' '0 1 0 deq 7' | fifobench draw --text
  NO: a value was dequeued that was not there
  7 was dequeued (1), but nobody ever enqueued it.

  [    call of an operation
  ]    its return
  1    number 1 of the operations that show it
  xxx  the value surely was not in the queue.
  :::  within this time it was dequeued nevertheless.

          7 not in
           |   7 dequeued
           |    |   thread
  ticket   |    |   0
       0  xxx  :::  [1      deq 7
       1  xxx       ]
";

pub(crate) const TEXT_HELP: &str = "Draws in lines of characters, and not as SVG";

pub(crate) const HTML_HELP: &str = "Draws as an HTML page, to be looked at in a browser";

pub(crate) const AROUND_HELP: &str = "With NO, events drawn around it, 0 to 1000";

pub(crate) const ALL_HELP: &str = "Draws the whole history, with NO too";

pub(crate) const CONVERT_ABOUT: &str = "Writes a history as a text of version 2";

pub(crate) const CONVERT_LONG: &str = "\
Input: the text of a history, as for `check`, from its first line to the line
`end N`.

Output: the text of the same history in version 2, which says after its first
line how many values the queue holds before the first event, and which. A text
of version 2 stays as it is. What `check` refuses is refused here too, with the
same line.

Status:
  0  converted
  2  refused: the input (REFUSED ..), or the arguments
  3  failed: a read, a write, or memory (FAULT ..)

Example:
  $ printf '%s\\n' 'fifo-history 1' '0 0 call-enq 7' '1 0 ret-enq' 'end 2' |
      fifobench convert
  fifo-history 2
  initial 0
  0 0 call-enq 7
  1 0 ret-enq
  end 2
";

pub(crate) const COMPLETE_ABOUT: &str = "Completes a history whose calls may be pending";

pub(crate) const COMPLETE_LONG: &str = "\
Input: the text of a history, as for `check`, in which calls may have no return;
or a pending text, which recorders write of a run that didn't end: its first
line is `fifo-pending 1` or `fifo-pending 2`, and before its last line a line
`open N` counts the calls without a return. With `--cut` such a text may also
end early: after its last whole line, calls without a return are pending.

Output: the text of a completion, in the version of the input. It is
linearizable if and only if some completion is (Herlihy and Wing 1990). A
pending enqueue returns if its value was dequeued, otherwise its call is left
out. Pending dequeues return, in the order of their calls, the values that no
dequeue returned: the initial values first, then the others in the order in
which their enqueues returned. A dequeue for which no value is left is left out.
Added returns come after the last event. A history without pending calls stays
as it is.

So `fifobench complete | fifobench check` judges a history with pending calls:
`NO` means that it isn't linearizable, however these calls may end.

Status:
  0  completed
  2  refused: the input (REFUSED ..), or the arguments
  3  failed: a read, a write, or memory (FAULT ..)

Example:
  $ printf '%s\\n' 'fifo-pending 1' '0 0 call-enq 7' '1 1 call-deq' \\
      '2 1 ret-deq 7' 'open 1' 'end 3' | fifobench complete
  fifo-history 1
  0 0 call-enq 7
  1 1 call-deq
  2 1 ret-deq 7
  3 0 ret-enq
  end 4
";

pub(crate) const CUT_HELP: &str = "Takes a text that ends early, as far as its lines go";

pub(crate) const STATS_ABOUT: &str = "Counts how far a history's operations overlap, and more";

pub(crate) const OVERTAKES_HELP: &str = "Lists the dequeues that overtook values";

pub(crate) const STATS_LONG: &str = "\
Input: the text of a history, as for `check`, from its first line to the line
`end N`.

Output: a line for each number, its name and its value:
  events               events
  operations           operations, each a call with its return
  threads              threads that have an event
  enqueued             enqueues that succeeded
  refused              enqueues that failed
  dequeued             dequeues that gave a value
  empty                dequeues that found the queue empty
  initial              values that the queue holds before the first event
  thread-changes       events of another thread than the event before
  overlapping          operations that overlap another one: neither returned
                       before the other was called
  overlapping-percent  their share of all operations, in percent, rounded down;
                       0.0 if there are no operations
  most-pending         the most operations that were pending at once
  most-in-queue        the most values definitely in the queue at once: their
                       enqueues had returned, and their dequeues had not been
                       called
  overtakes            dequeues that certainly overtook a value: it was enqueued
                       before theirs, and dequeued after theirs or never
  overtaken-at-most    the most values that one dequeue certainly overtook
  refused-at           for each failed enqueue, the most values that may have
                       been in the queue at once during the call: the least of
                       these numbers; no line if no enqueue failed

With `--overtakes` the output is a line for each dequeue that certainly overtook
a value, in the order of their calls, in place of the numbers: how many values
it overtook, the ticket of its call, and the value that it gave. There is no
line if none did.

What `check` refuses is refused here too, with the same line. A text that goes
on after its line `end N` is `REFUSED Trailing`: of what `stress` writes, take
the history on its own by `sed '/^end /q'`.

Status:
  0  counted
  2  refused: the input (REFUSED ..), or the arguments
  3  failed: a read, a write, or memory (FAULT ..)

Example:
  $ printf '%s\\n' 'fifo-history 1' '0 0 call-enq 7' '1 1 call-deq' \\
      '2 0 ret-enq' '3 1 ret-deq 7' 'end 4' | fifobench stats
  events 4
  operations 2
  threads 2
  enqueued 1
  refused 0
  dequeued 1
  empty 0
  initial 0
  thread-changes 3
  overlapping 2
  overlapping-percent 100.0
  most-pending 2
  most-in-queue 0
  overtakes 0
  overtaken-at-most 0
";

pub(crate) const SIM_ABOUT: &str = "Steps the recorder through a schedule, and judges it";

pub(crate) const SIM_LONG: &str = "\
Input: the text of a schedule. It begins with the line `fifo-schedule 1` and the
line `threads T ring R`, with 1 to 64 threads and rings of 2 to 65536 events,
and ends with the line `end N`, where N is the number of steps. Between them
stands a line for each step of a thread T:
  ask-enq T, ask-deq T   it draws the ticket of a call
  push T                 its held event goes into its ring
  effect T               its operation takes effect on a queue that keeps the
                         order
  say T taken            or it gets that answer: taken, not, got VALUE or
                         empty
  ret T                  it draws the ticket of the return
  drain T K              up to K events of its ring are collected
  close T                it is closed

Output: a line `REJECTED`, with the number of the step, from 1, and the reason,
for each step that the recorder refuses; then `OPEN` if some thread is not
closed or some ring is not empty, otherwise the text of the recorded history and
its verdict. Lines count from 1: step i is in line i + 2.

Status:
  0  yes, or open
  1  no
  2  refused: the input (REFUSED ..), or the arguments
  3  failed: a read, a write, or memory (FAULT ..)

Example:
  $ printf 'fifo-schedule 1\\nthreads 1 ring 2\\nask-enq 0\\nend 1\\n' |
      fifobench sim
  OPEN
";

pub(crate) const STRESS_ABOUT: &str = "Records what workers do with a queue, and judges it";

pub(crate) const STRESS_LONG: &str = "\
Input: none.

Output: the text of the recorded history and its verdict, which `verify` reads.
Runs of several workers differ, even with the same options, since the workers
run at the same time.

With `--local` or `--weak-empty` the run is judged under that condition, as by
`check`.

With `--producers K` the first K workers only enqueue and the others only
dequeue; `--seed` and `--percent` don't matter then. With 0, the default, each
worker enqueues and dequeues, as they say.

With `--initial K` the queue is given the values 274877906944, 274877906945, ..
before any worker starts, K of them, and the text of the history is of version
2. Where the queue has no room for one of them, `FAULT Preload PLACE` says for
which, counted from 0.

Queues: proved, proved-two-lock, proved-lock-free and proved-ring keep the
order, as is proved; locked, two-lock, array and seg are made to keep it; lifo,
doubling, inventing, shy and losing break it now and then, on purpose.
proved-ring has one producer and one consumer, so it needs `--threads 2
--producers 1`, or `--threads 1`.

Status:
  0  yes
  1  no
  2  refused: no such queue, more workers than it can have, or threads times
     operations above 1000000 (REFUSED ..), or the words of the command
  3  failed: the run, a write, or memory (FAULT ..)

Example:
  $ fifobench stress --queue locked --threads 1 --ops 1 --percent 100
  fifo-history 1
  0 0 call-enq 0
  1 0 ret-enq
  end 2
  YES
  0 1 0 enq 0
";

pub(crate) const QUIET_HELP: &str = "Prints the first line of the verdict alone";

pub(crate) const LOCAL_HELP: &str = "Judges the values of each producer alone";

pub(crate) const WEAK_EMPTY_HELP: &str = "Judges without empty dequeues";

pub(crate) const QUEUE_HELP: &str = "Name of the queue";

pub(crate) const THREADS_HELP: &str = "Workers, 1 to 32";

pub(crate) const OPERATIONS_HELP: &str = "Operations per worker, 0 to 100000";

pub(crate) const SEED_HELP: &str = "Seed of the plan, 0 to 4294967295";

pub(crate) const PERCENT_HELP: &str = "Enqueues in a hundred calls, 0 to 100";

pub(crate) const PRODUCERS_HELP: &str = "Workers that only enqueue, 0 to 32";

pub(crate) const RING_HELP: &str = "Events that a ring holds, 2 to 65536";

pub(crate) const INITIAL_HELP: &str = "Values in the queue first, 0 to 1000";
