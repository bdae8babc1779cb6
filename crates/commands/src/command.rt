//! A run of the program.
ghost use Rattle.std.specs.Prelude.{◌≡◌, ◌≢◌, ◌≤◌, Bool, Some, [], false, map};
ghost use Rattle.command_words.specs.Commands.{Request, stress, is_quiet_in, request_in, request_of, faults_in};
ghost use Rattle.command_words.specs.Commands.{IsInRange};
ghost use Rattle.command_words.specs.Options.{Settings};
ghost use Rattle.commands.specs.Judging.{AnswersOrNoMemory};
ghost use Rattle.commands.specs.Outcomes.{answer_of, NamesPlaces};
ghost use Rattle.commands.specs.Running.{AnswersOf, Behind, PrintsOneOf, ExplainsUse, SaysMessage, WritesAndFlushes};
ghost use Rattle.commands.specs.Inner.Running.{Explains};
ghost use Rattle.commands.specs.Stressing.{Stresses};
ghost use Rattle.clap.specs.Values.{kind_of};
ghost use Rattle.text_lines.specs.Input.{OfInput, known_of};

use crate::complete::complete;
use crate::draw::draw;
use crate::histories::{check, convert, stats, verify};
use crate::outcome::Outcome;
use crate::pipes::{Muted, Piped};
use crate::print::{print_memory, print_outcome, print_text};
use crate::shrink::shrink;
use crate::sim::sim;
use crate::stderr::{Ended, Terminals, greet, say_at_end, say_mistake};
use crate::stress::{NamedQueue, stress};
use clap::Error;
use clap::error::ErrorKind;
use command_words::{Task, order_in};
use history_text::{Buffered, TextSink, TextSource, Watched};
use messages::FrontKept;
use std::alloc::Global;
use std::convert::AsStr;
use std::io::{Read, Write};
use std::sync::Wait;
use std::sync::atomic::AtomicBool;
use std::thread::Threads;

/// Runs the command that the arguments name and returns the status.
///
/// The first argument is the program's name. `stress` runs the first queue of its name on the shelf, and reads
/// nothing. The other commands read their input whole. Everything is computed before the first byte is written, and
/// the writer is flushed once, at the end. Then standard error says why, if the status is 2 or 3. Whether that can be
/// written doesn't matter. Two commands wait: `check` for the threads of its searches, `stress` for these and for its
/// workers, and so for the queue.
pub fn run_command<'a, R, T, S, W, E>(
    rt: &R,
    args: &'a [T],
    reader: S,
    writer: &mut W,
    errors: &mut E,
    terminals: Terminals,
    shelf: &[NamedQueue<'a>],
) -> u8
where
    R: AllocGlobal + Threads + Wait + Sync,
    T: AsStr,
    S: TextSource + Drop,
    W: TextSink,
    E: TextSink,
    requires fresh { W.has_refused writer.old ≡ false }

    // The arguments are a command that reads: the answer to some input that the source may give is printed, the known
    // one if the source is known; or that memory ran out for the arguments.
    ensures reads { (request : Request) → faults_in (map T.text args.entry.now) ≡ []
        → request_in (map T.text args.entry.now) ≡ Some request
        → OfInput (S.ahead reader)
        (λ input. PrintsOneOf (is_quiet_in (map T.text args.entry.now)) (AnswersOrNoMemory (AnswersOf request) input)
        (W.contents writer.old) (W.contents writer.new) (W.has_refused writer.new) result) }

    // The arguments are `stress`: the answer of a run on the shelf is printed.
    ensures stresses { (settings : Settings) → faults_in (map T.text args.entry.now) ≡ []
        → request_in (map T.text args.entry.now) ≡ Some (stress settings)
        → PrintsOneOf (is_quiet_in (map T.text args.entry.now))
        (AnswersOrNoMemory (Stresses (λ s. s.name.now) (λ s. may s.queue)
        (λ s. may_preload s.queue) shelf.now) settings)
        (W.contents writer.old) (W.contents writer.new) (W.has_refused writer.new) result }

    // Other arguments: a text about the use of the program is printed.
    ensures usage { (faults_in (map T.text args.entry.now) ≢ [])
        → ExplainsUse (faults_in (map T.text args.entry.now)) (W.contents writer.old) (W.contents writer.new)
        (W.has_refused writer.new) result }

    // The writer is written to and then flushed once, or it refuses and is asked for nothing more.
    ensures asked { WritesAndFlushes W.transition (W.has_refused writer.new) writer.old writer.new }

    // So a writer that refused nothing holds nothing back.
    ensures passed_on { W.has_refused writer.new ≡ false → W.holds_back writer.new ≡ false }

    // With status 0 or 1, as for `YES`, `NO` and a help, standard error gets nothing, unless a terminal is there.
    ensures silent { terminals.input ≡ false → terminals.output ≡ false → result ≤ 1 → errors.new ≡ errors.old }

    // With status 2 or 3 of a command it gets a message of one or two lines.
    ensures said { faults_in (map T.text args.entry.now) ≡ [] → terminals.input ≡ false → terminals.output ≡ false
        → E.has_refused errors.old ≡ false → 2 ≤ result
        → SaysMessage (E.contents errors.old) (E.contents errors.new) (E.has_refused errors.new) }
{
    let order = match order_in(rt.alloc(), args) {
        Ok(order) => order,
        Err(error) => {
            let status = explain(rt.alloc(), &error, writer);
            say_mistake(rt.alloc(), args, &error, status, terminals, errors);
            return status;
        }
    };
    greet(rt.alloc(), &order.task, terminals, errors);
    let mut kept = FrontKept::new(rt.alloc(), reader);
    let outcome = outcome_of(rt, order.task, &mut kept, shelf);
    let status = print_outcome(&outcome, order.is_quiet, writer);
    let ended = Ended {
        order: &order,
        outcome: &outcome,
        kept: &kept,
        shelf,
    };
    say_at_end(rt.alloc(), &ended, status, terminals, errors);
    drop(outcome);
    status
}

/// The end of a run of the program: its exit status, and the two streams that it wrote to.
#[derive(Drop)]
pub struct Exit<O, E> {
    pub status: u8,
    pub output: O,
    pub errors: E,
}

/// Runs the command over a reader and writers of std, as [`run_command`] does.
///
/// The answer is that to the bytes of the reader, as far as std says them, or to a prefix of them if a read fails. If
/// the reader of the output has left, standard error gets nothing.
pub fn run_over<'a, R, T, I, O, E>(
    rt: &R,
    args: &'a [T],
    input: I,
    output: O,
    errors: E,
    terminals: Terminals,
    shelf: &[NamedQueue<'a>],
) -> Exit<O, E>
where
    R: AllocGlobal + Threads + Wait + Sync,
    T: AsStr,
    I: Read + Drop,
    O: Write + Drop,
    E: Write + Drop,

    // The answer to the input is printed, or that memory ran out for the arguments.
    ensures reads { (request : Request) → faults_in (map T.text args.entry.now) ≡ []
        → request_in (map T.text args.entry.now) ≡ Some request
        → OfInput (known_of (I.remaining input))
        (λ read. Behind (λ new refused. PrintsOneOf (is_quiet_in (map T.text args.entry.now))
        (AnswersOrNoMemory (AnswersOf request) read) (O.contents output) new refused result.status)
        (O.contents result.output)) }

    // The answer of a run on the shelf is printed.
    ensures stresses { (settings : Settings) → faults_in (map T.text args.entry.now) ≡ []
        → request_in (map T.text args.entry.now) ≡ Some (stress settings)
        → Behind (λ new refused. PrintsOneOf (is_quiet_in (map T.text args.entry.now))
        (AnswersOrNoMemory (Stresses (λ s. s.name.now) (λ s. may s.queue)
        (λ s. may_preload s.queue) shelf.now) settings)
        (O.contents output) new refused result.status) (O.contents result.output) }

    // Other arguments: a text about the use of the program is printed.
    ensures usage { (faults_in (map T.text args.entry.now) ≢ [])
        → Behind (λ new refused. ExplainsUse (faults_in (map T.text args.entry.now))
        (O.contents output) new refused result.status)
        (O.contents result.output) }

    // With status 0 or 1 standard error gets nothing, unless a terminal is there.
    ensures silent { terminals.input ≡ false → terminals.output ≡ false → result.status ≤ 1 → result.errors ≡ errors }

    // With status 2 or 3 of a command it gets a message of one or two lines, or a prefix of one.
    ensures said { faults_in (map T.text args.entry.now) ≡ [] → terminals.input ≡ false → terminals.output ≡ false
        → 2 ≤ result.status
        → (refused : Bool) × SaysMessage (E.contents errors) (E.contents result.errors) refused }
{
    let is_broken = AtomicBool::new(false);
    let mut output = Buffered::new(Watched::new(Piped {
        inner: output,
        is_broken: &is_broken,
    }));
    let mut errors = Watched::new(Muted {
        inner: errors,
        is_broken: &is_broken,
    });
    let status = run_command(
        rt,
        args,
        Watched::new(input),
        &mut output,
        &mut errors,
        terminals,
        shelf,
    );
    Exit {
        status,
        output: output.into_inner().into_inner().into_inner(),
        errors: errors.into_inner().into_inner(),
    }
}

/// Runs a command over its input or the shelf.
fn outcome_of<'a, R, S>(rt: &R, task: Task<'a>, reader: S, shelf: &[NamedQueue<'a>]) -> Outcome
where
    R: AllocGlobal + Threads + Wait + Sync,
    S: TextSource + Drop,
    requires { IsInRange (request_of task) }
    ensures reads { OfInput (S.ahead reader) (λ input. AnswersOf (request_of task.entry) input (answer_of result)) }
    ensures stresses { (settings : Settings) → request_of task.entry ≡ stress settings
        → Stresses (λ s. s.name.now) (λ s. may s.queue) (λ s. may_preload s.queue) shelf.now settings
        (answer_of result) }
    ensures places { NamesPlaces result }
{
    match task {
        Task::Check(condition) => return check(rt, rt.alloc(), reader, condition),
        Task::Shrink(condition) => return shrink(rt.alloc(), reader, condition),
        Task::Verify(condition) => return verify(rt.alloc(), reader, condition),
        Task::Draw(options) => return draw(rt.alloc(), reader, options),
        Task::Convert => return convert(rt.alloc(), reader),
        Task::Complete { takes_cut } => return complete(rt.alloc(), reader, takes_cut),
        Task::Stats { overtakes } => return stats(rt.alloc(), reader, overtakes),
        Task::Sim => return sim(rt.alloc(), reader),
        Task::Stress(options) => return stress(rt, rt.alloc(), shelf, &options),
    }
}

/// Writes the usage error, or the help that was asked for.
fn explain<W: TextSink>(alloc: Global, error: &Error, writer: &mut W) -> u8
    requires fresh { W.has_refused writer.old ≡ false }
    ensures printed { Explains (kind_of error.now) (W.contents writer.old) (W.contents writer.new)
        (W.has_refused writer.new) result }
    ensures asked { WritesAndFlushes W.transition (W.has_refused writer.new) writer.old writer.new }
    ensures passed_on { W.has_refused writer.new ≡ false → W.holds_back writer.new ≡ false }
{
    if error.kind() == ErrorKind::OutOfMemory {
        return print_memory(writer);
    }
    let status = match error.kind() {
        ErrorKind::DisplayHelp | ErrorKind::DisplayVersion => 0,
        _ => 2,
    };
    match format!(in alloc; "{error}") {
        Ok(text) => print_text(text.as_bytes(), status, writer),
        Err(_) => print_memory(writer),
    }
}
