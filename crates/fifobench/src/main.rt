//! The program `fifobench`: one subcommand over the standard streams, or a run of one of the built-in queues.
#![tactic(auto)]

use commands::{
    NamedQueue, StartFault, Terminals, args_of, built_ins, print_start_fault, run_over,
};
use history_text::{Buffered, Watched};
use std::alloc::Global;
use std::fs;
use std::fs::Files;
use std::io::{IsTerminal, Write};
use std::os::unix::fs::MetadataExt;
use std::process::ExitCode;

/// Size of the largest block from which glibc learns how much freed memory to keep: 32 MiB, less what it adds to a
/// block.
const LARGE_BLOCK: usize = (32 << 20) - (8 << 10);

fn main(rt: HostRuntime) -> ExitCode {
    drop(large_block(rt.alloc()));
    let terminals = Terminals {
        input: rt.stdin().is_terminal(),
        output: rt.stdout().is_terminal(),
        is_one_file: is_one_file(&rt),
    };
    let errors = rt.stderr();
    let args = match args_of(&rt) {
        Ok(args) => args,
        Err(fault) => return explain_start(&rt, fault, errors, terminals),
    };
    let Ok(queues) = built_ins(rt, rt.alloc()) else {
        return explain_start(&rt, StartFault::Memory, errors, terminals);
    };
    let mut shelf: Vec<NamedQueue> = Vec::new(rt.alloc());
    for queue in queues {
        let name = queue.name();
        let Ok(queue) = Box::new(rt.alloc(), queue) else {
            return explain_start(&rt, StartFault::Memory, errors, terminals);
        };
        if shelf.push(NamedQueue { name, queue }).is_err() {
            return explain_start(&rt, StartFault::Memory, errors, terminals);
        }
    }
    let output = std::io::writer(&rt);
    let exit = run_over(&rt, &args, rt.reader(), output, errors, terminals, &shelf);
    ExitCode::from(exit.status)
}

/// Returns whether standard output and standard error are the same file, so that whoever reads one also reads the
/// other.
fn is_one_file<R: Files>(rt: &R) -> bool {
    match (
        fs::metadata(rt, "/dev/stdout"),
        fs::metadata(rt, "/dev/stderr"),
    ) {
        (Ok(output), Ok(errors)) => output.dev() == errors.dev() && output.ino() == errors.ino(),
        _ => false,
    }
}

/// Prints why the command can't begin, and returns its status.
fn explain_start<R: Print, E: Write>(
    rt: &R,
    fault: StartFault,
    errors: E,
    terminals: Terminals,
) -> ExitCode
where
    E: Drop,
{
    let mut writer = Buffered::new(Watched::new(std::io::writer(rt)));
    let mut errors = Watched::new(errors);
    ExitCode::from(print_start_fault(fault, &mut writer, &mut errors, terminals))
}

/// Allocates a large block of memory, if there is one, and uses nothing of it.
///
/// Once such a block is freed, glibc keeps the memory that later lists free, and gives it to further lists. Otherwise
/// each large list is new memory from the system, whose pages cost up to a tenth of a check's time.
#[inline(never)]
fn large_block(alloc: Global) -> Option<Vec<u8>> {
    Vec::with_capacity(alloc, LARGE_BLOCK).ok()
}
