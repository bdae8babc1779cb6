use clap::error::ErrorKind;
use command_words::{Condition, DrawOptions, Order, PictureForm, StressOptions, Task, order_in};
use std::alloc::{AllocError, Global};
use std::test::Fail;

const STRICT: Condition = Condition {
    is_local: false,
    is_weakly_empty: false,
};

const LOCAL: Condition = Condition {
    is_local: true,
    is_weakly_empty: false,
};

const WEAK: Condition = Condition {
    is_local: false,
    is_weakly_empty: true,
};

const BOTH: Condition = Condition {
    is_local: true,
    is_weakly_empty: true,
};

/// Returns whether the command line asks for this task, and for this kind of answer.
fn asks_for(alloc: Global, line: &str, task: Task<'_>, is_quiet: bool) -> Result<bool, Fail> {
    let args: Vec<&str> = line.split_whitespace().collect(alloc)?;
    Ok(order_in(alloc, &args)? == Order { task, is_quiet })
}

/// Returns whether the command line has a fault of this kind. Out of memory is an error of its own.
fn has_fault(alloc: Global, line: &str, kind: ErrorKind) -> Result<bool, AllocError> {
    let args: Vec<&str> = line.split_whitespace().collect(alloc)?;
    match order_in(alloc, &args) {
        Ok(_) => Ok(false),
        Err(error) if error.kind() == ErrorKind::OutOfMemory => Err(AllocError),
        Err(error) => Ok(error.kind() == kind),
    }
}

/// Returns the task of a picture of this form, around this operation or of all.
fn drawing(form: PictureForm, around: Option<usize>) -> Task<'static> {
    Task::Draw(DrawOptions {
        form,
        around,
        condition: STRICT,
    })
}

#[test]
fn words_name_tasks(rt: HostRuntime) -> Result<(), Fail> {
    let svg = Task::Draw(DrawOptions::new(PictureForm::Svg));
    let tasks = [
        ("fifobench check", Task::Check(STRICT), false),
        ("fifobench check -q", Task::Check(STRICT), true),
        ("fifobench check --quiet", Task::Check(STRICT), true),
        ("fifobench shrink", Task::Shrink(STRICT), false),
        ("fifobench verify", Task::Verify(STRICT), false),
        ("fifobench check --local", Task::Check(LOCAL), false),
        ("fifobench check --weak-empty -q", Task::Check(WEAK), true),
        (
            "fifobench shrink --weak-empty --local",
            Task::Shrink(BOTH),
            false,
        ),
        ("fifobench verify --local", Task::Verify(LOCAL), false),
        ("fifobench convert", Task::Convert, false),
        (
            "fifobench complete",
            Task::Complete { takes_cut: false },
            false,
        ),
        (
            "fifobench complete --cut",
            Task::Complete { takes_cut: true },
            false,
        ),
        ("fifobench stats", Task::Stats { overtakes: false }, false),
        (
            "fifobench stats --overtakes",
            Task::Stats { overtakes: true },
            false,
        ),
        ("fifobench sim", Task::Sim, false),
        ("fifobench draw", svg, false),
        (
            "fifobench draw --text",
            drawing(PictureForm::Terminal, Some(0)),
            false,
        ),
        (
            "fifobench draw --html",
            drawing(PictureForm::Html, Some(0)),
            false,
        ),
        (
            "fifobench draw --around 20",
            drawing(PictureForm::Svg, Some(20)),
            false,
        ),
        (
            "fifobench draw --all --around 20",
            drawing(PictureForm::Svg, None),
            false,
        ),
    ];
    for (line, task, is_quiet) in tasks {
        assert!(rt; asks_for(rt.alloc(), line, task, is_quiet)?, "{line}");
    }
    Ok(())
}

/// The options of a run for which only the queue is given.
const DEFAULTS: StressOptions<'_> = StressOptions {
    queue: "locked",
    threads: 2,
    operations: 1000,
    seed: 1,
    percent: 50,
    producers: 0,
    ring: 1024,
    initial: 0,
    condition: STRICT,
};

/// All options at their maximum but one, shuffled.
const GREATEST: &str = "fifobench stress --ring=65536 --percent 0 --seed 4294967295 --ops 100000 \
    --weak-empty --threads 32 --producers 32 --initial=1000 --queue=two-lock --local";

/// The options of that command line.
const GREATEST_OPTIONS: StressOptions<'_> = StressOptions {
    queue: "two-lock",
    threads: 32,
    operations: 100_000,
    seed: 4_294_967_295,
    percent: 0,
    producers: 32,
    ring: 65_536,
    initial: 1000,
    condition: BOTH,
};

#[test]
fn options_are_read(rt: HostRuntime) -> Result<(), Fail> {
    for (line, options) in [
        ("fifobench stress --queue locked", DEFAULTS),
        (GREATEST, GREATEST_OPTIONS),
    ] {
        assert!(rt;
            asks_for(rt.alloc(), line, Task::Stress(options), false)?,
            "{line}"
        );
    }
    Ok(())
}

#[test]
fn mistaken_words_are_faults(rt: HostRuntime) -> Result<(), Fail> {
    let faults = [
        (
            "fifobench stress --queue seg --threads 33",
            ErrorKind::ValueValidation,
        ),
        (
            "fifobench stress --queue seg --threads 0",
            ErrorKind::ValueValidation,
        ),
        (
            "fifobench stress --queue seg --ops 100001",
            ErrorKind::ValueValidation,
        ),
        (
            "fifobench stress --queue seg --seed 4294967296",
            ErrorKind::ValueValidation,
        ),
        (
            "fifobench stress --queue seg --percent 101",
            ErrorKind::ValueValidation,
        ),
        (
            "fifobench stress --queue seg --producers 33",
            ErrorKind::ValueValidation,
        ),
        (
            "fifobench stress --queue seg --ring 1",
            ErrorKind::ValueValidation,
        ),
        (
            "fifobench stress --queue seg --ring 65537",
            ErrorKind::ValueValidation,
        ),
        (
            "fifobench stress --queue seg --initial 1001",
            ErrorKind::ValueValidation,
        ),
        (
            "fifobench stress --queue seg --ops many",
            ErrorKind::ValueValidation,
        ),
        ("fifobench draw --around 1001", ErrorKind::ValueValidation),
        ("fifobench draw --svg", ErrorKind::UnknownArgument),
        (
            "fifobench stress --threads 3",
            ErrorKind::MissingRequiredArgument,
        ),
        ("fifobench", ErrorKind::MissingSubcommand),
        ("fifobench judge", ErrorKind::InvalidSubcommand),
        ("fifobench help", ErrorKind::DisplayHelp),
        ("fifobench stress --help", ErrorKind::DisplayHelp),
    ];
    for (line, kind) in faults {
        assert!(rt; has_fault(rt.alloc(), line, kind)?, "{line}");
    }
    Ok(())
}
