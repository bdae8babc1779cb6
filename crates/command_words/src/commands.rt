//! The commands, as clap accepts them.
ghost use Rattle.std.specs.Prelude.{◌≡◌, IfOk, false};
ghost use Rattle.clap.specs.Simple.{with_rule, Shape, app_of, new_app, shape_of, with_subcommand};
ghost use Rattle.clap.specs.Walk.{rule_of};
ghost use Rattle.clap.specs.declared.builder.command.Command.TheViews.{out-Command};
ghost use Rattle.command_words.specs.Commands.{the_program, the_program_alone};
ghost use Rattle.command_words.specs.Inner.Built.{with_condition, with_first_four, with_kinds};
ghost use Rattle.command_words.specs.Inner.Built.{with_last_five, with_plan, with_sizes};
ghost use Rattle.command_words.specs.Options.{flag_rule, number_rule, queue_rule, quiet_rule, the_complete};
ghost use Rattle.command_words.specs.Options.{the_deciding, the_draw, the_judging, the_stats, the_stress, the_verify};

use crate::help;
use crate::options::MAX_AROUND;
use clap::builder::ValueParser;
use clap::{Arg, ArgAction, Command};
use event_records::{
    MAX_RING, MAX_SEED, MAX_STRESS_INITIAL, MAX_THREAD_OPERATIONS, MAX_WORKERS, MIN_RING,
};
use std::alloc::{AllocError, Global};

/// Returns the program with its subcommands.
pub(crate) fn the_command<'a>(alloc: Global) -> Result<Command<'a>, AllocError>
    ensures { IfOk result (λ c. app_of c ≡ the_program) }
{
    let half = with_first_four(alloc, program_alone(alloc))?;
    with_last_five(alloc, half)
}

// Adds the first four subcommands to the program.
fn with_first_four<'a>(alloc: Global, app: Command<'a>) -> Result<Command<'a>, AllocError>
    ensures { IfOk result (λ c. app_of c ≡ with_first_four (app_of app.entry)) }
{
    let check = deciding_command(alloc, "check", help::CHECK_ABOUT, help::CHECK_LONG);
    let with_check = with(app, check)?;
    let shrink = deciding_command(alloc, "shrink", help::SHRINK_ABOUT, help::SHRINK_LONG);
    let with_shrink = with(with_check, shrink)?;
    let with_verify = with(with_shrink, verify_command(alloc))?;
    with(with_verify, draw_command(alloc))
}

// Adds the last five subcommands to the program.
fn with_last_five<'a>(alloc: Global, app: Command<'a>) -> Result<Command<'a>, AllocError>
    ensures { IfOk result (λ c. app_of c ≡ with_last_five (app_of app.entry)) }
{
    let convert = plain_command(alloc, "convert", help::CONVERT_ABOUT, help::CONVERT_LONG);
    let with_convert = with(app, Ok(convert))?;
    let with_complete = with(with_convert, complete_command(alloc))?;
    let with_stats = with(with_complete, stats_command(alloc))?;
    let sim = judging_command(alloc, "sim", help::SIM_ABOUT, help::SIM_LONG);
    let with_sim = with(with_stats, sim)?;
    with(with_sim, stress_command(alloc))
}

// Returns the program without its subcommands.
fn program_alone<'a>(alloc: Global) -> Command<'a>
    ensures { app_of result ≡ the_program_alone }
{
    Command::new(alloc, "fifobench")
        .about(help::ABOUT)
        .after_help(help::SHORT)
        .after_long_help(help::LONG)
        .version(help::VERSION)
        .subcommand_required(true)
}

// Adds a subcommand to the program, or passes on that memory ran out.
fn with<'a>(
    app: Command<'a>,
    added: Result<Command<'a>, AllocError>,
) -> Result<Command<'a>, AllocError>
    requires { IfOk added (λ c. (out-Command c).has_globals ≡ false) }
    ensures { (shape : Shape) → IfOk added.entry (λ c. shape_of c ≡ shape)
        → IfOk result (λ c. app_of c ≡ with_subcommand (app_of app.entry) shape) }
{
    app.subcommand(added?)
}

// Returns a subcommand without options.
fn plain_command<'a>(alloc: Global, name: &'a str, about: &'a str, long: &'a str) -> Command<'a>
    ensures app { app_of result ≡ new_app name.entry.now }
    ensures local { (out-Command result).has_globals ≡ false }
{
    Command::new(alloc, name)
        .about(about)
        .after_help(help::MORE)
        .after_long_help(long)
}

// Returns a subcommand that judges, with the flag for a quiet answer.
fn judging_command<'a>(
    alloc: Global,
    name: &'a str,
    about: &'a str,
    long: &'a str,
) -> Result<Command<'a>, AllocError>
    ensures shape { IfOk result (λ c. shape_of c ≡ the_judging name.entry.now) }
    ensures local { IfOk result (λ c. (out-Command c).has_globals ≡ false) }
{
    plain_command(alloc, name, about, long).arg(quiet_option(alloc))
}

// Returns a subcommand that judges under a condition.
fn deciding_command<'a>(
    alloc: Global,
    name: &'a str,
    about: &'a str,
    long: &'a str,
) -> Result<Command<'a>, AllocError>
    ensures shape { IfOk result (λ c. shape_of c ≡ the_deciding name.entry.now) }
    ensures local { IfOk result (λ c. (out-Command c).has_globals ≡ false) }
{
    let quiet = plain_command(alloc, name, about, long).arg(quiet_option(alloc))?;
    with_condition(alloc, quiet)
}

fn verify_command<'a>(alloc: Global) -> Result<Command<'a>, AllocError>
    ensures shape { IfOk result (λ c. shape_of c ≡ the_verify) }
    ensures local { IfOk result (λ c. (out-Command c).has_globals ≡ false) }
{
    let command = plain_command(alloc, "verify", help::VERIFY_ABOUT, help::VERIFY_LONG);
    with_condition(alloc, command)
}

// Adds the flags for a weaker condition.
fn with_condition<'a>(alloc: Global, command: Command<'a>) -> Result<Command<'a>, AllocError>
    requires { (out-Command command).has_globals ≡ false }
    ensures app { IfOk result (λ c. app_of c ≡ with_condition (app_of command.entry)) }
    ensures local { IfOk result (λ c. (out-Command c).has_globals ≡ false) }
{
    command
        .arg(flag_option(alloc, "local", help::LOCAL_HELP))?
        .arg(flag_option(alloc, "weak-empty", help::WEAK_EMPTY_HELP))
}

fn quiet_option<'a>(alloc: Global) -> Arg<'a>
    ensures rule { rule_of result ≡ quiet_rule }
    ensures local { result.global ≡ false }
{
    Arg::new(alloc, "quiet")
        .short('q')
        .long("quiet")
        .action(ArgAction::SetTrue)
        .help(help::QUIET_HELP)
}

fn draw_command<'a>(alloc: Global) -> Result<Command<'a>, AllocError>
    ensures shape { IfOk result (λ c. shape_of c ≡ the_draw) }
    ensures local { IfOk result (λ c. (out-Command c).has_globals ≡ false) }
{
    let command = plain_command(alloc, "draw", help::DRAW_ABOUT, help::DRAW_LONG)
        .arg(flag_option(alloc, "text", help::TEXT_HELP))?
        .arg(flag_option(alloc, "html", help::HTML_HELP))?
        .arg(number_option(alloc, "around", (0, MAX_AROUND), "0", help::AROUND_HELP))?
        .arg(flag_option(alloc, "all", help::ALL_HELP))?;
    with_condition(alloc, command)
}

fn complete_command<'a>(alloc: Global) -> Result<Command<'a>, AllocError>
    ensures shape { IfOk result (λ c. shape_of c ≡ the_complete) }
    ensures local { IfOk result (λ c. (out-Command c).has_globals ≡ false) }
{
    let flag = flag_option(alloc, "cut", help::CUT_HELP);
    with_flag(
        plain_command(alloc, "complete", help::COMPLETE_ABOUT, help::COMPLETE_LONG),
        flag,
    )
}

fn stats_command<'a>(alloc: Global) -> Result<Command<'a>, AllocError>
    ensures shape { IfOk result (λ c. shape_of c ≡ the_stats) }
    ensures local { IfOk result (λ c. (out-Command c).has_globals ≡ false) }
{
    let flag = flag_option(alloc, "overtakes", help::OVERTAKES_HELP);
    with_flag(
        plain_command(alloc, "stats", help::STATS_ABOUT, help::STATS_LONG),
        flag,
    )
}

// Adds one option.
fn with_flag<'a>(command: Command<'a>, flag: Arg<'a>) -> Result<Command<'a>, AllocError>
    requires { ((out-Command command).has_globals ≡ false) × (flag.global ≡ false) }
    ensures app { IfOk result (λ c. app_of c ≡ with_rule (app_of command.entry) (rule_of flag.entry)) }
    ensures local { IfOk result (λ c. (out-Command c).has_globals ≡ false) }
{
    command.arg(flag)
}

fn flag_option<'a>(alloc: Global, name: &'a str, about: &'a str) -> Arg<'a>
    ensures rule { rule_of result ≡ flag_rule name.entry.now }
    ensures local { result.global ≡ false }
{
    Arg::new(alloc, name)
        .long(name)
        .action(ArgAction::SetTrue)
        .help(about)
}

fn stress_command<'a>(alloc: Global) -> Result<Command<'a>, AllocError>
    ensures shape { IfOk result (λ c. shape_of c ≡ the_stress) }
    ensures local { IfOk result (λ c. (out-Command c).has_globals ≡ false) }
{
    let command = plain_command(alloc, "stress", help::STRESS_ABOUT, help::STRESS_LONG);
    let half = with_plan(alloc, command)?;
    let whole = with_kinds(alloc, half)?;
    let strict = with_sizes(alloc, whole)?;
    with_condition(alloc, strict)
}

// Adds the options for the queue, the workers, the operations of each, and the seed.
fn with_plan<'a>(alloc: Global, command: Command<'a>) -> Result<Command<'a>, AllocError>
    requires { (out-Command command).has_globals ≡ false }
    ensures app { IfOk result (λ c. app_of c ≡ with_plan (app_of command.entry)) }
    ensures local { IfOk result (λ c. (out-Command c).has_globals ≡ false) }
{
    command
        .arg(queue_option(alloc))?
        .arg(number_option(
            alloc,
            "threads",
            (1, MAX_WORKERS as u64),
            "2",
            help::THREADS_HELP,
        ))?
        .arg(number_option(
            alloc,
            "ops",
            (0, MAX_THREAD_OPERATIONS),
            "1000",
            help::OPERATIONS_HELP,
        ))?
        .arg(number_option(alloc, "seed", (0, MAX_SEED), "1", help::SEED_HELP))
}

// Adds the options for the percentage of enqueues and for the producers.
fn with_kinds<'a>(alloc: Global, command: Command<'a>) -> Result<Command<'a>, AllocError>
    requires { (out-Command command).has_globals ≡ false }
    ensures app { IfOk result (λ c. app_of c ≡ with_kinds (app_of command.entry)) }
    ensures local { IfOk result (λ c. (out-Command c).has_globals ≡ false) }
{
    command
        .arg(number_option(alloc, "percent", (0, 100), "50", help::PERCENT_HELP))?
        .arg(number_option(
            alloc,
            "producers",
            (0, MAX_WORKERS as u64),
            "0",
            help::PRODUCERS_HELP,
        ))
}

// Adds the options for two sizes, and the flag for a quiet answer.
fn with_sizes<'a>(alloc: Global, command: Command<'a>) -> Result<Command<'a>, AllocError>
    requires { (out-Command command).has_globals ≡ false }
    ensures app { IfOk result (λ c. app_of c ≡ with_sizes (app_of command.entry)) }
    ensures local { IfOk result (λ c. (out-Command c).has_globals ≡ false) }
{
    command
        .arg(number_option(
            alloc,
            "ring",
            (MIN_RING as u64, MAX_RING as u64),
            "1024",
            help::RING_HELP,
        ))?
        .arg(number_option(
            alloc,
            "initial",
            (0, MAX_STRESS_INITIAL),
            "0",
            help::INITIAL_HELP,
        ))?
        .arg(quiet_option(alloc))
}

fn queue_option<'a>(alloc: Global) -> Arg<'a>
    ensures rule { rule_of result ≡ queue_rule }
    ensures local { result.global ≡ false }
{
    Arg::new(alloc, "queue")
        .long("queue")
        .value_name("NAME")
        .required(true)
        .help(help::QUEUE_HELP)
}

// Returns an option whose value is a number in `range`, both ends included.
fn number_option<'a>(
    alloc: Global,
    name: &'a str,
    range: (u64, u64),
    default: &'a str,
    help: &'a str,
) -> Arg<'a>
    ensures rule { rule_of result ≡ number_rule name.entry.now range.0 range.1 default.entry.now }
    ensures local { result.global ≡ false }
{
    Arg::new(alloc, name)
        .long(name)
        .value_name("NUMBER")
        .value_parser(ValueParser::Unsigned(range.0, range.1))
        .default_value(default)
        .help(help)
}
