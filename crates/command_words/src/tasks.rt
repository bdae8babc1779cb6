//! The requests of arguments.
ghost use Rattle.std.specs.Prelude.{◌≡◌, IfOk, IfErr, OnOk, Some, map, []};
ghost use Rattle.clap.specs.Kinds.{HasKind};
ghost use Rattle.clap.specs.Simple.{subcommand_rows_of};
ghost use Rattle.command_words.specs.Commands.{IsInRange, faults_in, is_quiet_in, is_quiet_subcommand};
ghost use Rattle.command_words.specs.Commands.{request_in, request_of, request_of_subcommand};
ghost use Rattle.command_words.specs.Inner.Commands.{IsAnswerable};

use crate::commands::the_command;
use crate::options::{
    Condition, DrawOptions, StressOptions, draw_options, is_quiet, judged_condition,
    lists_overtakings, stress_options, takes_cut,
};
use clap::{ArgMatches, Error};
use std::alloc::Global;
use std::convert::AsStr;

/// The request of a command.
#[derive(Clone, Copy, PartialEq, Eq)]
pub enum Task<'a> {
    /// Read a history and print its verdict.
    Check(Condition),
    /// Read a history, and print a smaller one that shows the same kind of violation, with its verdict.
    Shrink(Condition),
    /// Read a history and a claimed verdict, and print whether the claim is true.
    Verify(Condition),
    /// Read a history and a claimed verdict, and print a picture of both.
    Draw(DrawOptions),
    /// Read a history of either version of the text, and write it in version 2.
    Convert,
    /// Read a history in which calls may be pending, and write its completion.
    Complete {
        /// Whether a text that is cut off is read as far as it goes.
        takes_cut: bool,
    },
    /// Read a history, and print its statistics.
    Stats {
        /// Whether the dequeues that overtook values are printed instead.
        overtakes: bool,
    },
    /// Read a schedule, run it on the recorder's machine, and print the recorded history and its verdict.
    Sim,
    /// Run workers on a queue, and print the recorded history and its verdict.
    Stress(StressOptions<'a>),
}

/// A request, and the form of the answer.
#[derive(Clone, Copy, PartialEq, Eq)]
pub struct Order<'a> {
    /// The request.
    pub task: Task<'a>,
    /// Whether only the first line of the verdict is wanted.
    pub is_quiet: bool,
}

/// Parses the arguments, the first of which is the program's own name, or returns clap's error.
///
/// A mistake in the arguments is an error of status 2 by clap's `exit_code`. Arguments that ask for a help are one of
/// status 0, whose text is the help. The kind `OutOfMemory` comes only if memory ran out. A number out of the range
/// of its option is a mistake of kind `ValueValidation`.
pub fn order_in<'a, T: AsStr>(alloc: Global, args: &'a [T]) -> Result<Order<'a>, Error>
    ensures ok { OnOk result (faults_in (map T.text args.entry.now) ≡ []) }
    ensures task { IfOk result (λ order. request_in (map T.text args.entry.now) ≡ Some (request_of order.task)) }
    ensures quiet { IfOk result (λ order. order.is_quiet ≡ is_quiet_in (map T.text args.entry.now)) }
    ensures ranges { IfOk result (λ order. IsInRange (request_of order.task)) }
    ensures err { IfErr result (HasKind (faults_in (map T.text args.entry.now))) }
{
    let command = the_command(alloc)?;
    match command.try_get_matches_from(args) {
        Ok(matches) => {
            let task = task_of(&matches);
            let is_quiet = is_quiet_of(&matches);
            Ok(Order { task, is_quiet })
        }
        Err(error) => Err(error),
    }
}

// Returns whether the matched subcommand has its flag for a quiet answer.
fn is_quiet_of(matches: &ArgMatches<'_>) -> bool
    ensures { result ≡ is_quiet_subcommand (subcommand_rows_of matches.now) }
{
    match matches.subcommand() {
        Some((_name, options)) => is_quiet(options),
        None => false,
    }
}

// Returns the request in the matches of arguments without a fault.
fn task_of<'a>(matches: &ArgMatches<'a>) -> Task<'a>
    requires { IsAnswerable (subcommand_rows_of matches.now) }
    ensures task { request_of_subcommand (subcommand_rows_of matches.now) ≡ Some (request_of result) }
    ensures ranges { IsInRange (request_of result) }
{
    let Some((name, options)) = matches.subcommand() else {
        unreachable!()
    };
    match name {
        "check" => Task::Check(judged_condition(options)),
        "shrink" => Task::Shrink(judged_condition(options)),
        "verify" => Task::Verify(judged_condition(options)),
        "draw" => Task::Draw(draw_options(options)),
        "convert" => Task::Convert,
        "complete" => Task::Complete {
            takes_cut: takes_cut(options),
        },
        "stats" => Task::Stats {
            overtakes: lists_overtakings(options),
        },
        "sim" => Task::Sim,
        "stress" => Task::Stress(stress_options(options)),
        _ => unreachable!(),
    }
}
