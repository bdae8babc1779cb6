//! Laws of the command line, as contracts of functions that do nothing when they run.
ghost use Rattle.std.specs.Prelude.{◌≡◌, List, [], IsSomeAnd};
ghost use Rattle.clap.specs.Walk.{Text};
ghost use Rattle.command_words.specs.Commands.{IsInRange, faults_in, request_in};

/// Proves that arguments without a fault make a request, each number of which is in the range of its option.
///
/// So each list of arguments is a command or has a fault.
pub fn words_without_a_fault_are_a_command()
    ensures { (args : List Text) → faults_in args ≡ [] → IsSomeAnd (request_in args) IsInRange }
{}
