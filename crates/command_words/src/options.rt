//! The options of `draw`, `complete`, `stats` and `stress`.
ghost use Rattle.std.specs.Prelude.{◌≡◌, ◌≤◌, ℕ, Some, IfSome};
ghost use Rattle.clap.specs.Matches.{found_of};
ghost use Rattle.clap.specs.Walk.{rows_of};
ghost use Rattle.command_words.specs.Options.{IsWithinRanges, around_in, condition_in, drawing_as, drawing_in};
ghost use Rattle.command_words.specs.Options.{form_in, has_flag, is_given, is_quiet, linearizability};
ghost use Rattle.command_words.specs.Options.{lists_overtakings, number_in, settings_in, settings_of, takes_cut};
ghost use Rattle.command_words.specs.Inner.Options.{HasDistance, HasNumber, HasSettings};

use clap::ArgMatches;

/// The condition that is judged: linearizability, or a weaker one.
#[derive(Clone, Copy, PartialEq, Eq)]
pub struct Condition {
    /// Whether the values of each producer are judged on their own.
    pub is_local: bool,
    /// Whether an empty dequeue promises nothing.
    pub is_weakly_empty: bool,
}

impl Condition {
    /// Returns the condition of linearizability.
    pub fn linearizable() -> Condition
        ensures { result ≡ linearizability }
    {
        Condition {
            is_local: false,
            is_weakly_empty: false,
        }
    }
}

/// Returns the condition in the matches of a command.
pub(crate) fn judged_condition(matches: &ArgMatches<'_>) -> Condition
    ensures { result ≡ condition_in (rows_of (found_of matches.now)) }
{
    Condition {
        is_local: has_flag(matches, "local"),
        is_weakly_empty: has_flag(matches, "weak-empty"),
    }
}

/// The form of a picture.
#[derive(Clone, Copy, PartialEq, Eq)]
pub enum PictureForm {
    /// An SVG document.
    Svg,
    /// An HTML page with that picture.
    Html,
    /// Lines of characters for a terminal.
    Terminal,
}

/// The greatest distance that `draw` accepts, in events.
pub const MAX_AROUND: u64 = 1000;

/// The options of `draw`.
#[derive(Clone, Copy, PartialEq, Eq)]
pub struct DrawOptions {
    pub form: PictureForm,
    /// For a `NO`, the number of events drawn before and after the operations that show it; the whole history if
    /// `None`.
    pub around: Option<usize>,
    /// The condition under which the history is decided, or the claim is evidence.
    pub condition: Condition,
}

impl DrawOptions {
    /// Returns the options of `draw` with the defaults for all but the form.
    pub fn new(form: PictureForm) -> DrawOptions
        ensures { result ≡ drawing_as form }
    {
        DrawOptions {
            form,
            around: Some(0),
            condition: Condition::linearizable(),
        }
    }
}

/// Returns the options in the matches of `draw`.
pub(crate) fn draw_options(matches: &ArgMatches<'_>) -> DrawOptions
    requires { HasDistance (rows_of (found_of matches.now)) }
    ensures drawing { result ≡ drawing_in (rows_of (found_of matches.now)) }
    ensures range { IfSome result.around (λ n. n ≤ MAX_AROUND) }
{
    DrawOptions {
        form: picture_form(matches),
        around: distance(matches),
        condition: judged_condition(matches),
    }
}

fn distance(matches: &ArgMatches<'_>) -> Option<usize>
    requires { HasDistance (rows_of (found_of matches.now)) }
    ensures around { result ≡ around_in (rows_of (found_of matches.now)) }
    ensures range { IfSome result (λ n. n ≤ MAX_AROUND) }
{
    if has_flag(matches, "all") {
        None
    } else {
        Some(number(matches, "around") as usize)
    }
}

/// Returns the form of the picture in the matches of `draw`.
fn picture_form(matches: &ArgMatches<'_>) -> PictureForm
    ensures { result ≡ form_in (rows_of (found_of matches.now)) }
{
    if has_flag(matches, "text") {
        PictureForm::Terminal
    } else if has_flag(matches, "html") {
        PictureForm::Html
    } else {
        PictureForm::Svg
    }
}

/// Returns whether the flag for a quiet answer is among the matches of a command.
pub(crate) fn is_quiet(matches: &ArgMatches<'_>) -> bool
    ensures { result ≡ is_quiet (rows_of (found_of matches.now)) }
{
    has_flag(matches, "quiet")
}

/// Returns whether the flag for texts that are cut off is among the matches of `complete`.
pub(crate) fn takes_cut(matches: &ArgMatches<'_>) -> bool
    ensures { result ≡ takes_cut (rows_of (found_of matches.now)) }
{
    has_flag(matches, "cut")
}

/// Returns whether the flag for dequeues that overtook is among the matches of `stats`.
pub(crate) fn lists_overtakings(matches: &ArgMatches<'_>) -> bool
    ensures { result ≡ lists_overtakings (rows_of (found_of matches.now)) }
{
    has_flag(matches, "overtakes")
}

fn has_flag(matches: &ArgMatches<'_>, name: &str) -> bool
    ensures { result ≡ has_flag name.now (rows_of (found_of matches.now)) }
{
    match matches.get_str(name) {
        None => false,
        Some(text) => is_given(text),
    }
}

fn is_given(text: &str) -> bool
    ensures { result ≡ is_given (Some text.now) }
{
    text == "true"
}

/// The options of `stress`.
#[derive(Clone, Copy, PartialEq, Eq)]
pub struct StressOptions<'a> {
    /// The name of the queue as it was given; there may be no such queue.
    pub queue: &'a str,
    /// The number of workers, 1 to 32.
    pub threads: usize,
    /// The number of operations of each worker, 0 to 100,000.
    pub operations: usize,
    /// The seed of the workers' plan, below 2^32.
    pub seed: u64,
    /// The approximate percentage of enqueues, 0 to 100.
    pub percent: u8,
    /// The number of workers that only enqueue, 0 to 32. The others only dequeue. If it is 0, each worker enqueues
    /// and dequeues, by the seed and the percentage.
    pub producers: usize,
    /// The capacity of each worker's ring, 2 to 65,536 events.
    pub ring: usize,
    /// The number of values that the queue holds before the run, 0 to 1,000.
    pub initial: usize,
    /// The condition under which the run is decided.
    pub condition: Condition,
}

/// Returns the options in the matches of `stress`.
pub(crate) fn stress_options<'a>(matches: &ArgMatches<'a>) -> StressOptions<'a>
    requires { HasSettings (rows_of (found_of matches.now)) }
    ensures settings { settings_of result ≡ settings_in (rows_of (found_of matches.now)) }
    ensures ranges { IsWithinRanges (settings_of result) }
{
    let Some(queue) = matches.get_str("queue") else {
        unreachable!()
    };
    StressOptions {
        queue,
        threads: number(matches, "threads") as usize,
        operations: number(matches, "ops") as usize,
        seed: number(matches, "seed"),
        percent: number(matches, "percent") as u8,
        producers: number(matches, "producers") as usize,
        ring: number(matches, "ring") as usize,
        initial: number(matches, "initial") as usize,
        condition: judged_condition(matches),
    }
}

// Returns the number of an option that the parser has checked.
fn number(matches: &ArgMatches<'_>, id: &str) -> u64
    requires { (low : ℕ) × (high : ℕ) × HasNumber id.now low high (rows_of (found_of matches.now)) }
    ensures { result ≡ number_in id.now (rows_of (found_of matches.now)) }
{
    let Some(text) = matches.get_str(id) else {
        unreachable!()
    };
    let Ok(number) = text.parse::<u64>() else {
        unreachable!()
    };
    number
}
