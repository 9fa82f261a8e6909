//! The words of the command line.
ghost use Rattle.std.specs.Prelude.{◌≡◌, false, map, option_map, IfOk, IfErr, MatchOption};
ghost use Rattle.clap.specs.Words.{App, HasKind, app_of, first_of, rule_of, subcommand_name_of, subcommand_rows_of, with_rule, with_subcommand};
ghost use Rattle.cdi_options.specs.Options as spec;

use cdi_base::limits::{MAX_DEPTH, MAX_TICKS};
use cdi_base::{Limits, Order, Settings};
use clap::builder::ValueParser;
use clap::error::ErrorKind;
use clap::{Arg, ArgAction, ArgMatches, Command, Error};
use std::alloc::{AllocError, Global};
use std::convert::AsStr;

/// What is done.
#[derive(Clone, Copy, Debug, PartialEq, Eq)]
pub enum Mode {
    /// The problems of a deployment are told, or that there is none.
    Check,
    /// A deployment is drawn as a graph, with its problems.
    Graph,
    /// A deployment is run on command lines.
    Run,
    /// A word of the output is explained; there is no deployment.
    Explain,
}

/// The most entries that a turn of a command may be set to have.
pub const MAX_SLICE: u32 = 100_000;

/// What the words of the command line ask for.
#[derive(Drop)]
pub struct Options<'a> {
    /// What is done.
    pub mode: Mode,
    /// The file of the deployment, or the empty text if there is none. A check and a drawing take `-` for the standard input.
    pub file: &'a str,
    /// The word that is explained, or the empty text if none is.
    pub word: &'a str,
    /// Whether a check writes what is wrong as lines of JSON.
    pub writes_json: bool,
    /// What is set for a run.
    pub settings: Settings,
    /// By turns of how many entries each command is carried out, from 1 to [`MAX_SLICE`]. No line of the output depends on it.
    pub slice: u32,
}

/// What the words of a run set.
#[derive(Clone, Copy)]
struct RunOptions {
    settings: Settings,
    slice: u32,
}

/// The version that `--version` tells.
const VERSION: &str = "0.1.0";

/// What stands below the list of subcommands in the help.
const NOTES: &str = "\
Examples:
  cdi check counter.json

  tells in a line that the deployment in counter.json is accepted, or in a line each what is wrong with it:
    P12 UnknownBody K#up

  cdi run counter.json < commands

  starts the deployment in counter.json, and answers that and each line of commands by a line:
    [\"call\",null,\"K\",[],\"up\",[]]    answered by  [\"value\",1]
    [\"shutdown\"]                    answered by  [\"done\"]

  cdi run counter.json --trace < commands

  also writes before each answer what was done for it, an entry on each line:
    [\"new\",1,\"K\"]
    [\"ready\",1]
    [\"run\",1,\"K#up\"]
    [\"did\",[\"set\",\"n\",1]]
    [\"did\",[\"give\",1]]
    [\"value\",1]

  cdi graph counter.json > counter.dot

  writes a graph of the deployment in counter.json, in the language of Graphviz, with its problems in red

  cdi explain Ambiguous

  tells what the word Ambiguous means, and so for each fault, problem, refusal, cause and exception

Exit status:
  0  the deployment is accepted, each line is answered, or the word is explained
  1  the deployment is refused; the output says why, and of a drawing the standard error
  2  the words of the command line are wrong, or the word isn't known
  3  a file can't be read, or reading, writing or memory failed
  4  each line is answered, but a command was cut, and the container has halted

docs/FORMS.md in the repository describes deployments, command lines and replies.";

/// What is told of the file of a mode that can read it from the standard input.
const FILE_OR_INPUT: &str = "The deployment, as JSON; - stands for the standard input";

/// What is told of an order that is none.
const NO_ORDER: &str = "invalid value for '--order <first|last>': it is neither first nor last";

/// An option with one value, of which the help tells a name.
fn value_option<'a>(alloc: Global, name: &'a str, value: &'a str, help: &'a str) -> Arg<'a>
    ensures rule { rule_of result ≡ spec.option_rule name.now }
    ensures own { result.global ≡ false }
{
    Arg::new(alloc, name)
        .long(name)
        .value_name(value)
        .help(help)
        .action(ArgAction::Set)
}

/// An option whose value is a number from 1 up to `most`.
fn number_option<'a>(alloc: Global, name: &'a str, most: u32, help: &'a str) -> Arg<'a>
    ensures rule { rule_of result ≡ spec.number_rule name.now most }
    ensures own { result.global ≡ false }
{
    value_option(alloc, name, "N", help).value_parser(ValueParser::unsigned(1, u64::from(most)))
}

/// The words of a mode: its name, and a text that has to be given.
fn mode_command<'a>(
    alloc: Global,
    name: &'a str,
    about: &'a str,
    subject: &'a str,
    help: &'a str,
) -> Result<Command<'a>, AllocError>
    ensures { IfOk result (spec.IsMode (spec.mode_form name.now subject.now)) }
{
    let subject = Arg::new(alloc, subject)
        .help(help)
        .required(true)
        .action(ArgAction::Set);
    Command::new(alloc, name).about(about).arg(subject)
}

/// The words of a mode with a deployment: its name, and the file.
fn file_command<'a>(
    alloc: Global,
    name: &'a str,
    about: &'a str,
    help: &'a str,
) -> Result<Command<'a>, AllocError>
    ensures { IfOk result (spec.IsMode (spec.file_form name.now)) }
{
    mode_command(alloc, name, about, "FILE", help)
}

/// A flag, of which the help tells something.
fn flag_option<'a>(alloc: Global, name: &'a str, help: &'a str) -> Arg<'a>
    ensures rule { rule_of result ≡ spec.flag_rule name.now }
    ensures own { result.global ≡ false }
{
    Arg::new(alloc, name)
        .long(name)
        .help(help)
        .action(ArgAction::SetTrue)
}

/// The words of a mode with one option more, if memory didn't run out for them. In a function of its own, so that no other options are
/// dropped where it does.
fn with_option<'a>(
    mode: Result<Command<'a>, AllocError>,
    option: Arg<'a>,
) -> Result<Command<'a>, AllocError>
    ensures { (form : App) → option.entry.global ≡ false → IfOk mode.entry (spec.IsMode form)
        → IfOk result (spec.IsMode (with_rule form (rule_of option.entry))) }
{
    mode?.arg(option)
}

/// The words of a check: those of a mode, and how it writes.
fn check_command<'a>(alloc: Global) -> Result<Command<'a>, AllocError>
    ensures { IfOk result (spec.IsMode spec.check_form) }
{
    let json = flag_option(
        alloc,
        "json",
        "Writes what is wrong as JSON, an object in a line, with its place in the file",
    );
    let about = "Tells all problems of a deployment, or that it is accepted";
    with_option(file_command(alloc, "check", about, FILE_OR_INPUT), json)
}

/// The words of a drawing: those of a mode.
fn graph_command<'a>(alloc: Global) -> Result<Command<'a>, AllocError>
    ensures { IfOk result (spec.IsMode spec.graph_form) }
{
    let about = "Draws a deployment as a graph, in the language of Graphviz";
    file_command(alloc, "graph", about, FILE_OR_INPUT)
}

/// The words of a run: those of a mode, and the options that set something for it.
fn run_command<'a>(alloc: Global) -> Result<Command<'a>, AllocError>
    ensures { IfOk result (spec.IsMode spec.run_form) }
{
    let about = "Runs a deployment on the command lines of the standard input";
    let file = file_command(alloc, "run", about, "The deployment, as JSON");
    let ticks = number_option(
        alloc,
        "ticks",
        MAX_TICKS,
        "The most entries of a command, from 1 to 100000 [default: 100000]",
    );
    let bounded = with_option(file, ticks);
    let depth = number_option(
        alloc,
        "depth",
        MAX_DEPTH,
        "The most levels of nested bodies, from 1 to 1024 [default: 32]",
    );
    let limited = with_option(bounded, depth);
    let order = value_option(
        alloc,
        "order",
        "first|last",
        "The candidate that is taken where the rules leave the order open [default: first]",
    );
    let ordered = with_option(limited, order);
    let trace = flag_option(
        alloc,
        "trace",
        "Writes the entries of each command before its reply",
    );
    let traced = with_option(ordered, trace);
    let slice = number_option(
        alloc,
        "slice",
        MAX_SLICE,
        "The most entries of a turn, by which each command is carried out, from 1 to 100000 [default: 100000]",
    );
    with_option(traced, slice)
}

/// The words that a text to explain takes.
fn explain_command<'a>(alloc: Global) -> Result<Command<'a>, AllocError>
    ensures { IfOk result (spec.IsMode spec.explain_form) }
{
    let about = "Tells what a word of the output means";
    let help = "A fault, a problem or its number, a refusal, a cause or an exception";
    mode_command(alloc, "explain", about, "WORD", help)
}

/// The words of the program with those of a mode, if memory didn't run out for these. In a function of its own, so that no other
/// words are dropped where it does.
fn with_mode<'a>(
    program: Command<'a>,
    mode: Result<Command<'a>, AllocError>,
) -> Result<Command<'a>, AllocError>
    ensures { (form : App) → IfOk mode.entry (spec.IsMode form)
        → IfOk result (λ c. app_of c ≡ with_subcommand (app_of program.entry) form.top) }
{
    program.subcommand(mode?)
}

/// The words that the program takes.
fn command<'a>(alloc: Global) -> Result<Command<'a>, AllocError>
    ensures { IfOk result (λ c. spec.IsCommand c) }
{
    let bare = Command::new(alloc, "cdi")
        .about("A container for Jakarta Contexts and Dependency Injection")
        .version(VERSION)
        .after_help(NOTES)
        .subcommand_required(true);
    let checks = with_mode(bare, check_command(alloc))?;
    let runs = with_mode(checks, run_command(alloc))?;
    let graphs = with_mode(runs, graph_command(alloc))?;
    with_mode(graphs, explain_command(alloc))
}

/// The mode that the words name.
fn mode_in(matches: &ArgMatches<'_>) -> Mode
    ensures { result ≡ spec.mode_of (subcommand_name_of matches.now) }
{
    match matches.subcommand_name() {
        Some(name) if name == "check" => Mode::Check,
        Some(name) if name == "graph" => Mode::Graph,
        Some(name) if name == "explain" => Mode::Explain,
        _ => Mode::Run,
    }
}

/// What stands in the words of the mode for the file or an option.
fn text_in<'a>(matches: &ArgMatches<'a>, name: &str) -> Option<&'a str>
    ensures { option_map (λ text. text.now) result
        ≡ first_of name.now (spec.rows_under (subcommand_rows_of matches.now)) }
{
    let (_mode, words) = matches.subcommand()?;
    words.get_str(name)
}

/// The number of an option, or the usual one; none where its text is no number from 1 to `most`.
fn number_in(text: Option<&str>, usual: u32, most: u32) -> Option<u32>
    ensures { result ≡ spec.number_in_range usual most (option_map (λ t. t.now) text.entry) }
{
    let Some(text) = text else {
        return Some(usual);
    };
    match text.parse::<u32>() {
        Ok(number) if 1 <= number && number <= most => Some(number),
        Ok(_) => None,
        Err(_) => None,
    }
}

/// The order of an option, or the first; none where its text names no order.
fn order_in(text: Option<&str>) -> Option<Order>
    ensures { result ≡ spec.order_if_any (option_map (λ t. t.now) text.entry) }
{
    match text {
        None => Some(Order::First),
        Some(text) if text == "first" => Some(Order::First),
        Some(text) if text == "last" => Some(Order::Last),
        Some(_) => None,
    }
}

/// Whether a flag is set.
fn is_set(text: Option<&str>) -> bool
    ensures { result ≡ spec.is_set (option_map (λ t. t.now) text.entry) }
{
    match text {
        Some(text) => text == "true",
        None => false,
    }
}

/// What the words set for a run; none if an option has a value that it can't have.
fn run_options_in(matches: &ArgMatches<'_>) -> Option<RunOptions>
    ensures { MatchOption result
        (spec.are_values (spec.rows_under (subcommand_rows_of matches.now)) ≡ false)
        (λ run. spec.Sets (spec.rows_under (subcommand_rows_of matches.now)) run.settings run.slice) }
{
    let usual = Settings::default();
    let depth = number_in(text_in(matches, "depth"), usual.limits.depth, MAX_DEPTH)?;
    let ticks = number_in(text_in(matches, "ticks"), usual.limits.ticks, MAX_TICKS)?;
    let order = order_in(text_in(matches, "order"))?;
    let slice = number_in(text_in(matches, "slice"), MAX_SLICE, MAX_SLICE)?;
    let settings = Settings {
        limits: Limits { depth, ticks },
        order,
        shows_trace: is_set(text_in(matches, "trace")),
    };
    Some(RunOptions { settings, slice })
}

impl<'a> Options<'a> {
    /// What the words ask for, of which the first is the program's name. An error is a request for help or for the
    /// version, a mistake in the words, or want of memory, and has the text for the user.
    pub fn parse<S: AsStr>(alloc: Global, words: &'a [S]) -> Result<Options<'a>, Error>
        ensures ok { IfOk result (spec.AsksFor (map S.text words.entry.now)) }
        ensures err { IfErr result (HasKind (spec.faults_in (map S.text words.entry.now))) }
    {
        let mut command = command(alloc)?;
        let matches = command.try_get_matches_from_mut(words)?;
        match run_options_in(&matches) {
            Some(RunOptions { settings, slice }) => Ok(Options {
                mode: mode_in(&matches),
                file: text_in(&matches, "FILE").unwrap_or(""),
                word: text_in(&matches, "WORD").unwrap_or(""),
                writes_json: is_set(text_in(&matches, "json")),
                settings,
                slice,
            }),
            // A number that is none or out of its range is an error of the parse, so it is the order.
            None => Err(command.error(ErrorKind::InvalidValue, NO_ORDER)?),
        }
    }
}
