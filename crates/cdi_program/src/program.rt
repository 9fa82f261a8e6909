//! The program: from the words of the command line to the exit status.
ghost use Rattle.std.specs.Prelude.{◌≡◌, map};
ghost use Rattle.clap.specs.Words.{kind_of};
ghost use Rattle.cdi_program.specs.Program as spec;
ghost use Rattle.cdi_program.specs.Streams.{ends_of, input_of, output_of};

use crate::drawing::{Drawing, drawing_in};
use crate::explaining::{WordAnswer, answer_on};
use crate::files::Files;
use crate::input::take_front;
use crate::status::{FAULT, REFUSED, USAGE, is_shown, status_of, status_of_findings};
use crate::telling::{
    tell, tell_ending, tell_of_file, tell_refused, tell_text, tell_verdict, tell_warning,
};
use crate::words::WordsError;
use cdi_findings::findings_in;
use cdi_lines::{ServeFault, Sink, Source};
use cdi_options::{Mode, Options};
use cdi_report::report;
use cdi_shell::drive::drive;
use clap::Error;
use clap::error::ErrorKind;
use std::alloc::Global;
use std::convert::AsStr;

/// What stands for the standard input in the place of a file.
const INPUT: &str = "-";

/// The most bytes that are read of a file: one more than a deployment has at most, so that a longer one is told as that.
pub const MAX_READ: usize = 1_048_577;

/// Writes a text that is asked for.
pub(crate) fn show<R: Source, W: Sink, E: Sink>(
    text: &str,
    input: &R,
    output: &mut W,
    errors: &mut E,
) -> u8
    ensures { spec.Shows text.now
        (ends_of (input_of R.unread R.has_failed)
        (output_of W.written W.has_failed W.is_passed_on)
        (output_of E.written E.has_failed E.is_passed_on)
        input.now input.now output.old output.new errors.old errors.new) result }
{
    match output.write_through(text.as_bytes()) {
        Ok(()) => 0,
        Err(_) => {
            tell(errors, ServeFault::Write.text());
            FAULT
        }
    }
}

/// Writes a text that the words ask for, or one that tells what is wrong with them.
fn answer_with<R: Source, W: Sink, E: Sink>(
    kind: ErrorKind,
    text: &str,
    input: &R,
    output: &mut W,
    errors: &mut E,
) -> u8
    ensures { spec.AnswersWith kind text.now
        (ends_of (input_of R.unread R.has_failed)
        (output_of W.written W.has_failed W.is_passed_on)
        (output_of E.written E.has_failed E.is_passed_on)
        input.now input.now output.old output.new errors.old errors.new) result }
{
    if !is_shown(kind) {
        let _ = errors.write_through(text.as_bytes());
        return status_of(kind);
    }
    show(text, input, output, errors)
}

/// Writes what the words ask for, or tells what is wrong with them.
fn answer_usage<R: Source, W: Sink, E: Sink>(
    alloc: Global,
    error: &Error,
    input: &R,
    output: &mut W,
    errors: &mut E,
) -> u8
    ensures { spec.AnswersUsage (kind_of error.now)
        (ends_of (input_of R.unread R.has_failed)
        (output_of W.written W.has_failed W.is_passed_on)
        (output_of E.written E.has_failed E.is_passed_on)
        input.now input.now output.old output.new errors.old errors.new) result }
{
    match error.to_string(alloc) {
        Ok(text) => answer_with(error.kind(), &text, input, output, errors),
        Err(_) => {
            tell(errors, ServeFault::Memory.text());
            FAULT
        }
    }
}

/// Checks a deployment.
fn check_bytes<R: Source, W: Sink, E: Sink>(
    alloc: Global,
    file: &str,
    bytes: &[u8],
    input: &R,
    output: &mut W,
    errors: &mut E,
) -> u8
    ensures { spec.ChecksBytes file.now bytes.now
        (ends_of (input_of R.unread R.has_failed)
        (output_of W.written W.has_failed W.is_passed_on)
        (output_of E.written E.has_failed E.is_passed_on)
        input.now input.now output.old output.new errors.old errors.new) result }
{
    let verdict = report(alloc, bytes, output);
    tell_verdict(alloc, verdict, file, bytes, output, errors);
    verdict.status()
}

/// Checks a deployment, and writes what is wrong with it as lines of JSON.
fn check_as_json<R: Source, W: Sink, E: Sink>(
    alloc: Global,
    bytes: &[u8],
    input: &R,
    output: &mut W,
    errors: &mut E,
) -> u8
    ensures { spec.ChecksAsJson bytes.now
        (ends_of (input_of R.unread R.has_failed)
        (output_of W.written W.has_failed W.is_passed_on)
        (output_of E.written E.has_failed E.is_passed_on)
        input.now input.now output.old output.new errors.old errors.new) result }
{
    match findings_in(alloc, bytes) {
        Ok(found) => {
            let status = show(&found.lines, input, output, errors);
            status_of_findings(found.is_refused, status)
        }
        Err(_) => {
            tell(errors, ServeFault::Memory.text());
            FAULT
        }
    }
}

/// Tells the user of a deployment that was drawn what there is to say.
fn tell_drawn<E: Sink>(alloc: Global, is_refused: bool, file: &str, bytes: &[u8], errors: &mut E)
    ensures { spec.TellsDrawn is_refused file.now bytes.now
        (output_of E.written E.has_failed E.is_passed_on errors.old)
        (output_of E.written E.has_failed E.is_passed_on errors.new) }
{
    if is_refused {
        tell_refused(alloc, file, bytes, errors);
    } else {
        tell_warning(alloc, file, bytes, errors);
    }
}

/// Writes the drawing of a deployment, and tells what is wrong with it.
fn draw_one<R: Source, W: Sink, E: Sink>(
    alloc: Global,
    file: &str,
    bytes: &[u8],
    drawing: &Drawing,
    input: &R,
    output: &mut W,
    errors: &mut E,
) -> u8
    ensures { spec.DrawsOne file.now bytes.now drawing.now
        (ends_of (input_of R.unread R.has_failed)
        (output_of W.written W.has_failed W.is_passed_on)
        (output_of E.written E.has_failed E.is_passed_on)
        input.now input.now output.old output.new errors.old errors.new) result }
{
    let status = show(&drawing.text, input, output, errors);
    tell_drawn(alloc, drawing.is_refused, file, bytes, errors);
    status_of_findings(drawing.is_refused, status)
}

/// Draws a deployment.
fn draw_bytes<R: Source, W: Sink, E: Sink>(
    alloc: Global,
    file: &str,
    bytes: &[u8],
    input: &R,
    output: &mut W,
    errors: &mut E,
) -> u8
    ensures { spec.DrawsBytes file.now bytes.now
        (ends_of (input_of R.unread R.has_failed)
        (output_of W.written W.has_failed W.is_passed_on)
        (output_of E.written E.has_failed E.is_passed_on)
        input.now input.now output.old output.new errors.old errors.new) result }
{
    match drawing_in(alloc, bytes) {
        Ok(Some(drawing)) => draw_one(alloc, file, bytes, &drawing, input, output, errors),
        Ok(None) => {
            tell_refused(alloc, file, bytes, errors);
            REFUSED
        }
        Err(_) => {
            tell(errors, ServeFault::Memory.text());
            FAULT
        }
    }
}

/// Runs a deployment.
fn run_bytes<R: Source, W: Sink, E: Sink>(
    alloc: Global,
    options: &Options<'_>,
    bytes: &[u8],
    input: &mut R,
    output: &mut W,
    errors: &mut E,
) -> u8
    ensures { spec.RunsBytes options.now.settings options.now.file.now bytes.now
        (ends_of (input_of R.unread R.has_failed)
        (output_of W.written W.has_failed W.is_passed_on)
        (output_of E.written E.has_failed E.is_passed_on)
        input.old input.new output.old output.new errors.old errors.new) result }
{
    let ending = drive(alloc, bytes, options.settings, options.slice, input, output);
    tell_ending(alloc, ending, options.file, bytes, output, errors);
    ending.status()
}

/// Explains a word of the output.
fn explain_word<R: Source, W: Sink, E: Sink>(
    alloc: Global,
    word: &str,
    input: &R,
    output: &mut W,
    errors: &mut E,
) -> u8
    ensures { spec.Explains word.now
        (ends_of (input_of R.unread R.has_failed)
        (output_of W.written W.has_failed W.is_passed_on)
        (output_of E.written E.has_failed E.is_passed_on)
        input.now input.now output.old output.new errors.old errors.new) result }
{
    match answer_on(alloc, word) {
        Ok(WordAnswer::Known(text)) => show(&text, input, output, errors),
        Ok(WordAnswer::Unknown(line)) => {
            tell_text(errors, &line);
            USAGE
        }
        Err(_) => {
            tell(errors, ServeFault::Memory.text());
            FAULT
        }
    }
}

/// Does what the words ask for with the bytes of a deployment: checks it, draws it, or else runs it.
fn serve_bytes<R: Source, W: Sink, E: Sink>(
    alloc: Global,
    options: &Options<'_>,
    bytes: &[u8],
    input: &mut R,
    output: &mut W,
    errors: &mut E,
) -> u8
    ensures { spec.ServesBytes options.now bytes.now
        (ends_of (input_of R.unread R.has_failed)
        (output_of W.written W.has_failed W.is_passed_on)
        (output_of E.written E.has_failed E.is_passed_on)
        input.old input.new output.old output.new errors.old errors.new) result }
{
    match options.mode {
        Mode::Check if options.writes_json => check_as_json(alloc, bytes, input, output, errors),
        Mode::Check => check_bytes(alloc, options.file, bytes, input, output, errors),
        Mode::Graph => draw_bytes(alloc, options.file, bytes, input, output, errors),
        Mode::Run | Mode::Explain => run_bytes(alloc, options, bytes, input, output, errors),
    }
}

/// Whether the words name the standard input in the place of a file. A run reads its commands there, and takes no deployment from it.
fn is_input(options: &Options<'_>) -> bool
    ensures { result ≡ spec.is_input options.now }
{
    match options.mode {
        Mode::Check | Mode::Graph => options.file == INPUT,
        Mode::Run | Mode::Explain => false,
    }
}

/// Checks or draws the deployment in the input.
fn serve_input<R: Source, W: Sink, E: Sink>(
    alloc: Global,
    options: &Options<'_>,
    input: &mut R,
    output: &mut W,
    errors: &mut E,
) -> u8
    ensures { spec.ServesInput options.now
        (ends_of (input_of R.unread R.has_failed)
        (output_of W.written W.has_failed W.is_passed_on)
        (output_of E.written E.has_failed E.is_passed_on)
        input.old input.new output.old output.new errors.old errors.new) result }
{
    match take_front(alloc, MAX_READ, input, output) {
        Ok(bytes) => serve_bytes(alloc, options, &bytes, input, output, errors),
        Err(fault) => {
            tell(errors, fault.text());
            FAULT
        }
    }
}

/// Checks, draws or runs the deployment in a file.
fn serve_file<F: Files, R: Source, W: Sink, E: Sink>(
    alloc: Global,
    options: &Options<'_>,
    files: &F,
    input: &mut R,
    output: &mut W,
    errors: &mut E,
) -> u8
    ensures { spec.ServesFile (F.gives files.now) (F.refuses files.now) options.now
        (ends_of (input_of R.unread R.has_failed)
        (output_of W.written W.has_failed W.is_passed_on)
        (output_of E.written E.has_failed E.is_passed_on)
        input.old input.new output.old output.new errors.old errors.new) result }
{
    match files.front(alloc, options.file, MAX_READ) {
        Ok(bytes) => serve_bytes(alloc, options, &bytes, input, output, errors),
        Err(error) => {
            tell_of_file(alloc, errors, options.file, &error);
            FAULT
        }
    }
}

/// Checks, draws or runs the deployment in a file or in the input.
fn serve_deployment<F: Files, R: Source, W: Sink, E: Sink>(
    alloc: Global,
    options: &Options<'_>,
    files: &F,
    input: &mut R,
    output: &mut W,
    errors: &mut E,
) -> u8
    ensures { spec.ServesDeployment (F.gives files.now) (F.refuses files.now) options.now
        (ends_of (input_of R.unread R.has_failed)
        (output_of W.written W.has_failed W.is_passed_on)
        (output_of E.written E.has_failed E.is_passed_on)
        input.old input.new output.old output.new errors.old errors.new) result }
{
    if is_input(options) {
        return serve_input(alloc, options, input, output, errors);
    }
    serve_file(alloc, options, files, input, output, errors)
}

/// Does what the words ask for.
fn serve_options<F: Files, R: Source, W: Sink, E: Sink>(
    alloc: Global,
    options: &Options<'_>,
    files: &F,
    input: &mut R,
    output: &mut W,
    errors: &mut E,
) -> u8
    ensures { spec.Serves (F.gives files.now) (F.refuses files.now) options.now
        (ends_of (input_of R.unread R.has_failed)
        (output_of W.written W.has_failed W.is_passed_on)
        (output_of E.written E.has_failed E.is_passed_on)
        input.old input.new output.old output.new errors.old errors.new) result }
{
    match options.mode {
        Mode::Explain => explain_word(alloc, options.word, input, output, errors),
        Mode::Check | Mode::Run | Mode::Graph => serve_deployment(
            alloc, options, files, input, output, errors,
        ),
    }
}

/// Runs the program, from what came of asking for its words to the exit status.
///
/// [`Mode::Explain`] writes what a word of the output means, with status 0, and reads nothing; a word that isn't known is status 2.
/// The other modes name the file of a deployment, which is read up to [`MAX_READ`] bytes; for [`Mode::Check`] and [`Mode::Graph`]
/// `-` stands for the input, which is read so far. [`Mode::Check`] tells
/// its problems as [`report`] does, reads nothing more, and the status is that of the verdict ([`cdi_report::Verdict::status`]); as
/// JSON it writes a line for each, with its place in the file, behind one for the warning, and the status is 1 if there is one.
/// [`Mode::Graph`] writes its picture ([`cdi_pictures::picture`]) if it can be read, and the status is 1 if it has a problem or can't.
/// [`Mode::Run`] runs it as [`drive`] does, with what the words set for it, and the status is that of how the run ended
/// ([`cdi_shell::Ending::status`]). Help and the version go to the output, and are passed on, with status 0. Wrong words
/// are status 2, and a file or an input that can't be read, and want of memory outside of a command, status 3: nothing is
/// written then.
///
/// With status 2 and 3 a line on `errors` names the cause, which for wrong words is a text of their own. With status 1
/// the hint for the deployment stands there, or those for its problems, or that memory ran out. Before that, and
/// for a deployment that is accepted, stands a warning if a key stands twice in an object. Otherwise nothing does. As far as
/// `errors` lets, each is written and passed on.
pub fn run_program<S: AsStr, F: Files, R: Source, W: Sink, E: Sink>(
    alloc: Global,
    words: Result<&[S], WordsError>,
    files: &F,
    input: &mut R,
    output: &mut W,
    errors: &mut E,
) -> u8
    ensures { spec.RunsProgram (F.gives files.now) (F.refuses files.now)
        (spec.texts_of S.text words.entry)
        (ends_of (input_of R.unread R.has_failed)
        (output_of W.written W.has_failed W.is_passed_on)
        (output_of E.written E.has_failed E.is_passed_on)
        input.old input.new output.old output.new errors.old errors.new) result }
{
    match words {
        Ok(words) => match Options::parse(alloc, words) {
            Ok(options) => serve_options(alloc, &options, files, input, output, errors),
            Err(error) => answer_usage(alloc, &error, input, output, errors),
        },
        Err(error) => {
            tell(errors, error.text());
            error.status()
        }
    }
}
