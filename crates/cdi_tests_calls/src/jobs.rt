//! Jobs that a runtime carries out, and what is asked of it between them. Each line of the input is one of these, and each has a line
//! of its own in the output.
//!
//! | Line | What is done or asked | Its answer |
//! |---|---|---|
//! | `boot`, `shutdown` | the job | how it ended: `gave` a value, `threw` an exception, or `cut by` a cause |
//! | `call TYPE METHOD ARG..` | the job: a call of the bean with a type, with numbers | the same |
//! | `in REQUEST call TYPE METHOD ARG..` | the same in a request | the same |
//! | `read TYPE`, `in REQUEST read TYPE` | the job: the value of the product with a type is read | the same, or why it is refused |
//! | `fire CLASS VALUE`, `in REQUEST fire CLASS VALUE` | the job: an event of a class with a number | the same |
//! | `begin REQUEST`, `begin REQUEST SESSION`, `end REQUEST`, `invalidate SESSION` | the job | the same |
//! | `again COUNT JOB` | the job so many times | how the last of them ended |
//! | `turns MOST JOB` | the job in turns of so many entries | how many entries it had after each turn, and how it ended |
//! | `entries` | the entries of the last job | each with a semicolon after it |
//! | `count` | how many these are | the number |
//! | `live` | how many instances live | the number |
//! | `next` | the next number of an instance | it, or `none` |
ghost use Rattle.std.specs.Prelude.{◌≡◌, None, IfOk, true};
ghost use Rattle.cdi_frames.specs.Stacks.{KnownStack, KnownTurn};
ghost use Rattle.cdi_run_tables.specs.Machine.{machine_tables};
ghost use Rattle.cdi_machine.specs.Tables.{Tables};
ghost use Rattle.cdi_machine.specs.World.{World};
ghost use Rattle.cdi_steps.specs.Known.{JobTellsRightly, KnownJob};

use crate::entries::{push_entries, push_name, push_value};
use crate::heard::{beans_of, hear};
use cdi_base::{Names, Refusal, Seq, Text, Value};
use cdi_frames::run::{run, turn};
use cdi_frames::stack::{Stack, Turn};
use cdi_host::Contents;
use cdi_machine::{Driver, Failure};
use cdi_runtime::Runtime;
use cdi_steps::task::Task;
use cdi_steps::{BeanPurpose, BeanUse, Completion, Event, Given, Job, Outcome, RequestNames};
use cdi_tests_player::Ledger;
use cdi_world::World;
use std::alloc::{AllocError, Global};

/// What is told of the jobs of a runtime.
#[derive(Drop)]
pub(crate) struct Told {
    /// The answers to the lines.
    pub(crate) text: String,
    /// The entries of all jobs.
    pub(crate) entries: String,
    /// In slices of how many entries jobs are carried out, unless at once.
    slice: Option<u64>,
}

// ---- jobs

fn value_of(word: &str) -> Value {
    match word.parse() {
        Ok(number) => Value::Int(number),
        Err(_) => Value::Null,
    }
}

fn values_of(alloc: Global, words: &[&str]) -> Result<Seq<Value>, AllocError> {
    let mut values = Seq::empty(alloc);
    for word in words {
        values.push(value_of(word))?;
    }
    Ok(values)
}

/// What is done with the bean with a type.
fn use_of(
    alloc: Global,
    names: &Names,
    request: Option<Text>,
    bean_type: &str,
    purpose: BeanPurpose,
) -> Result<Job, AllocError> {
    let used = BeanUse {
        bean_type: names.name_for(bean_type),
        qualifiers: Seq::empty(alloc),
        resolved: None,
        purpose,
    };
    let used = Box::new(alloc, used)?;
    Ok(Job::Use { request, used })
}

fn event_of(
    alloc: Global,
    names: &Names,
    request: Option<Text>,
    class: &str,
    value: &str,
) -> Result<Job, AllocError> {
    let event = Event {
        class: names.name_for(class),
        qualifiers: Seq::empty(alloc),
        value: value_of(value),
    };
    let event = Box::new(alloc, event)?;
    Ok(Job::Fire { request, event })
}

/// The job of a command that words ask for, in a request or in none, if they do.
fn command_job_of(
    alloc: Global,
    names: &Names,
    request: Option<Text>,
    words: &[&str],
) -> Result<Option<Job>, AllocError> {
    Ok(Some(match words {
        ["call", bean_type, method, args @ ..] => {
            let purpose = BeanPurpose::Call {
                method: names.name_for(method),
                args: values_of(alloc, args)?,
            };
            use_of(alloc, names, request, bean_type, purpose)?
        }
        ["read", bean_type] => use_of(alloc, names, request, bean_type, BeanPurpose::Read)?,
        ["fire", class, value] => event_of(alloc, names, request, class, value)?,
        _ => return Ok(None),
    }))
}

/// The job that begins a request.
fn begin_of(alloc: Global, request: &str, session: Option<Text>) -> Result<Job, AllocError> {
    let names = RequestNames {
        request: Text::from_str(alloc, request)?,
        session,
    };
    Ok(Job::Begin(Box::new(alloc, names)?))
}

/// The job of a request or a session that words ask for, if they do.
fn context_job_of(alloc: Global, words: &[&str]) -> Result<Option<Job>, AllocError> {
    Ok(Some(match words {
        ["begin", request] => begin_of(alloc, request, None)?,
        ["begin", request, session] => {
            begin_of(alloc, request, Some(Text::from_str(alloc, session)?))?
        }
        ["end", request] => Job::End {
            request: Text::from_str(alloc, request)?,
        },
        ["invalidate", session] => Job::Invalidate {
            session: Text::from_str(alloc, session)?,
        },
        _ => return Ok(None),
    }))
}

/// The job that words ask for, if they do.
fn job_of(alloc: Global, names: &Names, words: &[&str]) -> Result<Option<Job>, AllocError> {
    match words {
        ["boot"] => Ok(Some(Job::Boot)),
        ["shutdown"] => Ok(Some(Job::Shutdown)),
        ["call" | "read" | "fire", ..] => command_job_of(alloc, names, None, words),
        ["in", request, words @ ..] => {
            let request = Text::from_str(alloc, request)?;
            command_job_of(alloc, names, Some(request), words)
        }
        words => context_job_of(alloc, words),
    }
}

/// Nothing is told of what a job resolves to.
fn forget_resolution(job: &mut Job)
    ensures { (tables : Tables) → JobTellsRightly tables job.new }
{
    if let Job::Use {
        request: _request,
        used,
    } = job
    {
        used.resolved = None;
    }
}

/// Whether a job is a call.
fn is_call(job: &Job) -> bool
    ensures { result ≡ true → (tables : Tables) (world : World)
        → JobTellsRightly tables job.now → KnownJob tables world job.now }
{
    match job {
        Job::Use {
            request: _request,
            used,
        } => matches!(used.purpose, BeanPurpose::Call { .. }),
        _ => false,
    }
}

/// Why a job is refused, if it is. A call is carried out in any case, and the engine asks what it resolves to.
fn refusal_of<D: Driver>(runtime: &mut Runtime<D>, job: &mut Job) -> Option<Refusal>
    ensures known { result ≡ None
        → KnownJob (machine_tables runtime.new.tables) runtime.new.world job.new }
{
    forget_resolution(job);
    if is_call(job) {
        return None;
    }
    runtime.refusal(false, job)
}

fn push_end(text: &mut String, names: &Names, outcome: &Outcome) -> Result<(), AllocError> {
    match outcome {
        Outcome::Ends(Completion::Gave(Given::Result(value))) => {
            text.push_str("gave ")?;
            push_value(text, value)
        }
        Outcome::Ends(Completion::Threw(exception)) => {
            text.push_str("threw ")?;
            push_name(text, names, *exception)
        }
        Outcome::Cut(cause) => write!(text, "cut by {cause:?}"),
        _ => text.push_str("another end"),
    }
}

/// How many turns a job may take.
const MOST_TURNS: u32 = 1_000_000;

/// A job begins that is carried out in turns.
fn start_turns<D: Driver>(runtime: &mut Runtime<D>, job: Job) -> Stack
    requires { KnownJob (machine_tables runtime.old.tables) runtime.old.world job }
    ensures known { KnownStack (machine_tables runtime.new.tables) runtime.new.world result }
{
    runtime.begin();
    Stack::start(runtime.world.alloc(), Task::Begin(job))
}

/// One turn of a job, of so many entries.
fn take_turn<D: Driver>(runtime: &mut Runtime<D>, stack: Stack, most: u64) -> Result<Turn, Failure>
    requires known { KnownStack (machine_tables runtime.old.tables) runtime.old.world stack }
    ensures known { IfOk result (KnownTurn
        (machine_tables runtime.new.tables) runtime.new.world) }
{
    turn(
        &runtime.tables,
        &mut runtime.driver,
        &mut runtime.world,
        stack,
        most,
    )
}

/// How a job ends that is carried out in turns of so many entries.
fn end_of_turns<D: Driver>(runtime: &mut Runtime<D>, most: u64, job: Job) -> Option<Outcome>
    requires { KnownJob (machine_tables runtime.old.tables) runtime.old.world job }
{
    let mut stack = start_turns(runtime, job);
    'turns: for _ in 0..MOST_TURNS {
        match take_turn(runtime, stack, most) {
            Ok(Turn::Running(then)) => stack = then,
            Ok(Turn::Finished(outcome)) => return Some(outcome),
            Err(_) => return None,
        }
    }
    None
}

/// How a job ends that is carried out at once.
fn end_of_run<D: Driver>(runtime: &mut Runtime<D>, job: Job) -> Option<Outcome>
    requires { KnownJob (machine_tables runtime.old.tables) runtime.old.world job }
{
    runtime.begin();
    let task = Task::Begin(job);
    let ended = run(
        &runtime.tables,
        &mut runtime.driver,
        &mut runtime.world,
        task,
    );
    ended.ok()
}

/// Carries a job out, with a trace of its own, at once or in slices of so many entries, and tells how it ended.
fn carry_out<D: Driver>(
    told: &mut Told,
    runtime: &mut Runtime<D>,
    ledger: &mut Ledger,
    job: Job,
) -> Result<(), AllocError>
    requires { KnownJob (machine_tables runtime.old.tables) runtime.old.world job }
{
    let ends_all = matches!(job, Job::Shutdown);
    let ended = match told.slice {
        Some(most) => end_of_turns(runtime, most, job),
        None => end_of_run(runtime, job),
    };
    push_entries(
        &mut told.entries,
        &runtime.tables().deployment().names,
        runtime.world().trace(),
    )?;
    match ended {
        Some(outcome) => {
            hear(ledger, runtime.world(), ends_all, &outcome)?;
            push_end(
                &mut told.text,
                &runtime.tables().deployment().names,
                &outcome,
            )
        }
        None => told.text.push_str("no end"),
    }
}

/// Carries a job out in turns of so many entries, with a trace of its own, and tells how many entries it had after each turn,
/// and how it ended.
fn carry_out_in_turns<D: Driver>(
    text: &mut String,
    runtime: &mut Runtime<D>,
    ledger: &mut Ledger,
    most: u64,
    job: Job,
) -> Result<(), AllocError>
    requires { KnownJob (machine_tables runtime.old.tables) runtime.old.world job }
{
    let ends_all = matches!(job, Job::Shutdown);
    let mut stack = start_turns(runtime, job);
    'turns: for _ in 0..MOST_TURNS {
        let turned = take_turn(runtime, stack, most);
        push_count(text, runtime.world())?;
        text.push(' ')?;
        match turned {
            Ok(Turn::Running(then)) => stack = then,
            Ok(Turn::Finished(outcome)) => {
                hear(ledger, runtime.world(), ends_all, &outcome)?;
                return push_end(text, &runtime.tables().deployment().names, &outcome);
            }
            Err(_) => return text.push_str("no end"),
        }
    }
    text.push_str("not over yet")
}

// ---- what is asked between them

fn push_live(text: &mut String, world: &World) -> Result<(), AllocError> {
    let live = world.live_numbers()?.len();
    write!(text, "{live}")
}

fn push_next(text: &mut String, world: &World) -> Result<(), AllocError> {
    match world.next_number() {
        Some(next) => write!(text, "{next}"),
        None => text.push_str("none"),
    }
}

fn push_count(text: &mut String, world: &World) -> Result<(), AllocError> {
    let count = world.entries();
    write!(text, "{count}")
}

/// Answers what is asked.
fn push_answer<D: Driver>(
    alloc: Global,
    text: &mut String,
    runtime: &Runtime<D>,
    question: &str,
) -> Result<(), AllocError> {
    let (tables, world) = (runtime.tables(), runtime.world());
    match question {
        "entries" => push_entries(text, &tables.deployment().names, world.trace()),
        "count" => push_count(text, world),
        "live" => push_live(text, world),
        "next" => push_next(text, world),
        _ => text.push_str("neither a job nor a question"),
    }
}

// ---- lines

/// Carries out the job of words, or answers what they ask.
fn push_told<D: Driver>(
    alloc: Global,
    told: &mut Told,
    runtime: &mut Runtime<D>,
    ledger: &mut Ledger,
    words: &[&str],
) -> Result<(), AllocError> {
    match job_of(alloc, &runtime.tables().deployment().names, words)? {
        Some(mut job) => match refusal_of(runtime, &mut job) {
            Some(refusal) => write!(told.text, "refused {refusal:?}"),
            None => carry_out(told, runtime, ledger, job),
        },
        None => push_answer(alloc, &mut told.text, runtime, words.first().unwrap_or(&"")),
    }
}

/// Carries out the job of words in turns of so many entries.
fn push_turns<D: Driver>(
    alloc: Global,
    text: &mut String,
    runtime: &mut Runtime<D>,
    ledger: &mut Ledger,
    most: u64,
    words: &[&str],
) -> Result<(), AllocError> {
    match job_of(alloc, &runtime.tables().deployment().names, words)? {
        Some(mut job) => match refusal_of(runtime, &mut job) {
            Some(refusal) => write!(text, "refused {refusal:?}"),
            None => carry_out_in_turns(text, runtime, ledger, most, job),
        },
        None => text.push_str("no job"),
    }
}

/// Does it so many times, and tells what came of the last.
fn push_again<D: Driver>(
    alloc: Global,
    told: &mut Told,
    runtime: &mut Runtime<D>,
    ledger: &mut Ledger,
    times: u32,
    words: &[&str],
) -> Result<(), AllocError> {
    let before = String::from_str(alloc, told.text.as_str())?;
    for _ in 0..times {
        told.text.clear();
        told.text.push_str(before.as_str())?;
        push_told(alloc, told, runtime, ledger, words)?;
    }
    Ok(())
}

fn push_line<D: Driver>(
    alloc: Global,
    told: &mut Told,
    runtime: &mut Runtime<D>,
    ledger: &mut Ledger,
    line: &str,
) -> Result<(), AllocError> {
    let words: Vec<&str> = line.split_whitespace().collect(alloc)?;
    match words.as_slice() {
        ["again", times, job @ ..] => {
            let times = times.parse().unwrap_or(0);
            push_again(alloc, told, runtime, ledger, times, job)
        }
        ["turns", most, job @ ..] => {
            let most = most.parse().unwrap_or(0);
            push_turns(alloc, &mut told.text, runtime, ledger, most, job)
        }
        words => push_told(alloc, told, runtime, ledger, words),
    }
}

/// What a runtime answers to each line, with its jobs carried out at once or in slices; and behind that the sentence of the ledger that
/// the entries of all jobs broke first, if they broke one.
pub(crate) fn answers<D: Driver>(
    alloc: Global,
    runtime: &mut Runtime<D>,
    slice: Option<u64>,
    input: &str,
) -> Result<Told, AllocError> {
    let mut told = Told {
        text: String::new(alloc),
        entries: String::new(alloc),
        slice,
    };
    let mut ledger = Ledger::new(alloc, beans_of(alloc, runtime.tables().deployment())?);
    for line in input.lines() {
        push_line(alloc, &mut told, runtime, &mut ledger, line)?;
        told.text.push('\n')?;
    }
    if let Some(sentence) = ledger.broken() {
        writeln!(told.text, "ledger: {sentence}")?;
    }
    Ok(told)
}
