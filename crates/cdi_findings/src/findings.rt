//! What is wrong with a deployment, as lines of JSON.
ghost use Rattle.std.specs.Prelude.{◌≡◌, length, map, nat_lt, string_bytes, IfOk, IfSome};
ghost use Rattle.cdi_positions.specs.Position.{IsPositionIn};
ghost use Rattle.cdi_prepare.specs.Ready.{readied_in};
ghost use Rattle.cdi_problem_hints.specs.Subjects.{subject_of};
ghost use Rattle.cdi_problems.specs.Places.{place_text};
ghost use Rattle.cdi_findings.specs.Findings as spec;

use crate::faults::{fault_name, unhinted_text};
use crate::finding::{Finding, FindingKind, finding_line};
use crate::hint_tables::HintTables;
use crate::locating::position_of_problem;
use cdi_base::{Names, Place};
use cdi_deployment::Deployment;
use cdi_positions::{Position, RepeatedKey};
use cdi_prepare::{Hint, hint_for, warning_for};
use cdi_problem_hints::{Subject, problem_candidates, problem_message};
use cdi_problems::{PlaceText, Problem};
use cdi_report::{Review, review_bytes};
use std::alloc::{AllocError, Global};

/// How many bytes are looked through for the positions of problems, but for the first [`MIN_LOCATED`].
const MAX_WALKED: usize = 67_108_864;

/// How many problems are told with their positions, however long the text is.
const MIN_LOCATED: usize = 50;

/// What is found in the bytes of a deployment.
#[derive(Drop)]
pub struct Findings {
    /// A line for each finding.
    pub lines: String,
    /// Whether there is more among them than a warning.
    pub is_refused: bool,
}

/// A place as problems are printed with it; the empty text if there is none.
fn place_words(alloc: Global, names: &Names, place: &Option<Place>) -> Result<String, AllocError>
    ensures { IfOk result (λ text. string_bytes text ≡ spec.place_words names.now place.now) }
{
    match place {
        Some(place) => PlaceText { names, place }.to_string(alloc),
        None => Ok(String::new(alloc)),
    }
}

/// Places as problems are printed with them.
fn place_texts(alloc: Global, names: &Names, places: &[Place]) -> Result<Vec<String>, AllocError>
    ensures { IfOk result
        (λ texts. map string_bytes texts.items ≡ map (place_text names.now) places.now) }
{
    let mut texts = Vec::new(alloc);
    for place in places {
        texts.push(PlaceText { names, place }.to_string(alloc)?)?;
    }
    Ok(texts)
}

/// How many problems are told with their positions. To look up one takes as long as the text is.
fn located_count(bytes: &[u8]) -> usize {
    let length = bytes.len().max(1);
    (MAX_WALKED / length).max(MIN_LOCATED)
}

/// The position of the problem with an index, if it is one of those that are told with their positions.
fn told_position(
    alloc: Global,
    bytes: &[u8],
    deployment: &Deployment,
    index: usize,
    problem: &Problem,
) -> Result<Option<Position>, AllocError>
    ensures { IfOk result (λ position. IfSome position (IsPositionIn bytes.now)) }
{
    if index >= located_count(bytes) {
        return Ok(None);
    }
    position_of_problem(alloc, bytes, deployment, problem)
}

/// The line of a problem that stands there.
fn problem_line(
    alloc: Global,
    subject: &Subject<'_>,
    problem: &Problem,
    position: Option<Position>,
) -> Result<String, AllocError>
    ensures { IfOk result (λ line. spec.IsLineOf position (subject_of subject.now) problem.now
        (string_bytes line)) }
{
    let place = place_words(alloc, &subject.deployment.names, &problem.place)?;
    let message = problem_message(alloc, subject, problem)?;
    let beans = problem_candidates(alloc, subject, problem)?;
    let candidates = place_texts(alloc, &subject.deployment.names, beans.as_slice())?;
    let finding = Finding {
        kind: FindingKind::Problem,
        name: problem.kind.text(),
        place: &place,
        position,
        message: &message,
        candidates: candidates.as_slice(),
    };
    finding_line(alloc, &finding)
}

/// The lines of problems, in their order.
fn problem_lines(
    alloc: Global,
    bytes: &[u8],
    subject: &Subject<'_>,
    problems: &[Problem],
) -> Result<String, AllocError>
    ensures { IfOk result (λ lines. spec.AreProblemLines bytes.now (subject_of subject.now)
        problems.now (string_bytes lines)) }
{
    let mut lines = String::new(alloc);
    for (index, problem) in problems.iter().enumerate() {
        let position = told_position(alloc, bytes, subject.deployment, index, problem)?;
        let line = problem_line(alloc, subject, problem, position)?;
        lines.push_str(&line)?;
    }
    Ok(lines)
}

/// Whether there is a problem, so that a deployment is refused.
pub fn has_problem(problems: &[Problem]) -> bool
    ensures { result ≡ nat_lt 0 (length problems.now) }
{
    !problems.is_empty()
}

/// What is wrong with a deployment that was read.
fn review_findings(alloc: Global, bytes: &[u8], review: Review) -> Result<Findings, AllocError>
    ensures { IfOk result (λ found. spec.AreReviewFindings bytes.now
        review.deployment review.scripts review.problems (spec.found_by found)) }
{
    let Review {
        deployment,
        scripts,
        problems,
    } = review;
    let tables = HintTables::build(alloc, &deployment, problems.as_slice())?;
    let subject = tables.subject(scripts.as_slice());
    Ok(Findings {
        lines: problem_lines(alloc, bytes, &subject, problems.as_slice())?,
        is_refused: has_problem(problems.as_slice()),
    })
}

/// What a hint tells beside its position; without one, what is told of the fault.
fn message_of(alloc: Global, name: &str, hint: &Option<Hint>) -> Result<String, AllocError>
    ensures { IfOk result
        (λ text. IfSome (spec.message_of name.now hint.now) (λ t. string_bytes text ≡ t)) }
{
    match hint {
        Some(hint) => hint.mistake.to_string(alloc),
        None => String::from_str(alloc, unhinted_text(name)),
    }
}

fn position_of_hint(hint: &Option<Hint>) -> Option<Position>
    ensures { result ≡ spec.position_of hint.now }
{
    match hint {
        Some(hint) => hint.position,
        None => None,
    }
}

/// The line of a deployment that can't be read.
fn fault_line(alloc: Global, bytes: &[u8]) -> Result<String, AllocError>
    ensures { IfOk result
        (λ line. spec.IsFaultLine bytes.now (readied_in bytes.now) (string_bytes line)) }
{
    let name = fault_name(alloc, bytes)?;
    let hint = hint_for(alloc, bytes)?;
    let message = message_of(alloc, &name, &hint)?;
    let finding = Finding {
        kind: FindingKind::Fault,
        name: &name,
        place: "",
        position: position_of_hint(&hint),
        message: &message,
        candidates: &[],
    };
    finding_line(alloc, &finding)
}

/// That line, of a deployment that is refused.
fn fault_findings(alloc: Global, bytes: &[u8]) -> Result<Findings, AllocError>
    ensures { IfOk result
        (λ found. spec.AreFaultFindings bytes.now (readied_in bytes.now) (spec.found_by found)) }
{
    Ok(Findings {
        lines: fault_line(alloc, bytes)?,
        is_refused: true,
    })
}

/// What is wrong with the deployment that bytes are: its fault if it can't be read, or else its problems.
fn wrongs_in(alloc: Global, bytes: &[u8]) -> Result<Findings, AllocError>
    ensures { IfOk result (λ found.
        spec.AreWrongs bytes.now (readied_in bytes.now) (spec.found_by found)) }
{
    match review_bytes(alloc, bytes) {
        Ok(Some(review)) => review_findings(alloc, bytes, review),
        Ok(None) => fault_findings(alloc, bytes),
        Err(error) => Err(error),
    }
}

/// The line of a key that stands twice.
fn repeated_line(alloc: Global, repeated: &RepeatedKey) -> Result<String, AllocError>
    ensures { IfOk result (λ line. spec.IsRepeatedLine repeated.now (string_bytes line)) }
{
    let key = repeated.key.as_str();
    let message = format!(in alloc;
        "the key {key:?} stands twice in one object, and only its last value counts"
    )?;
    let finding = Finding {
        kind: FindingKind::Warning,
        name: "RepeatedKey",
        place: "",
        position: Some(repeated.position),
        message: &message,
        candidates: &[],
    };
    finding_line(alloc, &finding)
}

/// The line of the first key that stands twice in an object; nothing if there is none.
fn warning_line(alloc: Global, bytes: &[u8]) -> Result<String, AllocError>
    ensures { IfOk result (λ line. spec.IsWarningLine bytes.now (string_bytes line)) }
{
    match warning_for(alloc, bytes) {
        Ok(Some(repeated)) => repeated_line(alloc, &repeated),
        Ok(None) => Ok(String::new(alloc)),
        Err(error) => Err(error),
    }
}

/// What is found in the bytes of a deployment, each a line with a JSON object: the warning, if there is one, and then its fault if it
/// can't be read, or else its problems (Jakarta CDI 4.0, *Problems detected automatically by the container*). Its members are `kind`
/// (`fault`, `problem` or `warning`), `name`, `place`, `line` and `column` (from 1, or null if they aren't known), `message` and
/// `candidates`. Positions are looked up for the first 50 problems at least, and for more if the text is short. The one error is
/// [`AllocError`], if a growth was refused.
pub fn findings_in(alloc: Global, bytes: &[u8]) -> Result<Findings, AllocError>
    ensures { IfOk result (λ found.
        spec.AreFindings bytes.now (readied_in bytes.now) (spec.found_by found)) }
{
    let mut lines = warning_line(alloc, bytes)?;
    let wrongs = wrongs_in(alloc, bytes)?;
    lines.push_str(&wrongs.lines)?;
    Ok(Findings {
        lines,
        is_refused: wrongs.is_refused,
    })
}
