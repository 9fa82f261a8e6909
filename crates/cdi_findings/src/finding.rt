//! One thing that is wrong with a deployment, as a line of JSON.
ghost use Rattle.std.specs.Prelude.{◌≡◌, map, string_bytes, IfOk};
ghost use Rattle.serde_json.specs.Data.{string};
ghost use Rattle.serde_json.specs.View.{view};
ghost use Rattle.cdi_findings.specs.Finding as spec;

use cdi_positions::Position;
use serde_json::{Map, Value as Json, put};
use std::alloc::{AllocError, Global};

/// What is wrong.
#[derive(Clone, Copy)]
pub(crate) enum FindingKind {
    /// The deployment can't be read, or a script of it can't.
    Fault,
    /// It is read, and not accepted (Jakarta CDI 4.0, *Problems detected automatically by the container*).
    Problem,
    /// Something in it is passed over, whether it is accepted or not.
    Warning,
}

/// One thing that is wrong with a deployment.
#[derive(Clone, Copy)]
pub(crate) struct Finding<'a> {
    pub kind: FindingKind,
    /// The line of the fault, or a problem's number and name, or the warning's word.
    pub name: &'a str,
    /// Where it is, as the lines on standard output tell it.
    pub place: &'a str,
    /// Where it is in the text of the deployment, if that is known.
    pub position: Option<Position>,
    /// What is wrong, in words.
    pub message: &'a str,
    /// The beans among which the deployment doesn't decide, as they are printed.
    pub candidates: &'a [String],
}

impl FindingKind {
    fn text(self) -> &'static str
        ensures { result.now ≡ spec.kind_text self }
    {
        match self {
            FindingKind::Fault => "fault",
            FindingKind::Problem => "problem",
            FindingKind::Warning => "warning",
        }
    }
}

fn text_json(alloc: Global, text: &str) -> Result<Json, AllocError>
    ensures { IfOk result (λ json. view json ≡ string text.now) }
{
    Ok(Json::String(String::from_str(alloc, text)?))
}

fn texts_json(alloc: Global, texts: &[String]) -> Result<Json, AllocError>
    ensures { IfOk result (λ json. view json ≡ spec.texts_data (map string_bytes texts.now)) }
{
    let mut items = Vec::new(alloc);
    for text in texts {
        items.push(text_json(alloc, text)?)?;
    }
    Ok(Json::Array(items))
}

fn line_json(position: Option<Position>) -> Json
    ensures { view result ≡ spec.line_data position }
{
    match position {
        Some(position) => Json::from(position.line),
        None => Json::Null,
    }
}

fn column_json(position: Option<Position>) -> Json
    ensures { view result ≡ spec.column_data position }
{
    match position {
        Some(position) => Json::from(position.column),
        None => Json::Null,
    }
}

/// A finding as a JSON object.
fn finding_json(alloc: Global, finding: &Finding<'_>) -> Result<Json, AllocError>
    ensures { IfOk result (λ json. view json ≡ spec.finding_data (spec.told_by finding.now)) }
{
    let mut members = Map::new(alloc);
    put(
        &mut members,
        alloc,
        "kind",
        text_json(alloc, finding.kind.text())?,
    )?;
    put(&mut members, alloc, "name", text_json(alloc, finding.name)?)?;
    put(
        &mut members,
        alloc,
        "place",
        text_json(alloc, finding.place)?,
    )?;
    put(&mut members, alloc, "line", line_json(finding.position))?;
    put(&mut members, alloc, "column", column_json(finding.position))?;
    put(
        &mut members,
        alloc,
        "message",
        text_json(alloc, finding.message)?,
    )?;
    put(
        &mut members,
        alloc,
        "candidates",
        texts_json(alloc, finding.candidates)?,
    )?;
    Ok(Json::Object(members))
}

/// The line of a finding: a JSON object in compact form, with a line feed. Its members are `kind` (`fault`, `problem`
/// or `warning`), `name`, `place`, `line` and `column` (from 1, or null if they aren't known), `message` and `candidates`.
pub(crate) fn finding_line(alloc: Global, finding: &Finding<'_>) -> Result<String, AllocError>
    ensures { IfOk result (λ line. string_bytes line ≡ spec.finding_line (spec.told_by finding.now)) }
{
    let mut line = finding_json(alloc, finding)?.to_string(alloc)?;
    line.push_str("\n")?;
    Ok(line)
}
