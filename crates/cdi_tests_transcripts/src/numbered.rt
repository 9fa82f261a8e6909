//! Runs of many items that differ by a number alone.
use crate::streams::Run;
use cdi_tests_player::Played;
use cdi_tests_player::marks::with_numbers;
use std::alloc::{AllocError, Global};
use std::str;

/// Adds a line, or so many of it if it has a mark, each with a number in its place.
fn push_input(
    alloc: Global,
    input: &mut String,
    line: &str,
    count: usize,
) -> Result<(), AllocError> {
    if !line.contains('#') {
        return writeln!(input, "{line}");
    }
    let line = format!(in alloc; "{line}\n")?;
    let lines = line.as_str().repeat(alloc, count)?;
    let lines = with_numbers(alloc, lines.as_str(), "#")?;
    input.push_str(lines.as_str())
}

fn many_lines(alloc: Global, input: &str, count: usize) -> Result<String, AllocError> {
    let mut lines = String::new(alloc);
    for line in input.lines() {
        push_input(alloc, &mut lines, line, count)?;
    }
    Ok(lines)
}

/// Lines, of which each stands behind the count of those that are the same, one after the other.
#[derive(Drop)]
struct Folding {
    lines: String,
    last: String,
    count: usize,
}

impl Folding {
    /// Writes the last line with its count.
    fn write_last(&mut self) -> Result<(), AllocError> {
        let count = self.count;
        if count == 0 {
            return Ok(());
        }
        self.count = 0;
        let last = self.last.as_str();
        writeln!(self.lines, "{count} {last}")
    }

    /// Takes the next line.
    fn take(&mut self, line: &str) -> Result<(), AllocError> {
        if line != self.last.as_str() {
            self.write_last()?;
            self.last.clear();
            self.last.push_str(line)?;
        }
        self.count = self.count.saturating_add(1);
        Ok(())
    }

    fn take_all(&mut self, text: &str) -> Result<(), AllocError> {
        for line in text.lines() {
            self.take(line)?;
        }
        self.write_last()
    }
}

/// The lines of a text, folded so.
fn counted_lines(alloc: Global, text: &str) -> Result<String, AllocError> {
    let mut folding = Folding {
        lines: String::new(alloc),
        last: String::new(alloc),
        count: 0,
    };
    folding.take_all(text)?;
    Ok(folding.lines)
}

/// What a run came to, with its output folded so.
fn with_counts(alloc: Global, played: Played) -> Result<Played, AllocError> {
    let text = str::from_utf8(&played.output).unwrap_or("no text");
    let output = counted_lines(alloc, text)?;
    Ok(Played {
        status: played.status,
        output: output.into_bytes(),
        errors: played.errors,
    })
}

/// What a run comes to of which each `#` of the deployment is a number, from 0 on, and each `^` the number of the `#` that comes next.
/// A line of the input with a `#` stands so many times, with these numbers; and a line of the output stands behind the count of those
/// that are the same, one after the other.
pub(crate) fn play_numbered(
    alloc: Global,
    words: &[&str],
    deployment: &str,
    input: &str,
    count: usize,
) -> Result<Played, AllocError> {
    let deployment = with_numbers(alloc, deployment, "#")?;
    let input = many_lines(alloc, input, count)?;
    let run = Run {
        alloc,
        words,
        bytes: deployment.as_bytes(),
    };
    with_counts(alloc, run.over(input.as_bytes()))
}
