//! Lines of one or several calls, whatever answers them.
//!
//! | Line | What is done | Answer |
//! |---|---|---|
//! | calls with `; ` between two | each call in its turn | the answers, with `, ` between two |
//! | `each FROM TO CALLS` | the same for each of the numbers from one to below another, which stands for each `%` | how many of the numbers were answered as the first was, and what that was answered |
//!
//! A call `CALL is ANSWER` is answered by whether that is what is answered to `CALL`.
use crate::words::number;
use std::alloc::{AllocError, Global};

/// What answers calls.
pub(crate) trait Answering {
    /// Makes a call, and adds what is answered.
    fn answer(
        &mut self,
        alloc: Global,
        words: &[&str],
        text: &mut String,
    ) -> Result<(), AllocError>;
}

/// Makes a call, and adds what is answered, or whether that is what the call has behind `is`.
fn push_answer<A: Answering>(
    alloc: Global,
    answering: &mut A,
    call: &str,
    text: &mut String,
) -> Result<(), AllocError> {
    let (call, wanted) = match call.split_once(" is ") {
        Some((call, wanted)) => (call, Some(wanted)),
        None => (call, None),
    };
    let words: Vec<&str> = call.split_whitespace().collect(alloc)?;
    let Some(wanted) = wanted else {
        return answering.answer(alloc, words.as_slice(), text);
    };
    let mut answer = String::new(alloc);
    answering.answer(alloc, words.as_slice(), &mut answer)?;
    let is_wanted = answer.as_str() == wanted;
    write!(text, "{is_wanted}")
}

/// Makes calls, and adds what is answered.
fn push_answers<A: Answering>(
    alloc: Global,
    answering: &mut A,
    calls: &str,
    text: &mut String,
) -> Result<(), AllocError> {
    for (index, call) in calls.split("; ").enumerate() {
        if index > 0 {
            text.push_str(", ")?;
        }
        push_answer(alloc, answering, call, text)?;
    }
    Ok(())
}

/// What is answered to calls in which a number stands for each `%`.
fn answers_for<A: Answering>(
    alloc: Global,
    answering: &mut A,
    calls: &str,
    index: u32,
) -> Result<String, AllocError> {
    let word = format!(in alloc; "{index}")?;
    let calls = calls.replace(alloc, "%", word.as_str())?;
    let mut text = String::new(alloc);
    push_answers(alloc, answering, calls.as_str(), &mut text)?;
    Ok(text)
}

/// How many of the numbers from one to below another are answered so.
fn count_answered<A: Answering>(
    alloc: Global,
    answering: &mut A,
    calls: &str,
    from: u32,
    to: u32,
    wanted: &str,
) -> Result<u32, AllocError> {
    let mut count = 0u32;
    for index in from..to {
        let answers = answers_for(alloc, answering, calls, index)?;
        if answers.as_str() == wanted {
            count = count.saturating_add(1);
        }
    }
    Ok(count)
}

/// Makes calls for each of the numbers from one to below another.
fn push_each<A: Answering>(
    alloc: Global,
    answering: &mut A,
    line: &str,
    text: &mut String,
) -> Result<(), AllocError> {
    let (first, rest) = line.split_once(' ').unwrap_or((line, ""));
    let (end, calls) = rest.split_once(' ').unwrap_or((rest, ""));
    let (from, to) = (number(first), number(end));
    let wanted = answers_for(alloc, answering, calls, from)?;
    let others = count_answered(
        alloc,
        answering,
        calls,
        from.saturating_add(1),
        to,
        wanted.as_str(),
    )?;
    let count = others.saturating_add(1);
    write!(text, "{count} {wanted}")
}

/// What is answered to each line.
pub(crate) fn answers_to_lines<A: Answering>(
    alloc: Global,
    answering: &mut A,
    input: &str,
) -> Result<String, AllocError> {
    let mut text = String::new(alloc);
    for line in input.lines() {
        match line.strip_prefix("each ") {
            Some(rest) => push_each(alloc, answering, rest, &mut text)?,
            None => push_answers(alloc, answering, line, &mut text)?,
        }
        text.push('\n')?;
    }
    Ok(text)
}
