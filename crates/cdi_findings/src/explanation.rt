//! An explanation, and how it is written.
ghost use Rattle.std.specs.Prelude.{◌≡◌, Some};
ghost use Rattle.cdi_findings.specs.Explanation as spec;

use std::fmt;

/// What a word is said of.
#[derive(Clone, Copy, Debug, PartialEq, Eq)]
pub enum Subject {
    /// A deployment, or a script of it, that can't be read.
    Fault,
    /// A deployment that is read, but probably says something else than was meant.
    Warning,
    /// A deployment that is read and not accepted (Jakarta CDI 4.0, *Problems detected automatically by the container*).
    Problem,
    /// A command that isn't carried out.
    Refusal,
    /// A command that is cut.
    Cause,
    /// An exception that a body or a caller gets.
    Exception,
    /// What a command is answered.
    Reply,
    /// What a command did.
    Entry,
}

/// What a word means.
#[derive(Clone, Copy)]
pub struct Explanation {
    pub subject: Subject,
    /// The number of a problem, as `P17`; others have the empty text.
    pub number: &'static str,
    pub word: &'static str,
    /// The meaning, in a few sentences.
    pub meaning: &'static str,
    /// What leads to the word.
    pub example: &'static str,
}

impl Subject {
    fn text(self) -> &'static str
        ensures { result.now ≡ spec.subject_text self }
    {
        match self {
            Subject::Fault => "a deployment or a script can't be read",
            Subject::Warning => "a warning about a deployment",
            Subject::Problem => "a problem of a deployment",
            Subject::Refusal => "a command is refused",
            Subject::Cause => "a command is cut",
            Subject::Exception => "an exception",
            Subject::Reply => "a reply",
            Subject::Entry => "an entry of a trace",
        }
    }
}

impl Explanation {
    /// Whether this is its word, or its number if it has one.
    pub fn is_of(&self, word: &str) -> bool
        ensures { result ≡ spec.is_of word.now self.now }
    {
        self.word == word || (!self.number.is_empty() && self.number == word)
    }
}

impl fmt::Display for Explanation {
    ghost output = { λ e. Some (spec.explanation_text e) };

    fn fmt<W: fmt::Write>(&self, f: &mut fmt::Formatter<W>) -> fmt::Result {
        let Explanation {
            subject,
            number,
            word,
            meaning,
            example,
        } = self;
        let subject = subject.text();
        if !number.is_empty() {
            write!(f, "{number} ")?;
        }
        write!(f, "{word}: {subject}\n  {meaning}\n  Example: {example}\n")
    }
}
