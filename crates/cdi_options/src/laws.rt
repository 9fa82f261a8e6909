//! Laws of the definitions that the contracts cite. A call of one of these does nothing: its contract is the law.
ghost use Rattle.cdi_options.specs.WorkedWords.{WorkedWords};

/// Worked words of the command line, by computing the definitions: what fits and which file it names, and what asks for
/// help or the version or is wrong.
pub fn law_worked_words()
    ensures { WorkedWords }
{}
