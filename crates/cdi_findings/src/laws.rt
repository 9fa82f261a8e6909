//! A law of the words that are explained, over the definitions alone.
ghost use Rattle.cdi_findings.specs.Words.{AreComplete};

/// Each kind of problem, each refusal, each cause of a cut, and the first word of each reply and each entry is explained.
pub fn law_complete()
    ensures { AreComplete }
{}
