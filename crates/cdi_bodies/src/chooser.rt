//! The chooser, which decides where the rules leave an order open.
ghost use Rattle.std.specs.Prelude.{◌≡◌, ◌<◌};
ghost use Rattle.cdi_bodies.specs.Choices.{IsAskable, AnswersBelow};

/// A choice: of so many candidates, and after so many entries of the trace, the index of one of them.
pub type Choice = Box<dyn Fn(u32, u64) -> u32>;

/// A choice that is always one of the candidates.
#[derive(Drop)]
pub struct Chooser {
    choice: Choice,
    ghost callable: { IsAskable (Choice.pre choice) },
    ghost below: { AnswersBelow (Choice.post choice) },
}

impl Chooser {
    ghost use Rattle.cdi_bodies.specs.Picks.{picks, choice_of};

    /// The chooser of a choice that may be called for any number of candidates that isn't 0, and whose answer is then
    /// below it.
    pub fn new(choice: Choice) -> Chooser
        requires callable { IsAskable (Choice.pre choice) }
        requires below { AnswersBelow (Choice.post choice) }
        ensures { choice_of result ≡ choice }
    {
        Chooser { choice }
    }

    /// The index of one of so many candidates, after so many entries of the trace.
    pub fn choose(&self, count: u32, entries: u64) -> u32
        requires { 0 < count }
        ensures given { picks self.now count entries result }
        ensures below { result < count }
    {
        (self.choice)(count, entries)
    }
}
