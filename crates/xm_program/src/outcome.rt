//! What comes of a call that met no fault, and the status that tells it.
ghost use Rattle.std.specs.Prelude.{◌≡◌};
ghost use Rattle.xm_program.specs.Outcomes.{explained, outcome_after, outcome_status};

use xm_day::Completeness;
use xm_explanations::Explanation;

/// Whether the status tells that a day is incomplete.
#[derive(Clone, Copy, PartialEq, Eq, Debug)]
pub enum Strictness {
    Lenient,
    Strict,
}

/// What came of a call that met no fault.
#[derive(Clone, Copy, PartialEq, Eq, Debug)]
pub enum Outcome {
    Done,
    /// A strict day was written, or a day was explained, of which a row was refused, or a security hasn't ended.
    Incomplete,
    /// The files have mistakes, and were explained.
    Mistaken,
    /// The segment has no security of the name that the words give.
    UnknownSecurity,
}

impl Strictness {
    /// What comes of a day that was written.
    pub(crate) fn outcome(self, completeness: Completeness) -> Outcome
        ensures { result ≡ outcome_after self completeness }
    {
        match (self, completeness) {
            (Strictness::Strict, Completeness::Incomplete) => Outcome::Incomplete,
            _ => Outcome::Done,
        }
    }
}

impl Outcome {
    /// What comes of an explanation.
    pub(crate) fn explained(explanation: &Explanation<'_>) -> Outcome
        ensures { result ≡ explained explanation.now }
    {
        match explanation {
            Explanation::Mistaken(_) => Outcome::Mistaken,
            Explanation::Faultless(unsaid) => Strictness::Strict.outcome(unsaid.completeness),
        }
    }

    /// The status that the program then ends with.
    pub fn status(self) -> u8
        ensures { result ≡ outcome_status self }
    {
        match self {
            Outcome::Done => 0,
            Outcome::Incomplete => 4,
            Outcome::Mistaken => 1,
            Outcome::UnknownSecurity => 2,
        }
    }
}
