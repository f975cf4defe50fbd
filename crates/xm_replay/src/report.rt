//! What a day counts.
ghost use Rattle.std.specs.Prelude.{List, ◌≡◌, ◌+◌, ◌<◌, ◌^◌};
ghost use Rattle.xm_config.specs.Day.{counted};
ghost use Rattle.xm_rules.specs.State.{State};

use xm_rules::{Refusal, Reply};

/// How many rows of a day were accepted and refused.
#[derive(Clone, Copy, PartialEq, Eq, Debug)]
pub struct DayReport {
    pub accepted: u64,
    pub refused: u64,
}

impl DayReport {
    /// The report with one row more, which was answered so.
    #[inline(always)]
    pub fn counted(self, answer: &Result<Reply, Refusal>) -> DayReport
        requires room { self.accepted + self.refused + 1 < 2 ^ 64 }
        ensures counted { (states : List State) → record { states = states; accepted = result.accepted; refused = result.refused } ≡ counted (record { states = states; accepted = self.accepted; refused = self.refused }) answer.now }
        ensures one { result.accepted + result.refused ≡ self.accepted + self.refused + 1 }
    {
        match answer {
            Ok(_) => DayReport {
                accepted: self.accepted + 1,
                refused: self.refused,
            },
            Err(_) => DayReport {
                accepted: self.accepted,
                refused: self.refused + 1,
            },
        }
    }
}
