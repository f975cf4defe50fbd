//! Shares of the ledgers of all eight lanes.
ghost use Rattle.std.specs.Prelude.{◌≡◌, ◌+◌, ◌-◌, ◌<◌, ◌≤◌};
ghost use Rattle.xm_segment.specs.Ledgers.{added, nothing_counted};

use crate::ledgers::Shares;
use crate::naming::Naming;
use std::marker::Model;

/// A share of the ledgers of each lane. A clause sees how many parts they have, which is the same in each, and their sums.
#[derive(Drop)]
pub(crate) struct ShareRow<S: Naming> {
    pub(crate) s0: Shares<S, 0>,
    pub(crate) s1: Shares<S, 1>,
    pub(crate) s2: Shares<S, 2>,
    pub(crate) s3: Shares<S, 3>,
    pub(crate) s4: Shares<S, 4>,
    pub(crate) s5: Shares<S, 5>,
    pub(crate) s6: Shares<S, 6>,
    pub(crate) s7: Shares<S, 7>,
}

impl<S: Naming> Model for ShareRow<S> {
    ghost use Rattle.std.specs.Prelude.{◌≡◌, ◌∷◌, []};
    ghost use Rattle.xm_segment.specs.Ledgers.{SharedRow};

    ghost Value = { SharedRow };

    ghost view = { λ r. record { parts = r.s0.parts; sums = r.s0.sums ∷ r.s1.sums ∷ r.s2.sums ∷ r.s3.sums ∷ r.s4.sums ∷ r.s5.sums ∷ r.s6.sums ∷ r.s7.sums ∷ [] } };

    ghost invariant = { λ r. (r.s1.parts ≡ r.s0.parts) × (r.s2.parts ≡ r.s0.parts) × (r.s3.parts ≡ r.s0.parts) × (r.s4.parts ≡ r.s0.parts) × (r.s5.parts ≡ r.s0.parts) × (r.s6.parts ≡ r.s0.parts) × (r.s7.parts ≡ r.s0.parts) };
}

impl<S: Naming> ShareRow<S> {
    /// Cuts one part off each share, in which nothing is counted.
    pub(crate) fn cut(&mut self) -> ShareRow<S>
        requires { 1 < self.old.parts }
        ensures one { result ≡ record { parts = 1; sums = nothing_counted } }
        ensures rest { self.new ≡ record self.old { parts = self.old.parts - 1 } }
    {
        ShareRow {
            s0: self.s0.cut(),
            s1: self.s1.cut(),
            s2: self.s2.cut(),
            s3: self.s3.cut(),
            s4: self.s4.cut(),
            s5: self.s5.cut(),
            s6: self.s6.cut(),
            s7: self.s7.cut(),
        }
    }

    /// Takes in other shares, each in its lane.
    pub(crate) fn merge(&mut self, other: ShareRow<S>)
        ensures merged { self.new ≡ record { parts = self.old.parts + other.parts; sums = added self.old.sums other.sums } }
        ensures apart { self.new.parts ≤ S.workers + 1 }
    {
        let ShareRow {
            s0,
            s1,
            s2,
            s3,
            s4,
            s5,
            s6,
            s7,
        } = other;
        self.s0.merge(s0);
        self.s1.merge(s1);
        self.s2.merge(s2);
        self.s3.merge(s3);
        self.s4.merge(s4);
        self.s5.merge(s5);
        self.s6.merge(s6);
        self.s7.merge(s7);
    }
}
