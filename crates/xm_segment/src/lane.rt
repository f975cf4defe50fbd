//! A security of a segment, which has its own lock and its own board.
ghost use Rattle.std.specs.Prelude.{◌≡◌, ◌<◌, ◌≤◌, ℕ, is_some, slice_get};
ghost use Rattle.xm_rules.specs.declared.totals.TheConstants.{MAX_TRADED_QUANTITY};
ghost use Rattle.xm_segment.specs.Answers.{IsAnswered, IsShown};
ghost use Rattle.xm_segment.specs.Ledgers.{with_answer};
ghost use Rattle.xm_segment.specs.Watches.{IsWatch};

use crate::gate::Gate;
use crate::ledgers::Shares;
use crate::locked::{Locked, QuoteBoard, QuoteWatch};
use crate::naming::Naming;
use std::marker::Model;
use std::sync::{Mutex, Wait};
use xm_rules::{Command, Quote, Refusal, Reply};

/// The lane of the security with this index, if the segment has that many.
pub(crate) struct Lane<S: Naming, const K: usize> {
    pub(crate) open: Option<OpenLane<S, K>>,
}

// In a function of its own, so that whoever drops one proves one call.
impl<S: Naming, const K: usize> Drop for Lane<S, K> {
    fn drop(self) {
        let Lane { open: _open } = self;
    }
}

/// What a security has: its lock, and the board beside it.
#[derive(Drop)]
pub(crate) struct OpenLane<S: Naming, const K: usize> {
    pub(crate) lock: Mutex<Locked<S, K>>,
    pub(crate) board: QuoteBoard<S, K>,
}

impl<S: Naming, const K: usize> Model for Lane<S, K> {
    ghost use Rattle.std.specs.Prelude.{◌≡◌, is_some, slice_get};

    ghost Value = { Unit {0} };

    ghost view = { λ _. tt };

    ghost invariant = { λ l. is_some l.open ≡ is_some (slice_get S.settings K) };
}

impl<S: Naming, const K: usize> Lane<S, K> {
    /// What its security has, if it has one.
    pub(crate) fn into_open(self) -> Option<OpenLane<S, K>>
        ensures { is_some result ≡ is_some (slice_get S.settings K) }
    {
        let Lane { open } = self;
        open
    }

    /// Takes a command under the lock.
    pub(crate) fn submit<R: Wait, G: Gate>(
        &self,
        rt: &R,
        gate: &G,
        worker: u32,
        security: u32,
        shares: &mut Shares<S, K>,
        watch: &mut Option<QuoteWatch<S, K>>,
        command: &Command,
    ) -> Result<Reply, Refusal>
        requires shares { 0 < shares.old.parts }
        requires watch { (number : ℕ) × IsWatch number (slice_get S.settings K) watch.old }
        ensures answer { IsAnswered (slice_get S.settings K) command.now result watch.old watch.new }
        ensures watch { (number : ℕ) → IsWatch number (slice_get S.settings K) watch.old → IsWatch number (slice_get S.settings K) watch.new }
        ensures shares { shares.new ≡ record shares.old { sums = with_answer shares.old.sums result } }
        ensures within { shares.old.sums.quantity ≤ MAX_TRADED_QUANTITY → shares.new.sums.quantity ≤ MAX_TRADED_QUANTITY }
    {
        let Some(open) = &self.open else {
            return Err(Refusal::UnknownSecurity);
        };
        let Some(watch) = watch else {
            return Err(Refusal::UnknownSecurity);
        };
        let mut locked = open.lock.lock(rt);
        gate.inside(worker, security);
        locked.submit(&open.board, shares, watch, command)
    }

    /// What is shown of the security, if there is one. It takes no lock.
    pub(crate) fn quote(&self, watch: &mut Option<QuoteWatch<S, K>>) -> Option<Quote>
        requires { (number : ℕ) × IsWatch number (slice_get S.settings K) watch.old }
        ensures shown { IsShown (slice_get S.settings K) result watch.old watch.new }
        ensures watch { (number : ℕ) → IsWatch number (slice_get S.settings K) watch.old → IsWatch number (slice_get S.settings K) watch.new }
    {
        let Some(open) = &self.open else {
            return None;
        };
        let Some(watch) = watch else {
            return None;
        };
        Some(watch.read(&open.board))
    }
}
