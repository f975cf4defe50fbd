//! The ledgers of one security: three books behind its lock, and three shares in each seat.
ghost use Rattle.std.specs.Prelude.{◌≡◌, ◌+◌, ◌-◌, ◌<◌, ◌≤◌, Ok};
ghost use Rattle.xm_segment.specs.Ledgers.{both_sums, no_sums, with_answer};

use crate::naming::{AcceptedCount, Money, Naming, Quantity};
use std::marker::Model;
use std::sync::ledger::{Blank, Book, Share};
use xm_rules::Reply;

/// The three ledgers of a security, before a segment has them.
pub struct LaneBlanks {
    accepted: Blank,
    quantity: Blank,
    money: Blank,
}

// In a function of its own, so that whoever drops them proves one call.
impl Drop for LaneBlanks {
    fn drop(self) {
        let LaneBlanks {
            accepted: _accepted,
            quantity: _quantity,
            money: _money,
        } = self;
    }
}

impl Model for LaneBlanks {
    ghost use Rattle.xm_segment.specs.Ledgers.{BlankLedgers};

    ghost Value = { BlankLedgers };

    ghost view = { λ b. record { names = record { accepted = b.accepted.name; quantity = b.quantity.name; money = b.money.name }; parts = b.accepted.parts } };

    ghost use Rattle.std.specs.Prelude.{◌≡◌};

    ghost invariant = { λ b. (b.quantity.parts ≡ b.accepted.parts) × (b.money.parts ≡ b.accepted.parts) };
}

/// The three books of a security. A clause sees their totals.
pub struct Books<S: Naming, const K: usize> {
    accepted: Book<AcceptedCount<S, K>>,
    quantity: Book<Quantity<S, K>>,
    money: Book<Money<S, K>>,
}

// As that of `LaneBlanks`.
impl<S: Naming, const K: usize> Drop for Books<S, K> {
    fn drop(self) {
        let Books {
            accepted: _accepted,
            quantity: _quantity,
            money: _money,
        } = self;
    }
}

impl<S: Naming, const K: usize> Model for Books<S, K> {
    ghost use Rattle.xm_segment.specs.Ledgers.{Sums};

    ghost Value = { Sums };

    ghost view = { λ b. record { accepted = b.accepted.total; quantity = b.quantity.total; money = b.money.total } };
}

/// A share of each of the three ledgers of a security. A clause sees how many parts they have, and their amounts.
pub struct Shares<S: Naming, const K: usize> {
    accepted: Share<AcceptedCount<S, K>>,
    quantity: Share<Quantity<S, K>>,
    money: Share<Money<S, K>>,
}

// As that of `LaneBlanks`.
impl<S: Naming, const K: usize> Drop for Shares<S, K> {
    fn drop(self) {
        let Shares {
            accepted: _accepted,
            quantity: _quantity,
            money: _money,
        } = self;
    }
}

impl<S: Naming, const K: usize> Model for Shares<S, K> {
    ghost use Rattle.std.specs.Prelude.{◌≡◌};
    ghost use Rattle.xm_segment.specs.Ledgers.{Shared};

    ghost Value = { Shared };

    ghost view = { λ s. record { parts = s.accepted.parts; sums = record { accepted = s.accepted.amount; quantity = s.quantity.amount; money = s.money.amount } } };

    ghost invariant = { λ s. (s.quantity.parts ≡ s.accepted.parts) × (s.money.parts ≡ s.accepted.parts) };
}

impl LaneBlanks {
    /// Three ledgers that will be cut into so many parts.
    pub(crate) fn new(parts: u64) -> LaneBlanks
        ensures { result.parts ≡ parts }
    {
        LaneBlanks {
            accepted: Blank::new(parts),
            quantity: Blank::new(parts),
            money: Blank::new(parts),
        }
    }

    /// The books of a security, and shares with all their parts.
    pub(crate) fn open<S: Naming, const K: usize>(self) -> (Books<S, K>, Shares<S, K>)
        requires names { self.names ≡ S.ledgers K }
        requires parts { self.parts ≡ S.workers + 1 }
        ensures books { result.0 ≡ no_sums }
        ensures shares { result.1 ≡ record { parts = S.workers + 1; sums = no_sums } }
    {
        let LaneBlanks {
            accepted,
            quantity,
            money,
        } = self;
        let (accepted_book, accepted) = accepted.open::<AcceptedCount<S, K>>();
        let (quantity_book, quantity) = quantity.open::<Quantity<S, K>>();
        let (money_book, money) = money.open::<Money<S, K>>();
        (
            Books {
                accepted: accepted_book,
                quantity: quantity_book,
                money: money_book,
            },
            Shares {
                accepted,
                quantity,
                money,
            },
        )
    }
}

impl<S: Naming, const K: usize> Books<S, K> {
    /// Counts an accepted command, in the books and in shares. A share is never more than its book.
    pub(crate) fn count(&mut self, shares: &mut Shares<S, K>, reply: &Reply)
        requires { 0 < shares.old.parts }
        ensures books { self.new ≡ with_answer self.old (Ok reply.now) }
        ensures shares { shares.new ≡ record shares.old { sums = with_answer shares.old.sums (Ok reply.now) } }
        ensures within { shares.new.sums.quantity ≤ self.new.quantity }
    {
        self.accepted.add(&mut shares.accepted, 1);
        self.quantity.add(&mut shares.quantity, reply.quantity);
        self.money.add(&mut shares.money, reply.money);
        self.quantity.audit(&mut shares.quantity);
    }

    /// Where shares have all parts, their amounts are the books' totals.
    pub(crate) fn audit(&mut self, shares: &mut Shares<S, K>)
        requires { shares.old.parts ≡ S.workers + 1 }
        ensures books { self.new ≡ self.old }
        ensures shares { shares.new ≡ shares.old }
        ensures whole { shares.old.sums ≡ self.old }
    {
        self.accepted.audit(&mut shares.accepted);
        self.quantity.audit(&mut shares.quantity);
        self.money.audit(&mut shares.money);
    }
}

impl<S: Naming, const K: usize> Shares<S, K> {
    /// Cuts one part off, in which nothing is counted.
    pub(crate) fn cut(&mut self) -> Shares<S, K>
        requires { 1 < self.old.parts }
        ensures one { result ≡ record { parts = 1; sums = no_sums } }
        ensures rest { self.new ≡ record self.old { parts = self.old.parts - 1 } }
    {
        Shares {
            accepted: self.accepted.split_off(1, 0),
            quantity: self.quantity.split_off(1, 0),
            money: self.money.split_off(1, 0),
        }
    }

    /// Takes in other shares.
    pub(crate) fn merge(&mut self, other: Shares<S, K>)
        ensures merged { self.new ≡ record { parts = self.old.parts + other.parts; sums = both_sums self.old.sums other.sums } }
        ensures apart { self.new.parts ≤ S.workers + 1 }
    {
        let Shares {
            accepted,
            quantity,
            money,
        } = other;
        self.accepted.merge(accepted);
        self.quantity.merge(quantity);
        self.money.merge(money);
    }
}
