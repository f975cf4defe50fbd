//! The positions of the members in one security.
ghost use Rattle.std.specs.Prelude.{◌≡◌, ◌++◌, ◌∷◌, [], All, IfOk, IfSome};
ghost use Rattle.xm_positions.specs.Positions.{AreSmall, cash_position, has_position, net_position, sums_if_known};
ghost use Rattle.xm_rules.specs.Sums.{AreWithinLimits, IsBetweenMembers, total_money, total_quantity};

use crate::history::History;
use crate::sums::{MemberSums, difference};
use std::alloc::Allocator;
use std::marker::Model;
use xm_memory::OutOfMemory;
use xm_rules::{Totals, Trade};

/// The sums of each member over the trades of one security. A clause sees the number of members, and the trades that were
/// recorded.
#[derive(Drop)]
pub struct Positions<A: Allocator> {
    members: Vec<MemberSums, A>,
    totals: Totals,
    history: History,
}

impl<A: Allocator> Model for Positions<A> {
    ghost use Rattle.std.specs.Prelude.{◌≡◌, length};
    ghost use Rattle.xm_positions.specs.Positions.{AreSums, Recorded};
    ghost use Rattle.xm_rules.specs.Sums.{AreWithinLimits, total_money, total_quantity};

    ghost Value = { Recorded };

    ghost view = { λ p. record { members = length p.members.items; trades = p.history } };

    ghost invariant = { λ p. record {
      sums : AreSums p.members.items p.history;
      quantity : p.totals.quantity ≡ total_quantity p.history;
      money : p.totals.money ≡ total_money p.history;
      limits : AreWithinLimits p.history;
    } };
}

impl<A: Allocator> Positions<A> {
    /// The positions of so many members before the first trade, or `OutOfMemory` where their growth was refused.
    pub fn new(alloc: A, members: u32) -> Result<Positions<A>, OutOfMemory>
        ensures { IfOk result (λ positions. positions ≡ record { members = members; trades = [] }) }
    {
        let mut sums = Vec::new(alloc);
        sums.resize(members as usize, MemberSums::NONE)?;
        Ok(Positions {
            members: sums,
            totals: Totals {
                quantity: 0,
                money: 0,
            },
            history: History::new(),
        })
    }

    /// Records a trade between two of the members, or of one with itself, in constant time. With it the traded quantity and
    /// money must be within the limits of a day, which no lawful journal exceeds. It takes no memory.
    pub fn record(&mut self, trade: &Trade)
        requires members { IsBetweenMembers self.old.members trade.now }
        requires limits { AreWithinLimits (self.old.trades ++ trade.now ∷ []) }
        ensures { self.new ≡ record self.old { trades = self.old.trades ++ trade.now ∷ [] } }
    {
        let quantity = u64::from(trade.quantity);
        let money = trade.money_of();
        let buyer = trade.buyer as usize;
        let seller = trade.seller as usize;
        self.members[buyer] = self.members[buyer].with_purchase(quantity, money);
        self.members[seller] = self.members[seller].with_sale(quantity, money);
        self.totals.quantity += quantity;
        self.totals.money += money;
        self.history.add(trade);
    }

    /// Records trades one after the other, as `record` does.
    pub fn record_all(&mut self, trades: &[Trade])
        requires members { All (IsBetweenMembers self.old.members) trades.now }
        requires limits { AreWithinLimits (self.old.trades ++ trades.now) }
        ensures { self.new ≡ record self.old { trades = self.old.trades ++ trades.now } }
    {
        for trade in trades {
            self.record(trade);
        }
    }

    /// What a member bought less what it sold, in units; nothing for a member that isn't there.
    pub fn net(&self, member: u32) -> Option<i64>
        ensures { result ≡ net_position self.now member }
    {
        let sums = self.sums_of(member)?;
        Some(difference(sums.bought, sums.sold))
    }

    /// What a member received less what it paid, in ticks times units; nothing for a member that isn't there.
    pub fn cash(&self, member: u32) -> Option<i64>
        ensures { result ≡ cash_position self.now member }
    {
        let sums = self.sums_of(member)?;
        Some(difference(sums.received, sums.paid))
    }

    /// Whether a member bought or sold a unit.
    pub fn has_traded(&self, member: u32) -> bool
        ensures { result ≡ has_position self.now member }
    {
        match self.sums_of(member) {
            None => false,
            Some(sums) => 0 < sums.bought + sums.sold,
        }
    }

    /// The sums of a member, none of which is above the limits.
    fn sums_of(&self, member: u32) -> Option<MemberSums>
        ensures sums { result ≡ sums_if_known self.now member }
        ensures limits { IfSome result AreSmall }
    {
        self.members.get(member as usize).copied()
    }

    /// The quantity and the money of all trades, each of which counts once.
    pub fn totals(&self) -> Totals
        ensures quantity { result.quantity ≡ total_quantity self.now.trades }
        ensures money { result.money ≡ total_money self.now.trades }
        ensures limits { AreWithinLimits self.now.trades }
    {
        self.totals
    }
}
