//! The sums of one member.
ghost use Rattle.std.specs.Prelude.{◌≡◌, ◌≤◌, ◌<◌, ◌+◌, ◌-ℤ◌, ◌^◌, pos};
ghost use Rattle.xm_rules.specs.declared.totals.TheConstants.{MAX_TRADED_MONEY, MAX_TRADED_QUANTITY};

/// What a member bought, sold, paid and received of a security: quantities in units, money in ticks times units.
#[derive(Clone, Copy)]
pub struct MemberSums {
    pub bought: u64,
    pub sold: u64,
    pub paid: u64,
    pub received: u64,
}

impl MemberSums {
    /// The sums of a member without a trade.
    pub const NONE: MemberSums = MemberSums {
        bought: 0,
        sold: 0,
        paid: 0,
        received: 0,
    };

    /// With one purchase more.
    #[inline(always)]
    pub fn with_purchase(self, quantity: u64, money: u64) -> MemberSums
        requires quantity { self.bought + quantity ≤ MAX_TRADED_QUANTITY }
        requires money { self.paid + money ≤ MAX_TRADED_MONEY }
        ensures { result ≡ record self { bought = self.bought + quantity; paid = self.paid + money } }
    {
        MemberSums {
            bought: self.bought + quantity,
            paid: self.paid + money,
            ..self
        }
    }

    /// With one sale more.
    #[inline(always)]
    pub fn with_sale(self, quantity: u64, money: u64) -> MemberSums
        requires quantity { self.sold + quantity ≤ MAX_TRADED_QUANTITY }
        requires money { self.received + money ≤ MAX_TRADED_MONEY }
        ensures { result ≡ record self { sold = self.sold + quantity; received = self.received + money } }
    {
        MemberSums {
            sold: self.sold + quantity,
            received: self.received + money,
            ..self
        }
    }
}

/// The first number less the second.
#[inline(always)]
pub fn difference(first: u64, second: u64) -> i64
    requires first { first < 2 ^ 63 }
    requires second { second < 2 ^ 63 }
    ensures { result ≡ pos first -ℤ pos second }
{
    first as i64 - second as i64
}
