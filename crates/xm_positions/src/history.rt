//! The trades that were recorded, which a clause alone sees.
ghost use Rattle.std.specs.Prelude.{◌≡◌, ◌++◌, ◌∷◌, []};

use std::marker::Model;
use std::mem;
use std::snapshot::Snapshot;
use xm_rules::Trade;

/// The trade that was recorded last, and what before. A snapshot has no bytes.
#[derive(Drop)]
enum Last {
    Nothing,
    Recorded(Snapshot<Trade>, Snapshot<Last>),
}

/// The recorded trades, the first one first. Which they are, a clause alone sees, and so they cost no memory.
#[derive(Drop)]
pub struct History {
    last: Last,
}

impl Model for History {
    ghost use Rattle.std.specs.Prelude.{List};
    ghost use Rattle.xm_positions.specs.History.{recorded};
    ghost use Rattle.xm_rules.specs.declared.orders.Trade.{Trade};

    ghost Value = { List Trade };

    ghost view = { λ h. recorded h.last };
}

impl History {
    /// No trade.
    pub fn new() -> History
        ensures { result ≡ [] }
    {
        History {
            last: Last::Nothing,
        }
    }

    /// Records a trade as the last one.
    #[inline(always)]
    pub fn add(&mut self, trade: &Trade)
        ensures { self.new ≡ self.old ++ trade.now ∷ [] }
    {
        let before = mem::replace(&mut self.last, Last::Nothing);
        self.last = Last::Recorded(Snapshot::of(trade), Snapshot::of(&before));
    }
}
