//! The phases of a trading day.
ghost use Rattle.std.specs.Prelude.{◌≡◌};
ghost use Rattle.xm_rules.specs.Refusals.{is_ended};
ghost use Rattle.xm_rules.specs.Settling.{is_continuous};
ghost use Rattle.xm_rules.specs.Step.{next_phase};

/// An auction of the day. The one that follows an interruption of continuous trading is
/// `Interruption`.
#[derive(Clone, Copy, PartialEq, Eq, Hash, Debug)]
pub enum Auction {
    Opening,
    Intraday,
    Closing,
    Interruption,
}

impl Auction {
    /// The phase after its call: post-trading after the closing call, and else continuous trading.
    pub fn next_phase(self) -> Phase
        ensures { result ≡ next_phase self }
    {
        match self {
            Auction::Closing => Phase::PostTrading,
            _ => Phase::Continuous,
        }
    }
}

/// The stage of a call: a potential price outside its ranges leads from one to the next.
#[derive(Clone, Copy, PartialEq, Eq, Hash, Debug)]
pub enum CallStage {
    Ordinary,
    Interrupted,
    Extended,
}

/// The phase of a security. `Call(Interruption, Ordinary)` never occurs.
#[derive(Clone, Copy, PartialEq, Eq, Hash, Debug)]
pub enum Phase {
    PreTrading,
    Call(Auction, CallStage),
    Continuous,
    PostTrading,
    Ended,
}

impl Phase {
    /// Whether it is continuous trading.
    pub fn is_continuous(self) -> bool
        ensures { result ≡ is_continuous self }
    {
        self == Phase::Continuous
    }

    /// Whether the day has ended.
    pub fn is_ended(self) -> bool
        ensures { result ≡ is_ended self }
    {
        self == Phase::Ended
    }
}
