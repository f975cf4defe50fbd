//! The settings of a segment.
ghost use Rattle.std.specs.Prelude.{◌≡◌};

use std::marker::Model;
use xm_rules::{Carried, Widths};
use xm_ticks::{JournalLimit, Price, TickSize};

/// The settings of a security.
#[derive(Drop, Debug)]
pub struct SecurityConfig {
    /// The size of a tick, in ten-thousandths of a euro.
    pub tick: TickSize,
    /// The last price of a previous day, in ticks.
    pub reference: Price,
    /// The widths of the price ranges, in thousandths of their reference price.
    pub widths: Widths,
    /// How many commands of members the journal takes.
    pub limit: JournalLimit,
    /// The orders and stops that earlier days left.
    pub carried: Carried,
}

/// The settings of the securities of a segment, in index order. A clause sees their list.
#[derive(Debug)]
pub struct Securities {
    settings: Vec<SecurityConfig>,
}

// In a function of its own, so that whoever drops them proves one call.
impl Drop for Securities {
    fn drop(self) {
        let Securities {
            settings: _settings,
        } = self;
    }
}

impl Model for Securities {
    ghost use Rattle.std.specs.Prelude.{List};
    ghost use Rattle.xm_config.specs.declared.config.SecurityConfig.{SecurityConfig};

    ghost Value = { List SecurityConfig };

    ghost view = { λ s. s.settings.items };
}

impl Securities {
    /// The securities with these settings.
    pub fn new(settings: Vec<SecurityConfig>) -> Self
        ensures { result ≡ settings.items }
    {
        Self { settings }
    }

    /// Their settings, in index order.
    pub fn as_slice(&self) -> &[SecurityConfig]
        ensures { result.now ≡ self.now }
    {
        self.settings.as_slice()
    }

    /// Gives the settings back, and takes no memory.
    pub fn into_vec(self) -> Vec<SecurityConfig>
        ensures { result.items ≡ self }
    {
        let Securities { settings } = self;
        settings
    }
}

/// The settings of a segment.
#[derive(Drop, Debug)]
pub struct SegmentConfig {
    /// The date, as a number such as 20260105.
    pub today: u32,
    /// The number of members.
    pub members: u32,
    /// The settings of its securities, in index order.
    pub securities: Securities,
}
