//! Which settings open a desk, and which a segment.
ghost use Rattle.std.specs.Prelude.{◌≡◌, IfOk};
ghost use Rattle.std.specs.List.{list_all};
ghost use Rattle.xm_config.specs.Opening.{open_fault, opening_fault, segment_fault, settings_of};
ghost use Rattle.xm_rules.specs.Opening.{can_be_left};
ghost use Rattle.xm_rules.specs.Settings.{are_widths};

use crate::config::{SecurityConfig, SegmentConfig};
use xm_memory::OutOfMemory;
use xm_rules::DeskSettings;

/// The most securities of a segment.
pub const MAX_SECURITIES: usize = 8;

/// The most workers of a segment, and the most watchers.
pub const MAX_WORKERS: u32 = 64;

/// The most members of a segment.
pub const MAX_MEMBERS: u32 = 1_000;

/// Why a desk or a segment is not opened, in the order of the checks.
#[derive(Clone, Copy, PartialEq, Eq, Debug, thiserror::Error)]
pub enum OpenFault {
    /// The segment has no security.
    #[error("no security")]
    NoSecurity,
    /// More than 8 securities, 1,000 members, 64 workers or 64 watchers.
    #[error("too many securities or members")]
    TooMany,
    /// A width is not 1 to `MAX_WIDTH` thousandths, or the dynamic one is not below the wide one.
    #[error("bad widths of the price ranges")]
    BadWidths,
    /// The orders and stops that earlier days left are more than `MAX_CARRIED`, two of them have one name, or one of them is none
    /// that an earlier day may have left: its member isn't known, its validity is the day of its entry, or its units, its
    /// trigger or its limit are out of range.
    #[error("bad orders or stops of earlier days")]
    BadCarried,
    /// A growth was refused.
    #[error("out of memory")]
    OutOfMemory(OutOfMemory),
}

impl From<OutOfMemory> for OpenFault {
    ghost use Rattle.xm_config.specs.declared.opening.OpenFault.TheVariants.{OutOfMemory};

    ghost from_gives = { λ _ fault. fault ≡ OutOfMemory tt };

    fn from(error: OutOfMemory) -> OpenFault {
        OpenFault::OutOfMemory(error)
    }
}

/// What is wrong with the settings of a desk, if anything is.
pub fn open_fault(settings: &DeskSettings) -> Option<OpenFault>
    ensures { result ≡ open_fault settings.now }
{
    if settings.members > MAX_MEMBERS {
        Some(OpenFault::TooMany)
    } else if !settings.widths.are_widths() {
        Some(OpenFault::BadWidths)
    } else if !settings.are_carriable() {
        Some(OpenFault::BadCarried)
    } else {
        None
    }
}

impl SegmentConfig {
    /// The settings that the desk of a security is opened with, which have what it carries for themselves. It fails where a growth
    /// is refused.
    pub fn settings_of(&self, security: &SecurityConfig) -> Result<DeskSettings, OutOfMemory>
        ensures { IfOk result (λ settings. settings ≡ settings_of self.now security.now) }
    {
        let carried = security.carried.copied()?;
        Ok(DeskSettings {
            today: self.today,
            members: self.members,
            tick: security.tick,
            reference: security.reference,
            widths: security.widths,
            limit: security.limit,
            carried,
        })
    }

    /// What is wrong with the segment for so many workers and watchers, if anything is.
    pub fn opening_fault(&self, workers: u32, watchers: u32) -> Option<OpenFault>
        ensures { result ≡ opening_fault self.now workers watchers }
    {
        if workers <= MAX_WORKERS && watchers <= MAX_WORKERS {
            self.segment_fault()
        } else if self.securities.as_slice().is_empty() {
            Some(OpenFault::NoSecurity)
        } else {
            Some(OpenFault::TooMany)
        }
    }

    /// What is wrong with the segment, if anything is.
    pub fn segment_fault(&self) -> Option<OpenFault>
        ensures { result ≡ segment_fault self.now }
    {
        let securities = self.securities.as_slice();
        if securities.is_empty() {
            Some(OpenFault::NoSecurity)
        } else if securities.len() > MAX_SECURITIES || self.members > MAX_MEMBERS {
            Some(OpenFault::TooMany)
        } else if !have_widths(securities) {
            Some(OpenFault::BadWidths)
        } else if !can_be_left(securities, self.members) {
            Some(OpenFault::BadCarried)
        } else {
            None
        }
    }
}

/// Whether the widths of each security are lawful.
fn have_widths(securities: &[SecurityConfig]) -> bool
    ensures { result ≡ list_all (λ security. are_widths security.widths) securities.now }
{
    securities
        .iter()
        .all(|security| security.widths.are_widths())
}

/// Whether each security of so many members takes the orders and stops that earlier days left.
fn can_be_left(securities: &[SecurityConfig], members: u32) -> bool
    ensures { result ≡ list_all (λ security. can_be_left members security.carried) securities.now }
{
    securities
        .iter()
        .all(|security| security.carried.can_be_left(members))
}
