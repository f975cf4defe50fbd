//! Which calls are told, and how.
ghost use Rattle.std.specs.Prelude.{◌≡◌};
ghost use Rattle.xm_calls.specs.Calls.{has_this_name, is_moment, moment_of};

use xm_config::Row;
use xm_files::SegmentNames;
use xm_reason_texts::CallMoment;
use xm_rules::Command;

/// How tables are written.
#[derive(Clone, Copy, PartialEq, Eq, Debug)]
pub enum Form {
    /// For people, in columns.
    Plain,
    /// For programs, as CSV.
    Csv,
}

/// Which calls of a security are told, and how.
#[derive(Clone, Copy, PartialEq, Eq, Debug)]
pub struct CallsAsked {
    /// The number of the record of the security before which its call is told. Where there is none, each end of a call is.
    pub at: Option<u32>,
    pub form: Form,
}

impl CallsAsked {
    /// Whether a call is told before a row of its security.
    pub(crate) fn is_moment(&self, row: &Row) -> bool
        ensures { result ≡ is_moment self.now.at row.now }
    {
        match self.at {
            Some(record) => row.line == record,
            None => row.command == Command::Uncross,
        }
    }
}

/// Whether the security with this index has this name.
pub(crate) fn has_this_name(names: &SegmentNames, name: &str, security: u32) -> bool
    ensures { result ≡ has_this_name names.now name.now security }
{
    match names.security(security) {
        Some(other) => other == name,
        None => false,
    }
}

/// Whether a command ends a call.
pub(crate) fn moment_of(command: &Command) -> CallMoment
    ensures { result ≡ moment_of command.now }
{
    match command {
        Command::Uncross => CallMoment::AtItsEnd,
        _ => CallMoment::SoFar,
    }
}
