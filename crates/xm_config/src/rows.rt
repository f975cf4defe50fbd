//! The rows of a segment.
use xm_rules::Command;

/// A command on a security, which is named by its index. No rule asks for its line.
#[derive(Clone, Copy, PartialEq, Eq, Debug)]
pub struct Row {
    /// The number of the record that it stands in, in an order file, where the header is 1.
    pub line: u32,
    pub security: u32,
    pub command: Command,
}
