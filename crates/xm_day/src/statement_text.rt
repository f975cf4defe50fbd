//! The text of a statement, in pieces.
ghost use Rattle.std.specs.Prelude.{◌≡◌};

use std::alloc::Global;
use std::marker::Model;

/// The text of a statement, in pieces that go out one after another, so that what several threads made needn't be joined. A clause sees
/// the whole.
#[derive(Drop)]
pub struct StatementText {
    pub(crate) beginning: Vec<u8>,
    // The lines of each security, where they were made apart.
    pub(crate) securities: Vec<Vec<u8>>,
    pub(crate) end: Vec<u8>,
}

impl Model for StatementText {
    ghost use Rattle.std.specs.Prelude.{◌++◌, List, ℕ};
    ghost use Rattle.std.specs.List.{flat_map};

    ghost Value = { List ℕ };

    ghost view = { λ t. t.beginning.items ++ flat_map (λ lines. lines.items) t.securities.items ++ t.end.items };
}

impl StatementText {
    ghost use Rattle.std.specs.Prelude.{◌≡◌};

    /// A text that was made as one.
    pub(crate) fn whole(alloc: Global, text: Vec<u8>) -> StatementText
        ensures { result ≡ text.items }
    {
        StatementText {
            beginning: text,
            securities: Vec::new(alloc),
            end: Vec::new(alloc),
        }
    }
}
