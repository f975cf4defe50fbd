//! The formats of order files and of the carry file: the columns of each, and its kinds of commands.
ghost use Rattle.std.specs.Prelude.{◌≡◌};
ghost use Rattle.xm_files.specs.Rows.{columns_of, has_condition, kind_in};

use crate::columns::Column;
use crate::entries::{Word, parse_word};
use xm_rules::Condition;

/// How many columns there are, which is the most that a format has.
pub(crate) const MOST_COLUMNS: usize = 13;

/// A format of order files, or that of the carry file. It says which columns a record has, in which order, and which commands
/// records give.
#[derive(Clone, Copy)]
pub(crate) enum OrderFormat {
    First,
    /// With a free text behind the columns of the first.
    Second,
    /// That of the carry file, whose records are orders and stops, and name no command.
    Carry,
}

impl OrderFormat {
    /// The columns, in their order.
    #[inline(always)]
    pub(crate) fn columns(self) -> &'static [Column]
        ensures { result.now ≡ columns_of self }
    {
        match self {
            OrderFormat::First => &Column::FIRST,
            OrderFormat::Second => &Column::ALL,
            OrderFormat::Carry => &Column::CARRY,
        }
    }

    /// The kind of command that a text names, if records give it.
    #[inline(always)]
    pub(crate) fn kind_in(self, text: &[u8]) -> Option<Word>
        ensures { result ≡ kind_in self text.now }
    {
        match self {
            OrderFormat::First | OrderFormat::Second => parse_word(text),
            OrderFormat::Carry => None,
        }
    }

    /// Whether orders may have this condition.
    #[inline(always)]
    pub(crate) fn has_condition(self, condition: Condition) -> bool
        ensures { result ≡ has_condition self condition }
    {
        match self {
            OrderFormat::First => match condition {
                Condition::Plain | Condition::Ioc | Condition::Fok => true,
                Condition::Boc => false,
            },
            OrderFormat::Second => match condition {
                Condition::Plain | Condition::Ioc | Condition::Fok | Condition::Boc => true,
            },
            OrderFormat::Carry => match condition {
                Condition::Plain => true,
                Condition::Ioc | Condition::Fok | Condition::Boc => false,
            },
        }
    }
}
