//! The columns of the order file and the carry file.
ghost use Rattle.std.specs.Prelude.{◌≡◌, ◌<◌};
ghost use Rattle.xm_files.specs.Rows.{column_index, title_of};

use crate::order_format::MOST_COLUMNS;

/// A column that a format may have.
#[derive(Clone, Copy)]
pub(crate) enum Column {
    Command,
    Member,
    Reference,
    Security,
    Side,
    Kind,
    Limit,
    Trigger,
    Quantity,
    Validity,
    Restriction,
    Condition,
    Text,
}

impl Column {
    /// The columns of the first format.
    pub(crate) const FIRST: [Column; 12] = [
        Column::Command,
        Column::Member,
        Column::Reference,
        Column::Security,
        Column::Side,
        Column::Kind,
        Column::Limit,
        Column::Trigger,
        Column::Quantity,
        Column::Validity,
        Column::Restriction,
        Column::Condition,
    ];

    /// The columns of the carry file.
    pub(crate) const CARRY: [Column; 10] = [
        Column::Security,
        Column::Member,
        Column::Reference,
        Column::Side,
        Column::Kind,
        Column::Limit,
        Column::Trigger,
        Column::Quantity,
        Column::Validity,
        Column::Restriction,
    ];

    /// Every column.
    pub(crate) const ALL: [Column; 13] = [
        Column::Command,
        Column::Member,
        Column::Reference,
        Column::Security,
        Column::Side,
        Column::Kind,
        Column::Limit,
        Column::Trigger,
        Column::Quantity,
        Column::Validity,
        Column::Restriction,
        Column::Condition,
        Column::Text,
    ];

    /// Where the column stands among all.
    #[inline(always)]
    pub(crate) fn index(self) -> usize
        ensures index { result ≡ column_index self }
        ensures within { result < MOST_COLUMNS }
    {
        match self {
            Column::Command => 0,
            Column::Member => 1,
            Column::Reference => 2,
            Column::Security => 3,
            Column::Side => 4,
            Column::Kind => 5,
            Column::Limit => 6,
            Column::Trigger => 7,
            Column::Quantity => 8,
            Column::Validity => 9,
            Column::Restriction => 10,
            Column::Condition => 11,
            Column::Text => 12,
        }
    }

    /// What the header says of the column.
    pub(crate) fn title(self) -> &'static str
        ensures { result.now ≡ title_of self }
    {
        match self {
            Column::Command => "command",
            Column::Member => "member",
            Column::Reference => "reference",
            Column::Security => "security",
            Column::Side => "side",
            Column::Kind => "kind",
            Column::Limit => "limit",
            Column::Trigger => "trigger",
            Column::Quantity => "quantity",
            Column::Validity => "validity",
            Column::Restriction => "restriction",
            Column::Condition => "condition",
            Column::Text => "text",
        }
    }
}
