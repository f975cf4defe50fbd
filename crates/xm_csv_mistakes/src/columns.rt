//! The columns of order files and carry files: their titles, and what may stand in them, in words.

/// A column.
#[derive(Clone, Copy, PartialEq, Eq)]
pub(crate) enum Column {
    Command,
    Member,
    Reference,
    Security,
    Side,
    Kind,
    Limit,
    Trigger,
    Quantity,
    Validity,
    Restriction,
    Condition,
    Text,
}

/// A format of files whose records stand in columns.
#[derive(Clone, Copy, PartialEq, Eq)]
pub(crate) enum Format {
    /// An order file of version 1.
    First,
    /// An order file of version 2.
    Second,
    /// A carry file.
    Carry,
}

/// The columns of an order file; those of version 1 are all but the last.
const ORDER_COLUMNS: [Column; 13] = [
    Column::Command,
    Column::Member,
    Column::Reference,
    Column::Security,
    Column::Side,
    Column::Kind,
    Column::Limit,
    Column::Trigger,
    Column::Quantity,
    Column::Validity,
    Column::Restriction,
    Column::Condition,
    Column::Text,
];

/// The columns of a carry file.
const CARRY_COLUMNS: [Column; 10] = [
    Column::Security,
    Column::Member,
    Column::Reference,
    Column::Side,
    Column::Kind,
    Column::Limit,
    Column::Trigger,
    Column::Quantity,
    Column::Validity,
    Column::Restriction,
];

impl Format {
    /// The columns, in their order.
    pub(crate) fn columns(self) -> &'static [Column] {
        match self {
            Format::First => ORDER_COLUMNS.get(..12).unwrap_or(&ORDER_COLUMNS),
            Format::Second => &ORDER_COLUMNS,
            Format::Carry => &CARRY_COLUMNS,
        }
    }

    /// Where a column stands.
    pub(crate) fn place_of(self, column: Column) -> Option<usize> {
        self.columns().iter().position(|other| *other == column)
    }

    /// The title of the column at a place, and of the last one behind it.
    pub(crate) fn title_at(self, place: usize) -> &'static str {
        match self.columns().get(place) {
            Some(column) => column.title(),
            None => Column::Text.title(),
        }
    }

    /// A text that may stand at a place, in a record that has such a field.
    pub(crate) fn sample_at(self, place: usize) -> &'static [u8] {
        match self.columns().get(place) {
            Some(column) => column.in_words().sample,
            None => &[],
        }
    }

    /// The text of the header, without a line end.
    pub(crate) fn header(self) -> &'static str {
        match self {
            Format::First => {
                "command,member,reference,security,side,kind,limit,trigger,quantity,validity,restriction,condition"
            }
            Format::Second => {
                "command,member,reference,security,side,kind,limit,trigger,quantity,validity,restriction,condition,text"
            }
            Format::Carry => {
                "security,member,reference,side,kind,limit,trigger,quantity,validity,restriction"
            }
        }
    }
}

/// A column, in words.
struct InWords {
    /// What the header says of it.
    title: &'static str,
    /// The words that may stand in it, for one format or another.
    words: &'static [&'static str],
    /// A text that may stand in it, in a record that has such a field.
    sample: &'static [u8],
    said: Said,
    /// What is said of a carry file, where that is something else.
    carry: Option<Said>,
}

/// What is said of a field that may not stand in a column.
struct Said {
    /// What the text isn't.
    isnt: &'static str,
    /// What may stand there, where the words before don't say it.
    may: &'static str,
    /// What is to stand there where nothing does.
    need: &'static str,
}

/// What a price is.
const PRICE: &str =
    "; a price is in euros, such as 10.05: digits, and one point at most between two of them, 16 characters at most";

/// Each column in words, in the order of `Column`.
static IN_WORDS: [InWords; 13] = [
    InWords {
        title: "command",
        words: &[
            "enter",
            "change",
            "cancel",
            "cancel-all",
            "open",
            "intraday",
            "close",
            "uncross",
            "end",
        ],
        sample: b"enter",
        said: Said {
            isnt: "is no command",
            may: "; the commands are enter, change, cancel, cancel-all, open, intraday, close, uncross and end",
            need: "enter, change, cancel, cancel-all, open, intraday, close, uncross or end stands there",
        },
        carry: None,
    },
    InWords {
        title: "member",
        words: &[],
        sample: b"M",
        said: Said {
            isnt: "is no member of the segment file",
            may: "",
            need: "the name of a member stands there",
        },
        carry: None,
    },
    InWords {
        title: "reference",
        words: &[],
        sample: b"1",
        said: Said {
            isnt: "is no whole number up to 4294967295",
            may: "; a reference is one to ten digits, with no other sign",
            need: "the member's own number of the order stands there, a whole number",
        },
        carry: None,
    },
    InWords {
        title: "security",
        words: &[],
        sample: b"M",
        said: Said {
            isnt: "is no security of the segment file",
            may: "",
            need: "the name of a security stands there, or for open, intraday, close, uncross and end also *",
        },
        carry: Some(Said {
            isnt: "is no security of the segment file",
            may: "",
            need: "the name of a security stands there",
        }),
    },
    InWords {
        title: "side",
        words: &["buy", "sell"],
        sample: b"buy",
        said: Said {
            isnt: "is neither buy nor sell",
            may: "",
            need: "buy or sell stands there",
        },
        carry: None,
    },
    InWords {
        title: "kind",
        words: &["market", "limit", "stop-market", "stop-limit"],
        sample: b"limit",
        said: Said {
            isnt: "is none of market, limit, stop-market and stop-limit",
            may: "",
            need: "market, limit, stop-market or stop-limit stands there",
        },
        carry: None,
    },
    InWords {
        title: "limit",
        words: &[],
        sample: b"1",
        said: Said {
            isnt: "is no number",
            may: PRICE,
            need: "a limit in euros stands there, such as 10.05",
        },
        carry: None,
    },
    InWords {
        title: "trigger",
        words: &[],
        sample: b"1",
        said: Said {
            isnt: "is no number",
            may: PRICE,
            need: "the price at which the stop is reached stands there, such as 10.05",
        },
        carry: None,
    },
    InWords {
        title: "quantity",
        words: &[],
        sample: b"1",
        said: Said {
            isnt: "is no whole number up to 4294967295",
            may: "; a quantity is one to ten digits, with no other sign",
            need: "the number of units stands there, a whole number",
        },
        carry: Some(Said {
            isnt: "is no whole number from 1 to 1000000",
            may: "; it has digits alone",
            need: "the number of units stands there, a whole number",
        }),
    },
    InWords {
        title: "validity",
        words: &["day", "gtc"],
        sample: b"gtc",
        said: Said {
            isnt: "is none of day, gtc and a date of eight digits",
            may: "; a date is written as 20260131, and an empty field is the day",
            need: "gtc or a date of eight digits stands there, such as 20260131",
        },
        carry: Some(Said {
            isnt: "is neither gtc nor a date of eight digits",
            may: "; a date is written as 20260131",
            need: "gtc or a date of eight digits stands there, such as 20260131",
        }),
    },
    InWords {
        title: "restriction",
        words: &["free", "opening", "auctions", "closing"],
        sample: b"free",
        said: Said {
            isnt: "is none of free, opening, auctions and closing",
            may: "; an empty field is free",
            need: "a text stands there",
        },
        carry: Some(Said {
            isnt: "is none of free, opening, auctions and closing",
            may: "",
            need: "free, opening, auctions or closing stands there, and free for a stop",
        }),
    },
    InWords {
        title: "condition",
        words: &["plain", "ioc", "fok", "boc"],
        sample: b"plain",
        said: Said {
            isnt: "is none of plain, ioc, fok and boc",
            may: "; an empty field is plain",
            need: "a text stands there",
        },
        carry: None,
    },
    InWords {
        title: "text",
        words: &[],
        sample: b"",
        said: Said {
            isnt: "is too long",
            may: "",
            need: "a text stands there",
        },
        carry: None,
    },
];

impl Column {
    /// The column in words.
    fn in_words(self) -> &'static InWords {
        &IN_WORDS[self as usize]
    }

    /// What is said of a field that may not stand in it.
    fn said(self, format: Format) -> &'static Said {
        let words = self.in_words();
        match &words.carry {
            Some(said) if format == Format::Carry => said,
            _ => &words.said,
        }
    }

    /// What the header says of it.
    pub(crate) fn title(self) -> &'static str {
        self.in_words().title
    }

    /// The words that may stand in it, for one format or another.
    pub(crate) fn words(self) -> &'static [&'static str] {
        self.in_words().words
    }

    /// Whether a text is such a word.
    pub(crate) fn has_word(self, text: &[u8]) -> bool {
        self.words().iter().any(|word| word.as_bytes() == text)
    }

    /// Whether it has prices.
    pub(crate) fn is_price(self) -> bool {
        self == Column::Limit || self == Column::Trigger
    }

    /// What a text that may not stand in it isn't.
    pub(crate) fn isnt(self, format: Format) -> &'static str {
        if self == Column::Condition && format == Format::First {
            "is none of plain, ioc and fok"
        } else {
            self.said(format).isnt
        }
    }

    /// What may stand in it, where the words before don't say it.
    pub(crate) fn may(self, format: Format) -> &'static str {
        self.said(format).may
    }

    /// What is to stand in it where nothing does.
    pub(crate) fn need(self, format: Format) -> &'static str {
        self.said(format).need
    }
}
