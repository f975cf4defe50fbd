//! The keys of a segment file: their names, and what may stand there, in words.
use std::alloc::Global;
use xm_memory::OutOfMemory;
use xm_mistakes::Nearest;

/// A key.
#[derive(Clone, Copy, PartialEq, Eq)]
pub(crate) enum Key {
    Date,
    Members,
    Security,
    Name,
    Tick,
    Reference,
    Dynamic,
    Static,
    Wide,
    Journal,
}

/// The keys at the top.
pub(crate) const TOP_KEYS: [Key; 3] = [Key::Date, Key::Members, Key::Security];

/// The keys of a security.
pub(crate) const SECURITY_KEYS: [Key; 7] = [
    Key::Name,
    Key::Tick,
    Key::Reference,
    Key::Dynamic,
    Key::Static,
    Key::Wide,
    Key::Journal,
];

/// Words for which a key may have been meant.
const OTHER_WORDS: [(&str, Key); 18] = [
    ("today", Key::Date),
    ("day", Key::Date),
    ("securities", Key::Security),
    ("instrument", Key::Security),
    ("instruments", Key::Security),
    ("symbol", Key::Name),
    ("isin", Key::Name),
    ("ticker", Key::Name),
    ("tick_size", Key::Tick),
    ("ticksize", Key::Tick),
    ("tick-size", Key::Tick),
    ("price", Key::Reference),
    ("reference_price", Key::Reference),
    ("reference-price", Key::Reference),
    ("last", Key::Reference),
    ("statics", Key::Static),
    ("extended", Key::Wide),
    ("limit", Key::Journal),
];

/// A key, in words.
struct InWords {
    /// Its name.
    title: &'static str,
    /// A line that may stand for it.
    example: &'static str,
    /// What a value that may not stand there isn't.
    isnt: &'static str,
    /// What may stand there.
    may: &'static str,
}

/// What a width is.
const WIDTH: &str = "a width is a whole number of thousandths, so 20 is two percent";

/// Each key in words, in the order of `Key`.
const IN_WORDS: [InWords; 10] = [
    InWords {
        title: "date",
        example: "date = 20260105",
        isnt: "is no date",
        may: "a date is a whole number such as 20260105, of at most eight digits",
    },
    InWords {
        title: "members",
        example: "members = [\"AAA\", \"BBB\"]",
        isnt: "is no array of names",
        may: "it is written as members = [\"AAA\", \"BBB\"]",
    },
    InWords {
        title: "security",
        example: "[[security]]",
        isnt: "is no array of tables",
        may: "each security begins with a line [[security]], in two brackets",
    },
    InWords {
        title: "name",
        example: "name = \"XYZ\"",
        isnt: "is no name",
        may: "a name is 1 to 12 of the letters A to Z and the digits, in quotation marks",
    },
    InWords {
        title: "tick",
        example: "tick = 100",
        isnt: "is no tick",
        may: "a tick is a whole number from 1 to 10000, in ten-thousandths of a euro: 100 is a cent",
    },
    InWords {
        title: "reference",
        example: "reference = \"10.00\"",
        isnt: "is no price of the security",
        may: "a price is in euros, in quotation marks, such as \"10.00\", and a multiple of the tick",
    },
    InWords {
        title: "dynamic",
        example: "dynamic = 20",
        isnt: "is no width",
        may: WIDTH,
    },
    InWords {
        title: "static",
        example: "static = 50",
        isnt: "is no width",
        may: WIDTH,
    },
    InWords {
        title: "wide",
        example: "wide = 40",
        isnt: "is no width",
        may: WIDTH,
    },
    InWords {
        title: "journal",
        example: "journal = 1000000",
        isnt: "is no number of commands",
        may: "it is a whole number from 1 to 1000000",
    },
];

impl Key {
    /// The key in words.
    fn in_words(self) -> &'static InWords {
        &IN_WORDS[self as usize]
    }

    /// Its name.
    pub(crate) fn title(self) -> &'static str {
        self.in_words().title
    }

    /// A line that may stand for it.
    pub(crate) fn example(self) -> &'static str {
        self.in_words().example
    }

    /// What a value that may not stand there isn't.
    pub(crate) fn isnt(self) -> &'static str {
        self.in_words().isnt
    }

    /// What may stand there.
    pub(crate) fn may(self) -> &'static str {
        self.in_words().may
    }

    /// The unit of its numbers.
    pub(crate) fn unit(self) -> &'static str {
        match self {
            Key::Tick => "in ten-thousandths of a euro",
            _ => "in thousandths",
        }
    }
}

/// The key of these that a word was meant to be.
pub(crate) fn meant(alloc: Global, word: &str, keys: &[Key]) -> Result<Option<Key>, OutOfMemory> {
    let lower = word.to_ascii_lowercase(alloc)?;
    if let Some(key) = of_other_word(lower.as_str(), keys) {
        return Ok(Some(key));
    }
    let mut nearest = Nearest::to(alloc, lower.as_str());
    for key in keys {
        nearest.look(key.title())?;
    }
    Ok(named(nearest.word(), keys))
}

/// The key of these for which a word stands elsewhere.
fn of_other_word(word: &str, keys: &[Key]) -> Option<Key> {
    for (other, key) in &OTHER_WORDS {
        if *other == word && keys.contains(key) {
            return Some(*key);
        }
    }
    None
}

/// The key of these with a name.
pub(crate) fn named(word: &str, keys: &[Key]) -> Option<Key> {
    keys.iter().find(|key| key.title() == word).copied()
}
