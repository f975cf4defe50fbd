//! The rule of the board's words, and the steps of the pen and the watches.
use crate::journal::Entry;
use crate::seats::View;
use atomic_table::{Join, Play, Split, TableRule};
use xm_rules::DeskSettings;

/// The words are those of the quote of the journal that the pen has published, at every moment at which it doesn't write.
pub struct BoardRule;

impl TableRule<Entry, View, DeskSettings> for BoardRule {
    ghost use Rattle.xm_board.specs.Published.{IsPublished, words_of};
    ghost use Rattle.xm_board.specs.Rule.{Kept, opening_pen};
    ghost use Rattle.xm_board.specs.declared.words.TheConstants.{QUOTE_WORDS};

    ghost holds = { λ _. Kept IsPublished words_of QUOTE_WORDS };

    ghost first = { opening_pen };
}

/// A watch reads the sequence.
pub(crate) struct ReadSequence;

impl Play<Entry, View> for ReadSequence {
    ghost use Rattle.xm_board.specs.Rule.{ReadsSequence};

    ghost then = { ReadsSequence };
}

/// A watch reads a word of the quote.
pub(crate) struct ReadWord;

impl Play<Entry, View> for ReadWord {
    ghost use Rattle.xm_board.specs.Published.{words_of};
    ghost use Rattle.xm_board.specs.Rule.{ReadsWord};

    ghost then = { ReadsWord words_of };
}

/// A watch reads the sequence again.
pub(crate) struct CheckSequence;

impl Play<Entry, View> for CheckSequence {
    ghost use Rattle.xm_board.specs.Published.{IsPublished};
    ghost use Rattle.xm_board.specs.Rule.{ChecksSequence};

    ghost then = { ChecksSequence IsPublished };
}

/// The pen makes the sequence odd.
pub(crate) struct BeginWrite;

impl Play<Entry, View> for BeginWrite {
    ghost use Rattle.xm_board.specs.Rule.{BeginsWrite};

    ghost then = { BeginsWrite };
}

/// The pen writes a word of the quote.
pub(crate) struct WriteWord;

impl Play<Entry, View> for WriteWord {
    ghost use Rattle.xm_board.specs.Rule.{WritesWord};

    ghost then = { WritesWord };
}

/// The pen makes the sequence even.
pub(crate) struct EndWrite;

impl Play<Entry, View> for EndWrite {
    ghost use Rattle.xm_board.specs.Rule.{EndsWrite};

    ghost then = { EndsWrite };
}

/// The pen compares what it was asked about with its journal.
pub(crate) struct CompareSeen;

impl Play<Entry, View> for CompareSeen {
    ghost use Rattle.xm_board.specs.Rule.{ComparesSeen};

    ghost then = { ComparesSeen };
}

/// The pen makes a watch, with the next number.
pub(crate) struct MakeWatch;

impl Split<View> for MakeWatch {
    ghost use Rattle.xm_board.specs.Rule.{with_next_number, first_watch};

    ghost left = { with_next_number };

    ghost right = { first_watch };
}

/// What was seen, for another.
pub(crate) struct ShareSeen;

impl Split<View> for ShareSeen {
    ghost use Rattle.xm_board.specs.Rule.{shared_seen};

    ghost left = { λ d. d };

    ghost right = { shared_seen };
}

/// The same, with the pen's last entry.
pub(crate) struct ShareLast;

impl Split<View> for ShareLast {
    ghost use Rattle.xm_board.specs.Rule.{shared_last};

    ghost left = { λ d. d };

    ghost right = { shared_last };
}

/// The pen is asked about what another has seen.
pub(crate) struct AskSeen;

impl Join<View> for AskSeen {
    ghost use Rattle.xm_board.specs.Rule.{asking, spent_of};

    ghost both = { asking };

    ghost spent = { spent_of };
}

/// A watch takes in what the pen shares.
pub(crate) struct TakeSeen;

impl Join<View> for TakeSeen {
    ghost use Rattle.xm_board.specs.Rule.{taking, spent_of};

    ghost both = { taking };

    ghost spent = { spent_of };
}
