//! What the pen and each watch know, as the rule of the board's words has it. Only clauses speak of it: no value of it is made.
use crate::journal::{Entry, NumberedJournal};
use std::collections::LinkedList;

/// What the pen or a watch is doing.
pub enum Stage {
    Idle,
    /// A watch reads: the journal at the sequence that it read first, and the last sequence known.
    Reading(NumberedJournal, u64),
    /// The pen writes: the journal with one entry more, and how many of its words are written.
    Writing(NumberedJournal, u64),
}

/// Whose a view is.
pub enum Role {
    /// The one writer.
    Pen,
    /// A watch, or what is shared with one.
    Watch,
    /// What was joined to another, and is of no more use.
    Spent,
}

/// What the pen or a watch knows.
pub struct View {
    pub role: Role,
    /// The number of a watch; the pen has that of the next one.
    pub number: u64,
    /// The journal that a watch has seen, and that the pen has published.
    pub seen: NumberedJournal,
    /// The own entries of a watch, with their versions.
    pub own_entries: LinkedList<(u64, Entry)>,
    /// What a watch had seen of which the pen was asked last.
    pub asked: NumberedJournal,
    pub stage: Stage,
}
