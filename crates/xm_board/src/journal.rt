//! Journals whose commands have numbers.
use std::collections::LinkedList;
use xm_rules::{Command, DeskSettings};

/// An accepted command, with the number of the watch that it is for.
#[derive(Clone, Copy, PartialEq, Eq, Debug)]
pub struct Entry {
    pub number: u32,
    pub command: Command,
}

/// The settings of a security and its accepted commands with their numbers. Only clauses speak of it: no value of it is made.
pub struct NumberedJournal {
    pub settings: DeskSettings,
    pub entries: LinkedList<Entry>,
}
