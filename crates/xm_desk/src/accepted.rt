//! What accepted commands do.
use std::snapshot::Snapshot;
use xm_rules::{Auction, CallStage, Command, Condition, Order, Stop};

/// What a command does that isn't refused, with its prices in their type, and with what its checks looked up.
#[derive(Clone, Copy)]
pub enum Action {
    /// An order comes in, on its condition.
    Enter(Order, Condition),
    /// A stop is held.
    Hold(Stop),
    /// The order of this name keeps its priority, and has this many units left.
    Reduce {
        member: u32,
        reference: u32,
        rest: u32,
    },
    /// The order of this one's name leaves the book, and comes in again as this one.
    Replace(Order),
    /// The order, or the stop, of this name is deleted.
    Cancel {
        member: u32,
        reference: u32,
    },
    /// All orders and stops of the member are deleted.
    CancelAll {
        member: u32,
    },
    /// The call of an auction begins.
    StartCall(Auction),
    /// The call of an auction ends in this stage, or leads to the next one.
    EndCall(Auction, CallStage),
    /// The day ends.
    EndDay,
}

/// An accepted command: what it does, and, for clauses alone, the command that it was made of.
#[derive(Drop)]
pub struct Accepted {
    pub action: Action,
    // A snapshot has no bytes.
    pub command: Snapshot<Command>,
}
