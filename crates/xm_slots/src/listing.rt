//! The list of the entries, as clauses see it.
ghost use Rattle.std.specs.Prelude.{◌≡◌, ◌++◌, ◌∷◌, [], filter, map};
ghost use Rattle.xm_slots.specs.Listing.{is_other_key, replaced_by};

use std::marker::Model;
use std::mem;
use std::snapshot::Snapshot;

/// An item with the key under which it lies, and the number of its entry.
#[derive(Clone, Copy)]
pub struct Listed<I> {
    pub key: usize,
    pub time: u64,
    pub item: I,
}

/// What was done last to the list, and what before. A snapshot has no bytes.
#[derive(Drop)]
enum Change<I> {
    Nothing,
    Joined(Snapshot<Listed<I>>, Snapshot<Change<I>>),
    Left(Snapshot<usize>, Snapshot<Change<I>>),
    Replaced(Snapshot<Listed<I>>, Snapshot<Change<I>>),
}

/// What lies under keys, in order of entry. A clause alone sees them, and so the list costs neither memory nor time.
#[derive(Drop)]
pub struct Listing<I> {
    last: Change<I>,
}

impl<I> Model for Listing<I> {
    ghost use Rattle.std.specs.Prelude.{List};
    ghost use Rattle.xm_slots.specs.declared.listing.Listed.{Listed};

    ghost Value = { List (Listed I) };

    ghost use Rattle.xm_slots.specs.Timeline.{listing_of};

    ghost view = { λ l. listing_of l.last };
}

impl<I: Copy> Listing<I> {
    /// No entry.
    pub fn new() -> Listing<I>
        ensures { result ≡ [] }
    {
        Listing {
            last: Change::Nothing,
        }
    }

    /// An entry joins last.
    pub fn join(&mut self, listed: &Listed<I>)
        ensures { self.new ≡ self.old ++ listed.now ∷ [] }
    {
        let before = mem::replace(&mut self.last, Change::Nothing);
        self.last = Change::Joined(Snapshot::of(listed), Snapshot::of(&before));
    }

    /// The entry of a key leaves.
    pub fn leave(&mut self, key: usize)
        ensures { self.new ≡ filter (is_other_key key) self.old }
    {
        let before = mem::replace(&mut self.last, Change::Nothing);
        self.last = Change::Left(Snapshot::of(&key), Snapshot::of(&before));
    }

    /// This stands where the entry of its key stood.
    pub fn replace(&mut self, listed: &Listed<I>)
        ensures { self.new ≡ map (replaced_by listed.now) self.old }
    {
        let before = mem::replace(&mut self.last, Change::Nothing);
        self.last = Change::Replaced(Snapshot::of(listed), Snapshot::of(&before));
    }
}
