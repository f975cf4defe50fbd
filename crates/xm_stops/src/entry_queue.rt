//! The stops that wait to come in, with the numbers of their entries.
ghost use Rattle.std.specs.Prelude.{◌≡◌, ◌+◌, ◌-◌, ◌<◌, ◌≤◌, ◌^◌, ◌++◌, ◌∷◌, [], IfOk, OnErr, OnOk, drop, length, map, max, slice_get};
ghost use Rattle.std.specs.Option.{option_to_list};
ghost use Rattle.xm_stops.specs.Pending.{IsSortedBehind, stop_of_entry};

use std::alloc::Allocator;
use std::marker::Model;
use xm_memory::OutOfMemory;
use xm_rules::Stop;
use xm_slots::Entry;

/// A queue of entries, the first of which leaves first. Those that have left can be read until they are forgotten. `reserve` makes room,
/// and nothing else takes memory.
#[derive(Drop)]
pub struct EntryQueue<A: Allocator> {
    // The entries, behind those that have left.
    entries: Vec<Entry<Stop>, A>,
    // How many have left.
    head: usize,
    // For so many more there is room in `entries`.
    room: usize,
}

impl<A: Allocator> Model for EntryQueue<A> {
    ghost use Rattle.std.specs.Prelude.{◌+◌, ◌≤◌, drop, take, vec_len};
    ghost use Rattle.std.specs.Vec.{vec_capacity};
    ghost use Rattle.xm_stops.specs.Pending.{EntriesView};

    ghost Value = { EntriesView };

    ghost view = { λ q. record { entries = drop q.head q.entries.items; gone = take q.head q.entries.items; room = q.room } };

    ghost invariant = { λ q. (q.head ≤ vec_len q.entries) × (vec_len q.entries + q.room ≤ vec_capacity q.entries) };
}

impl<A: Allocator> EntryQueue<A> {
    /// No entry and no room, which takes no memory.
    pub fn new(alloc: A) -> EntryQueue<A>
        ensures { result ≡ record { entries = []; gone = []; room = 0 } }
    {
        EntryQueue {
            entries: Vec::new(alloc),
            head: 0,
            room: 0,
        }
    }

    /// How many entries there are.
    pub fn len(&self) -> usize
        ensures len { result ≡ length self.now.entries }
        ensures within { result + self.now.room < 2 ^ 64 }
    {
        self.entries.len() - self.head
    }

    /// Makes room for so many more.
    pub fn reserve(&mut self, more: usize) -> Result<(), OutOfMemory>
        ensures ok { OnOk result (self.new ≡ record self.old { room = max self.old.room more }) }
        ensures err { OnErr result (self.new ≡ self.old) }
    {
        if self.room < more {
            self.entries.reserve(more)?;
            self.room = more;
        }
        Ok(())
    }

    /// An entry joins last.
    #[inline(always)]
    pub fn push(&mut self, entry: Entry<Stop>)
        requires { 0 < self.old.room }
        ensures { self.new ≡ record self.old { entries = self.old.entries ++ entry ∷ []; room = self.old.room - 1 } }
    {
        self.entries.push_reserved(entry);
        self.room -= 1;
    }

    /// The first entry leaves.
    #[inline(always)]
    pub fn pop(&mut self) -> Option<Entry<Stop>>
        ensures first { result ≡ slice_get self.old.entries 0 }
        ensures rest { self.new ≡ record self.old { entries = drop 1 self.old.entries; gone = self.old.gone ++ option_to_list result } }
    {
        let entry = *self.entries.get(self.head)?;
        self.head += 1;
        Some(entry)
    }

    /// Forgets the entries that have left. None is in the queue.
    #[inline(always)]
    pub fn forget(&mut self)
        requires { self.old.entries ≡ [] }
        ensures { self.new ≡ record self.old { gone = [] } }
    {
        self.entries.clear();
        self.head = 0;
    }

    /// Puts the entries behind so many into the order of their numbers.
    pub fn sort_behind(&mut self, ahead: usize)
        requires { ahead ≤ length self.old.entries }
        ensures sorted { IsSortedBehind ahead self.old.entries self.new.entries }
        ensures room { self.new.room ≡ self.old.room }
        ensures gone { self.new.gone ≡ self.old.gone }
    {
        let first = self.head + ahead;
        self.entries[first..].sort_unstable_by_key(|entry| entry.time);
    }
}

impl<A: Allocator + Copy> EntryQueue<A> {
    /// The stops of the entries that have left, or `OutOfMemory` where the answer can't be held.
    pub fn gone(&self) -> Result<Vec<Stop, A>, OutOfMemory>
        ensures { IfOk result (λ stops. stops.items ≡ map stop_of_entry self.now.gone) }
    {
        let entries = &self.entries[..self.head];
        let alloc = *self.entries.allocator();
        let stops = entries.iter().map(|entry| entry.item).collect(alloc)?;
        Ok(stops)
    }
}
