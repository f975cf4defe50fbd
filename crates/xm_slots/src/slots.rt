//! Entries under keys that are given and come back.
ghost use Rattle.std.specs.Prelude.{◌≡◌, ℕ, ◌+◌, ◌++◌, ◌<◌, ◌≤◌, [], None, Some, IfOk, IsSome, OnErr, OnOk, length, option_copied};
ghost use Rattle.std.specs.Option.{option_to_list};
ghost use Rattle.xm_slots.specs.Slot.{with_item};
ghost use Rattle.xm_slots.specs.declared.entry.Entry.{Entry};
ghost use Rattle.xm_slots.specs.declared.slot.TheConstants.{VACANT};
ghost use Rattle.xm_slots.specs.Slots.{ContainsKey, Updates, all_entries, entries_under, get, used};

use crate::entry::{Entry, Rests};
use crate::slot::Slot;
use std::alloc::Allocator;
use std::marker::Model;
use xm_memory::OutOfMemory;

/// Entries, each under a key below the capacity. A key that has come back is given again before a new one.
#[derive(Drop)]
pub struct Slots<I, A: Allocator> {
    entries: Vec<Slot<I>, A>,
    // The keys below the length of `entries` that have no entry.
    vacant: Vec<u32, A>,
    capacity: usize,
}

impl<I, A: Allocator> Model for Slots<I, A> {
    ghost use Rattle.xm_slots.specs.Slots.{SlotsView};
    ghost use Rattle.xm_slots.specs.Vacancies.{IsSound};

    ghost Value = { SlotsView I };

    ghost view = { λ s. record { slots = s.entries.items; capacity = s.capacity } };

    ghost invariant = { λ s. IsSound s.entries s.vacant s.capacity };
}

impl<I: Copy, A: Allocator + Copy> Slots<I, A> {
    /// No entry, and no room, which takes no memory.
    pub fn new(alloc: A) -> Slots<I, A>
        ensures { result ≡ record { slots = []; capacity = 0 } }
    {
        Slots {
            entries: Vec::new(alloc),
            vacant: Vec::new(alloc),
            capacity: 0,
        }
    }
}

impl<I: Copy, A: Allocator> Slots<I, A> {
    /// How many entries there are.
    pub fn len(&self) -> usize
        ensures used { result ≡ used self.now }
        ensures within { result ≤ 4294967295 }
    {
        self.entries.len() - self.vacant.len()
    }

    /// For how many entries there is room.
    pub fn capacity(&self) -> usize
        ensures capacity { result ≡ self.now.capacity }
        ensures within { used self.now ≤ result }
        ensures keys { result ≤ 4294967295 }
    {
        self.capacity
    }

    /// A bound above each key that has an entry.
    pub fn key_limit(&self) -> usize
        ensures { result ≡ length self.now.slots }
    {
        self.entries.len()
    }

    /// Makes room for so many entries in all.
    pub fn grow_to(&mut self, capacity: usize) -> Result<(), OutOfMemory>
        requires more { self.old.capacity ≤ capacity }
        requires keys { capacity ≤ 4294967295 }
        ensures ok { OnOk result (self.new ≡ record self.old { capacity = capacity }) }
        ensures err { OnErr result (self.new ≡ self.old) }
    {
        self.entries.reserve(capacity - self.entries.len())?;
        self.vacant.reserve(capacity - self.vacant.len())?;
        self.capacity = capacity;
        Ok(())
    }

    /// The entry under a key.
    #[inline(always)]
    pub fn get(&self, key: usize) -> Option<&Entry<I>>
        ensures { option_copied result ≡ get self.now key }
    {
        self.entries.get(key)?.get()
    }

    /// Puts an entry under a key that had none, in room that is there.
    #[inline(always)]
    pub fn insert(&mut self, entry: Entry<I>) -> usize
        requires room { used self.old < self.old.capacity }
        requires timed { entry.time < VACANT }
        ensures vacant { get self.old result ≡ None }
        ensures updates { Updates self.old self.new result (Some entry) }
        ensures used { used self.new ≡ used self.old + 1 }
        ensures within { result < self.old.capacity }
        ensures capacity { self.new.capacity ≡ self.old.capacity }
    {
        match self.vacant.pop() {
            Some(key) => {
                let key = key as usize;
                self.entries[key] = Slot::of(entry);
                key
            }
            None => {
                let key = self.entries.len();
                self.entries.push_reserved(Slot::of(entry));
                key
            }
        }
    }

    /// The entry under a key that has one.
    #[inline(always)]
    pub fn entry(&self, key: usize) -> &Entry<I>
        requires { ContainsKey self.now key }
        ensures { get self.now key ≡ Some result.now }
    {
        self.entries[key].entry()
    }

    /// Leaves a key that has an entry without one. The key has come back.
    #[inline(always)]
    pub fn vacate(&mut self, key: usize)
        requires { ContainsKey self.old key }
        ensures updates { Updates self.old self.new key None }
        ensures used { used self.new + 1 ≡ used self.old }
        ensures capacity { self.new.capacity ≡ self.old.capacity }
    {
        self.entries[key].clear();
        self.vacant.push_reserved(key as u32);
    }

    /// Gives the item under a key that has one another rest.
    #[inline(always)]
    pub fn reduce_to<R: Rests<I>>(&mut self, key: usize, rest: u32)
        requires { ContainsKey self.old key }
        ensures updates { (e : Entry I) → get self.old key ≡ Some e → Updates self.old self.new key (Some (with_item (R.reduced_to rest) e)) }
        ensures used { used self.new ≡ used self.old }
        ensures capacity { self.new.capacity ≡ self.old.capacity }
    {
        self.entries[key].reduce_to::<R>(rest);
    }
}

impl<I: Copy, A: Allocator + Copy> Slots<I, A> {
    /// The entries by rising key, or `OutOfMemory` where the answer can't be held.
    pub fn entries(&self) -> Result<Vec<Entry<I>, A>, OutOfMemory>
        ensures { IfOk result (λ entries. entries.items ≡ all_entries self.now) }
    {
        let mut entries = Vec::new(*self.entries.allocator());
        for slot in &self.entries {
            push_found(&mut entries, slot.get())?;
        }
        Ok(entries)
    }

    /// The entries under the keys of these names, in the order of the names, or `OutOfMemory` where the answer can't be held.
    pub fn entries_under(&self, names: &[(u32, usize)]) -> Result<Vec<Entry<I>, A>, OutOfMemory>
        ensures { IfOk result (λ entries. entries.items ≡ entries_under names.now self.now) }
    {
        let mut entries = Vec::new(*self.entries.allocator());
        for name in names {
            push_found(&mut entries, self.get(name.1))?;
        }
        Ok(entries)
    }
}

/// Adds an entry that was found.
fn push_found<I: Copy, A: Allocator>(
    entries: &mut Vec<Entry<I>, A>,
    found: Option<&Entry<I>>,
) -> Result<(), OutOfMemory>
    ensures { OnOk result (entries.new.items ≡ entries.old.items ++ option_to_list (option_copied found.entry)) }
{
    if let Some(entry) = found {
        entries.push(*entry)?;
    }
    Ok(())
}
