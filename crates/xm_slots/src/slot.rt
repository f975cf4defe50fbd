//! One slot.
ghost use Rattle.std.specs.Prelude.{◌≡◌, ◌<◌, None, Some, IsSome, option_copied};
ghost use Rattle.std.specs.Option.{option_map};
ghost use Rattle.xm_slots.specs.Slot.{with_item};
ghost use Rattle.xm_slots.specs.declared.slot.TheConstants.{VACANT};

use crate::entry::{Entry, Rests};
use std::marker::Model;

/// The number of no entry.
pub const VACANT: u64 = u64::MAX;

/// An entry or none, in the bytes of an entry: no entry has the greatest number. A clause sees an `Option`.
#[derive(Drop)]
pub struct Slot<I> {
    entry: Entry<I>,
}

impl<I> Model for Slot<I> {
    ghost use Rattle.std.specs.Prelude.{Option};
    ghost use Rattle.xm_slots.specs.Slot.{entry_in};
    ghost use Rattle.xm_slots.specs.declared.entry.Entry.{Entry};

    ghost Value = { Option (Entry I) };

    ghost view = { λ s. entry_in s.entry };
}

impl<I: Copy> Slot<I> {
    /// A slot with this entry.
    #[inline(always)]
    pub fn of(entry: Entry<I>) -> Slot<I>
        requires { entry.time < VACANT }
        ensures { result ≡ Some entry }
    {
        Slot { entry }
    }

    /// The entry, if there is one.
    #[inline(always)]
    pub fn get(&self) -> Option<&Entry<I>>
        ensures { option_copied result ≡ self.now }
    {
        if self.entry.time == VACANT {
            None
        } else {
            Some(&self.entry)
        }
    }

    /// The entry that is there.
    #[inline(always)]
    pub fn entry(&self) -> &Entry<I>
        requires { IsSome self.now }
        ensures { Some result.now ≡ self.now }
    {
        &self.entry
    }

    /// Leaves the slot without an entry.
    #[inline(always)]
    pub fn clear(&mut self)
        ensures { self.new ≡ None }
    {
        self.entry.time = VACANT;
    }

    /// Gives the item another rest, where there is one.
    #[inline(always)]
    pub fn reduce_to<R: Rests<I>>(&mut self, rest: u32)
        ensures { self.new ≡ option_map (with_item (R.reduced_to rest)) self.old }
    {
        R::reduce_to(&mut self.entry.item, rest);
    }
}
