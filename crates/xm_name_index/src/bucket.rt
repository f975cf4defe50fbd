//! A bucket of names.
ghost use Rattle.std.specs.List.{flat_map};
ghost use Rattle.std.specs.Prelude.{◌≡◌, ◌++◌, OnOk, ℕ, None, Some, IfNone, IfSome, IsSome, IsTrue, not, false, find, option_copied, position, if◌then◌else◌, ◌==◌, ◌<◌};
ghost use Rattle.xm_name_index.specs.Buckets.{AreNamedApart, Leaves, is_occupied, is_vacant, key_in, slot_name};
ghost use Rattle.xm_name_index.specs.declared.slot.TheConstants.{VACANT};
ghost use Rattle.xm_name_index.specs.declared.slot.Slot.{Slot};

use crate::slot::{SLOTS, Slot, VACANT};
use std::alloc::Allocator;
use std::marker::Model;
use xm_memory::OutOfMemory;

/// Up to four names, each reference once. A clause sees the slots.
#[derive(Drop)]
pub struct Bucket {
    slots: [Slot; SLOTS],
}

impl Model for Bucket {
    ghost use Rattle.std.specs.Prelude.{List};
    ghost use Rattle.xm_name_index.specs.Buckets.{AreNamedApart};
    ghost use Rattle.xm_name_index.specs.declared.slot.Slot.{Slot};

    ghost Value = { List Slot };

    ghost view = { λ b. b.slots };

    ghost invariant = { λ b. AreNamedApart b.slots };
}

impl Bucket {
    /// A bucket without a name.
    pub fn empty() -> Bucket
        ensures { (r : ℕ) → key_in r result ≡ None }
    {
        let vacant = Slot::vacant();
        Bucket {
            slots: [vacant, vacant, vacant, vacant],
        }
    }

    /// The key of a reference.
    #[inline(always)]
    pub fn get(&self, reference: u32) -> Option<usize>
        ensures { result ≡ key_in reference self.now }
    {
        // All four are asked without a branch, since none can be foretold.
        let [a, b, c, d] = self.slots;
        let late = c.key_for(reference).min(d.key_for(reference));
        let key = a.key_for(reference).min(b.key_for(reference).min(late));
        if key == VACANT {
            None
        } else {
            Some(key as usize)
        }
    }

    /// The first slot without a name.
    #[inline(always)]
    fn vacancy(&self) -> Option<usize>
        ensures { result ≡ position is_vacant self.now }
    {
        // Asked without a branch, as in `get`.
        let [a, b, c, d] = self.slots;
        let late = c.vacancy_at(2).min(d.vacancy_at(3));
        let place = a.vacancy_at(0).min(b.vacancy_at(1).min(late));
        if place == SLOTS { None } else { Some(place) }
    }

    /// Gives a reference that has none a key, or answers `false` where no slot is vacant.
    #[inline(always)]
    pub fn put(&mut self, reference: u32, key: u32) -> bool
        requires absent { key_in reference self.old ≡ None }
        requires key { key < VACANT }
        ensures keys { IsTrue result → (r : ℕ) → key_in r self.new ≡ (if r == reference then Some key else key_in r self.old) }
        ensures full { result ≡ false → self.new ≡ self.old }
    {
        match self.vacancy() {
            None => false,
            Some(place) => {
                self.slots[place] = Slot { reference, key };
                true
            }
        }
    }

    /// The names that pass a test.
    #[inline(always)]
    pub fn retained<F: Fn(Slot) -> bool>(&self, passes: &F) -> Bucket
        requires { (slot : Slot) → F.pre passes.now slot }
        ensures leaves { Leaves (F.post passes.now) self.now result }
        ensures apart { AreNamedApart self.now }
    {
        let [a, b, c, d] = self.slots;
        Bucket {
            slots: [
                a.retained(passes),
                b.retained(passes),
                c.retained(passes),
                d.retained(passes),
            ],
        }
    }

    /// Takes a reference out, and answers its key.
    #[inline(always)]
    pub fn take(&mut self, reference: u32) -> Option<usize>
        ensures key { result ≡ key_in reference self.old }
        ensures keys { (r : ℕ) → key_in r self.new ≡ (if r == reference then None else key_in r self.old) }
    {
        let key = self.get(reference);
        *self = self.without(reference);
        key
    }

    /// The names but that of a reference.
    #[inline(always)]
    fn without(&self, reference: u32) -> Bucket
        ensures leaves { Leaves (λ slot stays. stays ≡ not (slot.reference == reference)) self.now result }
        ensures apart { AreNamedApart self.now }
    {
        let [a, b, c, d] = self.slots;
        Bucket {
            slots: [
                a.without(reference),
                b.without(reference),
                c.without(reference),
                d.without(reference),
            ],
        }
    }

    /// The first slot that has a name.
    fn named(&self) -> Option<&Slot>
        ensures { option_copied result ≡ find is_occupied self.now }
    {
        self.slots.iter().find(|slot| !slot.is_vacant())
    }

    /// A reference that has a key, if there is one.
    pub fn any(&self) -> Option<u32>
        ensures none { IfNone result ((r : ℕ) → key_in r self.now ≡ None) }
        ensures some { IfSome result (λ r. IsSome (key_in r self.now)) }
    {
        match self.named() {
            Some(slot) => Some(slot.reference),
            None => None,
        }
    }

    /// Adds each name with its key.
    pub fn list<A: Allocator>(&self, names: &mut Vec<(u32, usize), A>) -> Result<(), OutOfMemory>
        ensures listed { OnOk result (names.new.items ≡ names.old.items ++ flat_map slot_name self.now) }
        ensures apart { AreNamedApart self.now }
    {
        let [a, b, c, d] = self.slots;
        a.list(names)?;
        b.list(names)?;
        c.list(names)?;
        d.list(names)
    }
}
