//! One slot of a bucket.
ghost use Rattle.std.specs.Prelude.{◌≡◌, ◌==◌, ◌++◌, OnOk, true, not, if◌then◌else◌};
ghost use Rattle.xm_name_index.specs.Buckets.{LeavesSlot, is_vacant, key_for, slot_name};
ghost use Rattle.xm_name_index.specs.declared.slot.TheConstants.{SLOTS};

use std::alloc::Allocator;
use xm_memory::OutOfMemory;

/// How many names have room in a bucket.
pub const SLOTS: usize = 4;

/// The key of no name.
pub const VACANT: u32 = u32::MAX;

/// A reference and its key, or no name, in eight bytes: `VACANT` is the key of none.
#[derive(Clone, Copy)]
pub struct Slot {
    pub reference: u32,
    pub key: u32,
}

impl Slot {
    /// A slot without a name.
    pub fn vacant() -> Slot
        ensures { is_vacant result ≡ true }
    {
        Slot {
            reference: 0,
            key: VACANT,
        }
    }

    /// Whether the slot has no name.
    pub fn is_vacant(&self) -> bool
        ensures { result ≡ is_vacant self.now }
    {
        self.key == VACANT
    }

    /// The place of the slot in its bucket where it has no name, or else that of no slot.
    #[inline(always)]
    pub fn vacancy_at(&self, place: usize) -> usize
        ensures { result ≡ (if is_vacant self.now then place else SLOTS) }
    {
        if self.is_vacant() { place } else { SLOTS }
    }

    /// The key that the slot gives a reference: `VACANT` where it has another name or none.
    #[inline(always)]
    pub fn key_for(&self, reference: u32) -> u32
        ensures { result ≡ key_for reference self.now }
    {
        if self.reference == reference {
            self.key
        } else {
            VACANT
        }
    }

    /// Adds the name that the slot has, with its key.
    pub fn list<A: Allocator>(&self, names: &mut Vec<(u32, usize), A>) -> Result<(), OutOfMemory>
        ensures { OnOk result (names.new.items ≡ names.old.items ++ slot_name self.now) }
    {
        if !self.is_vacant() {
            names.push((self.reference, self.key as usize))?;
        }
        Ok(())
    }

    /// The slot, which loses its name where that has this reference.
    #[inline(always)]
    pub fn without(self, reference: u32) -> Slot
        ensures { LeavesSlot (λ slot stays. stays ≡ not (slot.reference == reference)) self result }
    {
        Slot {
            reference: self.reference,
            key: if self.reference == reference {
                VACANT
            } else {
                self.key
            },
        }
    }

    /// The slot, which loses its name where that fails a test.
    #[inline(always)]
    pub fn retained<F: Fn(Slot) -> bool>(self, passes: &F) -> Slot
        requires { F.pre passes.now self }
        ensures { LeavesSlot (F.post passes.now) self result }
    {
        if self.is_vacant() || passes(self) {
            self
        } else {
            Slot::vacant()
        }
    }
}
