//! A table of names.
ghost use Rattle.std.specs.Prelude.{◌≡◌, ◌≢◌, ◌<◌, ◌≤◌, ◌*◌, ◌^◌, ℕ, [], None, Some, IfNone, IfOk, IfSome, IsSome, IsTrue, OnErr, false, if◌then◌else◌, ◌==◌, length};
ghost use Rattle.xm_name_index.specs.Names.{AreAllNames, Retains};
ghost use Rattle.xm_name_index.specs.Tables.{home, home_among, key_at, table_key};
ghost use Rattle.xm_name_index.specs.Buckets.{key_in};

use crate::bucket::Bucket;
use crate::seed::Seed;
use crate::slot::{Slot, VACANT};
use crate::storage::Storage;
use std::alloc::Allocator;
use std::marker::Model;
use std::snapshot::Snapshot;
use xm_memory::OutOfMemory;

/// So many buckets are kept where no name is left.
const KEPT_BUCKETS: u32 = 64;

/// With more buckets than these a table doesn't grow: a hash has 32 bits.
const MOST_SPLIT: usize = 1 << 31;

/// There are more buckets than this for each name that finds no place in them.
const BUCKETS_A_NAME: usize = 16;

/// The keys of references, in buckets that references have by their hashes. A reference that finds no vacant slot there
/// has no place in the table. The seed of the hashes is kept once for many tables, and handed to those calls that hash.
#[derive(Drop)]
pub struct NameTable<A: Allocator> {
    // The buckets before this one have no name.
    first: u32,
    buckets: Vec<Bucket, A>,
    // A snapshot has no bytes.
    seed: Snapshot<Seed>,
}

impl<A: Allocator> Model for NameTable<A> {
    ghost use Rattle.xm_name_index.specs.Tables.{IsPlaced, TableView};

    ghost Value = { TableView };

    ghost view = { λ t. record { buckets = t.buckets.items; seed = t.seed.value } };

    ghost invariant = { λ t. IsPlaced (record { buckets = t.buckets.items; seed = t.seed.value }) t.first };
}

impl<A: Allocator> NameTable<A> {
    /// A table without a bucket, which takes no memory.
    pub fn new(storage: Storage<A>) -> NameTable<A>
        ensures keys { (r : ℕ) → table_key result r ≡ None }
        ensures seed { result.seed ≡ storage.seed }
    {
        NameTable {
            first: 0,
            buckets: Vec::new(storage.alloc),
            seed: Snapshot::of(&storage.seed),
        }
    }

    /// The index of the bucket of a reference, which may be past the last one.
    #[inline(always)]
    fn home(&self, seed: Seed, reference: u32) -> usize
        requires { seed ≡ self.now.seed }
        ensures { result ≡ home self.now reference }
    {
        seed.home_among(self.buckets.len(), u64::from(reference))
    }

    /// The key of a reference.
    #[inline(always)]
    pub fn get(&self, seed: Seed, reference: u32) -> Option<usize>
        requires { seed ≡ self.now.seed }
        ensures { result ≡ table_key self.now reference }
    {
        match self.buckets.get(self.home(seed, reference)) {
            Some(bucket) => bucket.get(reference),
            None => None,
        }
    }

    /// Gives a reference that has none a key, or answers `false` where it finds no place.
    #[inline(always)]
    pub fn put(&mut self, seed: Seed, reference: u32, key: usize) -> bool
        requires seed { seed ≡ self.old.seed }
        requires absent { table_key self.old reference ≡ None }
        ensures keys { IsTrue result → (r : ℕ) → table_key self.new r ≡ (if r == reference then Some key else table_key self.old r) }
        ensures full { result ≡ false → self.new ≡ self.old }
        ensures seed { self.new.seed ≡ self.old.seed }
    {
        let home = self.home(seed, reference);
        if home >= self.buckets.len() || key >= VACANT as usize {
            return false;
        }
        if !self.buckets[home].put(reference, key as u32) {
            return false;
        }
        self.first = (self.first as usize).min(home) as u32;
        true
    }

    /// Takes a reference out, and answers its key.
    #[inline(always)]
    pub fn take(&mut self, seed: Seed, reference: u32) -> Option<usize>
        requires { seed ≡ self.old.seed }
        ensures key { result ≡ table_key self.old reference }
        ensures keys { (r : ℕ) → table_key self.new r ≡ (if r == reference then None else table_key self.old r) }
        ensures seed { self.new.seed ≡ self.old.seed }
    {
        let home = self.home(seed, reference);
        if home < self.buckets.len() {
            self.buckets[home].take(reference)
        } else {
            None
        }
    }

    /// The first bucket that has a name, and the reference of one.
    fn occupied(&self) -> Option<(usize, u32)>
        ensures none { IfNone result ((index r : ℕ) → key_at self.now index r ≡ None) }
        ensures some { IfSome result (λ at. IsSome (table_key self.now at.1)) }
        ensures first { IfSome result (λ at. (index r : ℕ) → index < at.0 → key_at self.now index r ≡ None) }
    {
        for index in self.first as usize..self.buckets.len() {
            match self.buckets[index].any() {
                Some(reference) => return Some((index, reference)),
                None => {}
            }
        }
        None
    }

    /// Notes that the buckets before an index have no name.
    fn pass_over(&mut self, index: usize)
        requires { (before r : ℕ) → before < index → key_at self.old before r ≡ None }
        ensures { self.new ≡ self.old }
    {
        self.first = index.min(u32::MAX as usize) as u32;
    }

    /// Takes any one reference out, and answers it with its key.
    pub fn pop(&mut self, seed: Seed) -> Option<(u32, usize)>
        requires { seed ≡ self.old.seed }
        ensures none { IfNone result ((r : ℕ) → table_key self.old r ≡ None) }
        ensures unchanged { IfNone result (self.new ≡ self.old) }
        ensures key { IfSome result (λ name. table_key self.old name.0 ≡ Some name.1) }
        ensures keys { IfSome result (λ name. (r : ℕ) → table_key self.new r ≡ (if r == name.0 then None else table_key self.old r)) }
        ensures seed { self.new.seed ≡ self.old.seed }
    {
        match self.occupied() {
            None => {
                let len = self.buckets.len();
                self.pass_over(len);
                None
            }
            Some((index, reference)) => {
                self.pass_over(index);
                match self.take(seed, reference) {
                    Some(key) => Some((reference, key)),
                    None => None,
                }
            }
        }
    }

    /// Keeps the references whose keys pass a test, in one pass.
    pub fn retain<F: Fn(usize) -> bool>(&mut self, passes: &F)
        requires { (key : ℕ) → F.pre passes.now key }
        ensures keys { (r : ℕ) → Retains (F.post passes.now) (table_key self.old r) (table_key self.new r) }
        ensures seed { self.new.seed ≡ self.old.seed }
    {
        for index in 0..self.buckets.len() {
            self.retain_at(index, passes);
        }
    }

    /// The same in one bucket.
    fn retain_at<F: Fn(usize) -> bool>(&mut self, index: usize, passes: &F)
        requires pre { (key : ℕ) → F.pre passes.now key }
        requires within { index < length self.old.buckets }
        ensures there { (r : ℕ) → Retains (F.post passes.now) (key_at self.old index r) (key_at self.new index r) }
        ensures others { (other r : ℕ) → other ≢ index → key_at self.new other r ≡ key_at self.old other r }
        ensures homes { (r : ℕ) → home self.new r ≡ home self.old r }
        ensures len { length self.new.buckets ≡ length self.old.buckets }
        ensures seed { self.new.seed ≡ self.old.seed }
    {
        self.buckets[index] = self.buckets[index].retained(
            &|slot: Slot| -> bool
                requires { F.pre passes.now slot.key }
                ensures { F.post passes.entry.now slot.key result }
            { passes(slot.key as usize) },
        );
    }

    /// All names with their keys, each once, in no order.
    pub fn names<B: Allocator>(&self, alloc: B) -> Result<Vec<(u32, usize), B>, OutOfMemory>
        ensures { IfOk result (λ names. AreAllNames (table_key self.now) names.items) }
    {
        let mut names = Vec::new(alloc);
        for index in self.first as usize..self.buckets.len() {
            self.buckets[index].list(&mut names)?;
        }
        Ok(names)
    }

    /// Gives most buckets back, where there are many and `pop` has found no name.
    #[inline(always)]
    fn shrink(&mut self)
        ensures keys { (r : ℕ) → table_key self.new r ≡ table_key self.old r }
        ensures seed { self.new.seed ≡ self.old.seed }
    {
        if self.first as usize == self.buckets.len() && self.first > KEPT_BUCKETS {
            self.buckets.truncate(KEPT_BUCKETS as usize);
            self.first = KEPT_BUCKETS;
        }
    }
}

impl<A: Allocator + Copy> NameTable<A> {
    /// Makes more buckets where there is none, or where too many names are without a place; or gives most of them back where
    /// `pop` has found no name.
    #[inline(always)]
    pub fn fit(&mut self, seed: Seed, without_place: usize) -> Result<(), OutOfMemory>
        requires { seed ≡ self.old.seed }
        ensures keys { (r : ℕ) → table_key self.new r ≡ table_key self.old r }
        ensures seed { self.new.seed ≡ self.old.seed }
        ensures err { OnErr result (self.new ≡ self.old) }
    {
        let buckets = self.buckets.len();
        if buckets == 0 || buckets / BUCKETS_A_NAME < without_place {
            return self.grow(seed);
        }
        self.shrink();
        Ok(())
    }

    /// Makes twice as many buckets, or one where there is none.
    #[inline(never)]
    fn grow(&mut self, seed: Seed) -> Result<(), OutOfMemory>
        requires { seed ≡ self.old.seed }
        ensures keys { (r : ℕ) → table_key self.new r ≡ table_key self.old r }
        ensures seed { self.new.seed ≡ self.old.seed }
        ensures err { OnErr result (self.new ≡ self.old) }
    {
        if self.buckets.is_empty() {
            self.begin()
        } else if self.buckets.len() > MOST_SPLIT {
            Ok(())
        } else {
            self.split(seed)
        }
    }

    /// Makes the first bucket.
    fn begin(&mut self) -> Result<(), OutOfMemory>
        requires { self.old.buckets ≡ [] }
        ensures keys { (r : ℕ) → table_key self.new r ≡ table_key self.old r }
        ensures seed { self.new.seed ≡ self.old.seed }
        ensures err { OnErr result (self.new ≡ self.old) }
    {
        self.buckets.reserve(1)?;
        self.buckets.push_reserved(Bucket::empty());
        Ok(())
    }

    /// Splits each bucket into two, among which the hashes are shared anew.
    fn split(&mut self, seed: Seed) -> Result<(), OutOfMemory>
        requires seed { seed ≡ self.old.seed }
        requires few { length self.old.buckets ≤ 2 ^ 31 }
        ensures keys { (r : ℕ) → table_key self.new r ≡ table_key self.old r }
        ensures seed { self.new.seed ≡ self.old.seed }
        ensures err { OnErr result (self.new ≡ self.old) }
    {
        let len = self.buckets.len();
        let mut buckets = Vec::with_capacity(*self.buckets.allocator(), 2 * len)?;
        for index in 0..len {
            buckets.push_reserved(self.part(seed, index, 2 * index));
            buckets.push_reserved(self.part(seed, index, 2 * index + 1));
        }
        self.buckets = buckets;
        self.first = 0;
        Ok(())
    }

    /// The names of a bucket whose references are at home at another index, among twice as many.
    fn part(&self, seed: Seed, index: usize, at: usize) -> Bucket
        requires seed { seed ≡ self.now.seed }
        requires few { length self.now.buckets ≤ 2 ^ 31 }
        requires within { index < length self.now.buckets }
        ensures { (r : ℕ) → key_in r result ≡ (if home_among self.now.seed (2 * length self.now.buckets) r == at then key_at self.now index r else None) }
    {
        let buckets = 2 * self.buckets.len();
        self.buckets[index].retained(
            &|slot: Slot| -> bool
                requires { buckets ≤ 2 ^ 32 }
                ensures { result ≡ (home_among seed buckets slot.reference == at) }
            { seed.home_among(buckets, u64::from(slot.reference)) == at },
        )
    }
}
