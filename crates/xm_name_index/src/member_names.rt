//! The names of one member.
ghost use Rattle.std.specs.Prelude.{◌≡◌, ℕ, ◌++◌, ◌+◌, ◌-◌, ◌<◌, ◌==◌, None, Some, IfNone, IfOk, IfSome, OnErr, OnOk, if◌then◌else◌, nat_eq};
ghost use Rattle.xm_name_index.specs.Names.{AreAllNames, Retains, key_of};
ghost use Rattle.xm_name_index.specs.Tables.{table_key};
ghost use Rattle.indexmap.specs.IndexMap.{IsUnique};
ghost use Rattle.std.specs.Map as map;

use crate::seed::Seed;
use crate::storage::Storage;
use crate::table::NameTable;
use indexmap::IndexMap;
use std::alloc::Allocator;
use std::marker::Model;
use xm_memory::{OutOfMemory, count_within};

/// The key of each reference of one member, and room that is reserved for more of them. What most calls read comes first and
/// is small, so that it lies in one line of memory, seldom in two.
#[derive(Drop)]
pub struct MemberNames<A: Allocator> {
    // For so many names that are to come room is reserved.
    reserved: u32,
    // For so many names `rest` is known to have room, all of them without a place in the table.
    ready: u32,
    table: NameTable<A>,
    // The names that found no place in the table.
    rest: IndexMap<u32, usize, Seed, A>,
}

impl<A: Allocator> Model for MemberNames<A> {
    ghost use Rattle.std.specs.Prelude.{◌≡◌, ◌<◌, ◌≤◌, ℕ, None, IsSome, nat_eq};
    ghost use Rattle.indexmap.specs.IndexMap.{hasher_of, spare};
    ghost use Rattle.std.specs.Map.{lookup};
    ghost use Rattle.xm_name_index.specs.Names.{NamesOfMember, key_of};
    ghost use Rattle.xm_name_index.specs.Tables.{table_key};

    ghost Value = { NamesOfMember };

    ghost view = { λ n. record { table = n.table; rest = n.rest.entries; reserved = n.reserved } };

    ghost invariant = { λ n. record {
      reserved : n.reserved ≤ n.ready;
      ready : n.ready ≤ spare n.rest;
      seed : hasher_of n.rest ≡ n.table.seed;
      apart : (r : ℕ) → IsSome (table_key n.table r) → lookup (nat_eq r) n.rest.entries ≡ None;
    } };
}

impl<A: Allocator + Copy> MemberNames<A> {
    /// No name, and none reserved, which takes no memory.
    pub fn new(storage: Storage<A>) -> MemberNames<A>
        ensures keys { (r : ℕ) → key_of r result ≡ None }
        ensures reserved { result.reserved ≡ 0 }
        ensures seed { result.table.seed ≡ storage.seed }
    {
        MemberNames {
            reserved: 0,
            ready: 0,
            table: NameTable::new(storage),
            rest: IndexMap::with_hasher(storage.alloc, storage.seed),
        }
    }

    /// Reserves room for one name more.
    #[inline(always)]
    pub fn reserve(&mut self) -> Result<(), OutOfMemory>
        ensures keys { (r : ℕ) → key_of r self.new ≡ key_of r self.old }
        ensures reserved { OnOk result (self.new.reserved ≡ self.old.reserved + 1) }
        ensures err { OnErr result (self.new ≡ self.old) }
        ensures seed { self.new.table.seed ≡ self.old.table.seed }
    {
        if self.reserved < self.ready {
            self.reserved += 1;
            return Ok(());
        }
        self.make_ready()
    }

    /// The same, where all names that `rest` is known to have room for may come already.
    #[inline(never)]
    fn make_ready(&mut self) -> Result<(), OutOfMemory>
        ensures keys { (r : ℕ) → key_of r self.new ≡ key_of r self.old }
        ensures reserved { OnOk result (self.new.reserved ≡ self.old.reserved + 1) }
        ensures err { OnErr result (self.new ≡ self.old) }
        ensures seed { self.new.table.seed ≡ self.old.table.seed }
    {
        count_within(u64::from(self.reserved), u64::from(u32::MAX) - 1)?;
        let reserved = self.reserved + 1;
        self.rest.reserve(reserved as usize)?;
        self.table.fit(*self.rest.hasher(), self.rest.len())?;
        self.reserved = reserved;
        self.ready = reserved;
        Ok(())
    }
}

impl<A: Allocator> MemberNames<A> {
    /// Gives up what was reserved for one name.
    pub fn release(&mut self)
        requires { 0 < self.old.reserved }
        ensures { self.new ≡ record self.old { reserved = self.old.reserved - 1 } }
    {
        self.reserved -= 1;
    }

    /// The key of a reference.
    pub fn get(&self, seed: Seed, reference: u32) -> Option<usize>
        requires { seed ≡ self.now.table.seed }
        ensures { result ≡ key_of reference self.now }
    {
        match self.table.get(seed, reference) {
            Some(key) => Some(key),
            None => self.get_rest(reference),
        }
    }

    /// The key of a reference that found no place in the table.
    #[inline(always)]
    fn get_rest(&self, reference: u32) -> Option<usize>
        ensures { result ≡ map.lookup (nat_eq reference) self.now.rest }
    {
        if self.rest.len() == 0 {
            return None;
        }
        self.find_rest(reference)
    }

    /// The same, where some found no place.
    #[inline(never)]
    fn find_rest(&self, reference: u32) -> Option<usize>
        ensures { result ≡ map.lookup (nat_eq reference) self.now.rest }
    {
        self.rest.get(&reference).copied()
    }

    /// Gives a reference that has none a key, in reserved room.
    pub fn insert(&mut self, seed: Seed, reference: u32, key: usize)
        requires seed { seed ≡ self.old.table.seed }
        requires reserved { 0 < self.old.reserved }
        requires absent { key_of reference self.old ≡ None }
        ensures keys { (r : ℕ) → key_of r self.new ≡ (if r == reference then Some key else key_of r self.old) }
        ensures reserved { self.new.reserved ≡ self.old.reserved - 1 }
        ensures seed { self.new.table.seed ≡ self.old.table.seed }
    {
        if self.table.put(seed, reference, key) {
            self.reserved -= 1;
        } else {
            self.insert_rest(reference, key);
        }
    }

    /// The same, where the reference finds no place in the table.
    #[inline(never)]
    fn insert_rest(&mut self, reference: u32, key: usize)
        requires reserved { 0 < self.old.reserved }
        requires absent { key_of reference self.old ≡ None }
        ensures keys { (r : ℕ) → key_of r self.new ≡ (if r == reference then Some key else key_of r self.old) }
        ensures reserved { self.new.reserved ≡ self.old.reserved - 1 }
        ensures seed { self.new.table.seed ≡ self.old.table.seed }
    {
        self.rest.insert(reference, key).unwrap();
        self.ready -= 1;
        self.reserved -= 1;
    }

    /// Takes a reference out, and answers its key.
    pub fn remove(&mut self, seed: Seed, reference: u32) -> Option<usize>
        requires { seed ≡ self.old.table.seed }
        ensures key { result ≡ key_of reference self.old }
        ensures keys { (r : ℕ) → key_of r self.new ≡ (if r == reference then None else key_of r self.old) }
        ensures reserved { self.new.reserved ≡ self.old.reserved }
        ensures seed { self.new.table.seed ≡ self.old.table.seed }
    {
        match self.table.take(seed, reference) {
            Some(key) => Some(key),
            None => {
                if self.rest.len() == 0 {
                    return None;
                }
                self.remove_rest(reference)
            }
        }
    }

    /// The same, where the reference has no place in the table.
    #[inline(never)]
    fn remove_rest(&mut self, reference: u32) -> Option<usize>
        requires { table_key self.old.table reference ≡ None }
        ensures key { result ≡ key_of reference self.old }
        ensures keys { (r : ℕ) → key_of r self.new ≡ (if r == reference then None else key_of r self.old) }
        ensures reserved { self.new.reserved ≡ self.old.reserved }
        ensures seed { self.new.table.seed ≡ self.old.table.seed }
    {
        self.rest.swap_remove(&reference)
    }

    /// Keeps the references whose keys pass a test, in one pass.
    pub fn retain<F: Fn(usize) -> bool>(&mut self, passes: &F)
        requires { (key : ℕ) → F.pre passes.now key }
        ensures keys { (r : ℕ) → Retains (F.post passes.now) (key_of r self.old) (key_of r self.new) }
        ensures reserved { self.new.reserved ≡ self.old.reserved }
        ensures seed { self.new.table.seed ≡ self.old.table.seed }
    {
        self.table.retain(passes);
        if self.rest.len() == 0 {
            return;
        }
        self.rest.retain(
            |_reference: &u32, key: &mut usize| -> bool
                requires { F.pre passes.now key.old }
                ensures passes { F.post passes.entry.now key.old result }
                ensures key { key.new ≡ key.old }
            { passes(*key) },
        );
    }

    /// All names with their keys, each once, in no order.
    pub fn names<B: Allocator>(&self, alloc: B) -> Result<Vec<(u32, usize), B>, OutOfMemory>
        ensures { IfOk result (λ names. AreAllNames (λ r. key_of r self.now) names.items) }
    {
        let mut names = self.table.names(alloc)?;
        list_rest(&self.rest, &mut names)?;
        Ok(names)
    }

    /// Takes any one reference out, and answers it with its key.
    pub fn pop(&mut self, seed: Seed) -> Option<(u32, usize)>
        requires { seed ≡ self.old.table.seed }
        ensures none { IfNone result ((r : ℕ) → key_of r self.old ≡ None) }
        ensures unchanged { IfNone result (self.new ≡ self.old) }
        ensures key { IfSome result (λ name. key_of name.0 self.old ≡ Some name.1) }
        ensures keys { IfSome result (λ name. (r : ℕ) → key_of r self.new ≡ (if r == name.0 then None else key_of r self.old)) }
        ensures reserved { self.new.reserved ≡ self.old.reserved }
        ensures seed { self.new.table.seed ≡ self.old.table.seed }
    {
        match self.table.pop(seed) {
            Some(name) => Some(name),
            None => {
                // So the next one that may come has the table asked whether it has too many buckets.
                self.ready = self.reserved;
                self.rest.pop()
            }
        }
    }
}

/// Adds the names that found no place in a table, with their keys.
fn list_rest<A: Allocator, B: Allocator>(
    rest: &IndexMap<u32, usize, Seed, A>,
    names: &mut Vec<(u32, usize), B>,
) -> Result<(), OutOfMemory>
    ensures listed { OnOk result (names.new.items ≡ names.old.items ++ rest.now.entries) }
    ensures unique { IsUnique nat_eq rest.now }
{
    for index in 0..rest.len() {
        let (reference, key) = rest.get_index(index).unwrap();
        names.push((*reference, *key))?;
    }
    Ok(())
}
