//! The tables of all members.
#![tactic(auto, unfolding(crate::specs::Names::lookup, crate::specs::Names::reserved))]

ghost use Rattle.std.specs.Prelude.{◌≡◌, ℕ, List, true, ◌+◌, ◌-◌, ◌<◌, ◌==◌, ◌&&◌, None, Some, IfNone, IfOk, IfSome, IsTrue, OnErr, OnOk, if◌then◌else◌, nat_eq, position, slice_get};
ghost use Rattle.std.specs.Map.{keys_of};
ghost use Rattle.xm_name_index.specs.Names.{AreAllNames, Retains, AreNoted, StandsAt, key_of, lookup, names_of, reserved};

use crate::member_names::MemberNames;
use crate::seed::Seed;
use crate::storage::Storage;
use indexmap::IndexMap;
use std::alloc::Allocator;
use std::marker::Model;
use xm_memory::{OutOfMemory, count_within};

/// The members below this one are found without a hash. They are as many as a market has.
const PLACED: usize = 1024;

/// The place of no table: there are fewer of them.
const NOWHERE: u32 = u32::MAX;

/// The names of each member. Each that has had a name keeps its table.
#[derive(Drop)]
pub struct Members<A: Allocator> {
    members: IndexMap<u32, MemberNames<A>, Seed, A>,
    // For each member below `PLACED`, where its table is among `members`, which none leaves, or `NOWHERE`.
    places: Vec<u32, A>,
}

impl<A: Allocator> Model for Members<A> {
    ghost use Rattle.std.specs.Prelude.{ℕ, List};
    ghost use Rattle.std.specs.Map.{keys_of};
    ghost use Rattle.indexmap.specs.IndexMap.{hasher_of};
    ghost use Rattle.xm_name_index.specs.Names.{AreNoted, HaveSeed, NamesOfMember};

    ghost Value = { List (ℕ × NamesOfMember) };

    ghost view = { λ n. n.members.entries };

    ghost invariant = { λ n. record {
      noted : AreNoted n.places.items (keys_of n.members.entries);
      seeded : HaveSeed (hasher_of n.members) n.members.entries;
    } };
}

impl<A: Allocator + Copy> Members<A> {
    /// No name, and none reserved, which takes no memory.
    pub fn new(storage: Storage<A>) -> Members<A>
        ensures names { (m r : ℕ) → lookup result m r ≡ None }
        ensures reserved { (m : ℕ) → reserved result m ≡ 0 }
    {
        Members {
            members: IndexMap::with_hasher(storage.alloc, storage.seed),
            places: Vec::new(storage.alloc),
        }
    }

    /// Reserves room for one name more of this member.
    #[inline(always)]
    pub fn reserve(&mut self, member: u32) -> Result<(), OutOfMemory>
        ensures names { (m r : ℕ) → lookup self.new m r ≡ lookup self.old m r }
        ensures reserved { OnOk result ((m : ℕ) → reserved self.new m ≡ (if m == member then reserved self.old m + 1 else reserved self.old m)) }
        ensures err { OnErr result (self.new ≡ self.old) }
    {
        match self.place(member) {
            Some(place) => self.members.get_index_mut(place).unwrap().reserve(),
            None => self.begin(member),
        }
    }

    /// Makes the table of a member that has none, with room reserved for a name.
    #[inline(never)]
    fn begin(&mut self, member: u32) -> Result<(), OutOfMemory>
        requires { names_of self.old member ≡ None }
        ensures names { (m r : ℕ) → lookup self.new m r ≡ lookup self.old m r }
        ensures reserved { OnOk result ((m : ℕ) → reserved self.new m ≡ (if m == member then reserved self.old m + 1 else reserved self.old m)) }
        ensures err { OnErr result (self.new ≡ self.old) }
    {
        count_within(self.members.len() as u64, u64::from(NOWHERE) - 1)?;
        let storage = Storage {
            alloc: *self.members.allocator(),
            seed: *self.members.hasher(),
        };
        let mut names = MemberNames::new(storage);
        names.reserve()?;
        reserve_places(&mut self.places)?;
        let place = self.members.len();
        self.members.insert(member, names)?;
        self.note(member, place);
        Ok(())
    }
}

impl<A: Allocator + Copy> Members<A> {
    /// All names of a member with their keys, each once, in no order.
    pub fn of_member(&self, member: u32) -> Result<Vec<(u32, usize), A>, OutOfMemory>
        ensures { IfOk result (λ names. AreAllNames (λ r. lookup self.now member r) names.items) }
    {
        let alloc = *self.members.allocator();
        match self.place(member) {
            Some(place) => {
                let (_member, names) = self.members.get_index(place).unwrap();
                names.names(alloc)
            }
            None => Ok(Vec::new(alloc)),
        }
    }
}

impl<A: Allocator> Members<A> {
    /// Whether no member has had a name.
    pub fn is_empty(&self) -> bool
        ensures { IsTrue result → (m r : ℕ) → lookup self.now m r ≡ None }
    {
        self.members.len() == 0
    }

    /// Notes where the table of a member is, if there is room for it.
    fn note(&mut self, member: u32, place: usize)
        requires { position (nat_eq member) (keys_of self.old) ≡ Some place }
        ensures { self.new ≡ self.old }
    {
        if let Some(known) = self.places.get_mut(member as usize) {
            *known = place.min(NOWHERE as usize) as u32;
        }
    }

    /// Where the table of a member is among `members`.
    #[inline(always)]
    fn place(&self, member: u32) -> Option<usize>
        ensures some { IfSome result (StandsAt self.now member) }
        ensures none { IfNone result (names_of self.now member ≡ None) }
    {
        match self.known_place(member) {
            Some(place) => Some(place),
            None => self.place_by_hash(member),
        }
    }

    /// The same, where it was noted.
    #[inline(always)]
    fn known_place(&self, member: u32) -> Option<usize>
        ensures { IfSome result (StandsAt self.now member) }
    {
        let place = *self.places.get(member as usize)? as usize;
        if place < self.members.len() {
            Some(place)
        } else {
            None
        }
    }

    /// The same, by the member's hash.
    #[inline(never)]
    fn place_by_hash(&self, member: u32) -> Option<usize>
        ensures some { IfSome result (StandsAt self.now member) }
        ensures none { IfNone result (names_of self.now member ≡ None) }
    {
        self.members.get_index_of(&member)
    }

    /// Gives up what was reserved for one name of this member.
    pub fn release(&mut self, member: u32)
        requires { 0 < reserved self.old member }
        ensures names { (m r : ℕ) → lookup self.new m r ≡ lookup self.old m r }
        ensures reserved { (m : ℕ) → reserved self.new m ≡ (if m == member then reserved self.old m - 1 else reserved self.old m) }
    {
        if let Some(place) = self.place(member) {
            self.members.get_index_mut(place).unwrap().release();
        }
    }

    /// The key of a name.
    pub fn get(&self, member: u32, reference: u32) -> Option<usize>
        ensures { result ≡ lookup self.now member reference }
    {
        let place = self.place(member)?;
        let (_member, names) = self.members.get_index(place)?;
        names.get(*self.members.hasher(), reference)
    }

    /// Gives a name that is not there its key, in room that was reserved for its member.
    pub fn insert(&mut self, member: u32, reference: u32, key: usize)
        requires reserved { 0 < reserved self.old member }
        requires absent { lookup self.old member reference ≡ None }
        ensures names { (m r : ℕ) → lookup self.new m r ≡ (if m == member && r == reference then Some key else lookup self.old m r) }
        ensures reserved { (m : ℕ) → reserved self.new m ≡ (if m == member then reserved self.old m - 1 else reserved self.old m) }
    {
        if let Some(place) = self.place(member) {
            let seed = *self.members.hasher();
            let names = self.members.get_index_mut(place).unwrap();
            names.insert(seed, reference, key);
        }
    }

    /// Takes a name out, and answers its key. What is reserved stays.
    pub fn remove(&mut self, member: u32, reference: u32) -> Option<usize>
        ensures key { result ≡ lookup self.old member reference }
        ensures names { (m r : ℕ) → lookup self.new m r ≡ (if m == member && r == reference then None else lookup self.old m r) }
        ensures reserved { (m : ℕ) → reserved self.new m ≡ reserved self.old m }
    {
        match self.place(member) {
            Some(place) => {
                let seed = *self.members.hasher();
                let names = self.members.get_index_mut(place).unwrap();
                names.remove(seed, reference)
            }
            None => None,
        }
    }

    /// Keeps the names whose keys pass a test, in one pass over all of them. What is reserved stays.
    pub fn retain<F: Fn(usize) -> bool>(&mut self, passes: &F)
        requires { (key : ℕ) → F.pre passes.now key }
        ensures names { (m r : ℕ) → Retains (F.post passes.now) (lookup self.old m r) (lookup self.new m r) }
        ensures reserved { (m : ℕ) → reserved self.new m ≡ reserved self.old m }
    {
        self.members.retain(
            |_member: &u32, names: &mut MemberNames<A>| -> bool
                requires { (key : ℕ) → F.pre passes.now key }
                ensures stays { result ≡ true }
                ensures keys { (r : ℕ) → Retains (F.post passes.entry.now) (key_of r names.old) (key_of r names.new) }
                ensures reserved { names.new.reserved ≡ names.old.reserved }
                ensures seed { names.new.table.seed ≡ names.old.table.seed }
            {
                names.retain(passes);
                true
            },
        );
    }

    /// Takes any one name of this member out, and answers its reference and its key, or `None` where the member has no name.
    /// What is reserved stays.
    pub fn pop(&mut self, member: u32) -> Option<(u32, usize)>
        ensures none { IfNone result ((r : ℕ) → lookup self.old member r ≡ None) }
        ensures key { IfSome result (λ name. lookup self.old member name.0 ≡ Some name.1) }
        ensures left { IfSome result (λ name. (m r : ℕ) → lookup self.new m r ≡ (if m == member && r == name.0 then None else lookup self.old m r)) }
        ensures unchanged { IfNone result (self.new ≡ self.old) }
        ensures reserved { (m : ℕ) → reserved self.new m ≡ reserved self.old m }
    {
        match self.place(member) {
            Some(place) => {
                let seed = *self.members.hasher();
                let names = self.members.get_index_mut(place).unwrap();
                names.pop(seed)
            }
            None => None,
        }
    }
}

/// Makes room for the places, where nothing is noted yet.
fn reserve_places<A: Allocator>(places: &mut Vec<u32, A>) -> Result<(), OutOfMemory>
    ensures { (members : List ℕ) → AreNoted places.old.items members → AreNoted places.new.items members }
{
    if !places.is_empty() {
        return Ok(());
    }
    places.resize(PLACED, NOWHERE)?;
    Ok(())
}
