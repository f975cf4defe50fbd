//! The names of all members.
ghost use Rattle.std.specs.Prelude.{◌≡◌, ℕ, List, true, false, ◌+◌, ◌-◌, ◌<◌, ◌==◌, ◌&&◌, None, Some, IfNone, IfOk, IfSome, IsTrue, OnErr, OnOk, if◌then◌else◌};
ghost use Rattle.xm_name_index.specs.Names.{AreAllNames, Retains, is_above, lookup, reserved};

use crate::members::Members;
use crate::storage::Storage;
use std::alloc::Allocator;
use std::marker::Model;
use xm_memory::OutOfMemory;

/// Of the members below this one the highest reference is noted. They are as many as a market has.
const NOTED: usize = 1024;

/// The key of each member and reference, found by both, and by member alone. The order in which a member's names come out
/// is open.
#[derive(Drop)]
pub struct Names<A: Allocator> {
    members: Members<A>,
    // For each member below `NOTED`, a reference that none of its own is above. So a member whose references rise, as most
    // do, has each new one known as new without a look at the others.
    highest: Vec<u32, A>,
}

impl<A: Allocator> Model for Names<A> {
    ghost use Rattle.std.specs.Prelude.{◌≡◌, ℕ, List, None, true};
    ghost use Rattle.xm_name_index.specs.Names.{NamesOfMember, is_above, lookup};

    ghost Value = { List (ℕ × NamesOfMember) };

    ghost view = { λ n. n.members };

    ghost invariant = { λ n. (m r : ℕ) → is_above n.highest.items m r ≡ true → lookup n.members m r ≡ None };
}

impl<A: Allocator + Copy> Names<A> {
    /// No name, and none reserved, which takes no memory.
    pub fn new(storage: Storage<A>) -> Names<A>
        ensures names { (m r : ℕ) → lookup result m r ≡ None }
        ensures reserved { (m : ℕ) → reserved result m ≡ 0 }
    {
        Names {
            members: Members::new(storage),
            highest: Vec::new(storage.alloc),
        }
    }

    /// Reserves room for one name more of this member.
    #[inline(always)]
    pub fn reserve(&mut self, member: u32) -> Result<(), OutOfMemory>
        ensures names { (m r : ℕ) → lookup self.new m r ≡ lookup self.old m r }
        ensures reserved { OnOk result ((m : ℕ) → reserved self.new m ≡ (if m == member then reserved self.old m + 1 else reserved self.old m)) }
        ensures err { OnErr result (self.new ≡ self.old) }
    {
        if self.highest.is_empty() {
            self.begin()?;
        }
        self.members.reserve(member)
    }
}

impl<A: Allocator + Copy> Names<A> {
    /// All names of a member with their keys, each once, in no order, at a cost that grows with their number and with what room for
    /// the member's names is left.
    pub fn of_member(&self, member: u32) -> Result<Vec<(u32, usize), A>, OutOfMemory>
        ensures { IfOk result (λ names. AreAllNames (λ r. lookup self.now member r) names.items) }
    {
        self.members.of_member(member)
    }
}

impl<A: Allocator> Names<A> {
    /// Makes room for the highest references, where no member has had a name.
    #[inline(never)]
    fn begin(&mut self) -> Result<(), OutOfMemory>
        ensures { self.new ≡ self.old }
    {
        if self.members.is_empty() {
            self.highest.resize(NOTED, 0)?;
        }
        Ok(())
    }

    /// Gives up what was reserved for one name of this member.
    #[inline(always)]
    pub fn release(&mut self, member: u32)
        requires { 0 < reserved self.old member }
        ensures names { (m r : ℕ) → lookup self.new m r ≡ lookup self.old m r }
        ensures reserved { (m : ℕ) → reserved self.new m ≡ (if m == member then reserved self.old m - 1 else reserved self.old m) }
    {
        self.members.release(member);
    }

    /// The key of a name.
    #[inline(always)]
    pub fn get(&self, member: u32, reference: u32) -> Option<usize>
        ensures { result ≡ lookup self.now member reference }
    {
        if is_above(&self.highest, member, reference) {
            return None;
        }
        self.members.get(member, reference)
    }

    /// Gives a name that is not there its key, in room that was reserved for its member.
    pub fn insert(&mut self, member: u32, reference: u32, key: usize)
        requires reserved { 0 < reserved self.old member }
        requires absent { lookup self.old member reference ≡ None }
        ensures names { (m r : ℕ) → lookup self.new m r ≡ (if m == member && r == reference then Some key else lookup self.old m r) }
        ensures reserved { (m : ℕ) → reserved self.new m ≡ (if m == member then reserved self.old m - 1 else reserved self.old m) }
    {
        note(&mut self.highest, member, reference);
        self.members.insert(member, reference, key);
    }

    /// Takes a name out, and answers its key. What is reserved stays.
    pub fn remove(&mut self, member: u32, reference: u32) -> Option<usize>
        ensures key { result ≡ lookup self.old member reference }
        ensures names { (m r : ℕ) → lookup self.new m r ≡ (if m == member && r == reference then None else lookup self.old m r) }
        ensures reserved { (m : ℕ) → reserved self.new m ≡ reserved self.old m }
    {
        self.members.remove(member, reference)
    }

    /// Keeps the names whose keys pass a test, in one pass over all of them. What is reserved stays.
    pub fn retain<F: Fn(usize) -> bool>(&mut self, passes: &F)
        requires { (key : ℕ) → F.pre passes.now key }
        ensures names { (m r : ℕ) → Retains (F.post passes.now) (lookup self.old m r) (lookup self.new m r) }
        ensures reserved { (m : ℕ) → reserved self.new m ≡ reserved self.old m }
    {
        self.members.retain(passes);
    }

    /// Takes any one name of this member out, and answers its reference and its key, or `None` where the member has no name.
    /// What is reserved stays.
    pub fn pop(&mut self, member: u32) -> Option<(u32, usize)>
        ensures none { IfNone result ((r : ℕ) → lookup self.old member r ≡ None) }
        ensures key { IfSome result (λ name. lookup self.old member name.0 ≡ Some name.1) }
        ensures left { IfSome result (λ name. (m r : ℕ) → lookup self.new m r ≡ (if m == member && r == name.0 then None else lookup self.old m r)) }
        ensures unchanged { IfNone result (self.new ≡ self.old) }
        ensures reserved { (m : ℕ) → reserved self.new m ≡ reserved self.old m }
    {
        self.members.pop(member)
    }
}

/// Whether a reference is above the highest that is noted of a member.
#[inline(always)]
fn is_above(highest: &[u32], member: u32, reference: u32) -> bool
    ensures { result ≡ is_above highest.now member reference }
{
    match highest.get(member as usize) {
        Some(noted) => *noted < reference,
        None => false,
    }
}

/// Notes a reference of a member, if it is the highest.
#[inline(always)]
fn note<A: Allocator>(highest: &mut Vec<u32, A>, member: u32, reference: u32)
    ensures still { (m r : ℕ) → is_above highest.new.items m r ≡ true → is_above highest.old.items m r ≡ true }
    ensures other { (m r : ℕ) → is_above highest.new.items m r ≡ true → (m == member && r == reference) ≡ false }
{
    if let Some(noted) = highest.get_mut(member as usize) {
        *noted = (*noted).max(reference);
    }
}
