//! Queues, each of which its owner keeps the ends of.
ghost use Rattle.std.specs.Prelude.{◌≡◌, ◌<◌, ◌≤◌, ℕ, List, [], ◌∷◌, ◌++◌, Contains, IsOk, OnErr, OnOk, slice_get};
ghost use Rattle.xm_queues.specs.Keys.{AreApart, without};
ghost use Rattle.xm_queues.specs.Queue.{HasKey, LacksKey, IsQueue, ends_with, ends_without, key_limit};
ghost use Rattle.xm_queues.specs.declared.links.Link.{Link};
ghost use Rattle.xm_queues.specs.declared.links.TheConstants.{MAX_KEYS};
ghost use Rattle.xm_queues.specs.declared.queues.Ends.{Ends};

use crate::links::{Link, MAX_KEYS, MaybeKey, lead_back, lead_to};
use std::alloc::Allocator;
use std::marker::Model;
use xm_memory::{OutOfMemory, count_within};

/// The first and the last key of a queue. Its owner keeps it, and passes it to each change of that queue.
#[derive(Clone, Copy)]
pub struct Ends {
    first: MaybeKey,
    last: MaybeKey,
}

impl Ends {
    /// The ends of an empty queue.
    pub fn new() -> Ends
        ensures { (links : List Link) → IsQueue links result [] }
    {
        Ends {
            first: MaybeKey::none(),
            last: MaybeKey::none(),
        }
    }

    /// The first key.
    pub fn front(&self) -> Option<usize>
        ensures { (links : List Link) (keys : List ℕ) → IsQueue links self.now keys → result ≡ slice_get keys 0 }
    {
        self.first.get()
    }
}

/// The links of any number of queues of keys, in each of which a key stands once. A key is in one queue at most.
#[derive(Drop)]
pub struct Queues<A: Allocator> {
    links: Vec<Link, A>,
}

impl<A: Allocator> Model for Queues<A> {
    ghost use Rattle.std.specs.Prelude.{List};
    ghost use Rattle.xm_queues.specs.declared.links.Link.{Link};

    ghost Value = { List Link };

    ghost view = { λ q. q.links.items };

    ghost use Rattle.std.specs.Prelude.{◌≤◌, length};
    ghost use Rattle.xm_queues.specs.declared.links.TheConstants.{MAX_KEYS};

    ghost invariant = { λ q. length q.links.items ≤ MAX_KEYS };
}

impl<A: Allocator> Queues<A> {
    /// Links with no room for any key, which take no memory.
    pub fn new(alloc: A) -> Queues<A>
        ensures { key_limit result ≡ 0 }
    {
        Queues {
            links: Vec::new(alloc),
        }
    }

    /// Makes room for `key` and each key below it. It fails for a key of `MAX_KEYS` or more, and where a growth is
    /// refused.
    pub fn reserve_key(&mut self, key: usize) -> Result<(), OutOfMemory>
        ensures room { OnOk result (key < key_limit self.new) }
        ensures fits { OnOk result (key < MAX_KEYS) }
        ensures enough { key < key_limit self.old → IsOk result }
        ensures grows { key_limit self.old ≤ key_limit self.new }
        ensures same { (ends : Ends) (keys : List ℕ) → IsQueue self.old ends keys → IsQueue self.new ends keys }
        ensures err { OnErr result (self.new ≡ self.old) }
    {
        if key < self.links.len() {
            return Ok(());
        }
        count_within(key as u64, MAX_KEYS as u64 - 1)?;
        let link = Link {
            prev: MaybeKey::none(),
            next: MaybeKey::none(),
        };
        self.links.resize(key + 1, link)?;
        Ok(())
    }

    /// The key behind `key` in its queue.
    pub fn next(&self, key: usize) -> Option<usize>
        requires { key < key_limit self.now }
        ensures { (ends : Ends) (ahead behind : List ℕ) → IsQueue self.now ends (ahead ++ key ∷ behind)
            → result ≡ slice_get behind 0 }
    {
        self.links[key].next.get()
    }

    /// The ends of a queue once `key` stands behind its last one.
    #[inline(always)]
    pub fn ends_with(&self, ends: &Ends, key: usize) -> Ends
        requires { key < key_limit self.now }
        ensures { result ≡ ends_with ends.now key }
    {
        let _ = &self.links;
        let joining = MaybeKey::some(key);
        Ends {
            first: ends.first.after(ends.last, joining),
            last: joining,
        }
    }

    /// Puts `key`, which is in no queue, at the end of a queue.
    #[inline(always)]
    pub fn push_back(&mut self, ends: &mut Ends, key: usize)
        requires queue { LacksKey self.old ends.old key }
        requires room { key < key_limit self.old }
        ensures last { (keys : List ℕ) → IsQueue self.old ends.old keys
            → IsQueue self.new ends.new (keys ++ key ∷ []) }
        ensures others { (other : Ends) (keys keys' : List ℕ) → IsQueue self.old ends.old keys
            → IsQueue self.old other keys' → AreApart keys keys' → ¬ Contains keys' key → IsQueue self.new other keys' }
        ensures ends { ends.new ≡ ends_with ends.old key }
        ensures limit { key_limit self.new ≡ key_limit self.old }
    {
        let links = &mut self.links;
        let prev = ends.last;
        let joining = MaybeKey::some(key);
        lead_to(links, &mut ends.first, prev, joining);
        links[key] = Link {
            prev,
            next: MaybeKey::none(),
        };
        ends.last = joining;
    }

    /// The ends of a queue once `key` has left it.
    #[inline(always)]
    pub fn ends_without(&self, ends: &Ends, key: usize) -> Ends
        requires { HasKey self.now ends.now key }
        ensures { result ≡ ends_without self.now ends.now key }
    {
        let Link { prev, next } = self.links[key];
        Ends {
            first: ends.first.after(prev, next),
            last: ends.last.after(next, prev),
        }
    }

    /// Takes `key` out of its queue.
    #[inline(always)]
    pub fn unlink(&mut self, ends: &mut Ends, key: usize)
        requires { HasKey self.old ends.old key }
        ensures left { (keys : List ℕ) → IsQueue self.old ends.old keys
            → IsQueue self.new ends.new (without key keys) }
        ensures others { (other : Ends) (keys keys' : List ℕ) → IsQueue self.old ends.old keys
            → IsQueue self.old other keys' → AreApart keys keys' → IsQueue self.new other keys' }
        ensures ends { ends.new ≡ ends_without self.old ends.old key }
        ensures limit { key_limit self.new ≡ key_limit self.old }
    {
        let Link { prev, next } = self.links[key];
        lead_to(&mut self.links, &mut ends.first, prev, next);
        lead_back(&mut self.links, &mut ends.last, next, prev);
    }
}
