//! The links between the keys of a queue.
ghost use Rattle.std.specs.Prelude.{◌≡◌, ◌<◌, None, Some, IfSome, vec_len};
ghost use Rattle.xm_queues.specs.Queue.{end_after, with_next, with_prev};
ghost use Rattle.xm_queues.specs.declared.links.TheConstants.{MAX_KEYS};

use std::alloc::Allocator;
use std::marker::Model;

/// How many keys can have room: the keys below this. A link keeps a key in four bytes, and one value of them is no key.
pub const MAX_KEYS: usize = 4_294_967_295;

/// A key or none, in four bytes. A clause sees an `Option`.
#[derive(Clone, Copy)]
pub struct MaybeKey {
    // The key, or `u32::MAX` for none.
    number: u32,
}

impl Model for MaybeKey {
    ghost use Rattle.std.specs.Prelude.{ℕ, Option};

    ghost Value = { Option ℕ };

    ghost use Rattle.xm_queues.specs.Numbers.{key_of_number, number_of_key, number_again};

    ghost view = { λ k. key_of_number k.number };

    ghost inverse = { λ k. record { number = number_of_key k } };

    ghost inverse_ok = { λ k h. number_again k };
}

impl MaybeKey {
    /// No key.
    pub fn none() -> MaybeKey
        ensures { result ≡ None }
    {
        MaybeKey { number: u32::MAX }
    }

    /// This key.
    pub fn some(key: usize) -> MaybeKey
        requires { key < MAX_KEYS }
        ensures { result ≡ Some key }
    {
        MaybeKey { number: key as u32 }
    }

    /// The key, if there is one.
    pub fn get(self) -> Option<usize>
        ensures { result ≡ self }
    {
        if self.number == u32::MAX {
            None
        } else {
            Some(self.number as usize)
        }
    }

    /// This end of a queue, or `to` where no key stands at `at`.
    #[inline(always)]
    pub fn after(self, at: MaybeKey, to: MaybeKey) -> MaybeKey
        ensures { result ≡ end_after self at to }
    {
        match at.get() {
            None => to,
            Some(_) => self,
        }
    }
}

/// The keys beside a key in its queue.
#[derive(Clone, Copy)]
pub struct Link {
    pub prev: MaybeKey,
    pub next: MaybeKey,
}

/// Lets `at` lead to `next`, or the queue begin with it where there is no `at`.
pub fn lead_to<A: Allocator>(
    links: &mut Vec<Link, A>,
    first: &mut MaybeKey,
    at: MaybeKey,
    next: MaybeKey,
)
    requires { IfSome at (λ key. key < vec_len links.old) }
    ensures links { links.new.items ≡ with_next links.old.items at next }
    ensures first { first.new ≡ end_after first.old at next }
    ensures len { vec_len links.new ≡ vec_len links.old }
{
    match at.get() {
        None => *first = next,
        Some(key) => links[key].next = next,
    }
}

/// Lets `at` lead back to `prev`, or the queue end with it where there is no `at`.
pub fn lead_back<A: Allocator>(
    links: &mut Vec<Link, A>,
    last: &mut MaybeKey,
    at: MaybeKey,
    prev: MaybeKey,
)
    requires { IfSome at (λ key. key < vec_len links.old) }
    ensures links { links.new.items ≡ with_prev links.old.items at prev }
    ensures last { last.new ≡ end_after last.old at prev }
    ensures len { vec_len links.new ≡ vec_len links.old }
{
    match at.get() {
        None => *last = prev,
        Some(key) => links[key].prev = prev,
    }
}
