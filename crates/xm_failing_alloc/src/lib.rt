//! An allocator for tests, which refuses one of the requests that are made of it, and what has a call refused each in turn.
#![tactic(auto)]

ghost use Rattle.std.specs.Prelude.{◌≡◌, ◌<◌, IsTrue};

mod tried;

pub use crate::tried::{Counted, Requests, Tried, Wrong, refuse_all, refuse_each};
use std::alloc::{AllocError, Allocator};
use std::sync::atomic::{AtomicU64, Ordering};

/// An allocator that passes each request for memory on to another one, but refuses one of them.
///
/// A `&Refusing<B>` is an allocator too, so a collection over it leaves the test the value to ask. `refuse_each` lets each
/// growth of a call fail in turn. Where there is nothing to compare, run the call with the first request refused, then with the
/// second, and so on, until it has run with none refused:
///
/// ```text
/// for nth in 1.. {
///     let alloc = Refusing::new(rt.alloc(), nth);
///     let answer = call(&alloc);
///     if !alloc.has_refused() {
///         break;
///     }
///     // `answer` is the one for want of memory
/// }
/// ```
///
/// To grow or to shrink a block is one request, and to free one is none. Threads may share an allocator: of all their
/// requests it refuses one. No contract says how many requests have come, since no clause can name a shared count.
#[derive(Debug, Drop)]
pub struct Refusing<B: Allocator> {
    inner: B,
    left: AtomicU64,
    nth: u64,
}

impl<B: Allocator> Refusing<B> {
    ghost use Rattle.xm_failing_alloc.specs.Refusing.{inner_allocator, refused_request};

    /// An allocator that refuses the `nth` request made of it, counted from 1, and no other; at 0 it refuses none.
    pub fn new(inner: B, nth: u64) -> Refusing<B>
        ensures inner { inner_allocator result ≡ inner }
        ensures request { refused_request result ≡ nth }
    {
        Refusing {
            inner,
            left: AtomicU64::new(nth),
            nth,
        }
    }

    /// From here on refuses the request of this number, counted from 1, in place of the one before; at 0 it refuses none.
    pub fn refuse(&self, number: u64) {
        self.left.store(number, Ordering::SeqCst);
    }

    /// How many requests are left up to the one that is refused, with it: 0 once that one has come, and at all times
    /// where none is refused.
    pub fn requests_left(&self) -> u64 {
        self.left.load(Ordering::SeqCst)
    }

    /// Whether the request has come that it was made to refuse.
    pub fn has_refused(&self) -> bool
        ensures { IsTrue result → 0 < refused_request self.now }
    {
        self.nth != 0 && self.requests_left() == 0
    }
}

/// Counts a request, and answers whether it is the one to refuse. A count of 0 stays 0, so that it never wraps.
fn count_request(left: &AtomicU64) -> bool {
    left.fetch_update(
        Ordering::SeqCst,
        Ordering::SeqCst,
        |left| left.checked_sub(1),
    ) == Ok(1)
}

unsafe impl<B: Allocator> Allocator for Refusing<B> {
    ghost dealloc_token = { λ refusing ty ptr. B.dealloc_token refusing.inner ty ptr };

    fn allocate(&self, size: usize, align: usize) -> Result<*mut u8, AllocError> {
        if count_request(&self.left) {
            return Err(AllocError);
        }
        self.inner.allocate(size, align)
    }

    unsafe fn deallocate(&self, ptr: *mut u8, size: usize, align: usize) {
        self.inner.deallocate(ptr, size, align);
    }
}
