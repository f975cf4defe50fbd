//! The allocator that refuses one request.
use std::alloc::{Allocator, Global};
use std::marker::Model;
use std::process::Abort;
use std::sync::{Mutex, Wait};
use std::test::Fail;
use std::thread::join;
use xm_failing_alloc::{Refusing, Requests, Tried, Wrong, refuse_all, refuse_each};
use xm_memory::OutOfMemory;

/// Pushes twenty numbers, one again where it was refused, and answers which.
fn refused_push(rt: &impl Abort, alloc: &Refusing<Global>) -> Option<u64> {
    let mut numbers = Vec::new(alloc);
    let mut refused = None;
    for number in 0..20u64 {
        if numbers.push(number).is_err() {
            assert!(rt; alloc.has_refused() && numbers.push(number).is_ok());
            refused = Some(number);
        }
    }
    assert!(rt; numbers.iter().copied().eq(0..20));
    refused
}

#[test]
fn each_growth_is_refused_in_turn(rt: HostRuntime) {
    for (nth, number) in (1..).zip([Some(0), Some(4), Some(8), Some(16), None]) {
        let alloc = Refusing::new(rt.alloc(), nth);
        assert!(rt; refused_push(&rt, &alloc) == number);
        assert!(rt; alloc.has_refused() == number.is_some());
    }
}

#[test]
fn a_collection_owns_one(rt: HostRuntime) -> Result<(), Fail> {
    let mut numbers: Vec<u64, Refusing<Global>> = Vec::new(Refusing::new(rt.alloc(), 1));
    assert!(rt; numbers.push(1).is_err());
    numbers.push(2)?;
    assert!(rt; numbers.as_slice() == [2].as_slice());
    assert!(rt; numbers.allocator().has_refused());
    Ok(())
}

#[test]
fn a_collection_owns_one_that_refuses_none(rt: HostRuntime) -> Result<(), Fail> {
    let mut numbers = Vec::new(Refusing::new(rt.alloc(), 0));
    for number in 0..100u64 {
        numbers.push(number)?;
    }
    let alloc = numbers.allocator();
    assert!(rt; alloc.requests_left() == 0 && !alloc.has_refused());
    Ok(())
}

/// How many requests are left up to the one that is refused, and whether it has come.
fn state(alloc: &Refusing<Global>) -> (u64, bool) {
    (alloc.requests_left(), alloc.has_refused())
}

#[test]
fn counts_down_to_the_refusal(rt: HostRuntime) -> Result<(), Fail> {
    let alloc = Refusing::new(rt.alloc(), 2);
    assert!(rt; state(&alloc) == (2, false));
    let first = Box::new(&alloc, 1u64)?;
    assert!(rt; state(&alloc) == (1, false));
    assert!(rt; Box::new(&alloc, 2u64).is_err());
    assert!(rt; state(&alloc) == (0, true));
    let third = Box::new(&alloc, 3u64)?;
    assert!(rt; (*first, *third) == (1, 3) && state(&alloc) == (0, true));
    Ok(())
}

#[test]
fn is_shown_with_its_request(rt: HostRuntime) -> Result<(), Fail> {
    let text = format!(in rt.alloc(); "{:?}", Refusing::new(rt.alloc(), 2))?;
    assert!(rt; text.as_str() == "Refusing { inner: Global, left: 2, nth: 2 }");
    Ok(())
}

/// Pushes a hundred numbers, and answers how many of the pushes were refused.
fn refusals(rt: &impl Wait, shared: &Mutex<Vec<u64, &Refusing<Global>>>) -> u64 {
    let mut refused = 0u64;
    for number in 0..100u64 {
        if shared.lock(rt).push(number).is_err() {
            refused = refused.saturating_add(1);
        }
    }
    refused
}

#[test]
fn two_threads_share_one_refusal(rt: HostRuntime) {
    let alloc = Refusing::new(rt.alloc(), 3);
    let shared = Mutex::new(Vec::new(&alloc));
    let (one, other) = join(&rt, || refusals(&rt, &shared), || refusals(&rt, &shared));
    assert!(rt; one.checked_add(other) == Some(1));
    assert!(rt; shared.into_inner().len() == 199);
    assert!(rt; alloc.has_refused());
}

/// How a call pushes a number.
#[derive(Clone, Copy)]
enum Push {
    Well,
    /// It leaves a mark where memory is wanting.
    LeavesMark,
    /// It makes a mark where it is called again.
    MarksLater,
}

/// A list, with what calls leave beside it. A clause sees nothing of it.
struct Pushed<A: Allocator> {
    numbers: Vec<u64, A>,
    called: bool,
    marked: bool,
}

impl<A: Allocator> Drop for Pushed<A> {
    fn drop(self) {
        let Pushed {
            numbers: _numbers,
            called: _,
            marked: _,
        } = self;
    }
}

impl<A: Allocator> Model for Pushed<A> {
    ghost Value = { Unit };

    ghost view = { λ _. tt };
}

impl<A: Allocator, R> Tried<A, R> for Pushed<A> {
    type Call = Push;

    fn before(_rt: &R, alloc: A, _push: &Push) -> Pushed<A> {
        Pushed {
            numbers: Vec::new(alloc),
            called: false,
            marked: false,
        }
    }

    fn make(&mut self, _rt: &R, push: &Push) -> Result<(), OutOfMemory> {
        let again = self.called;
        self.called = true;
        match self.numbers.push(1) {
            Ok(()) => {
                self.marked = again && matches!(*push, Push::MarksLater);
                Ok(())
            }
            Err(error) => {
                self.marked = matches!(*push, Push::LeavesMark);
                Err(OutOfMemory::from(error))
            }
        }
    }

    fn shows_as(&self, _rt: &R, like: &Pushed<A>) -> bool {
        self.numbers.as_slice() == like.numbers.as_slice() && self.marked == like.marked
    }
}

const ONE: Requests = Requests {
    wanting: 1,
    made_good: 0,
};

#[test]
fn what_is_wrong_with_a_call_is_found(rt: HostRuntime) {
    let alloc = Refusing::new(rt.alloc(), 0);
    let found = [
        refuse_each::<_, Pushed<_>, _>(&rt, &alloc, &Push::Well),
        refuse_each::<_, Pushed<_>, _>(&rt, &alloc, &Push::LeavesMark),
        refuse_each::<_, Pushed<_>, _>(&rt, &alloc, &Push::MarksLater),
    ];
    assert!(rt; found == [Ok(ONE), Err(Wrong::Changed), Err(Wrong::EndsOtherwise)]);
}

#[test]
fn other_counts_than_are_stored_are_found(rt: HostRuntime) {
    let alloc = Refusing::new(rt.alloc(), 0);
    let calls = [(Push::Well, 1, 0), (Push::Well, 2, 0)];
    let other = refuse_all::<_, Pushed<_>, _>(&rt, &alloc, &calls);
    assert!(rt; other == Some((1, Ok(ONE))));
    assert!(rt; refuse_all::<_, Pushed<_>, _>(&rt, &alloc, &calls[..1]).is_none());
}
