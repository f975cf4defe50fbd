//! Each request for memory of a call, refused in turn.
use crate::Refusing;
use std::alloc::Allocator;
use xm_memory::OutOfMemory;

/// What calls are tried on, over a runtime, where each of their requests for memory is refused in turn.
pub trait Tried<A: Allocator, R>: Sized {
    /// A call, with what comes before it.
    type Call;

    /// What stands before a call, for which there is memory.
    fn before(rt: &R, alloc: A, call: &Self::Call) -> Self;

    /// Makes the call, and keeps what it answers, or answers its want of memory.
    fn make(&mut self, rt: &R, call: &Self::Call) -> Result<(), OutOfMemory>;

    /// Whether two show the same to all readers, and keep the same answer.
    fn shows_as(&self, rt: &R, like: &Self) -> bool;
}

/// How many requests for memory a call makes, by what comes of it where one is refused.
#[derive(Clone, Copy, PartialEq, Eq, Debug)]
pub struct Requests {
    /// The call answers its want of memory.
    pub wanting: u64,
    /// The call finds another way, and answers as it does with memory.
    pub made_good: u64,
}

/// What is wrong with a call.
#[derive(Clone, Copy, PartialEq, Eq, Debug)]
pub enum Wrong {
    /// It wants memory though none is refused.
    WantsUnrefused,
    /// After want of memory not all shows as before it.
    Changed,
    /// With memory it doesn't end as it does where nothing was refused.
    EndsOtherwise,
    /// Each of very many requests was refused.
    NeverEnds,
}

/// A call with how many of its requests for memory end in want of memory where they are refused, and how many are made good.
pub type Counted<C> = (C, u64, u64);

/// What comes of a call of which one request is refused.
#[derive(Clone, Copy)]
enum End {
    NotRefused,
    Wanting,
    MadeGood,
}

/// The most requests for memory that a call makes.
const MANY: u64 = 1_000_000;

/// Refuses each request for memory of each call in turn, and answers the first one, by its index, whose requests aren't those that
/// are stored beside it, with what they are.
pub fn refuse_all<'a, B: Allocator, T: Tried<&'a Refusing<B>, R> + Drop, R>(
    rt: &R,
    alloc: &'a Refusing<B>,
    calls: &[Counted<T::Call>],
) -> Option<(usize, Result<Requests, Wrong>)> {
    for (index, (call, wanting, made_good)) in calls.iter().enumerate() {
        let found = refuse_each::<B, T, R>(rt, alloc, call);
        let stored = Requests {
            wanting: *wanting,
            made_good: *made_good,
        };
        if found != Ok(stored) {
            return Some((index, found));
        }
    }
    None
}

/// Refuses each request for memory of a call in turn, until it runs with none refused, and counts them.
///
/// Where the call answers its want of memory, all shows as before it, and the same call, with memory, then ends as it does where
/// nothing was refused.
pub fn refuse_each<'a, B: Allocator, T: Tried<&'a Refusing<B>, R> + Drop, R>(
    rt: &R,
    alloc: &'a Refusing<B>,
    call: &T::Call,
) -> Result<Requests, Wrong> {
    let before = T::before(rt, alloc, call);
    let mut after = T::before(rt, alloc, call);
    if after.make(rt, call).is_err() {
        return Err(Wrong::WantsUnrefused);
    }
    let mut requests = Requests {
        wanting: 0,
        made_good: 0,
    };
    for nth in 1..MANY {
        match refuse(rt, alloc, call, nth, &before, &after)? {
            End::NotRefused => return Ok(requests),
            End::Wanting => requests.wanting = requests.wanting.wrapping_add(1),
            End::MadeGood => requests.made_good = requests.made_good.wrapping_add(1),
        }
    }
    Err(Wrong::NeverEnds)
}

/// Makes a call with one request refused, and once more where that is want of memory.
fn refuse<'a, B: Allocator, T: Tried<&'a Refusing<B>, R> + Drop, R>(
    rt: &R,
    alloc: &'a Refusing<B>,
    call: &T::Call,
    nth: u64,
    before: &T,
    after: &T,
) -> Result<End, Wrong> {
    let mut tried = T::before(rt, alloc, call);
    alloc.refuse(nth);
    let answer = tried.make(rt, call);
    let left = alloc.requests_left();
    alloc.refuse(0);
    let end = match (answer.is_ok(), left) {
        (true, 0) => End::MadeGood,
        (true, _) => End::NotRefused,
        (false, 0) => End::Wanting,
        (false, _) => return Err(Wrong::WantsUnrefused),
    };
    if answer.is_err() {
        if !tried.shows_as(rt, before) {
            return Err(Wrong::Changed);
        }
        if tried.make(rt, call).is_err() {
            return Err(Wrong::WantsUnrefused);
        }
    }
    if tried.shows_as(rt, after) {
        Ok(end)
    } else {
        Err(Wrong::EndsOtherwise)
    }
}
