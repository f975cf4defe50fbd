//! Names by member and reference.
use std::alloc::Allocator;
use std::process::Abort;
use xm_failing_alloc::Refusing;
use xm_memory::OutOfMemory;
use xm_name_index::{Names, Storage};

/// How many names there are, of three members in turn, each with its reference as its key.
const NAMES: u32 = 240;

/// The member of a reference.
fn member_of(reference: u32) -> u32 {
    reference % 3 * 7919
}

/// Puts in the name of a reference, if it isn't there, and answers whether memory allowed it.
fn enter<A: Allocator + Copy>(names: &mut Names<A>, reference: u32) -> bool {
    let member = member_of(reference);
    if names.get(member, reference).is_some() {
        return true;
    }
    if names.reserve(member).is_err() {
        return false;
    }
    names.insert(member, reference, reference as usize);
    true
}

/// Reserves twice, and gives one of both up: the other stays.
fn reserve_twice<A: Allocator + Copy>(
    names: &mut Names<A>,
    member: u32,
) -> Result<(), OutOfMemory> {
    names.reserve(member)?;
    names.reserve(member)?;
    names.release(member);
    Ok(())
}

/// Compares the names with the first so many.
fn compare<A: Allocator + Copy>(rt: &impl Abort, names: &Names<A>, entered: u32) {
    for reference in 0..NAMES {
        let key = if reference < entered {
            Some(reference as usize)
        } else {
            None
        };
        assert!(rt; names.get(member_of(reference), reference) == key);
    }
}

/// Puts in all names, each again where memory was refused, and answers how often it was.
fn fill<A: Allocator + Copy>(rt: &impl Abort, names: &mut Names<A>) -> u32 {
    let mut refused: u32 = 0;
    for reference in 0..NAMES {
        if !enter(names, reference) {
            refused = refused.wrapping_add(1);
            compare(rt, names, reference);
            assert!(rt; enter(names, reference));
        }
    }
    compare(rt, names, NAMES);
    refused
}

#[test]
fn a_refused_growth_leaves_the_names(rt: HostRuntime) {
    for nth in 1..200 {
        let alloc = Refusing::new(rt.alloc(), nth);
        let refused = fill(&rt, &mut Names::new(Storage::with_fixed_seed(&alloc)));
        if !alloc.has_refused() {
            assert!(rt; refused == 0);
            assert!(rt; nth > 6);
            return;
        }
        assert!(rt; refused == 1);
    }
    panic!(rt; "memory was refused in each run");
}

#[test]
fn names_leave(rt: HostRuntime) {
    let mut names = Names::new(Storage::with_fixed_seed(rt.alloc()));
    assert!(rt; enter(&mut names, 1) && enter(&mut names, 2) && enter(&mut names, 4));
    assert!(rt; reserve_twice(&mut names, member_of(1)).is_ok());
    assert!(rt; names.remove(member_of(1), 1) == Some(1));
    assert!(rt; names.pop(member_of(4)) == Some((4, 4)));
    assert!(rt; names.pop(member_of(4)).is_none());
    names.retain(&|key: usize| key != 2);
    assert!(rt; names.get(member_of(2), 2).is_none());
}
