//! Room for entries, and for the links of their keys.
ghost use Rattle.std.specs.Prelude.{◌≡◌, ℕ, ◌<◌, ◌≤◌, List, OnOk};
ghost use Rattle.xm_queues.specs.Queue.{IsQueue, key_limit};
ghost use Rattle.xm_queues.specs.declared.queues.Ends.{Ends};

use crate::slots::Slots;
use std::alloc::Allocator;
use xm_memory::OutOfMemory;
use xm_queues::Queues;

/// Makes room for so many entries in all, each with a link for its key, where it isn't there.
#[inline(always)]
pub fn hold<I: Copy, A: Allocator + Copy>(
    links: &mut Queues<A>,
    entries: &mut Slots<I, A>,
    count: usize,
) -> Result<(), OutOfMemory>
    requires fits { entries.old.capacity ≤ key_limit links.old }
    ensures queues { (ends : Ends) (keys : List ℕ) → IsQueue links.old ends keys → IsQueue links.new ends keys }
    ensures entries { entries.new ≡ record entries.old { capacity = entries.new.capacity } }
    ensures grows { entries.old.capacity ≤ entries.new.capacity }
    ensures fits { entries.new.capacity ≤ key_limit links.new }
    ensures holds { OnOk result (count ≤ entries.new.capacity) }
{
    if count <= entries.capacity() {
        return Ok(());
    }
    grow(links, entries, count)
}

/// The same where it isn't there: room for at least twice as many as before.
#[inline(never)]
fn grow<I: Copy, A: Allocator + Copy>(
    links: &mut Queues<A>,
    entries: &mut Slots<I, A>,
    count: usize,
) -> Result<(), OutOfMemory>
    requires more { entries.old.capacity < count }
    requires fits { entries.old.capacity ≤ key_limit links.old }
    ensures queues { (ends : Ends) (keys : List ℕ) → IsQueue links.old ends keys → IsQueue links.new ends keys }
    ensures entries { entries.new ≡ record entries.old { capacity = entries.new.capacity } }
    ensures grows { entries.old.capacity ≤ entries.new.capacity }
    ensures fits { entries.new.capacity ≤ key_limit links.new }
    ensures holds { OnOk result (count ≤ entries.new.capacity) }
{
    let capacity = count.max(2 * entries.capacity()).max(4);
    links.reserve_key(capacity - 1)?;
    entries.grow_to(capacity)
}
