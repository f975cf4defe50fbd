//! A queue whose links grow, beside the list of its keys.
ghost use Rattle.std.specs.Prelude.{◌≡◌, Contains, false, true};
ghost use Rattle.xm_queues.specs.Queue.{IsQueue};

use std::alloc::{Allocator, Global};
use std::marker::Model;
use std::process::Abort;
use xm_failing_alloc::Refusing;
use xm_memory::OutOfMemory;
use xm_queues::{Ends, Queues};

/// How many keys a queue has.
const KEYS: usize = 100;

/// The ends of a queue, and the list of its keys.
#[derive(Drop)]
struct Line {
    ends: Ends,
    keys: Vec<usize>,
}

/// A queue, seen as the list of its keys.
#[derive(Drop)]
struct Queue<A: Allocator> {
    queues: Queues<A>,
    line: Line,
}

impl<A: Allocator> Model for Queue<A> {
    ghost use Rattle.std.specs.Prelude.{ℕ, List};
    ghost use Rattle.xm_queues.specs.Queue.{IsQueue};

    ghost Value = { List ℕ };

    ghost view = { λ q. q.line.keys.items };

    ghost invariant = { λ q. IsQueue q.queues q.line.ends q.line.keys.items };
}

/// Whether a key is among these.
fn holds(keys: &Vec<usize>, key: usize) -> bool
    ensures no { result ≡ false → ¬ Contains keys.now.items key }
{
    keys.contains(&key)
}

/// Puts a key at the end of a queue, where it isn't there.
fn join<A: Allocator>(
    queues: &mut Queues<A>,
    line: &mut Line,
    key: usize,
) -> Result<(), OutOfMemory>
    requires { IsQueue queues.old line.old.ends line.old.keys.items }
    ensures { IsQueue queues.new line.new.ends line.new.keys.items }
{
    if holds(&line.keys, key) {
        return Ok(());
    }
    queues.reserve_key(key)?;
    line.keys.reserve(1)?;
    queues.push_back(&mut line.ends, key);
    line.keys.push_reserved(key);
    Ok(())
}

/// Walks a queue beside its list.
fn walk<A: Allocator>(rt: &impl Abort, queues: &Queues<A>, line: &Line)
    requires { IsQueue queues.now line.now.ends line.now.keys.items }
{
    let mut at = line.ends.front();
    for key in line.keys.iter() {
        assert!(rt; at == Some(*key));
        at = queues.next(*key);
    }
    assert!(rt; at.is_none());
}

impl<A: Allocator> Queue<A> {
    fn new(alloc: A, plain: Global) -> Queue<A> {
        Queue {
            queues: Queues::new(alloc),
            line: Line {
                ends: Ends::new(),
                keys: Vec::new(plain),
            },
        }
    }

    fn join(&mut self, key: usize) -> bool {
        join(&mut self.queues, &mut self.line, key).is_ok()
    }

    /// Compares the queue with its list, which has so many keys.
    fn compare(&self, rt: &impl Abort, keys: usize) {
        assert!(rt; self.line.keys.len() == keys);
        walk(rt, &self.queues, &self.line);
    }
}

/// Puts in all keys, each again where memory was refused, and answers how often it was.
fn fill<A: Allocator>(rt: &impl Abort, queue: &mut Queue<A>) -> u32 {
    let mut refused: u32 = 0;
    for key in 0..KEYS {
        if !queue.join(key) {
            refused = refused.wrapping_add(1);
            queue.compare(rt, key);
            assert!(rt; queue.join(key));
        }
    }
    queue.compare(rt, KEYS);
    refused
}

#[test]
fn a_refused_growth_leaves_the_queue(rt: HostRuntime) {
    for nth in 1..20 {
        let alloc = Refusing::new(rt.alloc(), nth);
        let refused = fill(&rt, &mut Queue::new(&alloc, rt.alloc()));
        if !alloc.has_refused() {
            assert!(rt; refused == 0);
            assert!(rt; nth > 3);
            return;
        }
        assert!(rt; refused == 1);
    }
    panic!(rt; "memory was refused in each run");
}
