//! What tables of names are made with.
use crate::seed::Seed;

/// Where tables of names lie, and the seed that their hashes begin with, on which no answer depends.
#[derive(Clone, Copy)]
pub struct Storage<A> {
    pub alloc: A,
    pub seed: Seed,
}

impl<A> Storage<A> {
    /// With the same seed each time: for tests.
    pub fn with_fixed_seed(alloc: A) -> Storage<A> {
        Storage {
            alloc,
            seed: Seed::fixed(),
        }
    }
}
