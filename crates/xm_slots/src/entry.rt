//! What lies under a key.
ghost use Rattle.std.specs.Prelude.{◌≡◌, ℕ};

/// An item with the number of its entry.
#[derive(Clone, Copy)]
pub struct Entry<I> {
    pub item: I,
    pub time: u64,
}

/// How items of a kind become less where they are. Whoever keeps such items says it by a type of its own.
pub trait Rests<I> {
    /// The item with this rest.
    ghost reduced_to: { ℕ → I → I };

    /// Gives an item this rest.
    fn reduce_to(item: &mut I, rest: u32)
        ensures { item.new ≡ reduced_to rest item.old };
}
