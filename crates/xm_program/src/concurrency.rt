//! How the rows of a day are taken: in the order of the files, on threads, or by workers, side by side.
ghost use Rattle.std.specs.Prelude.{◌≡◌};
ghost use Rattle.xm_program.specs.Requests.{concurrency_of};

use crate::count::Count;

/// How the rows of a day are taken.
#[derive(Clone, Copy, PartialEq, Eq, Debug)]
pub enum Concurrency {
    /// In the order of the files, on so many threads, if these are said: what is written is what one thread writes.
    Threads(Option<Count>),
    /// By so many workers, side by side, each the rows of its members in their order.
    Workers(Count),
}

/// How so many workers take the rows, on so many threads, if these are said. Several of the ones go with one of the others alone.
pub(crate) fn concurrency_of(workers: Count, threads: Option<Count>) -> Option<Concurrency>
    ensures { result ≡ concurrency_of workers threads }
{
    if workers.get() == 1 {
        return Some(Concurrency::Threads(threads));
    }
    match threads {
        Some(threads) if threads.get() != 1 => None,
        _ => Some(Concurrency::Workers(workers)),
    }
}
