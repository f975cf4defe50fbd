//! Where a worker's caller may look in.

/// What a worker calls between its rows and while it has a lock, so that a simulator, or a test, can order what its
/// workers do. Nothing that it does changes what a security holds.
pub trait Gate {
    /// Called by a worker that has rows, with no lock held, before the first one and after each answer, with the number of
    /// answers so far.
    fn outside(&self, worker: u32, answered: u64);

    /// Called once for each row of a known security, while its lock is held and before its desk is asked.
    fn inside(&self, worker: u32, security: u32);
}

/// A gate that does nothing.
pub struct NoGate;

impl Gate for NoGate {
    fn outside(&self, _worker: u32, _answered: u64) {}

    fn inside(&self, _worker: u32, _security: u32) {}
}
