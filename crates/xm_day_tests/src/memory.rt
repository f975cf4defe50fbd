//! Want of memory for tests, which a refused growth alone can tell.
use std::process::Abort;
use xm_failing_alloc::Refusing;
use xm_memory::OutOfMemory;

/// What a growth answers that is refused.
pub(crate) fn want_of_memory(rt: &(impl Abort + AllocGlobal)) -> OutOfMemory {
    let refusing = Refusing::new(rt.alloc(), 1);
    let mut bytes = Vec::new(&refusing);
    OutOfMemory::from(bytes.push(0u8).err().expect(rt, "nothing was refused"))
}
