//! The first fault of a file, told by the run's own readers.
ghost use Rattle.std.specs.Prelude.{◌≡◌, length, IfOk};
ghost use Rattle.xm_files.specs.Carry.{carry_of};
ghost use Rattle.xm_files.specs.Orders.{orders_of};
ghost use Rattle.xm_mistakes.specs.Mistakes.{fault_in};

use std::alloc::Global;
use xm_config::{Securities, SecurityConfig, SegmentConfig};
use xm_files::{
    Batch, FileCause, FileFault, MAX_BYTES, MAX_ROWS, Part, RowReader, SegmentNames, read_carry,
};
use xm_memory::OutOfMemory;
use xm_mistakes::fault_of_bytes;
use xm_name_index::Storage;

/// The first fault of an order file, by which a run would end.
pub(crate) fn orders_fault(
    alloc: Global,
    bytes: &[u8],
    names: &SegmentNames,
    config: &SegmentConfig,
) -> Result<Option<FileFault>, OutOfMemory>
    ensures { IfOk result (λ fault. fault ≡ fault_in (orders_of names.now config.now bytes.now)) }
{
    if bytes.len() > MAX_BYTES {
        return Ok(Some(FileFault {
            line: 0,
            cause: FileCause::TooLong,
        }));
    }
    let mut batch = Batch::new(alloc);
    let mut reader = RowReader::of(bytes, 1);
    let part = Part::Rows(MAX_ROWS + 1);
    match reader.read(alloc, &mut batch, part, names, config) {
        Ok(_) => Ok(None),
        Err(fault) => fault_of_bytes(fault),
    }
}

/// The first fault of a carry file, by which a run would end.
pub(crate) fn carry_fault(
    storage: Storage<Global>,
    bytes: &[u8],
    names: &SegmentNames,
    config: &SegmentConfig,
) -> Result<Option<FileFault>, OutOfMemory>
    requires securities { length names.now.securities ≡ length config.now.securities }
    requires members { length names.now.members ≡ config.now.members }
    ensures { IfOk result (λ fault. fault ≡ fault_in (carry_of names.now config.now bytes.now)) }
{
    let copy = copied(storage.alloc, config)?;
    let mut reader = bytes;
    match read_carry(storage, &mut reader, names, copy) {
        Ok(_settings) => Ok(None),
        Err(fault) => fault_of_bytes(fault),
    }
}

/// The same settings.
fn copied(alloc: Global, config: &SegmentConfig) -> Result<SegmentConfig, OutOfMemory>
    ensures { IfOk result (λ copy. copy ≡ config.now) }
{
    let mut copies = Vec::new(alloc);
    for security in config.securities.as_slice() {
        copies.push(copied_security(security)?)?;
    }
    Ok(SegmentConfig {
        today: config.today,
        members: config.members,
        securities: Securities::new(copies),
    })
}

/// The same settings of a security.
fn copied_security(security: &SecurityConfig) -> Result<SecurityConfig, OutOfMemory>
    ensures { IfOk result (λ copy. copy ≡ security.now) }
{
    let carried = security.carried.copied()?;
    Ok(SecurityConfig {
        tick: security.tick,
        reference: security.reference,
        widths: security.widths,
        limit: security.limit,
        carried,
    })
}
