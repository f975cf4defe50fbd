//! The desks of a segment.
ghost use Rattle.std.specs.Prelude.{◌≡◌, ◌≢◌, map, Err, IfErr, IfOk, None, OnOk, Some};
ghost use Rattle.xm_config.specs.Opening.{journal_of, segment_fault};

use crate::desk::Desk;
use std::alloc::Allocator;
use xm_config::{OpenFault, SegmentConfig};
use xm_memory::OutOfMemory;
use xm_name_index::Storage;

/// Opens a desk for each security of a segment, in index order.
///
/// The fault is the first of the segment's own: no security, more than `MAX_SECURITIES` of them or `MAX_MEMBERS` members,
/// widths of a security that aren't lawful, and orders or stops of one that earlier days can't have left. It is `OutOfMemory` where
/// a growth was refused.
pub fn open_desks<A: Allocator + Copy>(
    storage: Storage<A>,
    config: &SegmentConfig,
) -> Result<Vec<Desk<A>, A>, OpenFault>
    ensures opened { IfOk result (λ desks. desks.items ≡ map (journal_of config.now) config.now.securities) }
    ensures sound { OnOk result (segment_fault config.now ≡ None) }
    ensures refused { IfErr result (λ fault. fault ≢ OpenFault.OutOfMemory tt → segment_fault config.now ≡ Some fault) }
    ensures memory { result ≡ Err (OpenFault.OutOfMemory tt) → segment_fault config.now ≡ None }
{
    if let Some(fault) = config.segment_fault() {
        return Err(fault);
    }
    desks_of(storage, config)
}

/// The desks of a segment without a fault, unless memory is wanting.
pub fn desks_of<A: Allocator + Copy>(
    storage: Storage<A>,
    config: &SegmentConfig,
) -> Result<Vec<Desk<A>, A>, OpenFault>
    requires { segment_fault config.now ≡ None }
    ensures memory { IfErr result (λ fault. fault ≡ OpenFault.OutOfMemory tt) }
    ensures opened { IfOk result (λ desks. desks.items ≡ map (journal_of config.now) config.now.securities) }
{
    let mut desks = Vec::new(storage.alloc);
    for security in config.securities.as_slice() {
        let settings = config.settings_of(security)?;
        let desk = Desk::open(storage, settings)?;
        desks.push(desk).map_err(OutOfMemory::from)?;
    }
    Ok(desks)
}
