//! What is wrong with the files of a day, or unsaid of it.
ghost use Rattle.std.specs.Prelude.{◌≡◌, ◌≤◌, IfOk, None, Ok, OnOk, length};
ghost use Rattle.xm_explanations.specs.Explained.{IsExplained, after_first, first_told, read_as, rows_fault};
ghost use Rattle.xm_files.specs.Segment.{segment_of};
ghost use Rattle.xm_files.specs.declared.order_files.TheConstants.{MAX_FILES};

use crate::mistaken::{
    MistakenFile, is_mistaken, open_carried, open_segment, push_all_unread, push_opening,
    push_orders,
};
use crate::read_files::ReadDay;
use crate::running::{UnsaidDay, unsaid_day};
use std::alloc::Global;
use xm_config::SegmentConfig;
use xm_files::SegmentNames;
use xm_memory::OutOfMemory;
use xm_name_index::Storage;

/// What is said of the files of a day.
#[derive(Drop)]
pub enum Explanation<'a> {
    /// Their mistakes, up to twenty.
    Mistaken(Vec<MistakenFile<'a>>),
    /// They have none. What the statement of the day leaves unsaid.
    Faultless(UnsaidDay),
}

/// What is wrong with the files of a day as they were read: up to twenty mistakes, of which the first is the fault by which a run of
/// them ends. Where the run has none, what its statement leaves unsaid.
pub fn explain<'a>(
    storage: Storage<Global>,
    day: &ReadDay<'a>,
) -> Result<Explanation<'a>, OutOfMemory>
    requires few { length day.now.orders.items ≤ MAX_FILES }
    ensures { IfOk result (IsExplained day.now) }
{
    let alloc = storage.alloc;
    let mut told = Vec::new(alloc);
    match open_segment(alloc, &mut told, &day.segment)? {
        Some((config, names)) => explain_opened(storage, day, told, config, names),
        None => {
            push_all_unread(alloc, &mut told, &day.carried, day.orders.as_slice())?;
            Ok(Explanation::Mistaken(told))
        }
    }
}

/// The same, where the segment file has no mistake.
fn explain_opened<'a>(
    storage: Storage<Global>,
    day: &ReadDay<'a>,
    mut told: Vec<MistakenFile<'a>>,
    config: SegmentConfig,
    names: SegmentNames,
) -> Result<Explanation<'a>, OutOfMemory>
    requires few { length day.now.orders.items ≤ MAX_FILES }
    requires none { first_told told.items ≡ None }
    requires segment { read_as segment_of day.now.segment.text ≡ Ok (config, names) }
    requires securities { length names.securities ≡ length config.securities }
    requires members { length names.members ≡ config.members }
    ensures { IfOk result (IsExplained day.now) }
{
    let config = open_carried(storage, &mut told, &day.carried, &names, config)?;
    push_rest(storage.alloc, &mut told, day, &names, &config)?;
    if is_mistaken(told.as_slice()) {
        return Ok(Explanation::Mistaken(told));
    }
    let unsaid = unsaid_day(storage, names, &config, day.orders.as_slice())?;
    Ok(Explanation::Faultless(unsaid))
}

/// Adds the mistakes of the order files, and those for which the segment isn't opened.
fn push_rest<'a>(
    alloc: Global,
    told: &mut Vec<MistakenFile<'a>>,
    day: &ReadDay<'a>,
    names: &SegmentNames,
    config: &SegmentConfig,
) -> Result<(), OutOfMemory>
    requires few { length day.now.orders.items ≤ MAX_FILES }
    ensures { OnOk result (first_told told.new.items ≡ after_first (first_told told.old.items) (rows_fault names.now day.now.orders.items config.now)) }
{
    push_orders(alloc, told, day.orders.as_slice(), 1, names, config)?;
    push_opening(alloc, told, day.segment.path, names, config)
}
