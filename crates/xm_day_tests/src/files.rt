mod carry_files;
mod damaged_fields;
pub(crate) mod fixtures;
mod hurtful;
mod order_files;
mod rounds_read;
mod second_format;
mod segment_files;
mod timetables;

use xm_files::{FileCause, FileFault};

fn fault(line: u32, cause: FileCause) -> Option<FileFault> {
    Some(FileFault { line, cause })
}
