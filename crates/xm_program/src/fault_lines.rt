//! The line that tells why a day has no statement.
ghost use Rattle.std.specs.Prelude.{◌≡◌, ◌+◌, ◌≤◌, ◌++◌, length};
ghost use Rattle.xm_program.specs.FaultLines.{cause_name, fault_line, file_line, open_name, orders_name};

use arrayvec::ArrayVec;
use itoa::Buffer;
use xm_config::OpenFault;
use xm_day::DayFault;
use xm_files::{FileCause, FileFault, OrdersFault};

/// The line by which the program tells of a fault. It fits 64 bytes, so that want of memory is told without any.
pub fn fault_line(fault: DayFault) -> ArrayVec<u8, 64>
    ensures { result.items ≡ fault_line fault }
{
    let mut line = ArrayVec::new();
    push_text(&mut line, "xetra-day: ");
    match fault {
        DayFault::Segment(of_file) => push_file_fault(&mut line, "segment", of_file),
        DayFault::Carry(of_file) => push_file_fault(&mut line, "carry", of_file),
        DayFault::Orders(of_files) => push_orders_fault(&mut line, of_files),
        DayFault::Open(fault) => {
            push_text(&mut line, "open: ");
            push_text(&mut line, open_name(fault));
        }
        DayFault::OutOfMemory(_) => push_text(&mut line, "out of memory"),
        DayFault::WriteFailed => push_text(&mut line, "write failed"),
    }
    line.push(b'\n');
    line
}

/// A fault of an order file, which has its number from the second one on.
fn push_orders_fault(line: &mut ArrayVec<u8, 64>, of_files: OrdersFault)
    requires { length line.old.items ≤ 11 }
    ensures text { line.new.items ≡ line.old.items ++ file_line (orders_name of_files.file) of_files.fault }
    ensures fits { length line.new.items ≤ 63 }
{
    if of_files.file == 1 {
        return push_file_fault(line, "orders", of_files.fault);
    }
    let mut digits = Buffer::new();
    push_text(line, "orders ");
    push_file_fault(line, digits.format(of_files.file), of_files.fault);
}

/// A fault of a file, which has one of these short names.
fn push_file_fault(line: &mut ArrayVec<u8, 64>, file: &str, fault: FileFault)
    requires { length line.old.items + length file.now ≤ 31 }
    ensures text { line.new.items ≡ line.old.items ++ file_line file.now fault }
    ensures fits { length line.new.items ≤ 63 }
{
    let mut digits = Buffer::new();
    push_text(line, file);
    push_text(line, ": line ");
    push_text(line, digits.format(fault.line));
    push_text(line, ": ");
    push_text(line, cause_name(fault.cause));
}

/// Adds a text for which there is room.
fn push_text(line: &mut ArrayVec<u8, 64>, text: &str)
    requires { length line.old.items + length text.now ≤ 64 }
    ensures { line.new.items ≡ line.old.items ++ text.now }
{
    line.try_extend_from_slice(text.as_bytes()).unwrap();
}

fn cause_name(cause: FileCause) -> &'static str
    ensures name { result.now ≡ cause_name cause }
    ensures short { length result.now ≤ 13 }
{
    match cause {
        FileCause::ReadFailed => "ReadFailed",
        FileCause::TooLong => "TooLong",
        FileCause::Syntax => "Syntax",
        FileCause::MissingKey => "MissingKey",
        FileCause::UnknownKey => "UnknownKey",
        FileCause::BadValue => "BadValue",
        FileCause::DuplicateName => "DuplicateName",
        FileCause::BadHeader => "BadHeader",
        FileCause::BadField => "BadField",
        FileCause::TooManyRows => "TooManyRows",
        FileCause::OutOfMemory(_) => "OutOfMemory",
    }
}

fn open_name(fault: OpenFault) -> &'static str
    ensures name { result.now ≡ open_name fault }
    ensures short { length result.now ≤ 13 }
{
    match fault {
        OpenFault::NoSecurity => "NoSecurity",
        OpenFault::TooMany => "TooMany",
        OpenFault::BadWidths => "BadWidths",
        OpenFault::BadCarried => "BadCarried",
        OpenFault::OutOfMemory(_) => "OutOfMemory",
    }
}
