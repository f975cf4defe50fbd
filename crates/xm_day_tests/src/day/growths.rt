//! A statement and a carry file whose growths are refused.
use super::CASCADE_STATEMENT;
use super::carried_days::CASCADE_LEFT;
use super::workers::ORDERS_STATEMENT;
use crate::files::fixtures::{CASCADE, ORDERS, SEGMENT};
use std::alloc::Global;
use std::process::Abort;
use xm_config::{Row, SegmentConfig};
use xm_day::{DayFault, DayReport, carry, statement};
use xm_desk::Desk;
use xm_failing_alloc::Refusing;
use xm_files::{SegmentNames, read_rows, read_segment};
use xm_name_index::Storage;

/// Gives rows to a desk, and counts them.
fn take(desk: &mut Desk<Global>, rows: &[Row]) -> DayReport {
    let mut report = DayReport {
        accepted: 0,
        refused: 0,
    };
    for row in rows {
        match desk.apply(&row.command) {
            Ok(_reply) => report.accepted = report.accepted.wrapping_add(1),
            Err(_refusal) => report.refused = report.refused.wrapping_add(1),
        }
    }
    report
}

/// Which text of a day is written.
#[derive(Clone, Copy)]
enum Text {
    Statement,
    Carry,
}

/// Compares what was written of a text with one request for memory refused, or with none: all of it, or nothing for
/// want of memory.
fn is_whole_or_nothing(
    rt: &impl Abort,
    answer: Result<(), DayFault>,
    refused: bool,
    out: &[u8],
    text: &str,
) {
    match answer {
        Ok(()) => assert!(rt; out == text.as_bytes()),
        Err(fault) => {
            assert!(rt; refused && matches!(fault, DayFault::OutOfMemory(_)));
            assert!(rt; out.is_empty());
        }
    }
}

/// Whether a request is refused where a text is written with the one of this number refused.
fn is_refused(
    rt: &(impl Abort + AllocGlobal),
    kind: Text,
    desks: &[Desk<Global>],
    names: &SegmentNames,
    report: &DayReport,
    text: &str,
    nth: u64,
) -> bool {
    let refusing = Refusing::new(rt.alloc(), nth);
    let mut out = Vec::new(rt.alloc());
    assert!(rt; desks.len() == 1 && names.securities() == 1);
    let answer = match kind {
        Text::Statement => statement(&refusing, desks, names, report, &mut out),
        Text::Carry => carry(&refusing, desks, names, &mut out),
    };
    is_whole_or_nothing(rt, answer, refusing.has_refused(), out.as_slice(), text);
    refusing.has_refused()
}

/// Refuses each request of a text in turn, of which there are at least so many.
fn refuse_each(
    rt: &(impl Abort + AllocGlobal),
    kind: Text,
    desks: &[Desk<Global>],
    names: &SegmentNames,
    report: &DayReport,
    text: &str,
    least: u64,
) {
    for nth in 1..u64::MAX {
        if !is_refused(rt, kind, desks, names, report, text, nth) {
            assert!(rt; nth > least);
            return;
        }
    }
}

/// The desk of a segment of one security, after some rows, and their counts.
fn worked(
    rt: &(impl Abort + AllocGlobal),
    config: &SegmentConfig,
    rows: &[Row],
) -> (Desk<Global>, DayReport) {
    let security = config
        .securities
        .as_slice()
        .first()
        .expect(rt, "a security");
    let settings = config.settings_of(security).expect(rt, "memory");
    let mut desk = Desk::open(Storage::with_fixed_seed(rt.alloc()), settings).expect(rt, "a desk");
    let report = take(&mut desk, rows);
    (desk, report)
}

/// Compares what is written of a text of the day of two files, with each request for memory refused in turn, of which
/// there are at least so many.
fn is_refused_in_turn(
    rt: &(impl Abort + AllocGlobal),
    kind: Text,
    segment: &str,
    orders: &str,
    text: &str,
    least: u64,
) {
    let (config, names) = read_segment(rt.alloc(), &mut segment.as_bytes()).expect(rt, "a segment");
    let rows = read_rows(rt.alloc(), &mut orders.as_bytes(), &names, &config).expect(rt, "rows");
    let (desk, report) = worked(rt, &config, rows.as_slice());
    refuse_each(rt, kind, &[desk], &names, &report, text, least);
}

#[test]
fn refused_growths_of_a_statement(rt: HostRuntime) {
    // The text is told of its trades, and grows behind them; without trades it grows from nothing.
    is_refused_in_turn(&rt, Text::Statement, SEGMENT, CASCADE, CASCADE_STATEMENT, 2);
    is_refused_in_turn(&rt, Text::Statement, SEGMENT, ORDERS, ORDERS_STATEMENT, 6);
}

#[test]
fn refused_growths_of_a_carry_file(rt: HostRuntime) {
    is_refused_in_turn(&rt, Text::Carry, SEGMENT, CASCADE, CASCADE_LEFT, 2);
}
