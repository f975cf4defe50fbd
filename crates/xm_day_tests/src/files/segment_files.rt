use super::fault;
use super::fixtures::{NO_SECURITY, OneByteReader, SECOND, SEGMENT, replaced};
use std::alloc::Global;
use std::io::{ErrorKind, Read};
use std::process::Abort;
use xm_config::{Securities, SecurityConfig, SegmentConfig};
use xm_files::{FileCause, FileFault, SegmentNames, read_segment};

/// Reads a segment file. A clause sees nothing of it.
fn read(
    alloc: Global,
    segment: &mut impl Read,
) -> Result<(SegmentConfig, SegmentNames), FileFault> {
    read_segment(alloc, segment)
}

/// Compares the fault of a segment file.
pub(super) fn has_fault(
    rt: &(impl Abort + AllocGlobal),
    segment: &mut impl Read,
    line: u32,
    cause: FileCause,
) {
    let answer = read(rt.alloc(), segment).err();
    assert!(rt; answer == fault(line, cause), "in place of {cause:?}");
}

/// Compares the fault of the segment file of a text.
pub(super) fn text_has_fault(
    rt: &(impl Abort + AllocGlobal),
    text: &str,
    line: u32,
    cause: FileCause,
) {
    has_fault(rt, &mut text.as_bytes(), line, cause);
}

/// The tick, the reference, the dynamic, the static and the wide width, and the limit of the journal.
fn numbers_of(security: &SecurityConfig) -> [u32; 6] {
    let widths = security.widths;
    [
        security.tick.get(),
        security.reference.get(),
        widths.dynamic,
        widths.statics,
        widths.wide,
        security.limit.get(),
    ]
}

fn settings_are(rt: &impl Abort, securities: &Securities, expected: &[[u32; 6]]) {
    assert!(rt; securities.as_slice().len() == expected.len());
    for (security, numbers) in securities.as_slice().iter().zip(expected) {
        assert!(rt; numbers_of(security) == *numbers);
    }
}

/// Compares the names at the first indices.
fn members_are(rt: &impl Abort, names: &SegmentNames, expected: &[Option<&str>]) {
    for (name, index) in expected.iter().zip(0..) {
        assert!(rt; names.member(index) == *name);
    }
}

/// Compares the names at the first indices.
fn securities_are(rt: &impl Abort, names: &SegmentNames, expected: &[Option<&str>]) {
    for (name, index) in expected.iter().zip(0..) {
        assert!(rt; names.security(index) == *name);
    }
}

const SETTINGS: [[u32; 6]; 2] = [[100, 1000, 20, 50, 40, 100], [1, 5000, 0, u32::MAX, 0, 1]];

#[test]
fn a_segment_is_read(rt: HostRuntime) {
    let text = (format!(in rt.alloc(); "{SEGMENT}{SECOND}")).expect(&rt, "memory");
    let (config, names) = read(rt.alloc(), &mut text.as_bytes()).expect(&rt, "a segment");
    assert!(rt; (config.today, config.members) == (20_260_105, 2));
    assert!(rt; (names.members(), names.securities()) == (2, 2));
    members_are(&rt, &names, &[Some("AAA"), Some("BBB"), None]);
    securities_are(&rt, &names, &[Some("XYZ"), Some("UVW"), None]);
    settings_are(&rt, &config.securities, &SETTINGS);
}

#[test]
fn empty_lists_are_read(rt: HostRuntime) {
    let mut reader = NO_SECURITY.as_bytes();
    let (config, names) = read(rt.alloc(), &mut reader).expect(&rt, "a segment");
    assert!(rt; config.members == 0);
    settings_are(&rt, &config.securities, &[]);
    members_are(&rt, &names, &[None]);
}

/// What a key or a value is replaced by, and the cause that is then told.
type Damage = (&'static str, &'static str, FileCause);

const DAMAGED_TOP_KEYS: [Damage; 19] = [
    ("date = 20260105", "", FileCause::MissingKey),
    ("date", "dates", FileCause::MissingKey),
    ("members", "names", FileCause::MissingKey),
    ("[[security]]", "[[securities]]", FileCause::MissingKey),
    ("date", "colour = 1\ndate", FileCause::UnknownKey),
    ("20260105", "100000000", FileCause::BadValue),
    ("20260105", "-1", FileCause::BadValue),
    ("20260105", "\"20260105\"", FileCause::BadValue),
    ("20260105", "2026.5", FileCause::BadValue),
    ("20260105", "2026-01-05", FileCause::BadValue),
    ("\"AAA\"", "\"aaa\"", FileCause::BadValue),
    ("\"AAA\"", "\"\"", FileCause::BadValue),
    ("\"AAA\"", "\"ABCDEFGHIJ123\"", FileCause::BadValue),
    ("\"AAA\"", "1", FileCause::BadValue),
    ("[\"AAA\", \"BBB\"]", "\"AAA\"", FileCause::BadValue),
    ("[\"AAA\", \"BBB\"]", "2", FileCause::BadValue),
    ("\"BBB\"", "\"AAA\"", FileCause::DuplicateName),
    ("members =", "members", FileCause::Syntax),
    ("[[security]]", "[security]", FileCause::BadValue),
];

const DAMAGED_SECURITIES: [Damage; 31] = [
    ("name =", "names =", FileCause::MissingKey),
    ("reference =", "price =", FileCause::MissingKey),
    ("dynamic =", "dynamics =", FileCause::MissingKey),
    ("static =", "statics =", FileCause::MissingKey),
    ("wide =", "width =", FileCause::MissingKey),
    ("journal =", "journals =", FileCause::MissingKey),
    ("tick = 100\n", "", FileCause::MissingKey),
    ("tick = 100", "colour = 1", FileCause::MissingKey),
    (
        "tick = 100",
        "tick = 100\ncolour = 1",
        FileCause::UnknownKey,
    ),
    ("tick = 100", "tick = 0\ncolour = 1", FileCause::UnknownKey),
    ("tick = 100", "tick = 0", FileCause::BadValue),
    ("tick = 100", "tick = 10001", FileCause::BadValue),
    ("tick = 100", "tick = \"100\"", FileCause::BadValue),
    ("\"10.00\"", "10.00", FileCause::BadValue),
    ("\"10.00\"", "\"10.00000\"", FileCause::BadValue),
    ("\"10.00\"", "\"10000.01\"", FileCause::BadValue),
    ("\"10.00\"", "\"10.001\"", FileCause::BadValue),
    ("\"10.00\"", "\"0\"", FileCause::BadValue),
    ("\"10.00\"", "\"+1\"", FileCause::BadValue),
    ("dynamic = 20", "dynamic = -1", FileCause::BadValue),
    ("dynamic = 20", "dynamic = 4294967296", FileCause::BadValue),
    ("static = 50", "static = -1", FileCause::BadValue),
    ("static = 50", "static = 0.5", FileCause::BadValue),
    ("wide = 40", "wide = 4294967296", FileCause::BadValue),
    ("wide = 40", "wide = true", FileCause::BadValue),
    ("journal = 100", "journal = 0", FileCause::BadValue),
    ("journal = 100", "journal = 1000001", FileCause::BadValue),
    ("journal = 100", "journal = []", FileCause::BadValue),
    ("\"XYZ\"", "1", FileCause::BadValue),
    ("\"XYZ\"", "\"\"", FileCause::BadValue),
    ("\"XYZ\"", "\"X Z\"", FileCause::BadValue),
];

/// Compares the fault of `SEGMENT` with a damage.
fn is_damaged(rt: &(impl Abort + AllocGlobal), line: u32, old: &str, new: &str, cause: FileCause) {
    let text = replaced(rt.alloc(), SEGMENT, old, new).expect(rt, old);
    text_has_fault(rt, text.as_str(), line, cause);
}

fn are_damaged(rt: &(impl Abort + AllocGlobal), line: u32, damages: &[Damage]) {
    for (old, new, cause) in damages {
        is_damaged(rt, line, old, new, *cause);
    }
}

#[test]
fn damaged_keys(rt: HostRuntime) {
    are_damaged(&rt, 0, &DAMAGED_TOP_KEYS);
    are_damaged(&rt, 1, &DAMAGED_SECURITIES);
}

#[test]
fn a_segment_that_is_no_text(rt: HostRuntime) {
    has_fault(&rt, &mut &b"date = \xff"[..], 0, FileCause::Syntax);
}

#[test]
fn a_slow_reader(rt: HostRuntime) {
    let mut reader = OneByteReader::new(SEGMENT, None);
    let (config, names) = read(rt.alloc(), &mut reader).expect(&rt, "a segment");
    assert!(rt; config.today == 20_260_105);
    securities_are(&rt, &names, &[Some("XYZ")]);
}

/// Compares the fault of `SEGMENT`, of which this call fails.
fn fails_at(rt: &(impl Abort + AllocGlobal), call: usize, kind: ErrorKind) {
    let mut reader = OneByteReader::new(SEGMENT, Some((call, kind)));
    has_fault(rt, &mut reader, 0, FileCause::ReadFailed);
}

#[test]
fn failing_readers(rt: HostRuntime) {
    for kind in [ErrorKind::BrokenPipe, ErrorKind::Interrupted] {
        for call in 0..SEGMENT.len() + 1 {
            fails_at(&rt, call, kind);
        }
    }
}
