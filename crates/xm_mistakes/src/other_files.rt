//! Files of other kinds than those that a run reads.

/// Bytes with which files of other kinds begin.
const OTHER_FILES: [(&[u8], &str); 8] = [
    (b"\xFF\xFE", "the file is in UTF-16: save it as UTF-8"),
    (b"\xFE\xFF", "the file is in UTF-16: save it as UTF-8"),
    (
        b"\x1F\x8B",
        "the file is compressed by gzip: unpack it, as by gunzip or zcat",
    ),
    (
        b"PK\x03\x04",
        "the file is a zip archive, as the files of spreadsheets are: unpack it, or save it as CSV in UTF-8",
    ),
    (
        b"\x28\xB5\x2F\xFD",
        "the file is compressed by zstd: unpack it, as by unzstd or zstdcat",
    ),
    (b"BZh", "the file is compressed by bzip2: unpack it"),
    (b"\xFD7zXZ", "the file is compressed by xz: unpack it"),
    (b"%PDF", "the file is a PDF"),
];

/// The words for a file that begins as one of another kind does, before any record is looked at.
pub fn other_file(text: &[u8]) -> Option<&'static str> {
    for (begin, words) in &OTHER_FILES {
        if text.starts_with(*begin) {
            return Some(*words);
        }
    }
    if text.starts_with(b"DAY ") {
        return Some("the file is a statement that a run wrote");
    }
    if text.iter().take(64).any(|byte| *byte == 0) {
        return Some(
            "the file has zero bytes, so it is no text in UTF-8: it may be in UTF-16, or no text at all",
        );
    }
    None
}
