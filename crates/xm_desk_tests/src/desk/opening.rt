use super::day::Day;
use super::settings;
use std::process::Abort;
use xm_config::OpenFault;
use xm_failing_alloc::Refusing;
use xm_rules::{DeskSettings, Widths};

/// The fault of a desk whose first growth is refused.
fn refused_opening(rt: &(impl Abort + AllocGlobal)) -> OpenFault {
    let refusing = Refusing::new(rt.alloc(), 1);
    let opened = Day::opened(&refusing, settings(rt, 100));
    opened.err().expect(rt, "nothing was refused")
}

/// The number of members, and the dynamic, the static and the wide width, with the fault of a desk of them.
type Opening = (u32, [u32; 3], Option<OpenFault>);

/// Compares the fault of a desk.
fn is_opened(rt: &(impl Abort + AllocGlobal), (members, widths, fault): Opening) {
    let [dynamic, statics, wide] = widths;
    let settings = DeskSettings {
        members,
        widths: Widths {
            dynamic,
            statics,
            wide,
        },
        ..settings(rt, 100)
    };
    let answer = Day::opened(rt.alloc(), settings).err();
    assert!(rt; answer == fault, "of {members} and {widths:?}");
}

/// As many members as there may be, and one more.
const OPENINGS: [Opening; 2] = [
    (1000, [1, 999, 2], None),
    (1001, [0, 50, 40], Some(OpenFault::TooMany)),
];

#[test]
fn opening_faults(rt: HostRuntime) {
    for opening in OPENINGS {
        is_opened(&rt, opening);
    }
}

/// Compares the text of a fault.
fn has_text(rt: &(impl Abort + AllocGlobal), fault: OpenFault, text: &str) {
    let written = (format!(in rt.alloc(); "{fault}")).expect(rt, "memory");
    assert!(rt; written.as_str() == text, "{text}");
}

#[test]
fn texts_of_opening_faults(rt: HostRuntime) {
    has_text(&rt, OpenFault::NoSecurity, "no security");
    has_text(&rt, OpenFault::TooMany, "too many securities or members");
    has_text(&rt, OpenFault::BadWidths, "bad widths of the price ranges");
    has_text(
        &rt,
        OpenFault::BadCarried,
        "bad orders or stops of earlier days",
    );
    has_text(&rt, refused_opening(&rt), "out of memory");
}
