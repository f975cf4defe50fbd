//! Which segments open.
use super::running::{Size, opening_fault};
use xm_config::OpenFault;

/// One security with lawful widths, as many workers and watchers as there may be.
const FULL: Size = Size {
    securities: 1,
    members: 2,
    workers: 64,
    watchers: 64,
    widths: [20, 50, 40],
};

const OPENINGS: [(Size, Option<OpenFault>); 9] = [
    (FULL, None),
    (
        Size {
            securities: 8,
            workers: 0,
            watchers: 0,
            ..FULL
        },
        None,
    ),
    (
        Size {
            securities: 0,
            workers: 65,
            ..FULL
        },
        Some(OpenFault::NoSecurity),
    ),
    (
        Size {
            securities: 9,
            ..FULL
        },
        Some(OpenFault::TooMany),
    ),
    (
        Size {
            workers: 65,
            ..FULL
        },
        Some(OpenFault::TooMany),
    ),
    (
        Size {
            watchers: 65,
            widths: [0, 50, 40],
            ..FULL
        },
        Some(OpenFault::TooMany),
    ),
    (
        Size {
            widths: [0, 50, 40],
            ..FULL
        },
        Some(OpenFault::BadWidths),
    ),
    (
        Size {
            widths: [20, 50, 1000],
            ..FULL
        },
        Some(OpenFault::BadWidths),
    ),
    (
        Size {
            widths: [20, 50, 20],
            ..FULL
        },
        Some(OpenFault::BadWidths),
    ),
];

#[test]
fn opening_faults(rt: HostRuntime) {
    for (size, fault) in &OPENINGS {
        assert!(rt; opening_fault(&rt, size) == *fault);
    }
}
