//! The calls of a security, as the program tells them.

use super::ends::{BAD_SECOND_FILE, End, Printed, UNREAD_SEGMENT, are_ends};
use super::runtime::Stream;
use std::process::Abort;

/// The table of a call without an order.
const CALLS: Printed = Printed::Text(
    "XYZ, record 3: the end of the opening call
            price        demand        supply        volume       surplus
   last price 10.0000
   no price: nothing can be executed

XYZ, record 5: the end of the closing call
            price        demand        supply        volume       surplus
   last price 10.0000
   no price: nothing can be executed

",
);

const AUCTIONS: [End; 8] = [
    prints!(
        CALLS,
        b"auction",
        b"day.toml",
        b"ended.csv",
        b"--security=XYZ"
    ),
    prints!(
        CALLS,
        b"auction",
        b"day.toml",
        b"ended.csv",
        b"day.csv",
        b"--security=XYZ"
    ),
    prints!(
        Printed::Text("XYZ, record 4: it is in no call there, or this is no record of it\n"),
        b"auction",
        b"day.toml",
        b"ended.csv",
        b"--security=XYZ",
        b"--record=4"
    ),
    prints!(
        CALLS,
        b"auction",
        b"day.toml",
        b"ended.csv",
        b"--security=XYZ",
        b"--carry=in.csv"
    ),
    complains!(
        2,
        Printed::Text("xetra-day: the segment file has no security of this name\n"),
        b"auction",
        b"day.toml",
        b"bad.csv",
        b"--security=ABC"
    ),
    prints!(
        Printed::Text(
            "record,security,phase,row,price,demand,supply,volume,surplus,side,low,high,told\n5,XYZ,closing-call,last,10.0000,,,,,,,,\n5,XYZ,closing-call,price,,,,,,,,,nothing\n"
        ),
        b"auction",
        b"day.toml",
        b"ended.csv",
        b"--security=XYZ",
        b"--record=5",
        b"--csv"
    ),
    complains!(
        1,
        UNREAD_SEGMENT,
        b"auction",
        b"no.toml",
        b"ended.csv",
        b"--security=XYZ"
    ),
    complains!(
        1,
        BAD_SECOND_FILE,
        b"auction",
        b"day.toml",
        b"day.csv",
        b"bad.csv",
        b"--security=XYZ"
    ),
];

#[test]
fn calls_of_a_security(rt: HostRuntime) {
    are_ends(&rt, Stream::Kept, &AUCTIONS);
}
