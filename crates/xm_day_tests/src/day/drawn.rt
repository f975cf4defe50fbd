//! Order files whose commands are drawn, the same in each run.
use crate::files::fixtures::SECOND_HEADER;
use std::process::Abort;

/// Draws numbers, the same in each run.
pub(super) struct Draw {
    pub(super) state: u64,
}

impl Drop for Draw {
    fn drop(self) {
        let Draw { state: _ } = self;
    }
}

impl Draw {
    /// A number below eight.
    pub(super) fn octal(&mut self) -> usize {
        self.state = self
            .state
            .wrapping_mul(6_364_136_223_846_793_005)
            .wrapping_add(1_442_695_040_888_963_407);
        (self.state >> 61) as usize
    }

    /// One of eight words.
    pub(super) fn word(
        &mut self,
        rt: &impl Abort,
        words: &'static [&'static str; 8],
    ) -> &'static str {
        words.get(self.octal()).copied().expect(rt, "a word")
    }
}

pub(super) const SIDES: [&str; 8] = ["buy", "sell", "buy", "sell", "buy", "sell", "buy", "sell"];

pub(super) const VALIDITIES: [&str; 8] = [
    "", "gtc", "gtc", "20260106", "20260107", "20260108", "20260110", "20260112",
];

pub(super) const RESTRICTIONS: [&str; 8] = ["", "", "", "", "", "auctions", "opening", "closing"];

const EUROS: [&str; 8] = ["9", "10", "9", "10", "9", "10", "9", "10"];

/// Adds a text.
pub(super) fn add(rt: &impl Abort, text: &mut String, more: &str) {
    text.push_str(more).expect(rt, "memory");
}

/// A price around ten euros.
fn price(rt: &(impl Abort + AllocGlobal), draw: &mut Draw) -> String {
    let (euros, tenths, cents) = (draw.word(rt, &EUROS), draw.octal(), draw.octal());
    (format!(in rt.alloc(); "{euros}.{tenths}{cents}")).expect(rt, "memory")
}

/// The fields of a kind with its prices.
pub(super) fn kind(rt: &(impl Abort + AllocGlobal), draw: &mut Draw) -> String {
    let fields = match draw.octal() {
        0 => format!(in rt.alloc(); "market,,"),
        1 => {
            let trigger = price(rt, draw);
            format!(in rt.alloc(); "stop-market,,{trigger}")
        }
        2 | 3 => {
            let (limit, trigger) = (price(rt, draw), price(rt, draw));
            format!(in rt.alloc(); "stop-limit,{limit},{trigger}")
        }
        _ => {
            let limit = price(rt, draw);
            format!(in rt.alloc(); "limit,{limit},")
        }
    };
    fields.expect(rt, "memory")
}

const MEMBERS: [&str; 8] = ["M0", "M1", "M2", "M3", "M0", "M1", "M2", "NOBODY"];

const NAMES: [&str; 8] = ["S0", "S1", "S2", "S3", "S4", "S5", "S6", "S7"];

const CONDITIONS: [&str; 8] = ["", "", "", "", "plain", "ioc", "fok", "boc"];

/// Free texts, among them such as need quotes.
const TEXTS: [&str; 8] = [
    "",
    "",
    "",
    "now or never",
    "\"a, b\"",
    "\"the same, \"\"at 9.85\"\"\"",
    "\"over
two lines\"",
    "\"\"",
];

const PHASES: [&str; 8] = [
    "uncross", "intraday", "uncross", "uncross", "intraday", "uncross", "open", "uncross",
];

/// One of so many securities, or, one time in 64, none of the segment's.
fn security(rt: &impl Abort, draw: &mut Draw, securities: usize) -> &'static str {
    let place = draw.octal();
    if place == 0 && draw.octal() == 0 {
        return "NOWHERE";
    }
    NAMES
        .get(place.min(securities.saturating_sub(1)))
        .copied()
        .expect(rt, "a security")
}

/// Adds the row of an order or a stop.
fn add_entry(
    rt: &(impl Abort + AllocGlobal),
    draw: &mut Draw,
    orders: &mut String,
    security: &str,
    reference: u32,
) {
    let (member, side) = (draw.word(rt, &MEMBERS), draw.word(rt, &SIDES));
    let (kind, quantity) = (kind(rt, draw), draw.octal());
    let (validity, restriction) = (draw.word(rt, &VALIDITIES), draw.word(rt, &RESTRICTIONS));
    let (condition, text) = (draw.word(rt, &CONDITIONS), draw.word(rt, &TEXTS));
    let row = format!(in rt.alloc();
        "enter,{member},{reference},{security},{side},{kind},{quantity},{validity},{restriction},{condition},{text}\n"
    );
    add(rt, orders, row.expect(rt, "memory").as_str());
}

/// Adds a row that changes or cancels an order of before, all orders of a member, or the phase of one security or of all.
fn add_other(
    rt: &(impl Abort + AllocGlobal),
    draw: &mut Draw,
    orders: &mut String,
    security: &str,
    reference: u32,
) {
    let (member, text) = (draw.word(rt, &MEMBERS), draw.word(rt, &TEXTS));
    let earlier = reference.wrapping_sub((draw.octal() % 8) as u32);
    let row = match draw.octal() {
        0 => {
            let phase = draw.word(rt, &PHASES);
            format!(in rt.alloc(); "{phase},,,*,,,,,,,,,{text}\n")
        }
        1 => {
            let phase = draw.word(rt, &PHASES);
            format!(in rt.alloc(); "{phase},,,{security},,,,,,,,,{text}\n")
        }
        2 => format!(in rt.alloc(); "cancel-all,{member},,{security},,,,,,,,,{text}\n"),
        3 | 4 => format!(in rt.alloc(); "change,{member},{earlier},{security},,,,,3,,,,{text}\n"),
        _ => format!(in rt.alloc(); "cancel,{member},{earlier},{security},,,,,,,,,{text}\n"),
    };
    add(rt, orders, row.expect(rt, "memory").as_str());
}

/// Adds the rows with these numbers of a day of so many securities, of version 2.
pub(super) fn add_rows(
    rt: &(impl Abort + AllocGlobal),
    draw: &mut Draw,
    orders: &mut String,
    securities: usize,
    from: u32,
    to: u32,
) {
    for reference in from..to {
        let security = security(rt, draw, securities);
        if draw.octal() < 5 {
            add_entry(rt, draw, orders, security, reference);
        } else {
            add_other(rt, draw, orders, security, reference);
        }
    }
}

/// The order file of a day of so many securities, of version 2, with so many rows, which begins before the opening call and ends
/// behind the day's end.
pub(super) fn order_file(
    rt: &(impl Abort + AllocGlobal),
    draw: &mut Draw,
    securities: usize,
    rows: u32,
) -> String {
    let mut orders = String::from_str(rt.alloc(), SECOND_HEADER).expect(rt, "memory");
    add_rows(rt, draw, &mut orders, securities, 0, rows);
    add(rt, &mut orders, "close,,,*,,,,,,,,,\n");
    add(rt, &mut orders, "uncross,,,*,,,,,,,,,\n");
    add(rt, &mut orders, "end,,,*,,,,,,,,,\n");
    add(rt, &mut orders, "cancel-all,M0,,S0,,,,,,,,,\n");
    orders
}

/// The segment file of a day of so many securities.
pub(super) fn segment_file(
    rt: &(impl Abort + AllocGlobal),
    date: &str,
    securities: usize,
) -> String {
    let top = format!(in rt.alloc(); "date = {date}\nmembers = [\"M0\", \"M1\", \"M2\", \"M3\"]\n");
    let mut segment = top.expect(rt, "memory");
    for name in NAMES.iter().take(securities) {
        let security = format!(in rt.alloc();
            "[[security]]\nname = \"{name}\"\ntick = 100\nreference = \"10.00\"\n"
        );
        add(rt, &mut segment, security.expect(rt, "memory").as_str());
        add(
            rt,
            &mut segment,
            "dynamic = 60\nstatic = 90\nwide = 120\njournal = 1000000\n",
        );
    }
    segment
}
