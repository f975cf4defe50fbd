//! The mistakes for which a segment isn't opened.
ghost use Rattle.std.specs.Prelude.{◌≡◌, ◌≤◌, length, IfOk};
ghost use Rattle.xm_config.specs.Opening.{segment_fault};
ghost use Rattle.xm_mistakes.specs.Mistakes.{first_open_fault};

use std::alloc::Global;
use xm_config::{MAX_MEMBERS, MAX_SECURITIES, OpenFault, SecurityConfig, SegmentConfig};
use xm_files::SegmentNames;
use xm_memory::OutOfMemory;
use xm_mistakes::{OpenMistake, around, joined, led_by_opening, numbered};
use xm_rules::{Carried, MAX_CARRIED, Widths};
use xm_ticks::MAX_WIDTH;

/// The mistakes for which a segment isn't opened, at most so many: none where it is, and else the fault of the opening first.
pub fn opening_mistakes(
    alloc: Global,
    names: &SegmentNames,
    config: &SegmentConfig,
    most: usize,
) -> Result<Vec<OpenMistake>, OutOfMemory>
    requires { 1 ≤ most }
    ensures first { IfOk result (λ found. first_open_fault found.items ≡ segment_fault config.now) }
    ensures few { IfOk result (λ found. length found.items ≤ most) }
{
    match config.segment_fault() {
        None => Ok(Vec::new(alloc)),
        Some(fault) => {
            let found = found_in(alloc, names, config, &fault)?;
            led_by_opening(alloc, fault, found, most)
        }
    }
}

/// The mistakes of a segment that isn't opened for this fault.
fn found_in(
    alloc: Global,
    names: &SegmentNames,
    config: &SegmentConfig,
    fault: &OpenFault,
) -> Result<Vec<OpenMistake>, OutOfMemory> {
    let mut found = Vec::new(alloc);
    match fault {
        OpenFault::NoSecurity => push(&mut found, fault, joined(alloc, &[NO_SECURITY])?)?,
        OpenFault::TooMany => push(&mut found, fault, too_many(alloc, config)?)?,
        OpenFault::BadWidths | OpenFault::BadCarried => {
            push_securities(alloc, &mut found, names, config, fault)?
        }
        OpenFault::OutOfMemory(_) => {}
    }
    Ok(found)
}

/// The words for a segment without a security.
const NO_SECURITY: &str =
    "the segment has no security: each begins with a line [[security]], and has the keys name, tick, reference, dynamic, static, wide and journal";

/// Adds a mistake.
fn push(found: &mut Vec<OpenMistake>, fault: &OpenFault, words: String) -> Result<(), OutOfMemory> {
    found.push(OpenMistake {
        fault: *fault,
        words,
    })?;
    Ok(())
}

/// The words for a segment with too many securities or members.
fn too_many(alloc: Global, config: &SegmentConfig) -> Result<String, OutOfMemory> {
    let securities = config.securities.as_slice().len();
    if securities > MAX_SECURITIES {
        let most = numbered(alloc, " securities, and ", MAX_SECURITIES, " are the most")?;
        let after = joined(
            alloc,
            &[
                most.as_str(),
                ": put the others into a segment file of their own",
            ],
        )?;
        numbered(alloc, "the segment has ", securities, after.as_str())
    } else {
        let after = numbered(
            alloc,
            " members, and ",
            MAX_MEMBERS as usize,
            " are the most",
        )?;
        numbered(
            alloc,
            "the segment has ",
            config.members as usize,
            after.as_str(),
        )
    }
}

/// Adds each security for which a segment isn't opened by a fault.
fn push_securities(
    alloc: Global,
    found: &mut Vec<OpenMistake>,
    names: &SegmentNames,
    config: &SegmentConfig,
    fault: &OpenFault,
) -> Result<(), OutOfMemory> {
    let mut index = 0u32;
    for security in config.securities.as_slice() {
        let why = match fault {
            OpenFault::BadWidths => widths_words(alloc, &security.widths)?,
            _ => carried_words(alloc, security, config.members)?,
        };
        if let Some(why) = why {
            let after = joined(alloc, &[": ", why.as_str()])?;
            let name = names.security(index).unwrap_or("").as_bytes();
            push(
                found,
                fault,
                around(alloc, "security ", name, after.as_str())?,
            )?;
        }
        index = index.saturating_add(1);
    }
    Ok(())
}

/// The words for widths that may not be.
fn widths_words(alloc: Global, widths: &Widths) -> Result<Option<String>, OutOfMemory> {
    if widths.are_widths() {
        return Ok(None);
    }
    let each = [
        ("dynamic", widths.dynamic),
        ("static", widths.statics),
        ("wide", widths.wide),
    ];
    for (title, width) in &each {
        if !(1..=MAX_WIDTH).contains(width) {
            let words = format!(in alloc;
                "{title} is {width}, and a width is 1 to {MAX_WIDTH} thousandths"
            )?;
            return Ok(Some(words));
        }
    }
    let (dynamic, wide) = (widths.dynamic, widths.wide);
    let words = format!(in alloc;
        "dynamic is {dynamic} and wide is {wide}, and dynamic is to be below wide"
    )?;
    Ok(Some(words))
}

/// The words for orders and stops that earlier days can't have left.
fn carried_words(
    alloc: Global,
    security: &SecurityConfig,
    members: u32,
) -> Result<Option<String>, OutOfMemory> {
    if security.carried.can_be_left(members) {
        return Ok(None);
    }
    for order in security.carried.orders() {
        let mut alone = Vec::new(alloc);
        alone.push(*order)?;
        let alone = Carried::of(alloc, alone, Vec::new(alloc))?;
        if !alone.can_be_left(members) {
            return Ok(Some(entry_words(alloc, "order", order.member, order.reference)?));
        }
    }
    for stop in security.carried.stops() {
        let mut alone = Vec::new(alloc);
        alone.push(*stop)?;
        let alone = Carried::of(alloc, Vec::new(alloc), alone)?;
        if !alone.can_be_left(members) {
            return Ok(Some(entry_words(alloc, "stop", stop.member, stop.reference)?));
        }
    }
    let words =
        "two orders or stops of earlier days have one member and reference, or they are more than ";
    Ok(Some(numbered(alloc, words, MAX_CARRIED, "")?))
}

/// The words for an order or a stop that an earlier day can't have left.
fn entry_words(
    alloc: Global,
    what: &str,
    member: u32,
    reference: u32,
) -> Result<String, OutOfMemory> {
    let words = format!(in alloc;
        "the {what} {reference} of the member with the index {member} is none that an earlier day leaves: its member is unknown, it ends with its day, or its units or prices are out of range"
    )?;
    Ok(words)
}
