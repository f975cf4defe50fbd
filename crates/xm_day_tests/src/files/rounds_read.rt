//! Order files that are read a round at a time, or a few rows.
use super::fault;
use super::fixtures::{CASCADE, SEGMENT, replaced};
use super::order_files::rows_of;
use std::alloc::Global;
use std::process::Abort;
use std::test::Fail;
use xm_config::Row;
use xm_files::{
    Batch, FileCause, FileFault, Part, Round, RowReader, read_orders, read_segment, rounds,
};

/// What comes after `CASCADE`: one round more, and the members' rows of another.
const MORE: &str = "cancel,AAA,1,XYZ,,,,,,,,
cancel,BBB,1,XYZ,,,,,,,,
open,,,*,,,,,,,,
uncross,,,XYZ,,,,,,,,
cancel,AAA,2,XYZ,,,,,,,,
cancel,BBB,2,XYZ,,,,,,,,
";

/// What is replaced by another way to write the same, so that CSV reads from there on: nothing, the header, a phase row, and a
/// row of a member.
const SAME: [(&str, &str); 4] = [
    ("open", "open"),
    ("command", "\"command\""),
    ("close", "\"close\""),
    ("cancel", "\"cancel\""),
];

/// What was read part by part: the rows, and the rounds of each part.
#[derive(Drop)]
struct Reading {
    rows: Vec<Row>,
    rounds: Vec<Round>,
    fault: Option<FileFault>,
}

impl Reading {
    /// Adds the rows of a part, and its rounds.
    fn add(&mut self, alloc: Global, part: &[Row]) -> Result<(), Fail> {
        let before = self.rows.len();
        self.rows.extend_from_slice(part)?;
        for round in rounds(alloc, part)?.as_slice() {
            self.rounds.push(Round {
                first: before.saturating_add(round.first),
                phase: before.saturating_add(round.phase),
                end: before.saturating_add(round.end),
            })?;
        }
        Ok(())
    }
}

/// Reads an order file part by part.
fn read_parts(alloc: Global, orders: &str, part: Part) -> Result<Reading, Fail> {
    let (config, names) = read_segment(alloc, &mut SEGMENT.as_bytes())?;
    let bytes = read_orders(alloc, &mut orders.as_bytes())?;
    let mut file = RowReader::of(bytes.as_slice(), 1);
    let mut batch = Batch::new(alloc);
    let mut reading = Reading {
        rows: Vec::new(alloc),
        rounds: Vec::new(alloc),
        fault: None,
    };
    for _ in 0..100 {
        match file.read(alloc, &mut batch, part, &names, &config) {
            Ok(more) => {
                reading.add(alloc, batch.rows())?;
                if !more {
                    break;
                }
            }
            Err(fault) => {
                reading.fault = Some(fault);
                break;
            }
        }
    }
    Ok(reading)
}

#[test]
fn rounds_one_by_one(rt: HostRuntime) -> Result<(), Fail> {
    let text = format!(in rt.alloc(); "{CASCADE}{MORE}")?;
    let rows = rows_of(rt.alloc(), SEGMENT, &mut text.as_bytes())??;
    let expected = rounds(rt.alloc(), rows.as_slice())?;
    assert_eq!(rt; expected.len(), 4);
    for (old, new) in &SAME {
        let text = replaced(rt.alloc(), text.as_str(), old, new)?;
        let reading = read_parts(rt.alloc(), text.as_str(), Part::Round)?;
        assert!(rt; reading.fault.is_none());
        assert!(rt; reading.rows.as_slice() == rows.as_slice());
        assert!(rt; reading.rounds.as_slice() == expected.as_slice());
    }
    Ok(())
}

#[test]
fn a_few_rows_at_a_time(rt: HostRuntime) -> Result<(), Fail> {
    let rows = rows_of(rt.alloc(), SEGMENT, &mut CASCADE.as_bytes())??;
    for (old, new) in &SAME {
        let text = replaced(rt.alloc(), CASCADE, old, new)?;
        for most in [0, 1, 5, 100] {
            let reading = read_parts(rt.alloc(), text.as_str(), Part::Rows(most))?;
            assert!(rt; reading.fault.is_none());
            assert!(rt; reading.rows.as_slice() == rows.as_slice());
        }
    }
    Ok(())
}

#[test]
fn a_fault_in_a_later_round(rt: HostRuntime) -> Result<(), Fail> {
    let rows = rows_of(rt.alloc(), SEGMENT, &mut CASCADE.as_bytes())??;
    let text = format!(in rt.alloc(); "{CASCADE}{MORE}leave,AAA,1,XYZ,,,,,,,,\n")?;
    for (old, new) in &SAME {
        let text = replaced(rt.alloc(), text.as_str(), old, new)?;
        let reading = read_parts(rt.alloc(), text.as_str(), Part::Round)?;
        assert!(rt; reading.fault == fault(20, FileCause::BadField));
        assert_eq!(rt; reading.rounds.len(), 3);
        assert!(rt; reading.rows.as_slice().starts_with(rows.as_slice()));
    }
    Ok(())
}
