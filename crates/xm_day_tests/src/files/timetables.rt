//! Rounds and shares of the rows of a day.
ghost use Rattle.std.specs.Prelude.{◌<◌};

use super::fixtures::{CASCADE, SEGMENT};
use super::order_files::rows_of;
use std::process::Abort;
use std::test::Fail;
use xm_config::Row;
use xm_failing_alloc::Refusing;
use xm_files::{Round, rounds, share};

/// The rounds of `CASCADE`: two phase rows, and then seven rows of members and three phase rows.
const ROUNDS: [Round; 2] = [
    Round {
        first: 0,
        phase: 0,
        end: 2,
    },
    Round {
        first: 2,
        phase: 9,
        end: 12,
    },
];

/// The rows of `CASCADE` that each of two workers works, by their indices.
const SHARES: [&[usize]; 2] = [&[2, 3, 4, 8], &[5, 6, 7]];

/// Whether the rows are those with these indices.
fn are_rows_at(share: &[Row], rows: &[Row], indices: &[usize]) -> bool {
    if share.len() != indices.len() {
        return false;
    }
    for (row, index) in share.iter().zip(indices) {
        if rows.get(*index) != Some(row) {
            return false;
        }
    }
    true
}

/// Compares the rounds of some rows, each growth refused in turn.
fn rounds_are(rt: &(impl Abort + AllocGlobal), rows: &[Row], expected: &[Round]) {
    for nth in 1.. {
        let alloc = Refusing::new(rt.alloc(), nth);
        let answer = rounds(&alloc, rows);
        if !alloc.has_refused() {
            assert!(rt; answer.expect(rt, "no rounds").as_slice() == expected);
            return;
        }
        assert!(rt; answer.is_err());
    }
}

/// Compares the share of a worker among two, each growth refused in turn.
fn share_is(rt: &(impl Abort + AllocGlobal), rows: &[Row], worker: u32, indices: &[usize])
    requires { worker < 2 }
{
    for nth in 1.. {
        let alloc = Refusing::new(rt.alloc(), nth);
        let answer = share(&alloc, rows, worker, 2);
        if !alloc.has_refused() {
            assert!(rt; are_rows_at(answer.expect(rt, "no share").as_slice(), rows, indices));
            return;
        }
        assert!(rt; answer.is_err());
    }
}

#[test]
fn rounds_and_shares_of_a_day(rt: HostRuntime) -> Result<(), Fail> {
    let rows = rows_of(rt.alloc(), SEGMENT, &mut CASCADE.as_bytes())??;
    rounds_are(&rt, rows.as_slice(), &ROUNDS);
    rounds_are(&rt, &[], &[]);
    share_is(&rt, rows.as_slice(), 0, SHARES[0]);
    share_is(&rt, rows.as_slice(), 1, SHARES[1]);
    Ok(())
}
