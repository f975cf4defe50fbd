//! The timetable of a day that workers share: its rounds, and a worker's share in one.
ghost use Rattle.std.specs.Prelude.{◌≡◌, ◌<◌, ◌≤◌, IfOk, IfSome, length, not, take, true};
ghost use Rattle.std.specs.List.{list_all, position_or_len};
ghost use Rattle.xm_files.specs.Timetable.{is_of_member, is_worked_by, rounds_of, share_of};

use std::alloc::Allocator;
use xm_config::Row;
use xm_memory::OutOfMemory;

/// A run of members' rows and the phase rows after it, by the indices of rows: those of members are
/// `first..phase`, those of the phases `phase..end`.
#[derive(Clone, Copy, PartialEq, Eq, Debug)]
pub struct Round {
    pub first: usize,
    pub phase: usize,
    pub end: usize,
}

/// Cuts rows into rounds, which cover them in their order. Each has as many members' rows as follow
/// one another, and as many phase rows after them. The first may have no member's row, and the last
/// no phase row.
pub fn rounds<A: Allocator>(alloc: A, rows: &[Row]) -> Result<Vec<Round, A>, OutOfMemory>
    ensures { IfOk result (λ rounds. rounds.items ≡ rounds_of rows.now) }
{
    let mut rounds = Vec::new(alloc);
    let mut first = 0;
    'rounds: while first < rows.len() {
        let phase = first + first_phase(&rows[first..]);
        let end = phase + first_member(&rows[phase..]);
        rounds.push(Round { first, phase, end })?;
        first = end;
    }
    Ok(rounds)
}

/// How many members' rows come before the first phase row.
pub fn first_phase(rows: &[Row]) -> usize
    ensures place { result ≡ position_or_len (λ row. not (is_of_member row)) rows.now }
    ensures within { result ≤ length rows.now }
    ensures members { list_all is_of_member (take result rows.now) ≡ true }
{
    for place in 0..rows.len() {
        if !is_of_member(&rows[place]) {
            return place;
        }
    }
    rows.len()
}

/// How many phase rows come before the first row of a member.
fn first_member(rows: &[Row]) -> usize
    ensures place { result ≡ position_or_len is_of_member rows.now }
    ensures within { result ≤ length rows.now }
{
    for place in 0..rows.len() {
        if is_of_member(&rows[place]) {
            return place;
        }
    }
    rows.len()
}

/// Whether a member gives the row's command.
pub(crate) fn is_of_member(row: &Row) -> bool
    ensures { result ≡ is_of_member row.now }
{
    row.command.member().is_some()
}

/// The rows of one worker of so many, in their order: those of the members whose index leaves the
/// worker's number, divided by the number of workers. A phase row is no worker's.
pub fn share<A: Allocator>(
    alloc: A,
    rows: &[Row],
    worker: u32,
    workers: u32,
) -> Result<Vec<Row, A>, OutOfMemory>
    requires { worker < workers }
    ensures { IfOk result (λ share. share.items ≡ share_of worker workers rows.now) }
{
    let mut share = Vec::new(alloc);
    for row in rows {
        if is_worked_by(row, worker, workers) {
            share.push(*row)?;
        }
    }
    Ok(share)
}

/// The worker, of so many, whose share is all of some rows, if there is one.
pub fn sole_worker(rows: &[Row], workers: u32) -> Option<u32>
    requires { 0 < workers }
    ensures within { IfSome result (λ worker. worker < workers) }
    ensures sole { IfSome result (λ worker. share_of worker workers rows.now ≡ rows.now) }
{
    let worker = rows.first()?.command.member()? % workers;
    if are_worked_by(rows, worker, workers) {
        Some(worker)
    } else {
        None
    }
}

/// Whether all rows are those of members of this worker.
fn are_worked_by(rows: &[Row], worker: u32, workers: u32) -> bool
    requires { worker < workers }
    ensures { result ≡ list_all (is_worked_by worker workers) rows.now }
{
    rows.iter().all(|row| is_worked_by(row, worker, workers))
}

/// Whether a row is that of a member of this worker.
fn is_worked_by(row: &Row, worker: u32, workers: u32) -> bool
    requires { worker < workers }
    ensures { result ≡ is_worked_by worker workers row.now }
{
    match row.command.member() {
        Some(member) => member % workers == worker,
        None => false,
    }
}
