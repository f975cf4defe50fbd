//! What a statement leaves unsaid of the rows of a day, as they come.
ghost use Rattle.std.specs.Prelude.{◌≡◌, ◌+◌, ◌<◌, ◌^◌, [], OnOk, IfOk, map, option_map, slice_get};
ghost use Rattle.std.specs.List.{position};
ghost use Rattle.xm_explanations.specs.Unsaid.{all_refused, is_refused_so, nothing_unsaid, refused_behind, standing_behind, stands_behind, with_refused};
ghost use Rattle.xm_rules.specs.Step.{replay};

use std::alloc::Global;
use xm_config::{Row, SegmentConfig};
use xm_desk::Desk;
use xm_memory::OutOfMemory;
use xm_observers::Observer;
use xm_replay::answer_row;
use xm_rules::{Phase, Refusal, Reply};
use xm_texts::phase_word;

/// The rows that were refused for one reason.
#[derive(Clone, Copy)]
pub struct RefusedRows {
    pub refusal: Refusal,
    pub rows: u64,
    /// The number of the record of the first of them.
    pub first: u32,
}

/// Where a security stands.
#[derive(Clone, Copy)]
pub struct Standing {
    pub phase: Phase,
    /// The number of the record since which it does, and 0 since the beginning of its day.
    pub since: u32,
}

/// What is unsaid of the rows so far.
#[derive(Drop)]
pub(crate) struct UnsaidRows {
    pub(crate) refused: Vec<RefusedRows>,
    pub(crate) standing: Vec<Standing>,
}

impl UnsaidRows {
    /// Before the first row of the day of a segment.
    pub(crate) fn of(alloc: Global, config: &SegmentConfig) -> Result<UnsaidRows, OutOfMemory>
        ensures { IfOk result (λ u. record { refused = u.refused.items; standing = u.standing.items } ≡ nothing_unsaid config.now) }
    {
        let mut standing = Vec::new(alloc);
        for _security in config.securities.as_slice() {
            standing.push(Standing {
                phase: Phase::PreTrading,
                since: 0,
            })?;
        }
        Ok(UnsaidRows {
            refused: Vec::new(alloc),
            standing,
        })
    }
}

impl Observer for UnsaidRows {
    ghost use Rattle.xm_explanations.specs.Unsaid.{Unsaid, all_refused, next_unsaid};

    ghost Seen = { Unsaid };

    ghost seen = { λ u. record { refused = u.refused.items; standing = u.standing.items } };

    ghost next = { next_unsaid };

    ghost rows = { λ seen. all_refused seen.refused };

    fn take(
        &mut self,
        desks: &mut [Desk<Global>],
        row: &Row,
    ) -> Result<Result<Reply, Refusal>, OutOfMemory> {
        let answer = answer_row(desks, row)?;
        if let Err(refusal) = &answer {
            see_refusal(&mut self.refused, refusal, row.line)?;
        }
        see_phase(self.standing.as_mut_slice(), desks, row);
        Ok(answer)
    }
}

impl RefusedRows {
    /// Whether the rows were refused for this reason.
    fn is_refused_so(&self, refusal: &Refusal) -> bool
        ensures { result ≡ is_refused_so refusal.now self.now }
    {
        refusal.place() == self.refusal.place()
    }
}

/// Counts a row that was refused, the record with this number.
fn see_refusal(
    refused: &mut Vec<RefusedRows>,
    refusal: &Refusal,
    line: u32,
) -> Result<(), OutOfMemory>
    requires { all_refused refused.old.items + 1 < 2 ^ 64 }
    ensures seen { OnOk result (refused.new.items ≡ with_refused refused.old.items refusal.now line) }
    ensures counted { OnOk result (all_refused refused.new.items ≡ all_refused refused.old.items + 1) }
{
    match place_of(refused.as_slice(), refusal) {
        Some(place) => refused[place].rows += 1,
        None => refused.push(RefusedRows {
            refusal: *refusal,
            rows: 1,
            first: line,
        })?,
    }
    Ok(())
}

/// Where the rows are that were refused for this reason.
fn place_of(refused: &[RefusedRows], refusal: &Refusal) -> Option<usize>
    ensures { result ≡ position (is_refused_so refusal.now) refused.now }
{
    refused.iter().position(
        |rows| -> bool
            ensures { result ≡ is_refused_so refusal.entry.now rows.now }
        { rows.is_refused_so(refusal) },
    )
}

/// Sees the phase of the security of a row, which its desk took.
fn see_phase(standing: &mut [Standing], desks: &[Desk<Global>], row: &Row)
    ensures { standing.new ≡ standing_behind standing.old row.now (slice_get (map replay desks.now) row.now.security) }
{
    let index = row.security as usize;
    if index < desks.len() && index < standing.len() {
        let phase = desks[index].phase();
        standing[index] = standing[index].behind(phase, row.line);
    }
}

impl Standing {
    /// Where the security stands that has this phase behind the record with this number.
    fn behind(self, phase: Phase, line: u32) -> Standing
        ensures { result ≡ stands_behind phase line self }
    {
        if phase_word(phase) == phase_word(self.phase) {
            self
        } else {
            Standing { phase, since: line }
        }
    }
}
